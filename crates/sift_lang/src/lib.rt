//! The language of tasks: the tree of a task's text, which trees are sound, and what a task means.
//!
//! The meaning is what every user believes of the language; `eval` computes it.
#![tactic(auto)]

mod evaluator;
mod tree;

pub use evaluator::eval;
pub use tree::{
    Expr, LOCAL_LIMIT, NEED_LIMIT, OUTPUT_LIMIT, Op, REPEAT_LIMIT, ROUND_LIMIT, Stmt, Task,
    limits_are_the_languages,
};
