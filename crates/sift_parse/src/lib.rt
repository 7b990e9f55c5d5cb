//! The texts of tasks: what a text's tokens are, which of them are a task, and which task that is.
//!
//! The grammar is a relation; a text has at most one tree.
#![tactic(auto)]

mod force;
mod lexeme;
mod parser;
mod scan;
mod task;
mod token;

pub use task::{
    Names, ParseStop, Which, linear_text_is_parsed, minus_ends_with_prim, no_text_is_unanswered,
    one_answer, one_tree, parse_task, printed_tree_is_task, task_is_answered, task_is_sound,
    what_ends_nothing,
};
pub use token::LEVEL_LIMIT;
