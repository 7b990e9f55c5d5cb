//! From a task's tree to stack code.
//!
//! The code of a sound task is never refused, and running it gives what the task means.
#![tactic(auto)]

mod compiler;
mod emit;

pub use compiler::{
    CODE_LIMIT, CompileStop, compile, compiled_code_is_sound, compiled_code_means_its_task,
};
