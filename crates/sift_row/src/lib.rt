//! What a command is: one row, which the crate of its job exports; and the laws of a list of rows.
#![tactic(auto)]

mod list;
mod row;

pub use list::{Commands, NoCommand, Or};
pub use row::{Command, asked};
