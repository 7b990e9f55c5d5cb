//! Stack code: its instructions, the check that it runs whole, and the machine that runs it.
//!
//! Checked code comes to its end within its bound of instructions, whatever the words that it reads.
#![tactic(auto)]

mod checked;
mod instr;
mod machine;
mod nest;
mod refusal;

pub use checked::{Checked, checked_code_ends, runs_have_room_in_352_words, verify};
pub use instr::Instr;
pub use machine::{WORK_WORDS, run};
pub use refusal::Bad;
