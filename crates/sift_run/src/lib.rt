//! The top call and the exit code of the program, whose missions are flown by one worker or by several
//! on threads. The top call's contract says what each exit status means.
#![tactic(auto)]

mod flying;
mod top;

pub use top::{exit_code, sift};
