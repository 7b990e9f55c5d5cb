//! The command that judges a report, as a job: what divides its input, the lines that it reads, and
//! its replies.
#![tactic(auto)]

mod judge;
mod lines;

pub use judge::{JudgeJob, runs_are_judged_yes};
