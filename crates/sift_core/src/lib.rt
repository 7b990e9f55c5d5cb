//! Flights of missions: all units at their seats, stepped in any order over one plain memory, and the rogues of units
//! that turn.
#![tactic(auto)]

mod machine;
mod order;

pub use machine::{Machine, ended_frames_are_round, fly};
