//! A unit's seat in a flight: its board, what is left of its storm, and what its turn does at any port.
#![tactic(auto)]

mod seat;

pub use seat::{Gone, Seat};
