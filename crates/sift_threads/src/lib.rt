//! Flights on threads: the units of a mission are the pilots that workers drive, each at its seat of an ether.
#![tactic(auto)]

mod bell;
mod flight;
mod seating;

pub use flight::{Flown, fly_seats, fly_threads};
pub use seating::Manned;
pub use sift_workers::{NoProbe, Probe};
