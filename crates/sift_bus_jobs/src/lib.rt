//! The command `buses`, as a job: what its options ask for, a flight over three buses of which one
//! is faulty, and how many words that one got wrong.
#![tactic(auto)]

mod buses;
mod counts;

pub use buses::{BusesJob, BusesOrder, FlownOverBuses};
