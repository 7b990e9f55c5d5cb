//! Flights over three buses: each word that a unit hears comes over all of them, and the unit takes
//! the majority.
#![tactic(auto)]

mod boarding;
mod flight;
mod flying;

pub use flight::fly_buses;
pub use sift_bus_port::{
    Bus, BusLog, BusPort, Constant, logs_tell_what_was_heard, one_bus_may_lie,
};
