//! Three buses before a unit's port: each word that the unit hears comes over all of them, and the
//! unit takes the majority. What the faulty one carried is logged.
#![tactic(auto)]

mod bus;
mod carrying;
mod log;
mod noting;
mod port;

pub use bus::{Bus, Constant};
pub use carrying::one_bus_may_lie;
pub use log::BusLog;
pub use noting::logs_tell_what_was_heard;
pub use port::BusPort;
