//! The executive: what a unit notes of the others in a frame, who is convicted on the units' reports, and the
//! configuration that follows.
//!
//! One accuser isn't enough, since it may be the faulty one.
#![tactic(auto)]

mod catches;
mod conviction;

pub use catches::{Catches, Kind, Kinds, Recorder};
pub use conviction::{convict, conviction_is_just, next_config};
