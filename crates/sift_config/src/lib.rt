//! Configurations: the units that work on a mission's tasks at a time.
//!
//! At first these are all units. Units that were found faulty are configured out, and at least four remain.
#![tactic(auto)]

mod config;

pub use config::Config;
