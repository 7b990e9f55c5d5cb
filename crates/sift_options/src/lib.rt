//! The options of a command line: how the words behind a command give them.
#![tactic(auto)]

mod setting;

pub use setting::{Flag, Numbers, Options, are_options, within};
