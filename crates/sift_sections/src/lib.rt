//! The sections of a scenario document that stand alone: its clock, its schedule tables and its faults.
//!
//! Each is read by itself, or answered with the first of its rules that is broken, at its first place (`BrokenRule` of
//! `sift_document`). The other rules, and their order in a document, are those of `sift_scenario`.
#![tactic(auto)]

mod clock;
mod fault;
mod item;
mod table;

pub use clock::stated_clocks;
pub use fault::script_of;
pub use table::{check_sheds, tables_of};
