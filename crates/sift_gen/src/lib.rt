//! Scenarios drawn from a number: each is a mission of five to eight units, of which one turns faulty.
#![tactic(auto)]

mod scenario;
mod task;

pub use scenario::{one_text_of_a_number, scenario_text, scenario_tree};
