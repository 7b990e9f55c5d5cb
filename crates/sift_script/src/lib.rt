//! Fault scripts: which units of a mission fail, from which frame on, and what they then say or store.
//!
//! A script is used only once `check` has found that it meets every rule.
#![tactic(auto)]

mod checked;
mod rules;
mod script;

pub use checked::{
    Broken, GoodScript, check, faults_are_for_good, one_broken_rule, one_unit_is_steady,
    scripts_are_answered, slots_are_compared_whole, storms_come_in_the_mission,
    words_are_numbered_alike, working_units_have_not_turned, working_units_say_their_words,
};
pub use script::{Entry, Item, Plan, Script, SlotKind, StormEntry};
