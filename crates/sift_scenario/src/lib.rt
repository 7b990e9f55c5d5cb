//! Scenario documents: the rules that they keep, and the mission that one states.
//!
//! A document that breaks a rule is refused with the first broken rule, at its first place. Else the
//! first task whose text is no task, or whose code is too much, is refused, with its kind and its place or count.
//! Else the first table that isn't good is refused, and else the script of faults, where it isn't.
#![tactic(auto)]

mod document;
mod entries;
mod mission;
mod program;

pub use mission::{
    Refused, mission_of, missions_are_accepted, no_document_is_unanswered, one_mission,
    one_refusal, rules_are_kept_or_broken, stated_missions_fit, storms_are_stated,
    version_one_sheds_nothing,
};
