//! The mission of a number: each scenario that is drawn states one.
#![tactic(auto)]

mod drawing;

pub use drawing::{
    drawn_mission, drawn_missions_have_no_storms, drawn_tasks_are_brief, drawn_texts_are_tasks,
    drawn_trees_are_missions,
};
