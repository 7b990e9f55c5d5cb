//! Missions: what a loader makes of a document, and what units, tasks, slots, faults and clocks it gives a flight.
#![tactic(auto)]

mod crews;
mod laws;
mod mission;
mod schedule;
mod timetable;

pub use laws::{
    a_mission_fits, a_mission_flies, a_unit_says_nothing_to_itself, fitting_parts_make_a_flight,
    fitting_parts_make_a_mission, missions_may_be_lent,
};
pub use mission::{Mission, MissionParts};
pub use schedule::Part;
