//! The planner: for tasks without a schedule, the tables in which each task runs as early as it can.
#![tactic(auto)]

mod draft;
mod planning;
mod text;

pub use planning::{
    NoRoomAt, PlanStop, long_frames_have_room, one_plan, one_plan_each, one_refusal,
    one_size_without_room, plan, plan_sizes, plans_are_good, plans_run_early,
};
pub use text::tables_text;
