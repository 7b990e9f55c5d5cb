//! Plans of tables, for one size of configuration and for all.

ghost use Rattle.std.specs.Prelude.{IfErr, IfOk, ◌≡◌, map};
ghost use Rattle.sift_base.specs.Shapes.{shapes_of};
ghost use Rattle.sift_planner.specs.Plans.{ArePlannable, HasNoRoom, IsPlan, IsWithinLimits, wanted};
ghost use Rattle.sift_planner.specs.Refused.{IfNoRoom, stop_at};
ghost use Rattle.sift_table.specs.Rules.{IsGood};
ghost use Rattle.sift_table.specs.Schedule.{schedule_of};
ghost use Rattle.sift_base.specs.Stop.{IfRefused};
ghost use Rattle.sift_planner.specs.Sizes.{ArePlans, IsFirstWithoutRoom, OnePlanEach, OneSizeWithoutRoom};
ghost use Rattle.sift_planner.specs.Laws.{LongFramesHaveRoom, OnePlan, OneRefusal, PlansAreGood, PlansRunEarly};

use crate::draft::Draft;
use sift_base::{NoMemory, Shapes, Stop};
use sift_table::Table;
use std::alloc::Global;

/// Why there is no plan.
#[derive(Clone, Copy)]
pub enum PlanStop {
    /// No subframe is open for this task, the first of which that is so.
    NoRoom { task: u8 },
    /// An allocation failed.
    NoMemory,
}

impl From<NoMemory> for PlanStop {
    ghost use Rattle.std.specs.Prelude.{◌≡◌};
    ghost use Rattle.sift_planner.specs.declared.planning.PlanStop.TheVariants as stop;

    ghost from_gives = { λ _ e. e ≡ stop.NoMemory };

    fn from(_: NoMemory) -> Self {
        PlanStop::NoMemory
    }
}

/// The plan of a table for configurations of this size, in frames of so many subframes, with so many copies of each task.
///
/// Task by task, in their order, it takes the earliest subframe in which the task can run: the sensor words are agreed, what the
/// task reads of the frame was polled, enough units are free, and what it puts out is polled by the reports. There the task runs at the
/// first free positions, and two subframes later it is polled.
pub fn plan(
    alloc: Global,
    shapes: &Shapes,
    size: u8,
    period: u8,
    copies: u8,
) -> Result<Table, PlanStop>
    requires tasks { ArePlannable (shapes_of shapes.now) }
    requires limits { IsWithinLimits (wanted size period copies) }
    ensures planned { IfOk result (λ table.
        IsPlan (shapes_of shapes.now) (wanted size period copies) (schedule_of table)) }
    ensures good { IfOk result (λ table. IsGood (schedule_of table) (shapes_of shapes.now)) }
    ensures no_room { IfErr result (IfNoRoom
        (HasNoRoom (shapes_of shapes.now) (wanted size period copies))) }
{
    plans_are_good();
    let mut draft = Draft::new(alloc, size, period, copies);
    for (t, task) in shapes.tasks.iter().enumerate() {
        // Rows that stand aren't moved, so the first task without room decides.
        let Some(run) = draft.first_open(&task.needs) else {
            return Err(PlanStop::NoRoom { task: t as u8 });
        };
        draft.add_row(alloc, run)?;
    }
    Ok(draft.table)
}

// ---- all sizes

/// The least size for which there is no plan, and the first task without room there.
#[derive(Clone, Copy)]
pub struct NoRoomAt {
    pub size: u8,
    pub task: u8,
}

/// The plan of each size of a configuration, from 4 units to all.
pub fn plan_sizes(
    alloc: Global,
    shapes: &Shapes,
    units: u8,
    period: u8,
    copies: u8,
) -> Result<Vec<Table>, Stop<NoRoomAt>>
    requires tasks { ArePlannable (shapes_of shapes.now) }
    requires limits { IsWithinLimits (wanted units period copies) }
    ensures planned { IfOk result (λ tables.
        ArePlans (shapes_of shapes.now) units period copies (map schedule_of tables.items)) }
    ensures no_room { IfErr result (IfRefused
        (IsFirstWithoutRoom (shapes_of shapes.now) units period copies)) }
{
    let mut tables = Vec::new(alloc);
    for size in 4..units + 1 {
        match plan(alloc, shapes, size, period, copies) {
            Ok(table) => tables.push(table)?,
            Err(stop) => return Err(stop.at(size)),
        }
    }
    Ok(tables)
}

impl PlanStop {
    /// The same, of the plan for this size.
    fn at(self, size: u8) -> Stop<NoRoomAt>
        ensures { result ≡ stop_at size self }
    {
        match self {
            PlanStop::NoRoom { task } => Stop::Refused(NoRoomAt { size, task }),
            PlanStop::NoMemory => Stop::NoMemory,
        }
    }
}

// ---- laws

/// A plan meets all rules of schedule tables, so `sift_table::check` accepts it.
pub fn plans_are_good()
    ensures { PlansAreGood }
{}

/// There is one plan at most.
pub fn one_plan()
    ensures { OnePlan }
{}

/// A task without room is the only one, and then there is no plan.
pub fn one_refusal()
    ensures { OneRefusal }
{}

/// A frame that is long enough for the plain table has room for every task.
pub fn long_frames_have_room()
    ensures { LongFramesHaveRoom }
{}

/// No task runs later than in the plain table.
pub fn plans_run_early()
    ensures { PlansRunEarly }
{}

/// The plans of all sizes are one list at most.
pub fn one_plan_each()
    ensures { OnePlanEach }
{}

/// The first size without room is one, with one task, and then there are no plans for all sizes.
pub fn one_size_without_room()
    ensures { OneSizeWithoutRoom }
{}
