//! The command `plan`.

ghost use Rattle.std.specs.Prelude.{◌≡◌, IfOk};
ghost use Rattle.sift_jobs.specs.Plan.{PlanGives, no_room};
ghost use Rattle.sift_mission.specs.Parts.{data_of};

use sift_base::{NoMemory, Stop};
use sift_load::{DOCUMENT_LIMIT, MissionJob, begin_for_bytes};
use sift_mission::Mission;
use sift_options::{Flag, Numbers, Options, within};
use sift_planner::{NoRoomAt, one_plan_each, one_size_without_room, plan_sizes, tables_text};
use sift_program::{shapes_of, sound_programs_have_shapes};
use sift_reply::{Begun, Reply, Work};
use sift_row::Command;
use sift_scenario::stated_missions_fit;
use std::alloc::Global;
use std::marker::Model;

/// `plan`: tells, for the mission's tasks, the tables in which each task runs as early as it can, one for each size of a
/// configuration. The mission's own tables and its subframes play no part.
#[derive(Clone, Copy)]
pub struct PlanJob {
    /// How many units run each task.
    copies: u8,
    /// How many subframes a frame has.
    period: u8,
}

impl Model for PlanJob {
    ghost use Rattle.sift_jobs.specs.Plan.{AreWithinLimits, PlanNumbers};

    ghost Value = { PlanNumbers };

    ghost view = { λ job. record { copies = job.copies; period = job.period } };

    ghost invariant = { λ job. AreWithinLimits (record { copies = job.copies; period = job.period }) };

    ghost inverse = { λ numbers. record { copies = numbers.copies; period = numbers.period } };
}

/// How many units run each task.
const COPIES: Flag = Flag {
    name: "--copies",
    numbers: Numbers::Any,
};

/// How many subframes a frame has.
const SUBFRAMES: Flag = Flag {
    name: "--subframes",
    numbers: Numbers::Any,
};

impl PlanJob {
    /// The reply for a mission: the plans of its tasks, or the first without room.
    fn reply_for(self, alloc: Global, mission: &Mission) -> Result<Reply, NoMemory>
        ensures { IfOk result (PlanGives self (data_of mission.now)) }
    {
        let parts = mission.parts();
        let shapes = shapes_of(alloc, &parts.program, parts.layout.sensors)?;
        match plan_sizes(alloc, &shapes, parts.units, self.period, self.copies) {
            Ok(tables) => Ok(Reply::done(tables_text(alloc, &tables)?)),
            Err(Stop::Refused(none)) => no_room(alloc, none),
            Err(Stop::NoMemory) => Err(NoMemory),
        }
    }
}

impl<M: Drop, W: Work> MissionJob<M, W> for PlanJob {
    ghost use Rattle.sift_jobs.specs.Plan.{PlanGives};

    ghost gives_for = { λ means. PlanGives };

    fn begin_for(self, alloc: Global, _means: M, mission: Mission) -> Result<Begun<W>, NoMemory> {
        Ok(Begun::Replied(self.reply_for(alloc, &mission)?))
    }
}

/// The reply where a task has no room at a size.
fn no_room(alloc: Global, none: NoRoomAt) -> Result<Reply, NoMemory>
    ensures { IfOk result (λ reply. reply ≡ no_room none) }
{
    let NoRoomAt { size, task } = none;
    let mut line = String::new(alloc);
    write!(line, "no room {size} task {task}\n")?;
    Ok(Reply::made(14, line))
}

impl<M: Drop, W: Work> Command<M, W> for PlanJob {
    ghost use Rattle.sift_jobs.specs.Plan.{plan_row};

    ghost row_of = { λ means. plan_row };

    fn word() -> &'static str {
        "plan"
    }

    fn flags() -> &'static [Flag] {
        &[COPIES, SUBFRAMES]
    }

    fn of(options: Options<'_>) -> Option<Self> {
        let copies = within(options.number(COPIES), 3, 8)? as u8;
        let period = within(options.number(SUBFRAMES), 12, 64)? as u8;
        Some(PlanJob { copies, period })
    }

    fn limit(self) -> Option<u32> {
        Some(DOCUMENT_LIMIT)
    }

    fn begin(self, alloc: Global, means: M, bytes: &[u8]) -> Result<Begun<W>, NoMemory> {
        begin_for_bytes(alloc, means, self, bytes)
    }

    fn keeps_its_row() {
        stated_missions_fit();
        sound_programs_have_shapes();
        one_plan_each();
        one_size_without_room();
    }
}
