//! The command `check`.

use sift_base::NoMemory;
use sift_load::{DOCUMENT_LIMIT, MissionJob, begin_for_bytes};
use sift_mission::Mission;
use sift_options::{Flag, Options};
use sift_reply::{Begun, Reply, Work};
use sift_row::Command;
use std::alloc::Global;

/// `check`: tells that the input states a mission.
#[derive(Clone, Copy)]
pub struct CheckJob;

impl<M: Drop, W: Work> MissionJob<M, W> for CheckJob {
    ghost use Rattle.std.specs.Prelude.{IfOk, IsOk};
    ghost use Rattle.sift_reply.specs.Begun.{ComesTo};
    ghost use Rattle.sift_mission.specs.Parts.{data_of};
    ghost use Rattle.sift_jobs.specs.Unflown.{CheckGives};

    ghost gives_for = { λ means. CheckGives };

    fn begin_for(self, _alloc: Global, _means: M, mission: Mission) -> Result<Begun<W>, NoMemory>
        ensures gives { IfOk result (ComesTo W.gives (CheckGives self (data_of mission))) }
        // Once the mission is read no memory is asked for, so none is wanting.
        ensures sure { IsOk result }
    {
        Ok(Begun::Replied(Reply::fixed(0, "ok\n")))
    }
}

impl<M: Drop, W: Work> Command<M, W> for CheckJob {
    ghost use Rattle.sift_jobs.specs.Unflown.{check_row};

    ghost row_of = { λ means. check_row };

    fn word() -> &'static str {
        "check"
    }

    fn flags() -> &'static [Flag] {
        &[]
    }

    fn of(_options: Options<'_>) -> Option<Self> {
        Some(CheckJob)
    }

    fn limit(self) -> Option<u32> {
        Some(DOCUMENT_LIMIT)
    }

    fn begin(self, alloc: Global, means: M, bytes: &[u8]) -> Result<Begun<W>, NoMemory> {
        begin_for_bytes(alloc, means, self, bytes)
    }

    fn keeps_its_row() {}
}
