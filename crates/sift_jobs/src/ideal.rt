//! The command `ideal`.

use sift_base::NoMemory;
use sift_load::{DOCUMENT_LIMIT, MissionJob, begin_for_bytes};
use sift_mission::Mission;
use sift_options::{Flag, Options};
use sift_reply::{Begun, Reply, Work};
use sift_report::ideal_text;
use sift_row::Command;
use std::alloc::Global;

/// `ideal`: tells what the ideal machine puts out over the mission's own sensor words.
#[derive(Clone, Copy)]
pub struct IdealJob;

impl<M: Drop, W: Work> MissionJob<M, W> for IdealJob {
    ghost use Rattle.sift_jobs.specs.Unflown.{IdealGives};

    ghost gives_for = { λ means. IdealGives };

    fn begin_for(self, alloc: Global, _means: M, mission: Mission) -> Result<Begun<W>, NoMemory> {
        let outputs = ideal_text(alloc, &mission)?;
        Ok(Begun::Replied(Reply::done(outputs)))
    }
}

impl<M: Drop, W: Work> Command<M, W> for IdealJob {
    ghost use Rattle.sift_jobs.specs.Unflown.{ideal_row};

    ghost row_of = { λ means. ideal_row };

    fn word() -> &'static str {
        "ideal"
    }

    fn flags() -> &'static [Flag] {
        &[]
    }

    fn of(_options: Options<'_>) -> Option<Self> {
        Some(IdealJob)
    }

    fn limit(self) -> Option<u32> {
        Some(DOCUMENT_LIMIT)
    }

    fn begin(self, alloc: Global, means: M, bytes: &[u8]) -> Result<Begun<W>, NoMemory> {
        begin_for_bytes(alloc, means, self, bytes)
    }

    fn keeps_its_row() {}
}
