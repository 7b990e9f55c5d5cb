//! The command `votes`.

use crate::order::{Flier, FlightOrder, Flown, ORDER, Telling, WORKERS, Workers};
use sift_base::NoMemory;
use sift_flight::round_flights_are_alike;
use sift_load::{DOCUMENT_LIMIT, MissionJob, begin_for_bytes};
use sift_mission::{Mission, fitting_parts_make_a_flight};
use sift_options::{Flag, Options};
use sift_reply::Begun;
use sift_report::alike_flights_have_one_text;
use sift_row::Command;
use sift_scenario::stated_missions_fit;
use std::alloc::Global;

/// `votes`: flies the mission that the input states by these workers, and tells each vote with the words that were polled.
#[derive(Clone, Copy)]
pub struct VotesJob {
    pub workers: Workers,
}

impl<F: Flier, W: Flown<F>> MissionJob<F, W> for VotesJob {
    ghost use Rattle.sift_jobs.specs.Votes.{VotesGives};

    ghost gives_for = { λ flier. VotesGives (F.flying flier) };

    fn begin_for(self, _alloc: Global, flier: F, mission: Mission) -> Result<Begun<W>, NoMemory> {
        Ok(Begun::Left(W::by_workers(FlightOrder {
            flier,
            mission,
            workers: self.workers,
            telling: Telling::Votes,
        })))
    }
}

impl<F: Flier, W: Flown<F>> Command<F, W> for VotesJob {
    ghost use Rattle.sift_jobs.specs.Votes.{votes_row};

    ghost row_of = { λ flier. votes_row (F.flying flier) };

    fn word() -> &'static str {
        "votes"
    }

    fn flags() -> &'static [Flag] {
        &[WORKERS, ORDER]
    }

    fn of(options: Options<'_>) -> Option<Self> {
        Some(VotesJob {
            workers: Workers::of(options)?,
        })
    }

    fn limit(self) -> Option<u32> {
        Some(DOCUMENT_LIMIT)
    }

    fn begin(self, alloc: Global, flier: F, bytes: &[u8]) -> Result<Begun<W>, NoMemory> {
        begin_for_bytes(alloc, flier, self, bytes)
    }

    fn keeps_its_row() {
        fitting_parts_make_a_flight();
        round_flights_are_alike();
        alike_flights_have_one_text();
        stated_missions_fit();
    }
}
