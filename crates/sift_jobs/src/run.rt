//! The command `run`.

ghost use Rattle.std.specs.Prelude.{◌≡◌};
ghost use Rattle.sift_jobs.specs.Run.{version_of};
ghost use Rattle.sift_options.specs.Options.{given_by};

use crate::order::{Flier, FlightOrder, Flown, ORDER, Telling, WORKERS, Workers};
use sift_base::NoMemory;
use sift_flight::round_flights_are_alike;
use sift_load::{DOCUMENT_LIMIT, MissionJob, begin_for_bytes};
use sift_mission::{Mission, fitting_parts_make_a_flight};
use sift_options::{Flag, Numbers, Options};
use sift_reply::Begun;
use sift_report::{Version, alike_flights_have_one_text};
use sift_row::Command;
use sift_scenario::stated_missions_fit;
use std::alloc::Global;

/// `run`: flies the mission that the input states by these workers, and reports on it in this version.
#[derive(Clone, Copy)]
pub struct RunJob {
    pub workers: Workers,
    pub version: Version,
}

/// In which version a flight is reported.
pub const REPORT: Flag = Flag {
    name: "--report",
    numbers: Numbers::Digit(2),
};

/// The version of a report that options give, the second where they give none.
pub fn version_of(options: Options<'_>) -> Version
    ensures { result ≡ version_of (given_by options.entry) }
{
    match options.number(REPORT) {
        Some(1) => Version::One,
        Some(_) | None => Version::Two,
    }
}

impl<F: Flier, W: Flown<F>> MissionJob<F, W> for RunJob {
    ghost use Rattle.sift_jobs.specs.Run.{RunGives};

    ghost gives_for = { λ flier. RunGives (F.flying flier) };

    fn begin_for(self, _alloc: Global, flier: F, mission: Mission) -> Result<Begun<W>, NoMemory> {
        Ok(Begun::Left(W::by_workers(FlightOrder {
            flier,
            mission,
            workers: self.workers,
            telling: Telling::Report(self.version),
        })))
    }
}

impl<F: Flier, W: Flown<F>> Command<F, W> for RunJob {
    ghost use Rattle.sift_jobs.specs.Run.{run_row};

    ghost row_of = { λ flier. run_row (F.flying flier) };

    fn word() -> &'static str {
        "run"
    }

    fn flags() -> &'static [Flag] {
        &[WORKERS, ORDER, REPORT]
    }

    fn of(options: Options<'_>) -> Option<Self> {
        Some(RunJob {
            workers: Workers::of(options)?,
            version: version_of(options),
        })
    }

    fn limit(self) -> Option<u32> {
        Some(DOCUMENT_LIMIT)
    }

    fn begin(self, alloc: Global, flier: F, bytes: &[u8]) -> Result<Begun<W>, NoMemory> {
        begin_for_bytes(alloc, flier, self, bytes)
    }

    fn keeps_its_row() {
        fitting_parts_make_a_flight();
        round_flights_are_alike();
        alike_flights_have_one_text();
        stated_missions_fit();
    }
}
