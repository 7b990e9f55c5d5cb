//! The command `trial`.

use crate::order::{Flier, FlightOrder, Flown, ORDER, Telling, WORKERS, Workers};
use crate::scenario::NUMBER;
use sift_base::NoMemory;
use sift_flight::round_flights_are_alike;
use sift_mission::fitting_parts_make_a_flight;
use sift_options::{Flag, Options};
use sift_reply::Begun;
use sift_report::alike_flights_have_one_text;
use sift_row::Command;
use sift_scenario::{one_mission, stated_missions_fit};
use sift_trial::{drawn_mission, drawn_missions_have_no_storms};
use std::alloc::Global;

/// `trial`: flies the scenario that is drawn from this number by these workers, and writes the last line of its report. It
/// reads nothing.
#[derive(Clone, Copy)]
pub struct TrialJob {
    pub number: u64,
    pub workers: Workers,
}

impl<F: Flier, W: Flown<F>> Command<F, W> for TrialJob {
    ghost use Rattle.sift_jobs.specs.Trial.{trial_row};

    ghost row_of = { λ flier. trial_row (F.flying flier) };

    fn word() -> &'static str {
        "trial"
    }

    fn flags() -> &'static [Flag] {
        &[WORKERS, ORDER, NUMBER]
    }

    fn of(options: Options<'_>) -> Option<Self> {
        Some(TrialJob {
            number: options.number(NUMBER)?,
            workers: Workers::of(options)?,
        })
    }

    fn limit(self) -> Option<u32> {
        None
    }

    fn begin(self, alloc: Global, flier: F, _bytes: &[u8]) -> Result<Begun<W>, NoMemory> {
        let mission = drawn_mission(alloc, self.number)?;
        Ok(Begun::Left(W::by_workers(FlightOrder {
            flier,
            mission,
            workers: self.workers,
            telling: Telling::LastLine,
        })))
    }

    fn keeps_its_row() {
        one_mission();
        fitting_parts_make_a_flight();
        round_flights_are_alike();
        alike_flights_have_one_text();
        stated_missions_fit();
        drawn_missions_have_no_storms();
    }
}
