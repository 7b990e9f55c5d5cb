//! Flights that are still to be flown: by whom, and what is to be told of them.

ghost use Rattle.std.specs.Prelude.{ℕ, List, ◌≡◌, IfOk, string_bytes};
ghost use Rattle.sift_base.specs.Units.{unit_limit};
ghost use Rattle.sift_flight.specs.Told.{IsWhole, told};
ghost use Rattle.sift_jobs.specs.Flights.{IsTelling};
ghost use Rattle.sift_jobs.specs.Run.{order_flag, workers_flag, workers_of};
ghost use Rattle.sift_jobs.specs.Several.{AreSeveral, fewest_workers};
ghost use Rattle.sift_mission.specs.Parts.{data_of, flown_of};
ghost use Rattle.sift_options.specs.Options.{given_by, within};

use sift_base::NoMemory;
use sift_flight::Flight;
use sift_mission::Mission;
use sift_options::{Flag, Numbers, Options, within};
use sift_reply::Work;
use sift_report::{Version, last_line_text, report_text, votes_text};
use std::alloc::Global;
use std::marker::Model;

// ---- what flies, and by whom

/// What flies missions, and has a rogue for each unit that turns stray.
///
/// Contracts see of it which strays these rogues may give, and which flights it flies by which workers, and nothing else.
pub trait Flier: Drop {
    ghost use Rattle.sift_jobs.specs.Flights.{Flying};

    /// What it flies.
    ghost flying: { Self → Flying };
}

/// How many workers fly.
pub(crate) const WORKERS: Flag = Flag {
    name: "--workers",
    numbers: Numbers::Digit(8),
};

/// In which order one worker's units step.
pub(crate) const ORDER: Flag = Flag {
    name: "--order",
    numbers: Numbers::Any,
};

/// The workers that fly a mission.
#[derive(Clone, Copy)]
pub enum Workers {
    /// One, whose units step in this order.
    One { order: u64 },
    /// So many, among whom the units are dealt.
    Several(WorkerCount),
    /// One for each unit of the mission.
    OneEach,
}

impl Workers {
    /// What the options ask for: one for each unit where they name neither workers nor an order. An order is for one
    /// worker alone, whose order is 0 where none is given.
    pub fn of(options: Options<'_>) -> Option<Workers>
        ensures { result ≡ workers_of (given_by options.entry workers_flag.name) (given_by options.entry order_flag.name) }
    {
        match (options.number(WORKERS), options.number(ORDER)) {
            (None, None) => Some(Workers::OneEach),
            (None | Some(1), order) => Some(Workers::One {
                order: order.unwrap_or(0),
            }),
            (count, None) => Some(Workers::Several(WorkerCount::of(count)?)),
            (Some(_), Some(_)) => None,
        }
    }
}

/// How many workers fly a mission together, from 2 to 8.
#[derive(Clone, Copy)]
pub struct WorkerCount {
    count: u8,
}

impl Model for WorkerCount {
    ghost use Rattle.std.specs.Prelude.{ℕ};
    ghost use Rattle.sift_jobs.specs.Several.{AreSeveral};

    ghost Value = { ℕ };

    ghost view = { λ workers. workers.count };

    ghost invariant = { λ workers. AreSeveral workers.count };

    ghost inverse = { λ count. record { count = count } };
}

impl WorkerCount {
    /// The number of an option, where it is given and is from 2 to 8.
    pub(crate) fn of(given: Option<u64>) -> Option<WorkerCount>
        ensures { result ≡ within fewest_workers unit_limit given }
    {
        Some(WorkerCount {
            count: within(given, 2, 8)? as u8,
        })
    }

    /// The number of workers.
    pub fn get(self) -> u8
        ensures number { result ≡ self }
        ensures several { AreSeveral result }
    {
        self.count
    }
}

// ---- what is told, and the order

/// What is told of a flight.
#[derive(Clone, Copy)]
pub enum Telling {
    /// Its report, in this version.
    Report(Version),
    /// Its votes.
    Votes,
    /// The last line of its report.
    LastLine,
}

impl Telling {
    /// The text that tells it of a flight.
    pub fn text(self, alloc: Global, mission: &Mission, flight: &Flight) -> Result<String, NoMemory>
        requires { IsWhole (flown_of mission.now) mission.now.layout flight.now }
        ensures { IfOk result (λ text. IsTelling (data_of mission.now) (told (flown_of mission.now) flight.now) self (string_bytes text)) }
    {
        match self {
            Telling::Report(version) => report_text(alloc, mission, flight, version),
            Telling::Votes => votes_text(alloc, mission, flight),
            Telling::LastLine => last_line_text(alloc, mission, flight),
        }
    }
}

/// A flight of a mission that is still to be flown, by this flier and these workers, and what is to be told of it.
#[derive(Drop)]
pub struct FlightOrder<F> {
    pub flier: F,
    pub mission: Mission,
    pub workers: Workers,
    pub telling: Telling,
}

impl<F: Flier> Work for FlightOrder<F> {
    ghost use Rattle.sift_jobs.specs.Flights.{TellsFlight};
    ghost use Rattle.sift_mission.specs.Parts.{data_of};

    ghost gives = { λ order. TellsFlight (F.flying order.flier) order.workers (data_of order.mission) order.telling };
}

/// What may be left to be done, a flight by workers among it.
pub trait Flown<F: Flier>: Work {
    ghost use Rattle.sift_jobs.specs.Flights.{TellsFlight};
    ghost use Rattle.sift_mission.specs.Parts.{data_of};

    /// This flight.
    fn by_workers(order: FlightOrder<F>) -> Self
        ensures { (text : List ℕ) → Self.gives result text → TellsFlight (F.flying order.flier) order.workers (data_of order.mission) order.telling text };
}
