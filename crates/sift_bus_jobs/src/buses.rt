//! The command `buses`.

ghost use Rattle.std.specs.Prelude.{ℕ, List, ◌≡◌, ◌<◌, IfOk, false, replicate, string_bytes, true};
ghost use Rattle.sift_bus_jobs.specs.Buses.{BusesGives, FliesCalm, HasStorm, TellsBuses};
ghost use Rattle.sift_bus_jobs.specs.Numbers.{bus_of, word_given};
ghost use Rattle.sift_bus_port.specs.Buses.{AllowsConstant, bus_count};
ghost use Rattle.sift_bus_port.specs.Flown.{AreLogsOf};
ghost use Rattle.sift_flight.specs.Flight.{HasNoStorms};
ghost use Rattle.sift_flight.specs.Told.{IsLogged, told};
ghost use Rattle.sift_mission.specs.Parts.{data_of, flown_of};

use crate::counts::push_words;
use sift_base::{NoMemory, UnitId, Word};
use sift_bus_port::{BusLog, Constant, logs_tell_what_was_heard};
use sift_flight::{Flight, round_flights_are_alike, round_flights_are_whole};
use sift_load::{DOCUMENT_LIMIT, MissionJob, begin_for_bytes};
use sift_mission::{Mission, a_mission_fits, fitting_parts_make_a_flight};
use sift_options::{Flag, Numbers, Options, within};
use sift_reply::{Begun, Reply, Work};
use sift_report::{Version, alike_flights_have_one_text, report_text};
use sift_row::Command;
use sift_scenario::stated_missions_fit;
use std::alloc::Global;
use std::marker::Model;

/// `buses`: flies the mission that the input states over three buses, of which one is faulty, and
/// tells the report and how many words that bus got wrong.
#[derive(Clone, Copy)]
pub struct BusesJob {
    /// Which bus is faulty.
    bus: u8,
    /// From which frame on it is.
    from: u32,
    /// What it carries then in place of every word, and of absence.
    value: Option<Word>,
}

impl Model for BusesJob {
    ghost use Rattle.sift_bus_jobs.specs.Numbers.{AreWithinLimits, BusNumbers};

    ghost Value = { BusNumbers };

    ghost view = { λ job. record { bus = job.bus; from = job.from; value = job.value } };

    ghost invariant = { λ job. AreWithinLimits (record { bus = job.bus; from = job.from; value = job.value }) };

    ghost inverse = { λ numbers. record { bus = numbers.bus; from = numbers.from; value = numbers.value } };
}

/// Which bus is faulty.
const BUS: Flag = Flag {
    name: "--bus",
    numbers: Numbers::Any,
};

/// From which frame on it is.
const FROM: Flag = Flag {
    name: "--from",
    numbers: Numbers::Any,
};

/// What it carries then.
const VALUE: Flag = Flag {
    name: "--value",
    numbers: Numbers::Any,
};

impl BusesJob {
    /// The number of the faulty bus.
    pub fn faulty(self) -> u8
        ensures number { result ≡ self.bus }
        ensures low { result < bus_count }
    {
        self.bus
    }

    /// Buses that carry as the faulty one does, one for each unit of a mission.
    pub fn buses(self, alloc: Global, mission: &Mission) -> Result<Vec<Constant>, NoMemory>
        ensures { IfOk result (λ buses. buses.items ≡ replicate mission.now.layout.units (bus_of self)) }
    {
        let bus = Constant {
            from: self.from,
            value: self.value,
        };
        one_each(alloc, mission, &bus)
    }

    /// The text that tells of a flight over three buses: its report, and what the logs of the faulty one tell.
    pub fn text(
        self,
        alloc: Global,
        mission: &Mission,
        flight: &Flight,
        logs: &[BusLog],
    ) -> Result<String, NoMemory>
        requires logged { IsLogged (flown_of mission.now) mission.now.layout flight.now }
        requires flown { FliesCalm (data_of mission.now) (told (flown_of mission.now) flight.now) }
        requires logs { AreLogsOf AllowsConstant (flown_of mission.now) (told (flown_of mission.now) flight.now)
            mission.now.layout self.bus (replicate mission.now.layout.units (bus_of self)) logs.now }
        ensures { IfOk result (λ text. TellsBuses self (data_of mission.now) (string_bytes text)) }
    {
        let frames = mission.parts().frames;
        round_flights_are_whole();
        a_mission_fits(mission);
        logs_tell_what_was_heard::<Constant>();
        let mut text = report_text(alloc, mission, flight, Version::Two)?;
        push_words(&mut text, self.bus, frames, logs)?;
        Ok(text)
    }
}

/// Buses that carry as this one does, one for each unit of a mission.
fn one_each(alloc: Global, mission: &Mission, bus: &Constant) -> Result<Vec<Constant>, NoMemory>
    ensures { IfOk result (λ buses. buses.items ≡ replicate mission.now.layout.units bus.now) }
{
    let units = usize::from(mission.parts().layout.units);
    let mut buses = Vec::with_capacity(alloc, units)?;
    for _ in 0..units {
        buses.push(Constant {
            from: bus.from,
            value: bus.value,
        })?;
    }
    Ok(buses)
}

/// The word that is given, where one is. There is nothing where a number is given that is no word's.
fn word_given(given: Option<u64>) -> Option<Option<Word>>
    ensures { result ≡ word_given given }
{
    match given {
        None => Some(None),
        Some(_) => Some(Some(Word::of(within(given, 0, 65_535)? as u16))),
    }
}

/// A flight over three buses of a mission without storms that is still to be flown, and told of.
#[derive(Drop)]
pub struct BusesOrder {
    pub job: BusesJob,
    pub mission: Mission,
    pub ghost calm: { HasNoStorms (flown_of mission) },
}

impl Work for BusesOrder {
    ghost use Rattle.sift_bus_jobs.specs.Buses.{TellsBuses};
    ghost use Rattle.sift_mission.specs.Parts.{data_of};

    ghost gives = { λ order. TellsBuses order.job (data_of order.mission) };
}

/// What may be left to be done, a flight over three buses among it.
pub trait FlownOverBuses: Work {
    ghost use Rattle.sift_bus_jobs.specs.Buses.{TellsBuses};
    ghost use Rattle.sift_mission.specs.Parts.{data_of};

    /// This flight.
    fn over_buses(order: BusesOrder) -> Self
        ensures { (text : List ℕ) → Self.gives result text → TellsBuses order.job (data_of order.mission) text };
}

impl<M: Drop, W: FlownOverBuses> MissionJob<M, W> for BusesJob {
    ghost use Rattle.sift_bus_jobs.specs.Buses.{BusesGives};

    ghost gives_for = { λ means. BusesGives };

    fn begin_for(self, _alloc: Global, _means: M, mission: Mission) -> Result<Begun<W>, NoMemory> {
        if has_storm(&mission) {
            return Ok(Begun::Replied(Reply::fixed(15, "storm\n")));
        }
        Ok(Begun::Left(W::over_buses(BusesOrder { job: self, mission })))
    }
}

impl<M: Drop, W: FlownOverBuses> Command<M, W> for BusesJob {
    ghost use Rattle.sift_bus_jobs.specs.Buses.{buses_row};

    ghost row_of = { λ means. buses_row };

    fn word() -> &'static str {
        "buses"
    }

    fn flags() -> &'static [Flag] {
        &[BUS, FROM, VALUE]
    }

    fn of(options: Options<'_>) -> Option<Self> {
        let bus = within(options.number(BUS), 0, 2)? as u8;
        let from = within(options.number(FROM), 0, 999)? as u32;
        let value = word_given(options.number(VALUE))?;
        Some(BusesJob { bus, from, value })
    }

    fn limit(self) -> Option<u32> {
        Some(DOCUMENT_LIMIT)
    }

    fn begin(self, alloc: Global, means: M, bytes: &[u8]) -> Result<Begun<W>, NoMemory> {
        begin_for_bytes(alloc, means, self, bytes)
    }

    fn keeps_its_row() {
        fitting_parts_make_a_flight();
        round_flights_are_alike();
        alike_flights_have_one_text();
        stated_missions_fit();
    }
}

// ---- storms

/// Whether a unit of the mission turns stray in some frame.
fn has_storm(mission: &Mission) -> bool
    ensures storm { result ≡ true → HasStorm (flown_of mission.now) }
    ensures calm { result ≡ false → HasNoStorms (flown_of mission.now) }
{
    for number in 0..mission.parts().units {
        if let Some(unit) = UnitId::of(number) {
            if mission.parts().script.storm_of(unit).is_some() {
                return true;
            }
        }
    }
    false
}
