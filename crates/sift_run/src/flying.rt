//! Flights by one worker and by several, and what is told of them.

ghost use Rattle.std.specs.Prelude.{◌≡◌, ◌≤◌, IfOk, length, nat_lt, string_bytes};
ghost use Rattle.sift_base.specs.Units.{unit_limit};
ghost use Rattle.sift_alone.specs.Flown.{flying_with};
ghost use Rattle.sift_alone.specs.Given.{AreGiven};
ghost use Rattle.sift_alone.specs.Order.{FlyTogether, count_by, long_flight, unit_subframes};
ghost use Rattle.sift_alone.specs.Told.{TellsOfFleet};
ghost use Rattle.sift_flight.specs.Told.{IsWhole, told};
ghost use Rattle.sift_jobs.specs.Flights.{IsFlightOf, TellsFlight};
ghost use Rattle.sift_mission.specs.Parts.{data_of, flown_of};

use sift_alone::{Fleet, tell_alone, tell_over_buses};
use sift_base::NoMemory;
use sift_commands::Order;
use sift_flight::{Flight, round_flights_are_whole};
use sift_jobs::{FlightOrder, Workers};
use sift_mission::{Mission, a_mission_fits};
use sift_rogue::Rogue;
use sift_threads::{Probe, fly_threads};
use std::alloc::Global;
use std::sync::Wait;
use std::thread::Threads;

/// How many subframes a flight that isn't short has, each counted once for each unit: by one worker it takes some 40 ms.
const LONG_FLIGHT: u32 = 40_000;

/// One worker flies the mission before threads would have paid for their start.
fn is_short(mission: &Mission) -> bool
    ensures { result ≡ nat_lt (unit_subframes (data_of mission.now)) long_flight }
{
    let parts = mission.parts();
    u32::from(parts.units) * parts.frames * u32::from(parts.period) < LONG_FLIGHT
}

/// How many workers fly a mission.
fn count_of(mission: &Mission, workers: Workers) -> u8
    ensures number { result ≡ count_by (data_of mission.now) workers }
    ensures some { 1 ≤ result }
    ensures few { result ≤ unit_limit }
{
    match workers {
        Workers::One { .. } => 1,
        Workers::Several(workers) => workers.get(),
        Workers::OneEach if is_short(mission) => 1,
        Workers::OneEach => mission.parts().units,
    }
}

/// A flight by so many workers.
fn fly_together<R: Rogue + Send, P: Probe + Sync, H: Threads + Wait + Sync>(
    rt: &H,
    alloc: Global,
    mission: &Mission,
    workers: u8,
    rogues: Vec<R>,
    probe: &P,
) -> Result<Flight, NoMemory>
    requires workers { (1 ≤ workers) × (workers ≤ unit_limit) }
    requires rogues { length rogues.items ≡ unit_limit }
    ensures whole { IfOk result (IsWhole (flown_of mission.now) mission.now.layout) }
    ensures round { IfOk result (λ flight. IsFlightOf (AreGiven R.allows rogues.items) (data_of mission.now) (told (flown_of mission.now) flight)) }
{
    a_mission_fits(mission);
    round_flights_are_whole();
    fly_threads(rt, alloc, mission, workers, rogues, probe)
}

/// Flies what is ordered by so many workers, several, and tells what is asked of it.
fn tell_together<R: Rogue + Send, P: Probe + Sync, H: Threads + Wait + Sync>(
    rt: &H,
    alloc: Global,
    order: FlightOrder<Fleet<R>>,
    count: u8,
    probe: &P,
) -> Result<String, NoMemory>
    requires asked { count ≡ count_by (data_of order.mission) order.workers }
    requires together { FlyTogether (data_of order.mission) order.workers }
    requires few { count ≤ unit_limit }
    ensures { IfOk result (λ text. TellsFlight (flying_with R.allows order.flier.rogues.items) order.workers
        (data_of order.mission) order.telling (string_bytes text)) }
{
    let FlightOrder {
        flier,
        mission,
        workers: _,
        telling,
    } = order;
    let Fleet { rogues } = flier;
    let flight = fly_together(rt, alloc, &mission, count, rogues, probe)?;
    telling.text(alloc, &mission, &flight)
}

/// Flies what is ordered by the workers that are asked for, and tells what is asked of it. One worker waits for nobody;
/// several wait for one another.
fn tell_by_workers<R: Rogue + Send, P: Probe + Sync, H: Threads + Wait + Sync>(
    rt: &H,
    alloc: Global,
    order: FlightOrder<Fleet<R>>,
    probe: &P,
) -> Result<String, NoMemory>
    ensures { IfOk result (λ text. TellsFlight (flying_with R.allows order.flier.rogues.items) order.workers
        (data_of order.mission) order.telling (string_bytes text)) }
{
    match count_of(&order.mission, order.workers) {
        1 => tell_alone(alloc, order),
        count => tell_together(rt, alloc, order, count, probe),
    }
}

/// Flies what is ordered, by workers or over buses, and tells what is asked of it.
pub(crate) fn tell<R: Rogue + Send, P: Probe + Sync, H: Threads + Wait + Sync>(
    rt: &H,
    alloc: Global,
    order: Order<Fleet<R>>,
    probe: &P,
) -> Result<String, NoMemory>
    ensures { IfOk result (λ text. TellsOfFleet R.allows order (string_bytes text)) }
{
    match order {
        Order::ByWorkers(order) => tell_by_workers(rt, alloc, order, probe),
        Order::OverBuses(order) => tell_over_buses(alloc, order),
    }
}
