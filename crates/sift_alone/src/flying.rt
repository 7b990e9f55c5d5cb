//! Flights by one worker and over buses, and what is told of them.

ghost use Rattle.std.specs.Prelude.{◌≡◌, IfOk, List, length, string_bytes};
ghost use Rattle.sift_base.specs.Units.{unit_limit};
ghost use Rattle.sift_alone.specs.Given.{AreGiven};
ghost use Rattle.sift_alone.specs.Flown.{flying_with};
ghost use Rattle.sift_alone.specs.Order.{order_by};
ghost use Rattle.sift_alone.specs.Told.{TellsOfFleet};
ghost use Rattle.sift_bus_jobs.specs.Buses.{TellsBuses};
ghost use Rattle.sift_core.specs.Landing.{IsFlownInOrder};
ghost use Rattle.sift_flight.specs.Told.{IsWhole, told};
ghost use Rattle.sift_jobs.specs.Flights.{IsFlightOf, TellsFlight};
ghost use Rattle.sift_mission.specs.Parts.{data_of, flown_of};

use crate::fleet::Fleet;
use sift_base::NoMemory;
use sift_bus::fly_buses;
use sift_bus_jobs::BusesOrder;
use sift_commands::Order;
use sift_core::fly;
use sift_flight::{Flight, round_flights_are_whole};
use sift_jobs::{FlightOrder, Workers};
use sift_mission::{Mission, a_mission_fits};
use sift_rogue::Rogue;
use std::alloc::Global;

/// A flight by one worker, whose units step in this order.
fn fly_alone<R: Rogue>(
    alloc: Global,
    mission: &Mission,
    order: u64,
    rogues: Vec<R>,
) -> Result<Flight, NoMemory>
    requires { length rogues.items ≡ unit_limit }
    ensures whole { IfOk result (IsWhole (flown_of mission.now) mission.now.layout) }
    ensures round { IfOk result (λ flight. IsFlightOf (AreGiven R.allows rogues.items) (data_of mission.now) (told (flown_of mission.now) flight)) }
    ensures ordered { IfOk result (λ flight. (after : List R) × IsFlownInOrder R.allows (data_of mission.now) order rogues.items flight after) }
{
    a_mission_fits(mission);
    round_flights_are_whole();
    let mut rogues = rogues;
    fly(alloc, mission, order, rogues.as_mut_slice())
}

/// The order in which one worker steps the units. Several have none, and what flies alone in their place takes order 0.
fn order_of(workers: Workers) -> u64
    ensures { result ≡ order_by workers }
{
    match workers {
        Workers::One { order } => order,
        Workers::Several(_) | Workers::OneEach => 0,
    }
}

/// Flies what is ordered by one worker, whoever is asked for, and tells what is asked of it.
pub fn tell_alone<R: Rogue>(alloc: Global, order: FlightOrder<Fleet<R>>) -> Result<String, NoMemory>
    ensures by_one { IfOk result (λ text. TellsFlight (flying_with R.allows order.flier.rogues.items) (Workers.One (order_by order.workers))
        (data_of order.mission) order.telling (string_bytes text)) }
    ensures told { IfOk result (λ text. TellsFlight (flying_with R.allows order.flier.rogues.items) order.workers
        (data_of order.mission) order.telling (string_bytes text)) }
{
    let FlightOrder {
        flier,
        mission,
        workers,
        telling,
    } = order;
    let Fleet { rogues } = flier;
    let flight = fly_alone(alloc, &mission, order_of(workers), rogues)?;
    telling.text(alloc, &mission, &flight)
}

/// Flies what is ordered over three buses, on one thread, and tells of it. No rogue is called.
pub fn tell_over_buses(alloc: Global, order: BusesOrder) -> Result<String, NoMemory>
    ensures { IfOk result (λ text. TellsBuses order.job (data_of order.mission) (string_bytes text)) }
{
    let BusesOrder { job, mission } = order;
    let buses = job.buses(alloc, &mission)?;
    let (flight, logs) = fly_buses(alloc, &mission, job.faulty(), buses)?;
    job.text(alloc, &mission, &flight, &logs)
}

/// Flies what is ordered, and tells what is asked of it, waiting for nobody.
pub(crate) fn tell<R: Rogue>(alloc: Global, order: Order<Fleet<R>>) -> Result<String, NoMemory>
    ensures { IfOk result (λ text. TellsOfFleet R.allows order (string_bytes text)) }
{
    match order {
        Order::ByWorkers(order) => tell_alone(alloc, order),
        Order::OverBuses(order) => tell_over_buses(alloc, order),
    }
}
