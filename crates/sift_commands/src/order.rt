//! The flights that commands leave to be flown.

ghost use Rattle.std.specs.Prelude.{ℕ, List};
ghost use Rattle.sift_bus_jobs.specs.Buses.{TellsBuses};
ghost use Rattle.sift_commands.specs.Order.{Tells};
ghost use Rattle.sift_jobs.specs.Flights.{TellsFlight};
ghost use Rattle.sift_mission.specs.Parts.{data_of};

use sift_bus_jobs::{BusesOrder, FlownOverBuses};
use sift_jobs::{Flier, FlightOrder, Flown};
use sift_reply::Work;

/// A flight that a command leaves to be flown, and told of.
#[derive(Drop)]
pub enum Order<F> {
    /// By workers.
    ByWorkers(FlightOrder<F>),
    /// Over three buses.
    OverBuses(BusesOrder),
}

impl<F: Flier> Work for Order<F> {
    ghost use Rattle.sift_commands.specs.Order.{Tells};

    ghost gives = { Tells F.flying };
}

impl<F: Flier> Flown<F> for Order<F> {
    fn by_workers(order: FlightOrder<F>) -> Self
        ensures { (text : List ℕ) → Tells F.flying result text
            → TellsFlight (F.flying order.flier) order.workers (data_of order.mission) order.telling text }
    {
        Order::ByWorkers(order)
    }
}

impl<F: Flier> FlownOverBuses for Order<F> {
    fn over_buses(order: BusesOrder) -> Self
        ensures { (text : List ℕ) → Tells F.flying result text → TellsBuses order.job (data_of order.mission) text }
    {
        Order::OverBuses(order)
    }
}
