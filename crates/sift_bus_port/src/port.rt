//! A port with three buses before it.
ghost use Rattle.std.specs.Prelude.{◌<◌};
ghost use Rattle.sift_bus_port.specs.Buses.{bus_count};

use crate::log::BusLog;
use sift_base::UnitId;

/// A unit's port with three buses before it, one of them faulty. What the unit hears is the
/// majority of what the three give, and so what the port inside heard, whatever the faulty bus
/// does.
#[derive(Drop)]
pub struct BusPort<T, B> {
    pub(crate) port: T,
    pub(crate) unit: UnitId,
    pub(crate) faulty: u8,
    pub(crate) bus: B,
    pub(crate) log: BusLog,
    ghost one_of_three: { faulty < bus_count },
}
