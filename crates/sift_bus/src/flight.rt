//! A mission flown over three buses, on one thread.
ghost use Rattle.std.specs.Prelude.{◌≡◌, ◌<◌, IfOk, length, map};
ghost use Rattle.sift_mission.specs.Parts.{flown_of};
ghost use Rattle.sift_flight.specs.Flight.{Strays, HasNoStorms, IsRound};
ghost use Rattle.sift_flight.specs.Told.{IsLogged, told};
ghost use Rattle.sift_bus_port.specs.Buses.{bus_count};
ghost use Rattle.sift_bus_port.specs.Flown.{AreLogsOf};

use crate::boarding::{board_all, leave_all};
use crate::flying::fly_all;
use sift_base::NoMemory;
use sift_bus_port::{Bus, BusLog, logs_tell_what_was_heard};
use sift_ether::{Ether, tokens_come_back};
use sift_flight::{Flight, flights_that_come_home_are_round};
use sift_mission::{Mission, a_mission_fits};
use sift_unit::boards_that_are_down_have_flown;
use std::alloc::Global;

/// Flies a mission without storms on one thread, each unit with three buses before its port. One of
/// the three is faulty, the same for all units, and each unit has a bus of its own in its place.
///
/// It is always the lowest-numbered unit of least progress that steps, of those that haven't
/// landed. No unit's seat tells another's number, so nothing says that all land: where some haven't
/// after as many steps as a number of 64 bits counts, the call ends as for want of memory.
pub fn fly_buses<B: Bus>(
    alloc: Global,
    mission: &Mission,
    faulty: u8,
    buses: Vec<B>,
) -> Result<(Flight, Vec<BusLog>), NoMemory>
    requires count { length buses.items ≡ mission.now.layout.units }
    requires faulty { faulty < bus_count }
    requires calm { HasNoStorms (flown_of mission.now) }
    ensures round { IfOk result (λ flown. (strays : Strays) × IsRound (flown_of mission.now) strays (told (flown_of mission.now) flown.0)) }
    ensures logged { IfOk result (λ flown. IsLogged (flown_of mission.now) mission.now.layout flown.0) }
    ensures logs { IfOk result (λ flown. AreLogsOf B.allows (flown_of mission.now) (told (flown_of mission.now) flown.0) mission.now.layout faulty buses.items flown.1.items) }
{
    a_mission_fits(mission);
    tokens_come_back();
    boards_that_are_down_have_flown();
    flights_that_come_home_are_round();
    logs_tell_what_was_heard::<B>();
    let parts = mission.parts();
    let (ether, tokens) = Ether::make(alloc, parts.layout, parts.frames)?;
    let mut flyers = board_all(alloc, mission, &ether, tokens, faulty, buses)?;
    if !fly_all(mission, flyers.as_mut_slice()) {
        return Err(NoMemory);
    }
    let (tokens, accounts, logs) = leave_all(alloc, flyers)?;
    let journals = ether.land(alloc, tokens)?;
    Ok((Flight { journals, accounts }, logs))
}
