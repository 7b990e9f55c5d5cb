//! Flights of missions, on threads, and what the flight of all units of an ether leaves.
ghost use Rattle.std.specs.Prelude.{◌≡◌, ◌≤◌, ℕ, List, [], IfOk, length, vec_capacity};
ghost use Rattle.sift_base.specs.Units.{unit_limit};
ghost use Rattle.sift_core.specs.Storms.{IsRoundByRogues};
ghost use Rattle.sift_ether.specs.Tokens.{IsMade};
ghost use Rattle.sift_flight.specs.Told.{IsLogged};
ghost use Rattle.sift_mission.specs.Parts.{data_of, flown_of};
ghost use Rattle.sift_threads.specs.Flown.{HaveFlown};

use crate::bell::EtherBell;
use crate::seating::{leave_home, seat_all};
use sift_base::NoMemory;
use sift_conduct::Account;
use sift_ether::{Ether, Token};
use sift_flight::{Flight, flights_that_come_home_are_round};
use sift_mission::{Mission, a_mission_fits, missions_may_be_lent};
use sift_rogue::Rogue;
use sift_seat::Seat;
use sift_workers::{Probe, fly_all};
use std::alloc::Global;
use std::sync::Wait;
use std::thread::Threads;

/// The tokens of an ether after its units' flights, and the accounts of each unit, both in the order
/// of the units; and the rogues, each in its place.
#[derive(Drop)]
pub struct Flown<R> {
    pub tokens: Vec<Token>,
    pub accounts: Vec<Vec<Account>>,
    pub rogues: Vec<R>,
}

impl<R> Flown<R> {
    /// Nothing, with room for what so many units and so many rogues leave.
    pub(crate) fn with_room(
        alloc: Global,
        units: usize,
        rogues: usize,
    ) -> Result<Flown<R>, NoMemory>
        ensures tokens { IfOk result (λ empty. (empty.tokens.items ≡ []) × (units ≤ vec_capacity empty.tokens)) }
        ensures accounts { IfOk result (λ empty. (empty.accounts.items ≡ []) × (units ≤ vec_capacity empty.accounts)) }
        ensures rogues { IfOk result (λ empty. (empty.rogues.items ≡ []) × (rogues ≤ vec_capacity empty.rogues)) }
    {
        Ok(Flown {
            tokens: Vec::with_capacity(alloc, units)?,
            accounts: Vec::with_capacity(alloc, units)?,
            rogues: Vec::with_capacity(alloc, rogues)?,
        })
    }
}

/// Flies the units of a mission over an ether that was made for it, each at the seat of its token.
/// Worker i drives the boards of the units u with `u mod workers = i`. The rogues are those of the
/// units 0 to 7.
///
/// It may wait, and it isn't claimed that it returns. Want of memory gives up tokens and rogues.
pub fn fly_seats<R: Rogue + Send, B: Probe + Sync, H: Threads + Wait + Sync>(
    rt: &H,
    alloc: Global,
    mission: &Mission,
    ether: &Ether,
    tokens: Vec<Token>,
    workers: u8,
    rogues: Vec<R>,
    probe: &B,
) -> Result<Flown<R>, NoMemory>
    requires made { IsMade ether.now tokens.items mission.now.layout mission.now.frames }
    requires workers { (1 ≤ workers) × (workers ≤ unit_limit) }
    requires rogues { length rogues.items ≡ unit_limit }
    ensures { IfOk result (λ flown. HaveFlown R.allows (data_of mission.now) ether.now rogues.items flown) }
{
    missions_may_be_lent();
    let units = usize::from(mission.parts().units);
    let empty = Flown::with_room(alloc, units, rogues.len())?;
    let room = Vec::with_capacity(alloc, units)?;
    let seats = Seat::make_all(alloc, mission)?;
    let (places, beyond) = seat_all(mission, ether, tokens, seats, rogues, room);
    let bell = EtherBell::of(ether, probe);
    let home = fly_all(rt, alloc, places, workers, &bell)?;
    Ok(leave_home(mission, ether, home, beyond, empty))
}

/// Flies a mission on so many workers: it makes an ether, flies the units over it, and lands them.
/// Whatever the number of workers, the order of their steps and the bodies of rogues and probe, the
/// flight is round over strays that these rogues gave.
///
/// It may wait, and it isn't claimed that it returns. Want of memory gives up the rogues.
pub fn fly_threads<R: Rogue + Send, B: Probe + Sync, H: Threads + Wait + Sync>(
    rt: &H,
    alloc: Global,
    mission: &Mission,
    workers: u8,
    rogues: Vec<R>,
    probe: &B,
) -> Result<Flight, NoMemory>
    requires workers { (1 ≤ workers) × (workers ≤ unit_limit) }
    requires rogues { length rogues.items ≡ unit_limit }
    ensures round { IfOk result (λ flight. (after : List R) × IsRoundByRogues R.allows (data_of mission.now) rogues.items flight after) }
    ensures logged { IfOk result (λ flight. IsLogged (flown_of mission.now) mission.now.layout flight) }
{
    a_mission_fits(mission);
    flights_that_come_home_are_round();
    let parts = mission.parts();
    let (ether, tokens) = Ether::make(alloc, parts.layout, parts.frames)?;
    let flown = fly_seats(rt, alloc, mission, &ether, tokens, workers, rogues, probe)?;
    let Flown {
        tokens,
        accounts,
        rogues: _,
    } = flown;
    let journals = ether.land(alloc, tokens)?;
    Ok(Flight { journals, accounts })
}
