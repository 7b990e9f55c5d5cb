//! Units take their seats and leave them.
ghost use Rattle.std.specs.Prelude.{◌≡◌, ◌+◌, ◌<◌, ◌∷◌, IfOk, length, map, true};
ghost use Rattle.std.specs.List.{AllZip};
ghost use Rattle.std.specs.Vec.Iter.{into_iter_items, into_iter_len};
ghost use Rattle.sift_base.specs.Units.{has};
ghost use Rattle.sift_mission.specs.Parts.{flown_of};
ghost use Rattle.sift_ether.specs.Seating.{IsTokenBack};
ghost use Rattle.sift_ether.specs.Tokens.{IsMade};
ghost use Rattle.sift_bus_port.specs.Buses.{bus_count};
ghost use Rattle.sift_bus.specs.Boarding.{AreBoarded, IsBoarded, IsEtherFor, IsNewToken};

use crate::flying::Flyer;
use sift_base::{NoMemory, UnitId};
use sift_bus_port::{Bus, BusLog, BusPort};
use sift_conduct::Account;
use sift_ether::{Ether, EtherSeat, Token};
use sift_mission::{Mission, a_mission_fits};
use sift_seat::Seat;
use sift_unit::new_boards_may_step;
use std::alloc::Global;
use std::vec::IntoIter;

/// A unit takes its seat, with three buses before its port.
fn board_unit<'a, B: Bus>(
    alloc: Global,
    mission: &Mission,
    ether: &'a Ether,
    token: Token,
    unit: UnitId,
    faulty: u8,
    bus: B,
) -> Result<Flyer<BusPort<EtherSeat<'a>, B>>, NoMemory>
    requires unit { has (flown_of mission.now).units unit ≡ true }
    requires ether { IsEtherFor ether.now mission.now.layout mission.now.frames }
    requires token { IsNewToken ether.now unit token }
    requires faulty { faulty < bus_count }
    ensures { IfOk result (λ flyer. IsBoarded (flown_of mission.now) ether.now faulty token bus flyer) }
{
    a_mission_fits(mission);
    new_boards_may_step();
    let parts = mission.parts();
    let log = BusLog::make(alloc, parts.layout, parts.frames)?;
    let seat = Seat::make(alloc, mission, unit)?;
    let port = BusPort::over(ether.seat(token), unit, faulty, bus, log);
    Ok(Flyer { seat, port })
}

/// The next of tokens, of which there is one.
fn next_token(tokens: &mut IntoIter<Token>) -> Token
    requires { 0 < into_iter_len tokens.old }
    ensures token { into_iter_items tokens.old ≡ result ∷ into_iter_items tokens.new }
    ensures left { into_iter_len tokens.new + 1 ≡ into_iter_len tokens.old }
{
    match tokens.next() {
        Some(token) => token,
        None => unreachable!(),
    }
}

/// All units of the mission take their seats, in order, each with its own bus, the faulty one of
/// three.
pub(crate) fn board_all<'a, B: Bus>(
    alloc: Global,
    mission: &Mission,
    ether: &'a Ether,
    tokens: Vec<Token>,
    faulty: u8,
    buses: Vec<B>,
) -> Result<Vec<Flyer<BusPort<EtherSeat<'a>, B>>>, NoMemory>
    requires made { IsMade ether.now tokens.items mission.now.layout mission.now.frames }
    requires count { length buses.items ≡ mission.now.layout.units }
    requires faulty { faulty < bus_count }
    ensures { IfOk result (λ flyers. AreBoarded (flown_of mission.now) ether.now faulty tokens.items buses.items flyers.items) }
{
    let units = usize::from(mission.parts().units);
    let mut flyers = Vec::with_capacity(alloc, units)?;
    let mut tokens = tokens.into_iter();
    for bus in buses {
        let unit = UnitId::numbered(flyers.len() as u8);
        let token = next_token(&mut tokens);
        flyers.push_reserved(board_unit(alloc, mission, ether, token, unit, faulty, bus)?);
    }
    Ok(flyers)
}

/// What units leave behind, in order: their tokens, their accounts, and the logs of their buses. The
/// lists have room for all before the first unit leaves.
pub(crate) fn leave_all<B: Bus>(
    alloc: Global,
    flyers: Vec<Flyer<BusPort<EtherSeat<'_>, B>>>,
) -> Result<(Vec<Token>, Vec<Vec<Account>>, Vec<BusLog>), NoMemory>
    ensures tokens { IfOk result (λ left. AllZip (λ flyer token. IsTokenBack flyer.port.port token) flyers.entry.items left.0.items) }
    ensures accounts { IfOk result (λ left. left.1.items ≡ map (λ flyer. flyer.seat.board.accounts) flyers.entry.items) }
    ensures logs { IfOk result (λ left. left.2.items ≡ map (λ flyer. flyer.port.log) flyers.entry.items) }
{
    let units = flyers.len();
    let mut tokens = Vec::with_capacity(alloc, units)?;
    let mut accounts = Vec::with_capacity(alloc, units)?;
    let mut logs = Vec::with_capacity(alloc, units)?;
    for flyer in flyers {
        let Flyer { seat, port } = flyer;
        let (place, _, log) = port.end();
        tokens.push_reserved(place.end());
        accounts.push_reserved(seat.end());
        logs.push_reserved(log);
    }
    Ok((tokens, accounts, logs))
}
