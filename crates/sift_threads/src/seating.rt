//! Units at their seats, each with its port and its rogue: what workers drive. How they take their seats, and leave them.
ghost use Rattle.std.specs.Prelude.{◌≡◌, ◌+◌, ◌<◌, ◌≤◌, [], ◌∷◌, ◌++◌, drop, length, vec_len, vec_capacity, All};
ghost use Rattle.std.specs.Vec.Iter.{into_iter_items, into_iter_len};
ghost use Rattle.sift_mission.specs.Parts.{flown_of};
ghost use Rattle.sift_ether.specs.Seating.{IsTokenBack};
ghost use Rattle.sift_ether.specs.Seats.{view_of};
ghost use Rattle.sift_ether.specs.Tokens.{IsMade, IsTokenOf};
ghost use Rattle.sift_seat.specs.Seats.{AreNewSeats};
ghost use Rattle.sift_threads.specs.Coming.{itself, further};
ghost use Rattle.sift_threads.specs.Crews.{IsSeated, AreSeated, AreLeft, ComeHome};
ghost use Rattle.sift_threads.specs.Manned.{IsDriven, IsHomeAt, Comes};

use crate::flight::Flown;
use sift_base::UnitId;
use sift_buffer::Port;
use sift_conduct::Account;
use sift_ether::{Ether, EtherSeat, Token, tokens_come_back};
use sift_mission::{Mission, a_mission_fits};
use sift_rogue::Rogue;
use sift_seat::{Gone, Seat};
use sift_unit::{boards_that_are_down_have_flown, new_boards_may_step};
use sift_workers::{Pilot, Probe, Went};
use std::vec::IntoIter;

/// A unit of a mission at its seat, with its port and its rogue.
#[derive(Drop)]
pub struct Manned<'a, T, R> {
    pub(crate) mission: &'a Mission,
    /// Of whom a probe is told.
    pub(crate) unit: UnitId,
    pub(crate) seat: Seat,
    pub(crate) port: T,
    pub(crate) rogue: R,
}

/// One at a seat of an ether.
pub(crate) type Place<'a, R> = Manned<'a, EtherSeat<'a>, R>;

impl<T: Port, R: Rogue> Manned<'_, T, R> {
    /// Tells a probe where the unit has come, if that is another subframe than before.
    fn tell_entry<B: Probe>(&self, before: u64, probe: &B) {
        let progress = self.port.progress();
        if progress != before {
            probe.at(self.unit, progress);
        }
    }
}

impl<T: Port + Drop, R: Rogue> Pilot for Manned<'_, T, R> {
    ghost drives = { IsDriven T.view };

    ghost comes = { Comes T.follows R.allows };

    ghost is_home = { IsHomeAt T.view };

    ghost comes_itself = { itself T.follows R.allows };

    ghost comes_on = { further T.follows R.allows };

    fn go<B: Probe>(&mut self, probe: &B) -> Went {
        let before = self.port.progress();
        match self.seat.go(self.mission, &mut self.port, &mut self.rogue) {
            Gone::Moved => {
                self.tell_entry(before, probe);
                Went::Moved
            }
            Gone::Waits { unit, seen } => Went::Waits { unit, seen },
            Gone::Strayed => Went::Moved,
            Gone::Done => {
                self.tell_entry(before, probe);
                Went::Home
            }
        }
    }
}

/// The next item of a list that has one.
fn take_next<X: Drop>(rest: &mut IntoIter<X>) -> X
    requires { 0 < into_iter_len rest.old }
    ensures item { into_iter_items rest.old ≡ result ∷ into_iter_items rest.new }
    ensures left { into_iter_len rest.new + 1 ≡ into_iter_len rest.old }
{
    match rest.next() {
        Some(item) => item,
        None => unreachable!(),
    }
}

/// A unit at its seat.
fn seat_one<'a, R>(
    mission: &'a Mission,
    ether: &'a Ether,
    unit: UnitId,
    token: Token,
    seat: Seat,
    rogue: R,
) -> Place<'a, R>
    requires { IsTokenOf ether.now token }
    ensures { IsSeated mission.now ether.now token seat rogue result }
{
    Manned {
        mission,
        unit,
        seat,
        port: ether.seat(token),
        rogue,
    }
}

/// All units at their seats, in a list that has room for them. The rogues that are left are those
/// beyond the units.
pub(crate) fn seat_all<'a, R: Drop>(
    mission: &'a Mission,
    ether: &'a Ether,
    tokens: Vec<Token>,
    seats: Vec<Seat>,
    rogues: Vec<R>,
    empty: Vec<Place<'a, R>>,
) -> (Vec<Place<'a, R>>, IntoIter<R>)
    requires made { IsMade ether.now tokens.items mission.now.layout mission.now.frames }
    requires seats { AreNewSeats (flown_of mission.now) mission.now.units seats.items }
    requires rogues { mission.now.units ≤ length rogues.items }
    requires empty { empty.items ≡ [] }
    requires room { mission.now.units ≤ vec_capacity empty }
    ensures seated { AreSeated mission.now ether.now tokens.items seats.items rogues.items mission.now.units result.0.items }
    ensures driven { All (IsDriven view_of) result.0.items }
    ensures beyond { into_iter_items result.1 ≡ drop mission.now.units rogues.items }
{
    a_mission_fits(mission);
    new_boards_may_step();
    let mut places = empty;
    let mut tokens = tokens.into_iter();
    let mut seats = seats.into_iter();
    let mut rogues = rogues.into_iter();
    for number in 0..mission.parts().units {
        let unit = UnitId::numbered(number);
        let token = take_next(&mut tokens);
        let seat = take_next(&mut seats);
        let rogue = take_next(&mut rogues);
        places.push_reserved(seat_one(mission, ether, unit, token, seat, rogue));
    }
    (places, rogues)
}

/// A unit's token, accounts and rogue, from its seat.
fn leave_one<R>(place: Place<'_, R>) -> (Token, Vec<Account>, R)
    ensures token { IsTokenBack place.entry.port result.0 }
    ensures accounts { result.1 ≡ place.entry.seat.board.accounts }
    ensures rogue { result.2 ≡ place.entry.rogue }
{
    let Manned {
        mission: _,
        unit: _,
        seat,
        port,
        rogue,
    } = place;
    (port.end(), seat.end(), rogue)
}

/// Puts rogues behind others, in a list that has room for all.
fn put_behind<R: Drop>(rogues: Vec<R>, beyond: IntoIter<R>) -> Vec<R>
    requires { vec_len rogues + length (into_iter_items beyond) ≤ vec_capacity rogues }
    ensures { result.items ≡ rogues.items ++ into_iter_items beyond }
{
    let mut all = rogues;
    for rogue in beyond {
        all.push_reserved(rogue);
    }
    all
}

/// What is left of all seats and of the rogues beyond them, in lists that have room for it.
fn leave_all<R: Drop>(home: Vec<Place<'_, R>>, beyond: IntoIter<R>, empty: Flown<R>) -> Flown<R>
    requires no_tokens { (empty.tokens.items ≡ []) × (vec_len home ≤ vec_capacity empty.tokens) }
    requires no_accounts { (empty.accounts.items ≡ []) × (vec_len home ≤ vec_capacity empty.accounts) }
    requires no_rogues { (empty.rogues.items ≡ []) × (vec_len home + length (into_iter_items beyond) ≤ vec_capacity empty.rogues) }
    ensures { AreLeft home.entry.items (into_iter_items beyond) result }
{
    let Flown {
        mut tokens,
        mut accounts,
        mut rogues,
    } = empty;
    for place in home {
        let (token, list, rogue) = leave_one(place);
        tokens.push_reserved(token);
        accounts.push_reserved(list);
        rogues.push_reserved(rogue);
    }
    Flown {
        tokens,
        accounts,
        rogues: put_behind(rogues, beyond),
    }
}

/// What is left of units that have come home, in lists that have room for it.
pub(crate) fn leave_home<R: Rogue>(
    mission: &Mission,
    ether: &Ether,
    home: Vec<Place<'_, R>>,
    beyond: IntoIter<R>,
    empty: Flown<R>,
) -> Flown<R>
    requires no_tokens { (empty.tokens.items ≡ []) × (vec_len home ≤ vec_capacity empty.tokens) }
    requires no_accounts { (empty.accounts.items ≡ []) × (vec_len home ≤ vec_capacity empty.accounts) }
    requires no_rogues { (empty.rogues.items ≡ []) × (vec_len home + length (into_iter_items beyond) ≤ vec_capacity empty.rogues) }
    ensures { ComeHome R.allows mission.now ether.now home.entry.items (into_iter_items beyond) result }
{
    boards_that_are_down_have_flown();
    tokens_come_back();
    a_mission_fits(mission);
    leave_all(home, beyond, empty)
}
