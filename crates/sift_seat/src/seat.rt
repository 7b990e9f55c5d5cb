//! A unit's board, how many calls of its rogue are left, and its turn.

ghost use Rattle.std.specs.Prelude.{◌≡◌, ◌==◌, ◌<◌, ℕ, [], Some, None, IfOk, IfSome, true};
ghost use Rattle.sift_base.specs.Layout.{IsLayout};
ghost use Rattle.sift_base.specs.Units.{has};
ghost use Rattle.sift_buffer.specs.Ranges.{IsCell};
ghost use Rattle.sift_buffer.specs.Tables.{ranges_of};
ghost use Rattle.sift_mission.specs.Parts.{data_of, flown_of};
ghost use Rattle.sift_script.specs.declared.script.StormEntry.{StormEntry};
ghost use Rattle.sift_unit.specs.Boards.{desk_of, Drives};
ghost use Rattle.sift_unit.specs.Stepping.{Steps};
ghost use Rattle.sift_seat.specs.Storms.{BeginsStorm, CallsNext, calls_left, storm_at};
ghost use Rattle.sift_seat.specs.Seats.{IsNewSeat, AreNewSeats, IsManned, IsDone, IfDone, HasCalls, StoresNext, Comes, place};

use sift_base::{Layout, NoMemory, UnitId};
use sift_buffer::Port;
use sift_conduct::Account;
use sift_mission::Mission;
use sift_rogue::{Rogue, Shot, next_shot, storms_add_up};
use sift_unit::{Board, Stepped, boards_drive_beside_strays};
use std::alloc::Global;

/// A unit's board, and how many calls of its rogue are left. The port and the rogue are lent to it for a turn: on one thread
/// all units share a rack, and in a thread of its own a unit keeps both beside its seat.
#[derive(Drop)]
pub struct Seat {
    pub(crate) board: Board,
    /// Once its storm has begun, how many strays the rogue is still to be asked for.
    pub(crate) left: Option<u32>,
}

/// What a turn of a seat came to.
#[derive(Clone, Copy, Debug, PartialEq, Eq)]
pub enum Gone {
    /// The unit said or heard one word, or entered the next subframe.
    Moved,
    /// The unit waits, since another unit's progress number was found below its own.
    Waits { unit: UnitId, seen: u64 },
    /// The unit turned and its storm began, or its rogue was asked for a stray.
    Strayed,
    /// No turn is left: the unit has landed, or has made all calls of its rogue.
    Done,
}

impl Seat {
    /// The seat of a unit before the flight.
    pub fn make(alloc: Global, mission: &Mission, unit: UnitId) -> Result<Seat, NoMemory>
        requires { has (flown_of mission.now).units unit ≡ true }
        ensures { IfOk result (IsNewSeat (flown_of mission.now) unit) }
    {
        let board = Board::make(alloc, mission, unit)?;
        Ok(Seat { board, left: None })
    }

    /// The seats of all units, in their order.
    pub fn make_all(alloc: Global, mission: &Mission) -> Result<Vec<Seat>, NoMemory>
        ensures { IfOk result (λ seats. AreNewSeats (flown_of mission.now) mission.now.units seats.items) }
    {
        let units = mission.parts().units;
        let mut seats = Vec::with_capacity(alloc, usize::from(units))?;
        for number in 0..units {
            let unit = UnitId::numbered(number);
            seats.push_reserved(Seat::make(alloc, mission, unit)?);
        }
        Ok(seats)
    }

    /// A step of the board alone. Where it turns, its storm is yet to begin.
    pub fn step<T: Port>(&mut self, mission: &Mission, port: &mut T) -> Stepped
        requires { Drives (flown_of mission.now) self.old.board (T.view port.old) }
        ensures drives { Drives (flown_of mission.now) self.new.board (T.view port.new) }
        ensures steps { Steps (flown_of mission.now) (desk_of self.old.board) (T.view port.old) result (desk_of self.new.board) (T.view port.new) (T.stands port.new) }
        ensures follows { T.follows port.old [] port.new }
        ensures left { self.new.left ≡ self.old.left }
    {
        self.board.step(mission, port)
    }

    /// Whether no call of the unit's rogue is left.
    pub fn is_spent(&self, mission: &Mission, unit: UnitId) -> bool
        requires { unit ≡ self.now.board.unit }
        ensures { result ≡ (calls_left (data_of mission.now) self.now == 0) }
    {
        match self.left {
            Some(left) => left == 0,
            None => mission.parts().script.storm_of(unit).is_none(),
        }
    }

    /// Begins the storm of the unit, which has turned: calls its rogue by the storm's number, which is then asked for as many
    /// strays as the storm has.
    pub fn begin<R: Rogue>(&mut self, mission: &Mission, unit: UnitId, rogue: &mut R)
        requires { (storm : StormEntry) × (storm_at (data_of mission.now) unit ≡ Some storm) }
        ensures { BeginsStorm R.allows (data_of mission.now) unit self.old rogue.old self.new rogue.new }
    {
        if let Some(storm) = mission.parts().script.storm_of(unit) {
            rogue.start(storm.number);
            self.left = Some(storm.strays);
            return;
        }
        unreachable!()
    }

    /// Asks the rogue for its next act, and answers what is to be stored of it.
    pub fn call_next<R: Rogue>(
        &mut self,
        layout: Layout,
        unit: UnitId,
        rogue: &mut R,
    ) -> Option<Shot>
        requires layout { IsLayout layout }
        requires calls { HasCalls self.old }
        ensures called { CallsNext R.allows layout unit self.old rogue.old result self.new rogue.new }
        ensures there { IfSome result (λ shot. (frames : ℕ) → IsCell (ranges_of layout frames) unit shot.to shot.slot) }
    {
        match self.left {
            Some(left) => self.left = Some(left - 1),
            None => unreachable!(),
        }
        next_shot(rogue, unit, layout)
    }

    /// The turn of a unit that flies: a step, and where it turns, its storm begins.
    fn fly_on<T: Port, R: Rogue>(&mut self, mission: &Mission, port: &mut T, rogue: &mut R) -> Gone
        requires manned { IsManned (data_of mission.now) (T.view port.old) self.old }
        requires flies { self.old.left ≡ None }
        ensures manned { IsManned (data_of mission.now) (T.view port.new) self.new }
        ensures comes { Comes T.follows R.allows (data_of mission.now) (place self.old port.old rogue.old) (place self.new port.new rogue.new) }
        ensures done { IfDone result (IsDone (data_of mission.now) (T.view port.new) self.new) }
    {
        storms_add_up(rogue);
        match self.step(mission, port) {
            Stepped::Moved => Gone::Moved,
            Stepped::NotYet { unit, seen } => Gone::Waits { unit, seen },
            Stepped::Turned => {
                let unit = port.unit();
                self.begin(mission, unit, rogue);
                Gone::Strayed
            }
            Stepped::Landed => Gone::Done,
        }
    }

    /// Asks the rogue for its next act, and stores the stray to which it comes, if it comes to one.
    fn store_next<T: Port, R: Rogue>(&mut self, mission: &Mission, port: &mut T, rogue: &mut R)
        requires manned { IsManned (data_of mission.now) (T.view port.old) self.old }
        requires calls { HasCalls self.old }
        ensures { StoresNext T.view T.follows R.allows (data_of mission.now) (place self.old port.old rogue.old) (place self.new port.new rogue.new) }
    {
        let layout = mission.parts().layout;
        let unit = port.unit();
        if let Some(shot) = self.call_next(layout, unit, rogue) {
            port.stray(shot.to, shot.slot, shot.cell);
        }
    }

    /// The turn of a unit whose storm has begun: one call of its rogue, if one is left.
    fn stray_on<T: Port, R: Rogue>(
        &mut self,
        mission: &Mission,
        port: &mut T,
        rogue: &mut R,
        left: u32,
    ) -> Gone
        requires manned { IsManned (data_of mission.now) (T.view port.old) self.old }
        requires left { self.old.left ≡ Some left }
        ensures manned { IsManned (data_of mission.now) (T.view port.new) self.new }
        ensures comes { Comes T.follows R.allows (data_of mission.now) (place self.old port.old rogue.old) (place self.new port.new rogue.new) }
        ensures done { IfDone result (IsDone (data_of mission.now) (T.view port.new) self.new) }
    {
        if left == 0 {
            return Gone::Done;
        }
        boards_drive_beside_strays();
        storms_add_up(rogue);
        self.store_next(mission, port, rogue);
        Gone::Strayed
    }

    /// The unit's turn: a step of its board, and where it turns, its storm begins; once it has turned, one call of its rogue,
    /// whose shot is stored.
    pub fn go<T: Port, R: Rogue>(&mut self, mission: &Mission, port: &mut T, rogue: &mut R) -> Gone
        requires { IsManned (data_of mission.now) (T.view port.old) self.old }
        ensures manned { IsManned (data_of mission.now) (T.view port.new) self.new }
        ensures comes { Comes T.follows R.allows (data_of mission.now) (place self.old port.old rogue.old) (place self.new port.new rogue.new) }
        ensures done { IfDone result (IsDone (data_of mission.now) (T.view port.new) self.new) }
    {
        match self.left {
            None => self.fly_on(mission, port, rogue),
            Some(left) => self.stray_on(mission, port, rogue, left),
        }
    }

    /// The accounts of all frames that the unit has ended, in order.
    pub fn end(self) -> Vec<Account>
        ensures { result ≡ self.board.accounts }
    {
        self.board.end()
    }
}
