//! Ports: how one unit reaches the cells and progress numbers that the units share.
ghost use Rattle.std.specs.Prelude.{◌≡◌, ◌<◌, ◌≤◌, ◌+◌, ◌++◌, ℕ, List, [], ◌∷◌, IfSome};
ghost use Rattle.sift_base.specs.Units.{unit_limit};
ghost use Rattle.sift_buffer.specs.Conduct.{Stray, stray_to};
ghost use Rattle.sift_buffer.specs.Conditions.{MayEnter, MayTurn, PassesGate};
ghost use Rattle.sift_buffer.specs.Counts.{looks_of, steps_of_try, steps_of_turn};
ghost use Rattle.sift_buffer.specs.Views.{View, IsOther, PortMaySay, PortMayHear, PortMayStray, IsButForStrays, Decides, Tries, TriesTurn, Finds, view_with_look, view_with_said, view_with_heard, view_with_entered, view_with_turned};

use sift_base::{UnitId, Word};

/// One unit's place among the cells and progress numbers that units share, from which it looks at another's progress
/// number, by one load.
pub trait Look {
    /// The port as its unit, what this unit did and knows, and its looks. Whether it keeps strays is its own choice.
    ghost view: { Self → View };

    /// What no call changes: whose place it is, and what stands beside the unit. All that changed is by the unit's own
    /// events, with these strays, the newest first.
    ghost follows: { Self → List Stray → Self → Type 0 };

    /// That a unit's progress number is now this one, where the port can tell.
    ghost stands: { Self → ℕ → ℕ → Type 0 };

    /// That so many steps lead from the one to the other, where the port counts them. Each is one load or one store of
    /// one shared word.
    ghost makes: { Self → ℕ → Self → Type 0 };

    /// How many units there are.
    fn units(&self) -> u8
        ensures count { result ≡ (view self.now).ranges.units }
        ensures few { result ≤ unit_limit };

    /// The unit whose place it is.
    fn unit(&self) -> UnitId
        ensures { result ≡ (view self.now).unit };

    /// The progress number of the unit.
    fn progress(&self) -> u64
        ensures { result ≡ (view self.now).conduct.progress };

    /// Looks at another unit.
    fn look(&mut self, other: UnitId) -> u64
        requires { IsOther (view self.old) other }
        ensures looked { view self.new ≡ view_with_look (view self.old) other result }
        ensures stands { stands self.new other result }
        ensures steps { makes self.old 1 self.new }
        ensures follows { follows self.old [] self.new };

    /// A port follows itself.
    ghost follows_itself: { (x : Self) → follows x [] x };

    /// What follows a port that follows another follows that one too.
    ghost follows_on: { (x y z : Self) (earlier later : List Stray) → follows x earlier y → follows y later z → follows x (later ++ earlier) z };

    /// No step leads from a port to itself.
    ghost makes_none: { (x : Self) → makes x 0 x };

    /// Some steps, and then others.
    ghost makes_more: { (x y z : Self) (m n : ℕ) → makes x m y → makes y n z → makes x (m + n) z };
}

/// What a try to enter the next subframe, or to turn, came to.
#[derive(Clone, Copy, Debug, PartialEq, Eq)]
pub enum Entering {
    /// The progress is one more, or the unit has turned.
    Entered,
    /// A unit was found at a number below the own progress.
    NotYet { unit: UnitId, seen: u64 },
}

/// How one unit reaches the cells and progress numbers that the units share. A port says how one word is loaded or stored;
/// the gate before a subframe is the same for all ports, and is told here once.
pub trait Port: Look {
    /// Says a word, or absence, in a frame and slot to another unit, by one store.
    fn say(&mut self, to: UnitId, slot: usize, f: u32, stamp: u32, word: Option<Word>)
        requires { PortMaySay (Self.view self.old) to slot f stamp }
        ensures said { Self.view self.new ≡ view_with_said (Self.view self.old) f slot to stamp word }
        ensures steps { Self.makes self.old 1 self.new }
        ensures follows { Self.follows self.old [] self.new };

    /// Hears a word, or absence, in a frame and slot from another unit, by one load.
    fn hear(&mut self, from: UnitId, slot: usize, f: u32, stamp: u32) -> Option<Word>
        requires { PortMayHear (Self.view self.old) from slot f stamp }
        ensures heard { Self.view self.new ≡ view_with_heard (Self.view self.old) f slot from stamp result }
        ensures steps { Self.makes self.old 1 self.new }
        ensures follows { Self.follows self.old [] self.new };

    /// Stores the progress number, raised by one, by one store. Only a unit that passes the gate does.
    fn enter(&mut self)
        requires may { MayEnter (Self.view self.old).conduct }
        requires gate { PassesGate (Self.view self.old).ranges (Self.view self.old).conduct (Self.view self.old).unit }
        ensures entered { Self.view self.new ≡ view_with_entered (Self.view self.old) }
        ensures steps { Self.makes self.old 1 self.new }
        ensures follows { Self.follows self.old [] self.new };

    /// Stores the progress number of a unit that has turned, by one store. Beyond progress 0 only a unit that passes the
    /// gate does.
    fn leave(&mut self)
        requires may { MayTurn (Self.view self.old).conduct }
        requires gate { 0 < (Self.view self.old).conduct.progress → PassesGate (Self.view self.old).ranges (Self.view self.old).conduct (Self.view self.old).unit }
        ensures turned { Self.view self.new ≡ view_with_turned (Self.view self.old) }
        ensures steps { Self.makes self.old 1 self.new }
        ensures follows { Self.follows self.old [] self.new };

    /// Stores any number in the own cell for another unit in a slot, by one store. Only a unit that has turned does.
    fn stray(&mut self, to: UnitId, slot: usize, cell: u64)
        requires { PortMayStray (Self.view self.old) to slot }
        ensures rest { IsButForStrays (Self.view self.old) (Self.view self.new) }
        ensures steps { Self.makes self.old 1 self.new }
        ensures follows { Self.follows self.old (stray_to to slot cell ∷ []) self.new };

    /// Looks at the other units in ascending number, and enters the next subframe where none is
    /// behind. It stops at the first that is.
    fn try_enter(&mut self) -> Entering
        requires { MayEnter (Self.view self.old).conduct }
        ensures tried { Tries (Self.view self.old) result (Self.view self.new) }
        ensures stands { Finds result (Self.stands self.new) }
        ensures steps { Self.makes self.old (steps_of_try (Self.view self.old) result) self.new }
        ensures follows { Self.follows self.old [] self.new }
    {
        if let Some((unit, seen)) = find_behind(self) {
            return Entering::NotYet { unit, seen };
        }
        self.enter();
        Entering::Entered
    }

    /// Turns stray in place of entering the next subframe, by the same gate. At progress 0 there is no
    /// gate, and nothing is looked at. A unit that has turned doesn't say, hear, enter or turn any more.
    fn turn(&mut self) -> Entering
        requires { MayTurn (Self.view self.old).conduct }
        ensures tried { TriesTurn (Self.view self.old) result (Self.view self.new) }
        ensures stands { Finds result (Self.stands self.new) }
        ensures steps { Self.makes self.old (steps_of_turn (Self.view self.old) result) self.new }
        ensures follows { Self.follows self.old [] self.new }
    {
        if self.progress() == 0 {
            self.leave();
            return Entering::Entered;
        }
        if let Some((unit, seen)) = find_behind(self) {
            return Entering::NotYet { unit, seen };
        }
        self.leave();
        Entering::Entered
    }
}

/// The gate: looks at the other units in ascending number, up to the first that is behind the own progress. It answers
/// that unit and its number.
pub fn find_behind<L: Look>(port: &mut L) -> Option<(UnitId, u64)>
    ensures decided { Decides (L.view port.old) result (L.view port.new) }
    ensures stands { IfSome result (λ x. L.stands port.new x.0 x.1) }
    ensures steps { L.makes port.old (looks_of (L.view port.old) result) port.new }
    ensures follows { L.follows port.old [] port.new }
{
    let own = port.unit();
    let progress = port.progress();
    let units = port.units();
    for number in 0..units {
        if let Some(other) = UnitId::of(number) {
            if other != own {
                let seen = port.look(other);
                if seen < progress {
                    return Some((other, seen));
                }
            }
        }
    }
    None
}
