//! Pilots: what a worker drives, step by step; who is told of it, and how threads sleep while they wait for a unit.
ghost use Rattle.std.specs.Prelude.{◌≡◌};
ghost use Rattle.sift_workers.specs.Going.{IsHome};

use sift_base::UnitId;
use std::sync::Wait;

/// What a step came to.
#[derive(Clone, Copy, PartialEq, Eq)]
pub enum Went {
    /// Something was done.
    Moved,
    /// Nothing could be done: this unit was seen at this progress number, and has to get further first.
    Waits { unit: UnitId, seen: u64 },
    /// No step is left.
    Home,
}

impl Went {
    /// What the steps of two pilots came to: home where both are, waiting where none moved, and else moved. Where both
    /// wait, it is for the unit that was seen farther back. Of the pilots that one thread drives none is that unit,
    /// since it is behind the one of them that is farthest back.
    pub fn and(self, other: Went) -> Went
        ensures home { IsHome result → IsHome self × IsHome other }
        ensures both { IsHome self → result ≡ other }
    {
        match (self, other) {
            (Went::Home, _) => other,
            (_, Went::Home) => self,
            (Went::Moved, _) | (_, Went::Moved) => Went::Moved,
            (Went::Waits { seen, .. }, Went::Waits { seen: others, .. }) => {
                if others < seen { other } else { self }
            }
        }
    }
}

/// What is told of each entry of a unit into a subframe. No clause depends on what it does.
pub trait Probe {
    fn at(&self, unit: UnitId, subframe: u64);
}

/// A probe that does nothing.
pub struct NoProbe;

impl Probe for NoProbe {
    fn at(&self, unit: UnitId, subframe: u64) {
        let _ = (unit, subframe);
    }
}

/// A probe at whose words sleepers wake. No clause depends on what it does.
pub trait Bell: Probe {
    /// Sleeps for a bounded time, where the unit's progress number still is the one that was seen.
    fn sleep_while<H: Wait>(&self, rt: &H, unit: UnitId, seen: u64);
}

/// One unit's board, with all that it steps on.
pub trait Pilot: Drop {
    /// All that a step wants and keeps.
    ghost drives: { Self → Type 0 };

    /// What came of a pilot by its own steps.
    ghost comes: { Self → Self → Type 0 };

    /// No step is left.
    ghost is_home: { Self → Type 0 };

    /// The next step.
    fn go<B: Probe>(&mut self, probe: &B) -> Went
        requires { drives self.old }
        ensures drives { drives self.new }
        ensures comes { comes self.old self.new }
        ensures home { IsHome result → is_home self.new };

    /// Each pilot comes of itself, by no step.
    ghost comes_itself: { (x : Self) → comes x x };

    /// What comes of what came of a pilot comes of it.
    ghost comes_on: { (x y z : Self) → comes x y → comes y z → comes x z };
}
