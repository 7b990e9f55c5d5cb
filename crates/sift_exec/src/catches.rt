//! What a unit catches others at in a frame, and the record that it keeps of it.

ghost use Rattle.std.specs.Prelude.{◌≡◌};
ghost use Rattle.sift_exec.specs.Conviction.{everyone_in, has_kind, kinds_of, nobody, noted};
ghost use Rattle.sift_exec.specs.declared.catches.Catches.{Catches};
ghost use Rattle.std.specs.Coded.{codes};
ghost use Rattle.sift_exec.specs.contracts.catches.Catches as catches;

use sift_base::{UnitId, UnitSet};
use std::marker::Model;

/// In which way a unit was caught.
#[derive(Clone, Copy)]
pub enum Kind {
    /// A word that it put out is absent, or differs from the majority.
    Poll,
    /// A sensor's word that it relayed is absent, or isn't what its reader said.
    Relay,
    /// Its clock is absent, or too far away.
    Clock,
}

/// The ways in which one unit was caught.
#[derive(Clone, Copy, Default, PartialEq, Eq)]
pub struct Kinds {
    /// When a task was polled.
    pub poll: bool,
    /// When a sensor's relays were heard.
    pub relay: bool,
    /// When clocks were read.
    pub clock: bool,
}

impl Kinds {
    /// Whether this way is among them.
    pub fn has(self, kind: Kind) -> bool
        ensures { result ≡ has_kind self kind }
    {
        match kind {
            Kind::Poll => self.poll,
            Kind::Relay => self.relay,
            Kind::Clock => self.clock,
        }
    }
}

/// The units that a unit caught in a frame, by the way in which.
#[derive(Clone, Copy)]
pub struct Catches {
    /// Caught when a task was polled.
    pub poll: UnitSet,
    /// Caught when a sensor's relays were heard.
    pub relay: UnitSet,
    /// Caught when clocks were read.
    pub clock: UnitSet,
}

impl Catches {
    /// Nobody, in any way.
    pub fn none() -> Catches
        ensures { result ≡ nobody }
    {
        Catches {
            poll: UnitSet::empty(),
            relay: UnitSet::empty(),
            clock: UnitSet::empty(),
        }
    }

    /// The units that were caught, in whatever way.
    pub fn everyone(&self) -> UnitSet
        ensures { result ≡ everyone_in self.now }
    {
        self.poll.union(self.relay).union(self.clock)
    }

    /// The ways in which the unit was caught.
    pub fn kinds_of(&self, u: UnitId) -> Kinds
        ensures { result ≡ kinds_of self.now u }
    {
        Kinds {
            poll: self.poll.has(u),
            relay: self.relay.has(u),
            clock: self.clock.has(u),
        }
    }
}

// ---- the record

/// Whom a unit has caught so far in the frame. A clause sees the three sets.
#[derive(Clone, Copy)]
pub struct Recorder {
    caught: Catches,
}

impl Model for Recorder {
    ghost Value = { Catches };

    ghost coded = { Prim.hlevel (codes, catches.the_row.coded) };

    ghost view = { λ recorder. recorder.caught };

    ghost inverse = { λ caught. record { caught = caught } };
}

impl Recorder {
    /// A record without notes.
    pub fn new() -> Recorder
        ensures { result ≡ nobody }
    {
        Recorder {
            caught: Catches::none(),
        }
    }

    /// Notes that the unit was caught in this way.
    pub fn note(&mut self, u: UnitId, kind: Kind)
        ensures { self.new ≡ noted self.old u kind }
    {
        match kind {
            Kind::Poll => self.caught.poll = self.caught.poll.with(u),
            Kind::Relay => self.caught.relay = self.caught.relay.with(u),
            Kind::Clock => self.caught.clock = self.caught.clock.with(u),
        }
    }

    /// The units noted, by kind.
    pub fn catches(&self) -> Catches
        ensures { result ≡ self.now }
    {
        self.caught
    }

    /// The units noted, of whatever kind.
    pub fn mask(&self) -> UnitSet
        ensures { result ≡ everyone_in self.now }
    {
        self.caught.everyone()
    }

    /// Forgets all notes.
    pub fn clear(&mut self)
        ensures { self.new ≡ nobody }
    {
        *self = Recorder::new();
    }
}
