//! Buses, and one that carries one value.
ghost use Rattle.sift_bus_port.specs.Buses.{Carriage, carriage, AllowsConstant};

use sift_base::{UnitId, Word};

/// What carries words, and absence, between units.
///
/// Contracts see of a bus the steps that it allows, and nothing else: each call is proved to be one
/// of them. One that promises nothing allows every step, `λ before carriage after. ⊤`. Then any
/// body is proved, and nothing is known of what it carries. So every body is lawful: one bus of
/// three that carries anything changes no word that a unit hears.
pub trait Bus: Drop {
    /// The steps that it allows: from the bus before, by what it is given and what it gives, to the
    /// bus after.
    ghost allows: { Self → Carriage → Self → Type 0 };

    /// Carries a word, or absence, that a unit said to another in a frame and slot, and answers
    /// what arrives.
    fn carry(
        &mut self,
        f: u32,
        from: UnitId,
        to: UnitId,
        slot: usize,
        word: Option<Word>,
    ) -> Option<Word>
        ensures { allows self.old (carriage f from to slot word result) self.new };
}

/// A bus that carries each word as it is before a frame, and from that frame on one value in place
/// of every word and absence, or absence where there is no value.
#[derive(Drop)]
pub struct Constant {
    pub from: u32,
    pub value: Option<Word>,
}

impl Bus for Constant {
    ghost allows = { AllowsConstant };

    fn carry(
        &mut self,
        f: u32,
        _from: UnitId,
        _to: UnitId,
        _slot: usize,
        word: Option<Word>,
    ) -> Option<Word> {
        if f < self.from { word } else { self.value }
    }
}
