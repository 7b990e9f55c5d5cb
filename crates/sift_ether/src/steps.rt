//! The single steps of a seat that stands for one unit: a load and a store. Each is one call of the
//! unit, and one event of the core. Nothing else of the crate reaches the words of a unit at its seat.
ghost use Rattle.std.specs.Prelude.{◌≡◌, ◌<◌};
ghost use Rattle.sift_buffer.specs.Ranges.{shared_words};
ghost use Rattle.sift_ether.specs.Steps.{MayLoad, MayStore, deed_of};
ghost use Rattle.sift_ether.specs.TableSeats.{ranges_at, chronicle_of, HasDone, IsAtTable, IsOne};

use crate::rule::{Adds, SharedWords, TableSeat, Told};
use sift_base::{UnitId, Word};

/// A call of a unit, without the number that its step loads or stores. It is for proofs alone: no step
/// looks at it.
#[derive(Clone, Copy)]
pub enum Call {
    Look {
        other: UnitId,
    },
    Hear {
        f: u32,
        slot: usize,
        from: UnitId,
        stamp: u32,
    },
    Say {
        f: u32,
        slot: usize,
        to: UnitId,
        stamp: u32,
        word: Option<Word>,
    },
    Enter,
    Turn,
    Stray {
        to: UnitId,
        slot: usize,
    },
}

/// The shared words, as a unit at its seat reaches them: by `load` and `store` alone, each of which is one
/// step and one deed of the unit. The words and the seat are this file's own, so there is no other way to
/// them.
#[derive(Drop)]
pub struct Reach<'a> {
    words: &'a SharedWords,
    seat: TableSeat,
    ghost table: { IsAtTable words.now.table_id words.now.key seat.table_id },
    ghost one: { IsOne (ranges_at words.now.key) seat.me },
}

impl<'a> Reach<'a> {
    /// A seat at the shared words. This makes no step.
    pub fn of(words: &'a SharedWords, seat: TableSeat) -> Reach<'a>
        requires table { IsAtTable words.now.table_id words.now.key seat.table_id }
        requires one { IsOne (ranges_at words.now.key) seat.me }
        ensures words { result.words.now ≡ words.now }
        ensures seat { result.seat ≡ seat }
    {
        Reach { words, seat }
    }

    /// The seat alone. This makes no step.
    pub fn end(self) -> TableSeat
        ensures { result ≡ self.entry.seat }
    {
        let Reach { words: _, seat } = self;
        seat
    }

    /// Loads a word, as one call of the seat's unit.
    pub fn load<C: Told>(&mut self, word: usize, call: Call) -> u64
        requires word { word < shared_words (ranges_at self.old.words.now.key) }
        requires told { C.deed ≡ deed_of call }
        requires may { MayLoad (ranges_at self.old.words.now.key) (chronicle_of self.old.seat.me) word call }
        ensures words { self.new.words ≡ self.old.words }
        ensures seat { (self.new.seat.table_id ≡ self.old.seat.table_id) × (self.new.seat.id ≡ self.old.seat.id) }
        ensures done { HasDone self.old.seat.me (deed_of call result) self.new.seat.me }
    {
        self.words.load::<Adds<C>>(&mut self.seat, word)
    }

    /// Stores a number in a word, as one call of the seat's unit.
    pub fn store<C: Told>(&mut self, word: usize, number: u64, call: Call)
        requires word { word < shared_words (ranges_at self.old.words.now.key) }
        requires told { C.deed ≡ deed_of call }
        requires may { MayStore (ranges_at self.old.words.now.key) (chronicle_of self.old.seat.me) word number call }
        ensures words { self.new.words ≡ self.old.words }
        ensures seat { (self.new.seat.table_id ≡ self.old.seat.table_id) × (self.new.seat.id ≡ self.old.seat.id) }
        ensures done { HasDone self.old.seat.me (deed_of call number) self.new.seat.me }
    {
        self.words.store::<Adds<C>>(&mut self.seat, word, number);
    }
}
