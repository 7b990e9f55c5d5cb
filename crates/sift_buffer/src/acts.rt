//! Acts: a unit's journal with the stamps of its words, and what the unit knows. A port in plain
//! memory keeps them.
ghost use Rattle.std.specs.Prelude.{◌≡◌, ◌<◌, ◌≤◌, ◌+◌, ◌^◌, IfOk};
ghost use Rattle.sift_base.specs.Layout.{IsLayout};
ghost use Rattle.sift_base.specs.Units.{unit_limit};
ghost use Rattle.sift_buffer.specs.Ranges.{IsPlace};
ghost use Rattle.sift_buffer.specs.Conduct.{fresh, never, last_progress, with_seen, with_said, with_heard, with_entered, with_turned};
ghost use Rattle.sift_buffer.specs.Journals.{ranges_in};
ghost use Rattle.sift_buffer.specs.Ledgers.{Tells, Becomes, HasItsWords, conduct_in};

use crate::grid::Grid;
use crate::journal::Journal;
use sift_base::{Layout, NoMemory, UnitId, Word};
use std::alloc::Global;
use std::marker::Model;

/// The progress number of a unit that has turned, and where a unit that has not turned is said to leave.
const NEVER: u64 = u64::MAX;

/// What one unit did and knows, but for strays, which nobody needs to remember. Its memory is taken once, for all frames.
#[derive(Drop)]
pub struct Acts {
    grid: Grid,
    journal: Journal,
    progress: u64,
    left: u64,
    seen: [u64; 8],
    said: Vec<u16>,
    asked: Vec<u16>,
    heard_at: Vec<u16>,
}

impl Model for Acts {
    ghost use Rattle.sift_buffer.specs.Ledgers.{Ledger};
    ghost use Rattle.sift_buffer.specs.Sizes.{IsFull};

    ghost Value = { Ledger };

    ghost view = { λ a. record { pages = a.journal; progress = a.progress; left = a.left; seen = a.seen; said = a.said.items; asked = a.asked.items; heard_at = a.heard_at.items } };

    ghost invariant = { λ a. IsFull (record { pages = a.journal; progress = a.progress; left = a.left; seen = a.seen; said = a.said.items; asked = a.asked.items; heard_at = a.heard_at.items }) a.grid.layout a.grid.frames };
}

impl Acts {
    /// No acts yet.
    pub fn make(alloc: Global, layout: Layout, unit: UnitId, frames: u32) -> Result<Acts, NoMemory>
        requires layout { IsLayout layout }
        requires unit { unit < layout.units }
        ensures { IfOk result (λ acts. Tells acts layout unit frames fresh) }
    {
        let grid = Grid::of(layout, frames);
        Ok(Acts {
            grid,
            journal: Journal::make(alloc, layout, unit, frames)?,
            progress: 0,
            left: NEVER,
            seen: [0; 8],
            said: vec![in alloc; 0; grid.len()]?,
            asked: vec![in alloc; 0; grid.len()]?,
            heard_at: vec![in alloc; 0; grid.len()]?,
        })
    }

    /// The progress number of the unit.
    pub fn progress(&self) -> u64
        ensures { result ≡ self.now.progress }
    {
        self.progress
    }

    /// Notes a unit as seen at a progress number.
    pub fn note_seen(&mut self, unit: UnitId, number: u64)
        ensures { Becomes self.old self.new (with_seen (conduct_in self.old) unit number) }
    {
        self.seen[usize::from(unit.get())] = number;
    }

    /// Notes a word, or absence, as said with a stamp.
    pub fn note_said(&mut self, f: u32, slot: usize, to: UnitId, stamp: u32, word: Option<Word>)
        requires place { IsPlace (ranges_in self.old.pages) self.old.pages.unit to slot f }
        requires stamp { 1 ≤ stamp }
        requires flies { self.old.left ≡ never }
        requires near { stamp ≤ self.old.progress + 1 }
        ensures { Becomes self.old self.new (with_said (conduct_in self.old) f slot to stamp word) }
    {
        let entry = self.grid.index(f, slot, to);
        self.said[entry] = kept(stamp);
        self.journal.note_said_at(entry, word);
    }

    /// Notes a word, or absence, as heard with a stamp at the present progress.
    pub fn note_heard(&mut self, f: u32, slot: usize, from: UnitId, stamp: u32, word: Option<Word>)
        requires place { IsPlace (ranges_in self.old.pages) self.old.pages.unit from slot f }
        requires stamp { 1 ≤ stamp }
        requires flies { self.old.left ≡ never }
        requires past { stamp ≤ self.old.progress }
        ensures { Becomes self.old self.new (with_heard (conduct_in self.old) f slot from stamp word) }
    {
        let entry = self.grid.index(f, slot, from);
        self.asked[entry] = kept(stamp);
        self.heard_at[entry] = kept(self.progress as u32);
        self.journal.note_heard_at(entry, word);
    }

    /// Notes that the unit entered the next subframe.
    pub fn note_entered(&mut self)
        requires flies { self.old.left ≡ never }
        requires below { self.old.progress < last_progress }
        ensures { Becomes self.old self.new (with_entered (conduct_in self.old)) }
    {
        self.progress += 1;
    }

    /// Notes that the unit turned, at its present progress.
    pub fn note_turned(&mut self)
        requires { self.old.left ≡ never }
        ensures { Becomes self.old self.new (with_turned (conduct_in self.old)) }
    {
        self.left = self.progress;
        self.progress = NEVER;
    }

    /// The journal alone.
    pub fn end(self) -> Journal
        ensures pages { result ≡ self.pages }
        ensures words { HasItsWords self }
    {
        self.journal
    }
}

/// A stamp or a progress number as the lists keep it: none is above 64,001.
fn kept(number: u32) -> u16
    requires { number < 2 ^ 16 }
    ensures { result ≡ number }
{
    number as u16
}
