//! Journals: the words that one unit said and heard in all frames.
ghost use Rattle.std.specs.Prelude.{◌≡◌, ◌<◌, IfOk};
ghost use Rattle.sift_base.specs.Layout.{IsLayout};
ghost use Rattle.sift_buffer.specs.Ranges.{IsPlace};
ghost use Rattle.sift_buffer.specs.Tables.{entry_count};
ghost use Rattle.sift_buffer.specs.Journals.{IsBlank, NotesSaid, NotesHeard, NotesSaidAt, NotesHeardAt, said_in, heard_in, ranges_in};

use crate::grid::Grid;
use sift_base::{Layout, NoMemory, UnitId, Word};
use std::alloc::Global;
use std::marker::Model;

/// The words that one unit said to each other unit and heard from it, in each frame and slot. Its
/// memory is taken once, for all frames.
#[derive(Drop)]
pub struct Journal {
    grid: Grid,
    unit: UnitId,
    said: Vec<Option<Word>>,
    heard: Vec<Option<Word>>,
}

impl Model for Journal {
    ghost use Rattle.sift_buffer.specs.Journals.{Pages};
    ghost use Rattle.sift_buffer.specs.Sizes.{IsSized};

    ghost Value = { Pages };

    ghost view = { λ j. record { layout = j.grid.layout; unit = j.unit; frames = j.grid.frames; said = j.said.items; heard = j.heard.items } };

    ghost invariant = { λ j. IsSized (record { layout = j.grid.layout; unit = j.unit; frames = j.grid.frames; said = j.said.items; heard = j.heard.items }) };
}

impl Journal {
    /// A journal in which every place is absent.
    pub fn make(
        alloc: Global,
        layout: Layout,
        unit: UnitId,
        frames: u32,
    ) -> Result<Journal, NoMemory>
        requires layout { IsLayout layout }
        requires unit { unit < layout.units }
        ensures { IfOk result (λ journal. IsBlank journal layout unit frames) }
    {
        let grid = Grid::of(layout, frames);
        Ok(Journal {
            grid,
            unit,
            said: vec![in alloc; None; grid.len()]?,
            heard: vec![in alloc; None; grid.len()]?,
        })
    }

    /// The word that was noted last as said in this frame and slot to this unit. It is absent where
    /// absence was noted, or nothing.
    pub fn said(&self, f: u32, slot: usize, to: UnitId) -> Option<Word>
        requires { IsPlace (ranges_in self.now) self.now.unit to slot f }
        ensures { result ≡ said_in self.now f slot to }
    {
        self.said[self.grid.index(f, slot, to)]
    }

    /// The word that was noted last as heard in this frame and slot from this unit. It is absent
    /// where absence was noted, or nothing.
    pub fn heard(&self, f: u32, slot: usize, from: UnitId) -> Option<Word>
        requires { IsPlace (ranges_in self.now) self.now.unit from slot f }
        ensures { result ≡ heard_in self.now f slot from }
    {
        self.heard[self.grid.index(f, slot, from)]
    }

    /// Notes a word, or absence, as said in this frame and slot to this unit.
    pub fn note_said(&mut self, f: u32, slot: usize, to: UnitId, word: Option<Word>)
        requires { IsPlace (ranges_in self.old) self.old.unit to slot f }
        ensures { NotesSaid self.old self.new f slot to word }
    {
        let entry = self.grid.index(f, slot, to);
        self.note_said_at(entry, word);
    }

    /// Notes a word, or absence, as heard in this frame and slot from this unit.
    pub fn note_heard(&mut self, f: u32, slot: usize, from: UnitId, word: Option<Word>)
        requires { IsPlace (ranges_in self.old) self.old.unit from slot f }
        ensures { NotesHeard self.old self.new f slot from word }
    {
        let entry = self.grid.index(f, slot, from);
        self.note_heard_at(entry, word);
    }

    /// Notes a word, or absence, as said at an entry.
    pub(crate) fn note_said_at(&mut self, entry: usize, word: Option<Word>)
        requires { entry < entry_count (ranges_in self.old) }
        ensures { NotesSaidAt self.old self.new entry word }
    {
        self.said[entry] = word;
    }

    /// Notes a word, or absence, as heard at an entry.
    pub(crate) fn note_heard_at(&mut self, entry: usize, word: Option<Word>)
        requires { entry < entry_count (ranges_in self.old) }
        ensures { NotesHeardAt self.old self.new entry word }
    {
        self.heard[entry] = word;
    }
}
