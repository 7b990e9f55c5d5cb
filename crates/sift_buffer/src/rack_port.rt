//! The plain memory of all units as the port of each.
ghost use Rattle.std.specs.Prelude.{◌≡◌, ◌<◌, ℕ, List, IfOk, ⊤};
ghost use Rattle.sift_base.specs.Layout.{IsLayout};
ghost use Rattle.sift_buffer.specs.Conduct.{Stray, stray_to};
ghost use Rattle.sift_buffer.specs.Lawful.{Lawful};
ghost use Rattle.sift_buffer.specs.Ranges.{IsCell};
ghost use Rattle.sift_buffer.specs.Racks.{IsNewRack, IsChosen, IsStored, Follows, Stands, view_of, ranges_for, core_of, conduct_at};
ghost use Rattle.sift_buffer.specs.Crews.{IsCrew};
ghost use Rattle.sift_buffer.specs.Following.{itself, further};

use crate::acts::Acts;
use crate::cell::{pack, take};
use crate::grid::Grid;
use crate::port::{Look, Port};
use crate::rack::Rack;
use sift_base::{Layout, NoMemory, UnitId, Word};
use std::alloc::Global;

impl Rack {
    /// A rack on which no unit has done anything, with the memory for all their acts. It is the port of unit 0.
    pub fn make(alloc: Global, layout: Layout, frames: u32) -> Result<Rack, NoMemory>
        requires { IsLayout layout }
        ensures { IfOk result (λ rack. IsNewRack rack layout frames) }
    {
        let grid = Grid::of(layout, frames);
        let words = vec![in alloc; 0; grid.shared_words()]?;
        let acts = Rack::make_acts(alloc, layout, frames)?;
        Ok(Rack {
            grid,
            unit: UnitId::default(),
            words,
            acts,
            looks: [0; 8],
            last_units: [0; 8],
            last_numbers: [0; 8],
        })
    }

    /// The acts of all units of a layout, in their order, in which nothing was done.
    fn make_acts(alloc: Global, layout: Layout, frames: u32) -> Result<Vec<Acts>, NoMemory>
        requires { IsLayout layout }
        ensures { IfOk result (λ acts. IsCrew acts.items layout.units layout frames) }
    {
        let mut all = Vec::with_capacity(alloc, usize::from(layout.units))?;
        for number in 0..layout.units {
            let unit = UnitId::of(number).unwrap();
            all.push_reserved(Acts::make(alloc, layout, unit, frames)?);
        }
        Ok(all)
    }

    /// The layout of its units and their slots.
    pub fn layout(&self) -> Layout
        ensures { result ≡ self.now.grid.layout }
    {
        self.grid.layout
    }

    /// Makes it the port of another unit.
    pub fn choose(&mut self, unit: UnitId)
        requires { unit < self.old.grid.layout.units }
        ensures { IsChosen self.old unit self.new }
    {
        self.unit = unit;
    }

    /// The progress of a unit.
    pub fn progress_of(&self, unit: UnitId) -> u64
        requires { unit < self.now.grid.layout.units }
        ensures { result ≡ (conduct_at self.now unit).progress }
    {
        self.acts[usize::from(unit.get())].progress()
    }

    /// The progress of a unit, as its number among the shared words tells it: these lie close together.
    pub fn number_of(&self, unit: UnitId) -> u64
        requires lawful { (w : ℕ → List Stray) × Lawful (ranges_for self.now) (core_of self.now w) }
        requires unit { unit < self.now.grid.layout.units }
        ensures { result ≡ (conduct_at self.now unit).progress }
    {
        self.words[usize::from(unit.get())]
    }

    /// The acts alone.
    pub fn end(self) -> Vec<Acts>
        ensures { result ≡ self.acts }
    {
        self.acts
    }

    /// Stores a number in a unit's own cell for another unit in a slot.
    pub fn store(&mut self, unit: UnitId, to: UnitId, slot: usize, cell: u64)
        requires unit { unit < self.old.grid.layout.units }
        requires cell { IsCell (ranges_for self.old) unit to slot }
        ensures { IsStored self.old unit (stray_to to slot cell) self.new }
    {
        let place = self.grid.place(unit, to, slot);
        self.words[place] = cell;
    }
}

impl Look for Rack {
    ghost view = { view_of };

    ghost follows = { Follows };

    ghost stands = { Stands };

    ghost makes = { λ _ _ _. ⊤ };

    ghost follows_itself = { itself };

    ghost follows_on = { further };

    ghost makes_none = { λ _. tt };

    ghost makes_more = { λ _ _ _ _ _ _ _. tt };

    fn units(&self) -> u8 {
        self.grid.layout.units
    }

    fn unit(&self) -> UnitId {
        self.unit
    }

    fn progress(&self) -> u64 {
        self.acts[usize::from(self.unit.get())].progress()
    }

    fn look(&mut self, other: UnitId) -> u64 {
        let number = self.words[usize::from(other.get())];
        let unit = usize::from(self.unit.get());
        let own = &mut self.acts[unit];
        own.note_seen(other, number);
        self.looks[unit] = self.looks[unit].saturating_add(1);
        self.last_units[unit] = other.get();
        self.last_numbers[unit] = number;
        number
    }
}

impl Port for Rack {
    fn say(&mut self, to: UnitId, slot: usize, f: u32, stamp: u32, word: Option<Word>) {
        let stored = word;
        let place = self.grid.place(self.unit, to, slot);
        self.words[place] = pack(stamp, stored);
        let own = &mut self.acts[usize::from(self.unit.get())];
        own.note_said(f, slot, to, stamp, word);
    }

    fn hear(&mut self, from: UnitId, slot: usize, f: u32, stamp: u32) -> Option<Word> {
        let place = self.grid.place(from, self.unit, slot);
        let word = take(self.words[place], stamp);
        let heard = word;
        let own = &mut self.acts[usize::from(self.unit.get())];
        own.note_heard(f, slot, from, stamp, heard);
        word
    }

    fn enter(&mut self) {
        let unit = usize::from(self.unit.get());
        let own = &mut self.acts[unit];
        self.words[unit] = own.progress() + 1;
        own.note_entered();
    }

    fn leave(&mut self) {
        let unit = usize::from(self.unit.get());
        let own = &mut self.acts[unit];
        own.note_turned();
        self.words[unit] = own.progress();
    }

    fn stray(&mut self, to: UnitId, slot: usize, cell: u64) {
        self.store(self.unit, to, slot, cell);
    }
}
