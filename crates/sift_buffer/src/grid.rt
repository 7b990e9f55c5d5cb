//! Where the entry of a frame, slot and unit stands in a list that has one for each.
ghost use Rattle.std.specs.Prelude.{◌≡◌, ◌<◌};
ghost use Rattle.sift_base.specs.Layout.{IsLayout, slot_count};
ghost use Rattle.sift_buffer.specs.Ranges.{shared_words, place};
ghost use Rattle.sift_buffer.specs.Tables.{ranges_of, IsEntry, entry_count, entry_number};

use sift_base::{Layout, UnitId};

/// The entries of a list with one for each frame, slot and unit. The number of slots stands beside the
/// layout, so that no entry counts them anew.
#[derive(Clone, Copy)]
pub struct Grid {
    pub layout: Layout,
    pub frames: u32,
    slots: usize,
    ghost lawful: { IsLayout layout },
    ghost counted: { slots ≡ slot_count layout },
}

impl Grid {
    /// The grid of a layout and a number of frames.
    pub fn of(layout: Layout, frames: u32) -> Grid
        requires { IsLayout layout }
        ensures layout { result.layout ≡ layout }
        ensures frames { result.frames ≡ frames }
    {
        let slots = layout.count();
        Grid {
            layout,
            frames,
            slots,
        }
    }

    /// How many entries the list has.
    pub fn len(&self) -> usize
        ensures { result ≡ entry_count (ranges_of self.now.layout self.now.frames) }
    {
        self.frames as usize * self.slots * usize::from(self.layout.units)
    }

    /// The number of the entry of a frame, slot and unit.
    pub fn index(&self, f: u32, slot: usize, unit: UnitId) -> usize
        requires { IsEntry (ranges_of self.now.layout self.now.frames) f slot unit }
        ensures number { result ≡ entry_number (ranges_of self.now.layout self.now.frames) f slot unit }
        ensures below { result < entry_count (ranges_of self.now.layout self.now.frames) }
    {
        let row = f as usize * self.slots + slot;
        row * usize::from(self.layout.units) + usize::from(unit.get())
    }

    /// How many words the units share.
    pub fn shared_words(&self) -> usize
        ensures { result ≡ shared_words (ranges_of self.now.layout self.now.frames) }
    {
        let units = usize::from(self.layout.units);
        units + units * units * self.slots
    }

    /// Which of the shared words is a unit's cell for another in a slot.
    pub fn place(&self, from: UnitId, to: UnitId, slot: usize) -> usize
        requires from { from < self.now.layout.units }
        requires to { to < self.now.layout.units }
        requires slot { slot < slot_count self.now.layout }
        ensures place { result ≡ place (ranges_of self.now.layout self.now.frames) from to slot }
        ensures below { result < shared_words (ranges_of self.now.layout self.now.frames) }
    {
        let units = usize::from(self.layout.units);
        let pair = usize::from(from.get()) * units + usize::from(to.get());
        units + (pair * self.slots + slot)
    }
}
