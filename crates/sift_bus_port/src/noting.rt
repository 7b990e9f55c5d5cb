//! What is noted in a log, and what is told of it.
ghost use Rattle.std.specs.Prelude.{◌≡◌, ◌<◌, ◌≤◌, IfOk, slice_index_or, false};
ghost use Rattle.sift_base.specs.Layout.{IsLayout};
ghost use Rattle.sift_base.specs.Units.{unit_limit};
ghost use Rattle.sift_buffer.specs.Tables.{IsEntry};
ghost use Rattle.sift_bus_port.specs.Buses.{bus_count};
ghost use Rattle.sift_bus_port.specs.Logs.{blank_log, count_below, count_in, has_entry, log_of, log_with};
ghost use Rattle.sift_bus_port.specs.Telling.{LogsTellWhatWasHeard};

use crate::bus::Bus;
use crate::log::BusLog;
use sift_base::{Layout, NoMemory, UnitId, Word};
use sift_buffer::Grid;
use std::alloc::Global;

impl BusLog {
    /// A log in which nothing stands.
    pub fn make(alloc: Global, layout: Layout, frames: u32) -> Result<BusLog, NoMemory>
        requires { IsLayout layout }
        ensures { IfOk result (λ log. log_of log ≡ blank_log layout frames) }
    {
        let grid = Grid::of(layout, frames);
        Ok(BusLog {
            grid,
            carried: vec![in alloc; None; grid.len()]?,
            wrong: vec![in alloc; [false; 3]; grid.len()]?,
        })
    }

    /// What the faulty bus carried of the word that was heard in a frame and slot from a unit. It
    /// is absent where absence was carried, or nothing.
    pub fn carried(&self, f: u32, slot: usize, from: UnitId) -> Option<Word>
        requires { IsEntry (log_of self.now).ranges f slot from }
        ensures { result ≡ (log_of self.now).carried f slot from }
    {
        self.carried[self.grid.index(f, slot, from)]
    }

    /// How many words that were heard in a frame a bus got wrong, absence included.
    pub fn count(&self, f: u32, bus: u8) -> u32
        requires frame { f < (log_of self.now).ranges.frames }
        requires bus { bus < bus_count }
        ensures { result ≡ count_in (log_of self.now) f bus }
    {
        let mut count = 0;
        for slot in 0..self.grid.layout.count() {
            count += self.count_in_slot(f, slot, bus);
        }
        count
    }

    /// How many of them in one slot.
    fn count_in_slot(&self, f: u32, slot: usize, bus: u8) -> u32
        requires frame { f < (log_of self.now).ranges.frames }
        requires slot { slot < (log_of self.now).ranges.slots }
        requires bus { bus < bus_count }
        ensures count { result ≡ count_below (λ p. (log_of self.now).wrong f slot p bus) (log_of self.now).ranges.units }
        ensures few { result ≤ unit_limit }
    {
        let mut count = 0;
        for number in 0..self.grid.layout.units {
            if let Some(unit) = UnitId::of(number) {
                if self.is_wrong(f, slot, unit, bus) {
                    count += 1;
                }
            }
        }
        count
    }

    /// Whether a bus got the word wrong that was heard in a frame and slot from a unit.
    fn is_wrong(&self, f: u32, slot: usize, from: UnitId, bus: u8) -> bool
        requires entry { IsEntry (log_of self.now).ranges f slot from }
        requires bus { bus < bus_count }
        ensures { result ≡ (log_of self.now).wrong f slot from bus }
    {
        let wrong = self.wrong[self.grid.index(f, slot, from)];
        wrong[usize::from(bus)]
    }

    /// Notes what the faulty bus carried of one word, and which buses gave another word than the
    /// majority, where the log has the frame, the slot and the unit.
    pub(crate) fn note(
        &mut self,
        f: u32,
        slot: usize,
        from: UnitId,
        carried: Option<Word>,
        wrong: [bool; 3],
    )
        ensures { log_of self.new ≡ log_with (log_of self.old) f slot from carried (λ bus. slice_index_or wrong bus false) }
    {
        if self.has(f, slot, from) {
            let entry = self.grid.index(f, slot, from);
            self.carried[entry] = carried;
            self.wrong[entry] = wrong;
        }
    }

    /// Whether the log has the frame, the slot and the unit.
    fn has(&self, f: u32, slot: usize, from: UnitId) -> bool
        ensures { result ≡ has_entry (log_of self.now).ranges f slot from }
    {
        f < self.grid.frames
            && slot < self.grid.layout.count()
            && from.get() < self.grid.layout.units
    }
}

/// A log counts for the faulty bus the words that its unit heard and that this bus carried as
/// others, absence included, and none for a true bus; and it has what the faulty bus carried of
/// each word. It is so for every body of a bus.
pub fn logs_tell_what_was_heard<B: Bus>()
    ensures { LogsTellWhatWasHeard B.allows }
{}
