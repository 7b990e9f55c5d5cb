//! The shared words of all units, and how a thread sleeps while a unit hasn't moved on.
ghost use Rattle.std.specs.Prelude.{◌≡◌};
ghost use Rattle.sift_buffer.specs.Ranges.{shared_words};
ghost use Rattle.sift_ether.specs.TableSeats.{ranges_at};

use crate::rule::WordTable;
use sift_base::UnitId;
use sift_buffer::Grid;
use std::sync::Wait;
use std::time::Duration;

/// The cells and progress numbers of all units of a layout, as the words of one atomic table. It may
/// be lent to any number of threads.
#[derive(Drop)]
pub struct Ether {
    pub(crate) table: WordTable,
    pub(crate) grid: Grid,
    ghost key: { table.shared.key ≡ grid },
    ghost wide: { table.shared.table_id.words ≡ shared_words (ranges_at grid) },
    ghost slots: { table.shared.table_id.slots ≡ 0 },
}

/// How many numbers there are of the low bits of a word that a sleep compares.
const LOW: u64 = 1 << 32;

impl Ether {
    /// Sleeps where a unit's progress number still is the one that was seen, until it is woken (`wake`), and for so
    /// long at most. Where the number is another, or there is no such unit, it returns at once; it may also return for
    /// no reason. It takes no seat and makes no step, so the table stays as it is.
    ///
    /// Numbers are compared by their low 32 bits. One that is a multiple of 4,294,967,296 further on is taken for the
    /// number seen, and the sleep then lasts as long as it may.
    pub fn sleep_while<H: Wait>(&self, rt: &H, unit: UnitId, seen: u64, most: Duration) {
        if unit.get() < self.grid.layout.units {
            let word = usize::from(unit.get());
            self.table
                .shared
                .park_timeout(rt, word, (seen % LOW) as u32, most);
        }
    }

    /// Wakes all threads that sleep on a unit's progress number. A store of a number wakes nobody by itself. This
    /// takes no seat, makes no step, and doesn't wait.
    pub fn wake(&self, unit: UnitId) {
        if unit.get() < self.grid.layout.units {
            self.table.shared.wake_all(usize::from(unit.get()));
        }
    }
}
