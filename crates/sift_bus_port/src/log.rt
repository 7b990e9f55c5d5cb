//! Logs of what buses carried.
ghost use Rattle.std.specs.Prelude.{◌≡◌, length};
ghost use Rattle.sift_buffer.specs.Tables.{ranges_of, entry_count};

use sift_base::Word;
use sift_buffer::Grid;

/// What the faulty bus carried of each word that one unit heard, and which buses gave another word
/// than the majority of the three. Its memory is taken once, for all frames.
#[derive(Drop)]
pub struct BusLog {
    pub(crate) grid: Grid,
    pub(crate) carried: Vec<Option<Word>>,
    pub(crate) wrong: Vec<[bool; 3]>,
    ghost carried_long: { length carried.items ≡ entry_count (ranges_of grid.layout grid.frames) },
    ghost wrong_long: { length wrong.items ≡ entry_count (ranges_of grid.layout grid.frames) },
}
