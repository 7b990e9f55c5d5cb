//! Cells: a stamp and a word, or its absence, in one number.
ghost use Rattle.std.specs.Prelude.{◌≡◌, ◌↔◌, IsNone};
ghost use Rattle.sift_buffer.specs.Cell.{IsWord, packed, taken, CarriesWord};

use sift_base::Word;

/// What one stamp counts in a cell.
const STAMP: u64 = 1 << 17;

/// What the mark of presence counts in a cell.
const PRESENT: u64 = 1 << 16;

/// The cell that carries this stamp with the word, or with absence.
pub fn pack(stamp: u32, word: Option<Word>) -> u64
    ensures cell { result ≡ packed stamp word }
    ensures small { IsWord word }
{
    let content = match word {
        Some(word) => PRESENT + u64::from(word.get()),
        None => 0,
    };
    u64::from(stamp) * STAMP + content
}

/// The word of the cell, where it is present and has this stamp.
#[tactic(auto, unfolding(crate::specs::Cell::taken))]
pub fn take(cell: u64, stamp: u32) -> Option<Word>
    ensures word { result ≡ taken cell stamp }
    ensures absent { IsNone result ↔ (¬ CarriesWord cell stamp) }
{
    let is_present = cell % STAMP / PRESENT == 1;
    if cell / STAMP == u64::from(stamp) && is_present {
        Some(Word::of((cell % PRESENT) as u16))
    } else {
        None
    }
}
