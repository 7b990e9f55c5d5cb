//! Readings, which are what a unit hears of another clock, as a number of ticks; and the correction of a clock by them.

ghost use Rattle.std.specs.Prelude.{◌≡◌, pos, ◌+◌, ◌+ℤ◌, length, FitsSigned};
ghost use Rattle.sift_base.specs.Word.{word_of};
ghost use Rattle.sift_clock.specs.Distance.{IsWithin, error_limit};
ghost use Rattle.sift_clock.specs.Correction.{reading_of, is_too_far, counted, correction_of, CorrectionIsTheFloor};
ghost use Rattle.std.specs.Int.{w64};

use sift_base::Word;

// ---- readings

/// How many clock words there are.
const WORDS: i64 = 65_536;

/// The word by which a unit tells its offset: the lowest 16 bits, in two's complement.
pub fn clock_word(own: i64) -> Word
    ensures { result ≡ word_of own }
{
    Word::of(own.rem_euclid(WORDS) as u16)
}

/// How far another clock is ahead of the own one, by the word that was heard from it. There is no
/// reading where nothing was heard.
pub fn reading(heard: Option<Word>, own: i64, error: i32) -> Option<i32>
    requires { IsWithin error_limit error (pos 0) }
    ensures { result ≡ reading_of heard own error }
{
    let ahead = heard?.sub(clock_word(own));
    Some(i32::from(ahead.signed()) + error)
}

/// Whether a reading is absent, or farther than the limit from 0.
pub fn too_far(reading: Option<i32>, limit: i32) -> bool
    ensures { result ≡ is_too_far limit reading }
{
    match reading {
        Some(ticks) => i64::from(ticks.unsigned_abs()) > i64::from(limit),
        None => true,
    }
}

// ---- corrections

/// The correction of a clock among `n` clocks, in ticks: the floor of the mean of what it reads of all
/// of them, its own clock read as 0. A reading that is absent or too far counts as 0.
pub fn correction(readings: &[Option<i32>], limit: i32, n: u8) -> i64
    requires { length readings.now + 1 ≡ n }
    ensures { result ≡ correction_of limit n readings.now }
{
    let mut sum: i64 = 0;
    for reading in readings {
        sum += i64::from(counted(*reading, limit));
    }
    sum.div_euclid(i64::from(n))
}

/// What a reading counts for in the mean.
fn counted(reading: Option<i32>, limit: i32) -> i32
    ensures { result ≡ counted limit reading }
{
    match reading {
        Some(ticks) if !too_far(reading, limit) => ticks,
        _ => 0,
    }
}

/// The next offset of a clock: the own one, the correction and the drift. On the way to the sum a
/// part of it may leave the range where the sum is in range, so each addition wraps.
pub fn advance(own: i64, correction: i64, drift: i32) -> i64
    requires { FitsSigned w64 (own +ℤ correction +ℤ drift) }
    ensures { result ≡ own +ℤ correction +ℤ drift }
{
    own.wrapping_add(correction).wrapping_add(i64::from(drift))
}

// ---- the law that a correction is a mean

/// A correction is the floor of the counted sum of the readings, divided by the number of clocks.
pub fn correction_is_the_floor()
    ensures { CorrectionIsTheFloor }
{}
