//! The clocks of a mission, the figures of a frame's clocks, and the laws of both.

ghost use Rattle.std.specs.Prelude.{◌↔◌, IsTrue, ◌≡◌, [], ◌++◌, pos, IfSome, MatchOption};
ghost use Rattle.sift_skew.specs.Limits.{AreNumbers, IsAdmitted, offset_limit};
ghost use Rattle.sift_clock.specs.Distance.{IsWithin};
ghost use Rattle.sift_skew.specs.Figures.{AreInRange, ArePaired, IsHighest, IsLowest, IsSkew, IsSlack};
ghost use Rattle.sift_skew.specs.Keeping.{CorrectedOffsetsAreClose, DriftsAddTwice, CeilingFitsExactlyWhere, SkewIsKept, SkewIsKeptWithoutFaults, SkewIsKeptWithMargin, ReadersAreKeptWithMargin, WordsAreReadRight, HeardClocksAreReadWell};
ghost use Rattle.sift_skew.specs.Leading.{OffsetsChangeLittle, SlackIsPositive, LeadIsAtMostOne, SkewIsUnique, SlackIsUnique};

use arrayvec::ArrayVec;

// ---- the clocks, and the limits within which their correction works

/// The largest skew that is admitted: as far as clock words tell offsets apart, with room to spare.
const SKEW_LIMIT: i32 = 8_000;

/// The clocks of a mission, in whole ticks.
#[derive(Clone, Drop)]
pub struct ClockPlan {
    /// The most that working clocks differ by.
    pub skew: i32,
    /// The most that a reading is wrong by.
    pub error: i32,
    /// The most that a clock drifts by in a frame.
    pub rate: i32,
    /// The length of a subframe.
    pub length: i32,
    /// The offset of each unit's clock as the flight begins.
    pub start: ArrayVec<i32, 8>,
    /// The drift of each unit's clock in a frame.
    pub drift: ArrayVec<i32, 8>,
    /// By how much each unit misreads the clock of each unit.
    pub errors: ArrayVec<ArrayVec<i32, 8>, 8>,
}

/// Whether clocks of these limits are admitted: their correction keeps the skew, words tell their
/// offsets apart, and a subframe is longer than any lead.
pub fn admits(skew: i32, error: i32, rate: i32, length: i32) -> bool
    requires { AreNumbers skew error rate length }
    ensures { IsTrue result ↔ IsAdmitted skew error rate length }
{
    5 * (error + rate) <= skew && skew <= SKEW_LIMIT && 2 * skew + error + rate < length
}

// ---- the figures of a frame's clocks

/// The skew: the largest difference of two of the offsets. There is none without offsets.
pub fn skew(offsets: &[i64]) -> Option<i64>
    requires { AreInRange offsets.now }
    ensures { MatchOption result (offsets.now ≡ []) (IsSkew offsets.now) }
{
    Some(highest(offsets)? - lowest(offsets)?)
}

/// The slack: the least time between the entry of a subframe by one clock and that of the next by
/// another or the same, the second with its offset of this frame or the next. There is none without
/// clocks.
pub fn slack(length: i32, now: &[i64], next: &[i64]) -> Option<i64>
    requires now { AreInRange now.now }
    requires next { AreInRange next.now }
    requires paired { ArePaired now.now next.now }
    ensures { MatchOption result (now.now ≡ []) (IsSlack length now.now next.now) }
{
    let lead = highest_of_both(now, next)? - lowest(now)?;
    Some(i64::from(length) - lead)
}

/// The highest of the offsets.
fn highest(offsets: &[i64]) -> Option<i64>
    requires { AreInRange offsets.now }
    ensures in_range { IfSome result (λ offset. IsWithin offset_limit offset (pos 0)) }
    ensures highest { MatchOption result (offsets.now ≡ []) (IsHighest offsets.now) }
{
    offsets.iter().copied().max()
}

/// The highest of the offsets in force in the frame or after it.
fn highest_of_both(now: &[i64], next: &[i64]) -> Option<i64>
    requires now { AreInRange now.now }
    requires next { AreInRange next.now }
    requires paired { ArePaired now.now next.now }
    ensures in_range { IfSome result (λ offset. IsWithin offset_limit offset (pos 0)) }
    ensures highest { MatchOption result (now.now ≡ []) (IsHighest (now.now ++ next.now)) }
{
    Some(highest(now)?.max(highest(next)?))
}

/// The lowest of the offsets.
fn lowest(offsets: &[i64]) -> Option<i64>
    requires { AreInRange offsets.now }
    ensures in_range { IfSome result (λ offset. IsWithin offset_limit offset (pos 0)) }
    ensures lowest { MatchOption result (offsets.now ≡ []) (IsLowest offsets.now) }
{
    offsets.iter().copied().min()
}

// ---- laws: the correction keeps the skew, and no clock leads by too much

/// Corrected offsets of n clocks, at most m of them faulty, differ by at most the ceiling of `(2nE + 3mS) / n`.
pub fn corrected_offsets_are_close()
    ensures { CorrectedOffsetsAreClose }
{}

/// Drifts add at most 2R.
pub fn drifts_add_twice()
    ensures { DriftsAddTwice }
{}

/// The ceiling and two drifts are at most S exactly where `S * (n - 3m) >= 2n * (E + R)`.
pub fn ceiling_fits_exactly_where()
    ensures { CeilingFitsExactlyWhere }
{}

/// Among n clocks, at most m of them faulty, `S * (n - 3m) >= 2n * (E + R)` keeps the skew S.
pub fn skew_is_kept()
    ensures { SkewIsKept }
{}

/// Where no clock is faulty, `S >= 2 * (E + R)` keeps the skew.
pub fn skew_is_kept_without_faults()
    ensures { SkewIsKeptWithoutFaults }
{}

/// In a configuration with margin, `S >= 5 * (E + R)` keeps the skew.
pub fn skew_is_kept_with_margin()
    ensures { SkewIsKeptWithMargin }
{}

/// There it keeps the skew of all who read the working clocks well, whether or not their own are read well.
pub fn readers_are_kept_with_margin()
    ensures { ReadersAreKeptWithMargin }
{}

/// Clock words tell offsets apart that are no farther apart than the largest skew.
pub fn words_are_read_right()
    ensures { WordsAreReadRight }
{}

/// A unit that hears the clock words of the other working units reads their clocks well.
pub fn heard_clocks_are_read_well()
    ensures { HeardClocksAreReadWell }
{}

/// An offset changes little at a boundary, whatever is read.
pub fn offsets_change_little()
    ensures { OffsetsChangeLittle }
{}

/// Under the limits that are admitted the slack is at least 1.
pub fn slack_is_positive()
    ensures { SlackIsPositive }
{}

/// Where the slack is at least 1, no clock enters a subframe before each other has entered the one
/// before it.
pub fn lead_is_at_most_one()
    ensures { LeadIsAtMostOne }
{}

/// Offsets have one skew.
pub fn skew_is_unique()
    ensures { SkewIsUnique }
{}

/// The clocks of a frame have one slack.
pub fn slack_is_unique()
    ensures { SlackIsUnique }
{}
