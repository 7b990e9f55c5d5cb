//! The words and the clocks of a frame: the same inputs, the ideal machine's outputs, the skew and the slack.

ghost use Rattle.std.specs.Prelude.{◌≡◌, ◌<◌, ◌≤◌, ◌↔◌, ℕ, All, IsTrue, List, Some, slice_index, true, IsSomeAnd, [], MatchOption, length, map, pos, ◌≤ℤ◌};
ghost use Rattle.sift_config.specs.Config.{reader_of};
ghost use Rattle.sift_mission.specs.Flown.{word_sensed};
ghost use Rattle.sift_mission.specs.Parts.{data_of};
ghost use Rattle.sift_program.specs.Ideal.{ideal_words};
ghost use Rattle.sift_report.specs.Headline.{TellsIdealOutputs, TellsSameInputs, TellsClockSkew};
ghost use Rattle.sift_report.specs.Told.{agreed_told, config_told, shed_told, works_in, told_at};
ghost use Rattle.sift_skew.specs.Figures.{IsHighest, IsLowest, IsSkew};
ghost use Rattle.sift_judge.specs.Clocks.{IsTrueSkew, clock_told, working_clocks};

use crate::form::{clock_told, figures_told, inputs_told, outputs_told};
use crate::working::{agreed_told, config_told, working_at, working_in};
use arrayvec::ArrayVec;
use sift_base::{UnitId, Word};
use sift_config::Config;
use sift_mission::Mission;
use sift_report::ReportLine;
use sift_skew::skew_is_unique;

// ---- words

/// Whether each working unit tells the same agreed words, and the word of a sensor that a working unit reads is the mission's.
pub(crate) fn has_same_inputs(mission: &Mission, lines: &[ReportLine], f: u32) -> bool
    requires frame { f < (data_of mission.now).frames }
    ensures { IsTrue result ↔ TellsSameInputs (data_of mission.now) lines.now f }
{
    let agreed = agreed_told(mission, lines, f);
    all_tell_inputs(mission, lines, f, &working_at(mission, f), agreed)
        && are_sensed(mission, lines, f, agreed)
}

/// Whether each of these units tells these agreed words.
fn all_tell_inputs(
    mission: &Mission,
    lines: &[ReportLine],
    f: u32,
    units: &[UnitId],
    agreed: &[Word],
) -> bool
    requires frame { f ≤ (data_of mission.now).frames }
    ensures { IsTrue result ↔ All (λ u. (told_at (data_of mission.now) lines.now f u).inputs ≡ agreed.now) units.now }
{
    for unit in units {
        if !are_same(inputs_told(mission, lines, f, *unit), agreed) {
            return false;
        }
    }
    true
}

/// Whether two lists of words are the same.
fn are_same(words: &[Word], others: &[Word]) -> bool
    ensures { IsTrue result ↔ (words.now ≡ others.now) }
{
    words == others
}

/// Whether the agreed word of each sensor that a working unit of the configuration reads is the mission's.
fn are_sensed(mission: &Mission, lines: &[ReportLine], f: u32, agreed: &[Word]) -> bool
    requires frame { f < (data_of mission.now).frames }
    ensures { IsTrue result ↔ ((us : List ℕ) (x : ℕ) → config_told (data_of mission.now) lines.now f ≡ Some us → x < (data_of mission.now).layout.sensors
        → works_in (data_of mission.now) (reader_of us x) f ≡ true → slice_index agreed.now x ≡ word_sensed (data_of mission.now) x f) }
{
    let Some(config) = config_told(mission, lines, f) else {
        return true;
    };
    for x in 0..mission.parts().layout.sensors {
        if !is_sensed(mission, &config, agreed, f, x) {
            return false;
        }
    }
    true
}

/// Whether the agreed word of a sensor is the mission's, where the unit works that reads it.
fn is_sensed(mission: &Mission, config: &Config, agreed: &[Word], f: u32, x: u8) -> bool
    requires frame { f < (data_of mission.now).frames }
    requires sensor { x < (data_of mission.now).layout.sensors }
    ensures { IsTrue result ↔ (works_in (data_of mission.now) (reader_of config.now x) f ≡ true
        → slice_index agreed.now x ≡ word_sensed (data_of mission.now) x f) }
{
    !mission.works(config.reader_of(x), f) || word_at(agreed, x) == mission.sensed(x, f)
}

/// The word at a place, and 0 where there is none.
fn word_at(words: &[Word], x: u8) -> Word
    ensures { result ≡ slice_index words.now x }
{
    match words.get(usize::from(x)) {
        Some(word) => *word,
        None => Word::of(0),
    }
}

/// Whether each working unit tells these words: the ideal machine's, over the agreed words and the configurations told so far.
pub(crate) fn has_ideal_outputs(
    mission: &Mission,
    lines: &[ReportLine],
    f: u32,
    words: &[Word],
) -> bool
    requires frame { f < (data_of mission.now).frames }
    requires words { words.now ≡ ideal_words (data_of mission.now).program (agreed_told (data_of mission.now) lines.now) (shed_told (data_of mission.now) lines.now) f }
    ensures { IsTrue result ↔ TellsIdealOutputs (data_of mission.now) lines.now f }
{
    all_tell_outputs(mission, lines, f, &working_at(mission, f), words)
}

/// Whether each of these units tells these words as its outputs.
fn all_tell_outputs(
    mission: &Mission,
    lines: &[ReportLine],
    f: u32,
    units: &[UnitId],
    words: &[Word],
) -> bool
    requires frame { f ≤ (data_of mission.now).frames }
    ensures { IsTrue result ↔ All (λ u. (told_at (data_of mission.now) lines.now f u).outputs ≡ words.now) units.now }
{
    for unit in units {
        if !are_same(outputs_told(mission, lines, f, *unit), words) {
            return false;
        }
    }
    true
}

// ---- clocks

/// Whether the line of a frame tells the largest difference of two working clocks of the configuration, which is at most the
/// mission's skew, and a slack of at least 1.
pub(crate) fn has_clock_skew(mission: &Mission, lines: &[ReportLine], f: u32) -> bool
    requires frame { f < (data_of mission.now).frames }
    ensures { IsTrue result ↔ TellsClockSkew (data_of mission.now) lines.now f }
{
    let (skew, slack) = figures_told(mission, lines, f);
    has_skew(mission, lines, f, skew) && is_slack(slack)
}

/// Whether this is a slack of at least 1.
fn is_slack(slack: Option<i64>) -> bool
    ensures { IsTrue result ↔ IsSomeAnd slack (λ slack. pos 1 ≤ℤ slack) }
{
    match slack {
        Some(slack) => slack >= 1,
        None => false,
    }
}

/// Whether this is the skew of the working clocks of the configuration told in a frame, where one is told.
fn has_skew(mission: &Mission, lines: &[ReportLine], f: u32, skew: Option<i64>) -> bool
    requires frame { f < (data_of mission.now).frames }
    ensures { IsTrue result ↔ ((us : List ℕ) → config_told (data_of mission.now) lines.now f ≡ Some us
        → IsSomeAnd skew (IsTrueSkew (data_of mission.now) (working_clocks (data_of mission.now) lines.now f us))) }
{
    match config_told(mission, lines, f) {
        Some(config) => has_skew_of(mission, lines, f, &config, skew),
        None => true,
    }
}

/// Whether this is the skew of the working clocks of this configuration.
fn has_skew_of(
    mission: &Mission,
    lines: &[ReportLine],
    f: u32,
    config: &Config,
    skew: Option<i64>,
) -> bool
    requires frame { f < (data_of mission.now).frames }
    ensures { IsTrue result ↔ IsSomeAnd skew (IsTrueSkew (data_of mission.now) (working_clocks (data_of mission.now) lines.now f config.now)) }
{
    match skew {
        Some(skew) => {
            let working = working_in(mission, config, f);
            is_skew(&clocks_of(mission, lines, f, &working), skew)
                && skew <= i64::from(mission.parts().clock.skew)
        }
        None => false,
    }
}

/// The offsets of their clocks that these units tell, in ticks.
fn clocks_of(mission: &Mission, lines: &[ReportLine], f: u32, units: &[UnitId]) -> ArrayVec<i64, 8>
    requires frame { f < (data_of mission.now).frames }
    requires few { length units.now ≤ 8 }
    ensures { result.items ≡ map (clock_told (data_of mission.now) lines.now f) units.now }
{
    let mut clocks = ArrayVec::new();
    for unit in units {
        clocks.push(clock_told(mission, lines, f, *unit));
    }
    clocks
}

/// Whether this is the skew of these offsets: the largest difference of two of them. No line tells a difference past 64 bits.
fn is_skew(offsets: &[i64], skew: i64) -> bool
    ensures { IsTrue result ↔ IsSkew offsets.now skew }
{
    skew_is_unique();
    let Some(highest) = highest(offsets) else {
        return false;
    };
    let Some(lowest) = lowest(offsets) else {
        return false;
    };
    // A line may tell any offsets of 64 bits, and the difference of two of them may need one bit more.
    i128::from(highest) - i128::from(lowest) == i128::from(skew)
}

/// The highest of these offsets, where there are some.
fn highest(offsets: &[i64]) -> Option<i64>
    ensures { MatchOption result (offsets.now ≡ []) (IsHighest offsets.now) }
{
    offsets.iter().copied().max()
}

/// The lowest of these offsets, where there are some.
fn lowest(offsets: &[i64]) -> Option<i64>
    ensures { MatchOption result (offsets.now ≡ []) (IsLowest offsets.now) }
{
    offsets.iter().copied().min()
}
