//! The clocks of a document.

ghost use Rattle.std.specs.Prelude.{codes, ◌≡◌, ◌<◌, ◌≤◌, ◌+◌, ◌*◌, ◌⊎◌, ◌↔◌, ℤ, List, IfOk, IfSome, IsTrue, None, Some, map, option_map, pos, replicate, ◌+ℤ◌, ◌≤ℤ◌};
ghost use Rattle.std.specs.List.{All};
ghost use Rattle.toml.specs.Data.{get_member};
ghost use Rattle.toml.specs.View.{table_view, view};
ghost use Rattle.sift_base.specs.Units.{unit_limit};
ghost use Rattle.sift_mission.specs.Parts.{clocks_of};
ghost use Rattle.sift_document.specs.Document.{IsTableOf, array_between, integer_between, members_of, read_or};
ghost use Rattle.sift_document.specs.Rules.{OfNoEntry};
ghost use Rattle.sift_document.specs.Testing.{Decides, DecidesEach};
ghost use Rattle.sift_sections.specs.Clock.{StartTogether, clock_keys, clock_rules, clocks_in, drifts_of, error_of, errors_of, figure_rules, length_of, rate_of, skew_of, starts_of, tick_limit, ticks_within, unit_ticks};
ghost use Rattle.sift_clock.specs.Distance.{IsWithin};

use arrayvec::ArrayVec;
use sift_document::{BrokenRule, member_of, number_at, optional_between, table_of};
use sift_skew::ClockPlan;
use toml::{Table, Value};

/// The farthest from 0 that a clock may start, and the most of a skew, an error and a rate.
const TICK_LIMIT: u32 = 8_000;

/// The figures of a clock, in ticks.
#[derive(Clone, Copy)]
struct Figures {
    skew: u32,
    error: u32,
    rate: u32,
    /// The length of a subframe.
    length: u32,
}

/// The clocks of a document, for so many units: those that its table `clock` states, in ticks, and where it has none plain ones,
/// which agree, with subframes of one tick.
///
/// Where the table breaks a rule, this is the first of rules 6 to 14 that it breaks. Each speaks of the whole table, so its
/// place is 0.
pub fn stated_clocks(document: &Table, units: u8) -> Result<ClockPlan, BrokenRule>
    requires { units ≤ unit_limit }
    ensures read { IfOk result (λ plan. clocks_of plan ≡ clocks_in units (get_member (codes "clock") (table_view document.now))) }
    ensures tests { DecidesEach (clock_rules units (get_member (codes "clock") (table_view document.now))) result }
{
    match member_of(document, "clock") {
        Some(value) => stated_clock_plan(value, units),
        None => Ok(plain_clock_plan(units)),
    }
}

/// The clocks that the value of `clock` states.
fn stated_clock_plan(value: &Value, units: u8) -> Result<ClockPlan, BrokenRule>
    requires { units ≤ unit_limit }
    ensures read { IfOk result (λ plan. clocks_of plan ≡ clocks_in units (Some (view value.now))) }
    ensures tests { DecidesEach (clock_rules units (Some (view value.now))) result }
{
    let clock = clock_table(value)?;
    let figures = figures_of(clock)?;
    let start = starts_of(clock, units, figures.skew)?;
    let drift = drifts_of(clock, units, figures.rate)?;
    let errors = errors_of(clock, units, figures.error)?;
    Ok(ClockPlan {
        skew: figures.skew as i32,
        error: figures.error as i32,
        rate: figures.rate as i32,
        length: figures.length as i32,
        start,
        drift,
        errors,
    })
}

/// The table of a clock.
fn clock_table(value: &Value) -> Result<&Table, BrokenRule>
    ensures read { IfOk result (λ clock. table_view clock.now ≡ members_of (view value.now)) }
    ensures tests { Decides 6 (OfNoEntry (¬ IsTableOf clock_keys (view value.now))) result }
{
    match table_of(
        value,
        &[
            "skew", "error", "rate", "length", "start", "drift", "errors",
        ],
    ) {
        Some(clock) => Ok(clock),
        None => Err(BrokenRule::at(6, 0)),
    }
}

/// The four figures of a clock.
fn figures_of(clock: &Table) -> Result<Figures, BrokenRule>
    ensures skew { IfOk result (λ figures. skew_of (table_view clock.now) ≡ Some figures.skew) }
    ensures error { IfOk result (λ figures. error_of (table_view clock.now) ≡ Some figures.error) }
    ensures rate { IfOk result (λ figures. rate_of (table_view clock.now) ≡ Some figures.rate) }
    ensures length { IfOk result (λ figures. length_of (table_view clock.now) ≡ Some figures.length) }
    ensures tests { DecidesEach (figure_rules (table_view clock.now)) result }
{
    let skew = skew_of(clock)?;
    let (error, rate) = error_and_rate(clock)?;
    let length = length_of(clock)?;
    check_skew(skew, error, rate)?;
    check_length(skew, error, rate, length)?;
    Ok(Figures {
        skew,
        error,
        rate,
        length,
    })
}

/// The most that working clocks differ by.
fn skew_of(clock: &Table) -> Result<u32, BrokenRule>
    ensures read { IfOk result (λ skew. skew_of (table_view clock.now) ≡ Some skew) }
    ensures tests { Decides 7 (OfNoEntry (skew_of (table_view clock.now) ≡ None)) result }
{
    number_at(clock, "skew", 0, TICK_LIMIT).ok_or(BrokenRule::at(7, 0))
}

/// The most that a reading is wrong by, and the most that a clock drifts by in a frame.
fn error_and_rate(clock: &Table) -> Result<(u32, u32), BrokenRule>
    ensures error { IfOk result (λ both. error_of (table_view clock.now) ≡ Some both.0) }
    ensures rate { IfOk result (λ both. rate_of (table_view clock.now) ≡ Some both.1) }
    ensures tests { Decides 8 (OfNoEntry ((error_of (table_view clock.now) ≡ None) ⊎ (rate_of (table_view clock.now) ≡ None))) result }
{
    match (
        number_or_zero(clock, "error"),
        number_or_zero(clock, "rate"),
    ) {
        (Some(error), Some(rate)) => Ok((error, rate)),
        _ => Err(BrokenRule::at(8, 0)),
    }
}

/// The number of ticks at a key, and 0 where it is missing.
fn number_or_zero(clock: &Table, key: &str) -> Option<u32>
    ensures { result ≡ read_or 0 (integer_between 0 tick_limit) key.now (table_view clock.now) }
{
    Some(optional_between(clock, key, 0, TICK_LIMIT)?.unwrap_or(0))
}

/// The length of a subframe.
fn length_of(clock: &Table) -> Result<u32, BrokenRule>
    ensures read { IfOk result (λ length. length_of (table_view clock.now) ≡ Some length) }
    ensures tests { Decides 9 (OfNoEntry (length_of (table_view clock.now) ≡ None)) result }
{
    number_at(clock, "length", 1, 1_000_000).ok_or(BrokenRule::at(9, 0))
}

/// Tests that the correction of the clocks keeps the skew.
fn check_skew(skew: u32, error: u32, rate: u32) -> Result<(), BrokenRule>
    requires error { error ≤ tick_limit }
    requires rate { rate ≤ tick_limit }
    ensures { Decides 10 (OfNoEntry (skew < 5 * (error + rate))) result }
{
    if 5 * (error + rate) <= skew {
        Ok(())
    } else {
        Err(BrokenRule::at(10, 0))
    }
}

/// Tests that a subframe is longer than any clock leads another.
fn check_length(skew: u32, error: u32, rate: u32, length: u32) -> Result<(), BrokenRule>
    requires skew { skew ≤ tick_limit }
    requires error { error ≤ tick_limit }
    requires rate { rate ≤ tick_limit }
    ensures { Decides 11 (OfNoEntry (length < 2 * skew + error + rate + 1)) result }
{
    if 2 * skew + error + rate < length {
        Ok(())
    } else {
        Err(BrokenRule::at(11, 0))
    }
}

/// The offset of each unit's clock at the start.
fn starts_of(clock: &Table, units: u8, skew: u32) -> Result<ArrayVec<i32, 8>, BrokenRule>
    requires units { units ≤ unit_limit }
    requires skew { skew ≤ tick_limit }
    ensures read { IfOk result (λ starts. starts_of units (table_view clock.now) ≡ Some starts.items) }
    ensures tests { Decides 12 (OfNoEntry ((starts : List ℤ) →
        (starts_of units (table_view clock.now) ≡ Some starts) → ¬ StartTogether skew starts)) result }
{
    match ticks_at(clock, "start", units, TICK_LIMIT) {
        Some(starts) if are_together(&starts, skew) => Ok(starts),
        _ => Err(BrokenRule::at(12, 0)),
    }
}

/// The drift of each unit's clock in a frame.
fn drifts_of(clock: &Table, units: u8, rate: u32) -> Result<ArrayVec<i32, 8>, BrokenRule>
    requires units { units ≤ unit_limit }
    requires rate { rate ≤ tick_limit }
    ensures read { IfOk result (λ drifts. drifts_of units rate (table_view clock.now) ≡ Some drifts.items) }
    ensures tests { Decides 13 (OfNoEntry (drifts_of units rate (table_view clock.now) ≡ None)) result }
{
    ticks_at(clock, "drift", units, rate).ok_or(BrokenRule::at(13, 0))
}

/// By how much each unit misreads the clock of each unit.
fn errors_of(
    clock: &Table,
    units: u8,
    error: u32,
) -> Result<ArrayVec<ArrayVec<i32, 8>, 8>, BrokenRule>
    requires units { units ≤ unit_limit }
    requires error { error ≤ tick_limit }
    ensures read { IfOk result (λ rows. errors_of units error (table_view clock.now) ≡ Some (map (λ row. row.items) rows.items)) }
    ensures tests { Decides 14 (OfNoEntry (errors_of units error (table_view clock.now) ≡ None)) result }
{
    rows_at(clock, units, error).ok_or(BrokenRule::at(14, 0))
}

/// Whether no two of the offsets differ by more than the skew.
fn are_together(offsets: &[i32], skew: u32) -> bool
    ensures { IsTrue result ↔ StartTogether skew offsets.now }
{
    for offset in offsets {
        if !is_near(offset, offsets, skew) {
            return false;
        }
    }
    true
}

/// Whether the offset is above none of the others by more than the skew.
fn is_near(offset: &i32, others: &[i32], skew: u32) -> bool
    ensures { IsTrue result ↔ All (λ other. offset.now ≤ℤ (other +ℤ pos skew)) others.now }
{
    for other in others {
        if i64::from(*other) + i64::from(skew) < i64::from(*offset) {
            return false;
        }
    }
    true
}

/// The ticks of each unit at a key, no farther from 0 than `far`, and zeros where it is missing.
fn ticks_at(clock: &Table, key: &str, units: u8, far: u32) -> Option<ArrayVec<i32, 8>>
    requires units { units ≤ unit_limit }
    requires far { far ≤ tick_limit }
    ensures { option_map (λ ticks. ticks.items) result ≡ read_or (replicate units (pos 0)) (unit_ticks units far) key.now (table_view clock.now) }
{
    match member_of(clock, key) {
        Some(value) => unit_ticks(value, units, far),
        None => Some(zeros(units)),
    }
}

/// The ticks of each unit in an array, no farther from 0 than `far`.
fn unit_ticks(value: &Value, units: u8, far: u32) -> Option<ArrayVec<i32, 8>>
    requires units { units ≤ unit_limit }
    requires far { far ≤ tick_limit }
    ensures { option_map (λ ticks. ticks.items) result ≡ unit_ticks units far (view value.now) }
{
    let entries = value.as_array()?.as_slice();
    if entries.len() != usize::from(units) {
        return None;
    }
    let mut ticks = ArrayVec::new();
    for entry in entries {
        ticks.push(ticks_within(entry, far)?);
    }
    Some(ticks)
}

/// The number of ticks of an integer that is no farther from 0 than `far`.
fn ticks_within(value: &Value, far: u32) -> Option<i32>
    requires { far ≤ tick_limit }
    ensures read { result ≡ ticks_within far (view value.now) }
    ensures near { IfSome result (λ ticks. IsWithin (pos far) ticks (pos 0)) }
{
    let ticks = value.as_integer()?;
    if ticks < -i64::from(far) || i64::from(far) < ticks {
        return None;
    }
    Some(ticks as i32)
}

/// The errors of each unit, no farther from 0 than `far`, and zeros where they are missing.
fn rows_at(clock: &Table, units: u8, far: u32) -> Option<ArrayVec<ArrayVec<i32, 8>, 8>>
    requires units { units ≤ unit_limit }
    requires far { far ≤ tick_limit }
    ensures { option_map (λ rows. map (λ row. row.items) rows.items) result ≡ errors_of units far (table_view clock.now) }
{
    match member_of(clock, "errors") {
        Some(value) => unit_rows(value, units, far),
        None => Some(rows_of_zeros(units)),
    }
}

/// The ticks of each unit for each unit in an array of arrays, no farther from 0 than `far`.
fn unit_rows(value: &Value, units: u8, far: u32) -> Option<ArrayVec<ArrayVec<i32, 8>, 8>>
    requires units { units ≤ unit_limit }
    requires far { far ≤ tick_limit }
    ensures { option_map (λ rows. map (λ row. row.items) rows.items) result
        ≡ array_between units units (unit_ticks units far) (view value.now) }
{
    let entries = value.as_array()?.as_slice();
    if entries.len() != usize::from(units) {
        return None;
    }
    let mut rows = ArrayVec::new();
    for entry in entries {
        rows.push(unit_ticks(entry, units, far)?);
    }
    Some(rows)
}

/// Clocks that agree, for so many units, with subframes of one tick.
fn plain_clock_plan(units: u8) -> ClockPlan
    requires { units ≤ unit_limit }
    ensures { clocks_of result ≡ clocks_in units None }
{
    ClockPlan {
        skew: 0,
        error: 0,
        rate: 0,
        length: 1,
        start: zeros(units),
        drift: zeros(units),
        errors: rows_of_zeros(units),
    }
}

/// A list of zeros, one for each unit.
fn zeros(units: u8) -> ArrayVec<i32, 8>
    requires { units ≤ unit_limit }
    ensures { result.items ≡ replicate units (pos 0) }
{
    let mut ticks = ArrayVec::new();
    for _ in 0..units {
        ticks.push(0);
    }
    ticks
}

/// A list of zeros for each unit.
fn rows_of_zeros(units: u8) -> ArrayVec<ArrayVec<i32, 8>, 8>
    requires { units ≤ unit_limit }
    ensures { map (λ row. row.items) result.items ≡ replicate units (replicate units (pos 0)) }
{
    let mut rows = ArrayVec::new();
    for _ in 0..units {
        rows.push(zeros(units));
    }
    rows
}
