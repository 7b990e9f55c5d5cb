//! The plan that a document states: units with values, and lies.

ghost use Rattle.std.specs.Prelude.{◌≡◌, ◌<◌, ℕ, List, IfSome, IfNone, Some, length, option_map, option_and_then, ◌≤◌, IfErr, IfOk, drop, map};
ghost use Rattle.toml.specs.Data.{get};
ghost use Rattle.toml.specs.View.{view, table_view};
ghost use Rattle.sift_document.specs.Document.{digit_to, digits_to, each_read};
ghost use Rattle.std.specs.List.{All};
ghost use Rattle.sift_base.specs.Stop.{IfRefused};
ghost use Rattle.sift_document.specs.Testing.{OnlyRefuses, RefusesFirst, Tests, TestsEach};
ghost use Rattle.sift_byz.specs.Lawful.{BreaksFew, IsByzPlanOf, IsRefusedWith, rules_for, rules_of};
ghost use Rattle.sift_byz.specs.Plan.{IsInRange, ByzPlanData, TraitorsAreFew, lie_of, byz_plan_of, most_traitors, most_units};
ghost use Rattle.sift_byz.specs.Testing.{MayBe};
ghost use Rattle.sift_byz.specs.Stated.{IsPath, lie_in, lie_limit, lies_of, m_of, units_of, values_of};

use crate::lies::{EntryRule, check_each, lie_entries, lies_in};
use arrayvec::ArrayVec;
use sift_base::{Stop, Word};
use sift_document::{
    BrokenRule, broken, digit_to, has_only_keys, member_of, number_at, word_array,
};
use std::alloc::Global;
use toml::{Table, Value};

// ---- the values of an entry

/// The value at a key of a value, if that is a table.
pub(crate) fn member_in<'a>(value: &'a Value, key: &str) -> Option<&'a Value>
    ensures { option_map (λ member. view member.now) result ≡ get key.now (view value.now) }
{
    match value.as_table() {
        Some(table) => member_of(table, key),
        None => None,
    }
}

/// The numbers of the string of digits at a key of a value, if there are at most `N`.
pub(crate) fn digits_at<const N: usize>(value: &Value, key: &str) -> Option<ArrayVec<u8, N>>
    ensures found { IfSome result (λ digits. option_and_then (digits_to 9) (get key.now (view value.now)) ≡ Some digits.items) }
    ensures none { IfNone result ((digits : List ℕ) → option_and_then (digits_to 9) (get key.now (view value.now)) ≡ Some digits → N < length digits) }
{
    let digits = member_in(value, key)?.as_str()?;
    digits_in(digits)
}

/// The numbers of a text of digits, if there are at most `N`.
fn digits_in<const N: usize>(text: &str) -> Option<ArrayVec<u8, N>>
    ensures found { IfSome result (λ digits. each_read (digit_to 9) text.now ≡ Some digits.items) }
    ensures none { IfNone result ((digits : List ℕ) → each_read (digit_to 9) text.now ≡ Some digits → N < length digits) }
{
    if N < text.len() {
        return None;
    }
    let mut digits = ArrayVec::new();
    for byte in text.as_bytes() {
        digits.push(digit_to(*byte, 9)?);
    }
    Some(digits)
}

// ---- the plan

/// A lie: what the last unit of a path tells in place of what it heard by the path before it.
#[derive(Drop)]
pub struct Lie {
    /// The units that the word came through, in the order in which they told it.
    pub path: ArrayVec<u8, 3>,
    /// The units that it is told to.
    pub to: ArrayVec<u8, 10>,
    /// The word that is told, or `None` where nothing is.
    pub value: Option<Word>,
}

/// Units with values, and the lies of the traitors among them.
#[derive(Drop)]
pub struct ByzPlan {
    /// How many units there are, at most 10.
    pub units: u8,
    /// How many of them may lie, at most 2. They relay in as many rounds.
    pub m: u8,
    /// Each unit's own value.
    pub values: ArrayVec<Word, 10>,
    /// The lies. Of those by one path to one unit the first is told.
    pub lies: Vec<Lie>,
}

// ---- reading it

/// The plan that a document states.
///
/// The nine rules are tested in the order of their numbers, and each for the entries of `lie` in their order.
pub fn read_byz(alloc: Global, document: &Table) -> Result<ByzPlan, Stop<BrokenRule>>
    ensures accepted { IfOk result (λ plan. IsByzPlanOf (table_view document.now) (byz_plan_of plan)) }
    ensures within { IfOk result (λ plan. IsInRange (byz_plan_of plan)) }
    ensures few { IfOk result (λ plan. TraitorsAreFew (byz_plan_of plan)) }
    ensures refused { IfErr result (IfRefused (IsRefusedWith (table_view document.now))) }

    // A document that states a plan, or is owed a refusal, gets it, unless memory is wanting.
    ensures complete { (plan : ByzPlanData) → IsByzPlanOf (table_view document.now) plan → IfErr result (λ why. why ≡ Stop.NoMemory) }
    ensures exact { (owed : BrokenRule) → IsRefusedWith (table_view document.now) owed → OnlyRefuses owed result }
{
    read_plan(alloc, document)
}

/// The plan that a document states, or the first rule that it breaks.
fn read_plan(alloc: Global, document: &Table) -> Result<ByzPlan, Stop<BrokenRule>>
    ensures accepted { IfOk result (λ plan. IsByzPlanOf (table_view document.now) (byz_plan_of plan)) }
    ensures refused { IfErr result (RefusesFirst (rules_of (table_view document.now))) }
{
    if !has_only_keys(document, &["units", "m", "values", "lie"]) {
        return Err(broken(1, 0));
    }
    let Some(m) = m_of(document) else {
        return Err(broken(2, 0));
    };
    let Some(units) = units_of(document, m) else {
        return Err(broken(3, 0));
    };
    let Some(values) = values_of(document, units) else {
        return Err(broken(4, 0));
    };
    let lies = stated_lies(alloc, document, units, m)?;
    Ok(ByzPlan {
        units,
        m,
        values,
        lies,
    })
}

/// The lies that a document states, or the first of the rules from the fifth on that it breaks, where so many units may lie.
fn stated_lies(
    alloc: Global,
    document: &Table,
    units: u8,
    m: u8,
) -> Result<Vec<Lie>, Stop<BrokenRule>>
    requires { MayBe units m }
    ensures lies { IfOk result (λ lies. map lie_of lies.items ≡ map lie_in (lies_of (table_view document.now))) }
    ensures tests { TestsEach (drop 4 (rules_for units m (table_view document.now))) result }
{
    let entries = lie_entries(document)?;
    check_each(entries, EntryRule::Path { units, m })?;
    check_each(entries, EntryRule::Receivers { units, m })?;
    let lies = lies_in(alloc, entries, units, m)?;
    check_few(&lies, units, m)?;
    Ok(lies)
}

/// How many units may lie, if that is stated.
fn m_of(document: &Table) -> Option<u8>
    ensures m { result ≡ m_of (table_view document.now) }
    ensures few { IfSome result (λ m. m ≤ most_traitors) }
{
    let m = number_at(document, "m", 0, 2)?;
    Some(m as u8)
}

/// How many units there are, where so many may lie, if that is stated.
fn units_of(document: &Table, m: u8) -> Option<u8>
    requires { m ≤ most_traitors }
    ensures units { result ≡ units_of m (table_view document.now) }
    ensures few { IfSome result (λ units. units ≤ most_units) }
{
    let units = number_at(document, "units", 3 * u32::from(m) + 1, 10)?;
    Some(units as u8)
}

/// The words of `values`, if there are as many as units.
fn values_of(document: &Table, units: u8) -> Option<ArrayVec<Word, 10>>
    requires { units ≤ most_units }
    ensures { option_map (λ values. values.items) result ≡ values_of units (table_view document.now) }
{
    let values = member_of(document, "values")?;
    word_array(values, usize::from(units), usize::from(units))
}

/// Tests that at most `m` units stand last in a path.
fn check_few(lies: &[Lie], units: u8, m: u8) -> Result<(), Stop<BrokenRule>>
    requires few { length lies.now ≤ lie_limit }
    requires traitors { m ≤ most_traitors }
    requires paths { All (λ lie. IsPath units m lie.path.items) lies.now }
    ensures { Tests 9 (BreaksFew units m (map lie_of lies.now)) result }
{
    let mut tellers = ArrayVec::<u8, 2>::new();
    for (place, lie) in lies.iter().enumerate() {
        let last = lie.path[lie.path.len() - 1];
        if !tellers.contains(&last) {
            // The lie that makes one teller too many is the place, whoever lied before.
            if tellers.len() == usize::from(m) {
                return Err(broken(9, place));
            }
            tellers.push(last);
        }
    }
    Ok(())
}
