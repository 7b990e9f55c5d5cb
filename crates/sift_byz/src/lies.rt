//! The entries of `lie`, and the lies that they state.

ghost use Rattle.std.specs.Prelude.{codes, ◌≡◌, ◌<◌, ◌≤◌, ◌↔◌, ℕ, List, IfOk, IfSome, IfNone, IsTrue, Some, length, map, option_and_then};
ghost use Rattle.std.specs.List.{All, list_any};
ghost use Rattle.toml.specs.Data.{get};
ghost use Rattle.toml.specs.View.{table_view, view};
ghost use Rattle.sift_base.specs.Units.{has};
ghost use Rattle.sift_document.specs.Document.{entries_of, word_value};
ghost use Rattle.sift_document.specs.Rules.{HoldsOf};
ghost use Rattle.sift_document.specs.Testing.{Tests};
ghost use Rattle.sift_byz.specs.Lawful.{BreaksLies};
ghost use Rattle.sift_byz.specs.Plan.{lie_of, most_traitors, most_units};
ghost use Rattle.sift_byz.specs.Stated.{AreDifferent, AreReceivers, HasPath, HasReceivers, HasWord, IsPath, lie_in, lie_limit, lie_value, lies_of, path_of, to_of};
ghost use Rattle.sift_byz.specs.Testing.{BreaksEntry, IsLimited, Keeps, MayBe, number_of};

use crate::reading::{Lie, digits_at, member_in};
use arrayvec::ArrayVec;
use sift_base::{Stop, Word, is_ascending};
use sift_document::{BrokenRule, broken, entries_between, member_of, table_of, word_value};
use std::alloc::Global;
use toml::{Table, Value};

/// The entries of `lie`, by rule 5. There are none where it is missing.
pub(crate) fn lie_entries(document: &Table) -> Result<&[Value], Stop<BrokenRule>>
    ensures entries { IfOk result (λ entries. map (λ entry. view entry) entries.now ≡ lies_of (table_view document.now)) }
    ensures few { IfOk result (λ entries. length entries.now ≤ lie_limit) }
    ensures tests { Tests 5 (BreaksLies (lie_value (table_view document.now))) result }
{
    match member_of(document, "lie") {
        Some(value) => stated_entries(value),
        None => Ok(&[]),
    }
}

/// The entries that the value of `lie` states.
fn stated_entries(value: &Value) -> Result<&[Value], Stop<BrokenRule>>
    ensures entries { IfOk result (λ entries. map (λ entry. view entry) entries.now ≡ entries_of (Some (view value.now))) }
    ensures few { IfOk result (λ entries. length entries.now ≤ lie_limit) }
    ensures tests { Tests 5 (BreaksLies (Some (view value.now))) result }
{
    let entries = entries_between(value, 0, 6_000, 5)?;
    check_each(entries, EntryRule::Keys)?;
    Ok(entries)
}

/// A rule that asks something of each entry.
#[derive(Clone, Copy)]
pub(crate) enum EntryRule {
    /// It is a table with no other keys than it may have.
    Keys,
    /// It has a path of at most `m + 1` units.
    Path { units: u8, m: u8 },
    /// It has receivers of what comes by its path.
    Receivers { units: u8, m: u8 },
}

/// Tests each entry by a rule.
pub(crate) fn check_each(entries: &[Value], rule: EntryRule) -> Result<(), Stop<BrokenRule>>
    requires few { length entries.now ≤ lie_limit }
    requires limited { IsLimited rule }
    ensures { Tests (number_of rule) (BreaksEntry rule (map (λ entry. view entry) entries.now)) result }
{
    for (place, entry) in entries.iter().enumerate() {
        if !keeps(entry, rule) {
            return Err(broken(number_of(rule), place));
        }
    }
    Ok(())
}

/// The number of a rule.
fn number_of(rule: EntryRule) -> u32
    ensures { result ≡ number_of rule }
{
    match rule {
        EntryRule::Keys => 5,
        EntryRule::Path { .. } => 6,
        EntryRule::Receivers { .. } => 7,
    }
}

/// Whether an entry keeps a rule.
fn keeps(entry: &Value, rule: EntryRule) -> bool
    requires { IsLimited rule }
    ensures { IsTrue result ↔ Keeps rule (view entry.now) }
{
    match rule {
        EntryRule::Keys => table_of(entry, &["path", "to", "value"]).is_some(),
        EntryRule::Path { units, m } => has_path(entry, units, m),
        EntryRule::Receivers { units, m } => has_receivers(entry, units, m),
    }
}

fn has_path(entry: &Value, units: u8, m: u8) -> bool
    requires { m ≤ most_traitors }
    ensures { IsTrue result ↔ HasPath units m (view entry.now) }
{
    match path_of(entry, units, m) {
        Some(_) => true,
        None => false,
    }
}

fn has_receivers(entry: &Value, units: u8, m: u8) -> bool
    requires { MayBe units m }
    ensures { IsTrue result ↔ HasReceivers units m (view entry.now) }
{
    match path_of(entry, units, m) {
        Some(path) => match receivers_of(entry, units, &path) {
            Some(_) => true,
            None => false,
        },
        None => false,
    }
}

// ---- a lie

/// The lies that the entries state, by rule 8.
pub(crate) fn lies_in(
    alloc: Global,
    entries: &[Value],
    units: u8,
    m: u8,
) -> Result<Vec<Lie>, Stop<BrokenRule>>
    requires few { length entries.now ≤ lie_limit }
    requires limited { MayBe units m }
    requires received { (place : ℕ) → ¬ HoldsOf (map (λ entry. view entry) entries.now) place (λ lie. ¬ HasReceivers units m lie) }
    ensures lies { IfOk result (λ lies. map lie_of lies.items ≡ map lie_in (map (λ entry. view entry) entries.now)) }
    ensures paths { IfOk result (λ lies. All (λ lie. IsPath units m lie.path.items) lies.items) }
    ensures tests { Tests 8 (λ place. HoldsOf (map (λ entry. view entry) entries.now) place (λ lie. ¬ HasWord lie)) result }
{
    let mut lies = Vec::new(alloc);
    for (place, entry) in entries.iter().enumerate() {
        match lie_in(entry, units, m) {
            Some(lie) => lies.push(lie)?,
            None => return Err(broken(8, place)),
        }
    }
    Ok(lies)
}

/// The lie that an entry states.
fn lie_in(entry: &Value, units: u8, m: u8) -> Option<Lie>
    requires { MayBe units m }
    ensures found { IfSome result (λ lie. lie_of lie ≡ lie_in (view entry.now)) }
    ensures path { IfSome result (λ lie. IsPath units m lie.path.items) }
    ensures word { IfSome result (λ _. HasWord (view entry.now)) }
    ensures none { IfNone result (HasReceivers units m (view entry.now) → ¬ HasWord (view entry.now)) }
{
    let path = path_of(entry, units, m)?;
    let to = receivers_of(entry, units, &path)?;
    let value = said_of(entry)?;
    Some(Lie { path, to, value })
}

/// The path of an entry, in the order in which its units spoke.
fn path_of(entry: &Value, units: u8, m: u8) -> Option<ArrayVec<u8, 3>>
    requires { m ≤ most_traitors }
    ensures found { IfSome result (λ path. path_of (view entry.now) ≡ Some path.items) }
    ensures path { IfSome result (λ path. IsPath units m path.items) }
    ensures none { IfNone result (¬ HasPath units m (view entry.now)) }
{
    let path = digits_at(entry, "path")?;
    if is_path(&path, units, m) {
        Some(path)
    } else {
        None
    }
}

/// The receivers of what an entry tells by a path.
fn receivers_of(entry: &Value, units: u8, path: &[u8]) -> Option<ArrayVec<u8, 10>>
    requires { units ≤ most_units }
    ensures found { IfSome result (λ to. to_of (view entry.now) ≡ Some to.items) }
    ensures receivers { IfSome result (λ to. AreReceivers units path.now to.items) }
    ensures none { IfNone result ((to : List ℕ) → to_of (view entry.now) ≡ Some to → ¬ AreReceivers units path.now to) }
{
    let to = digits_at(entry, "to")?;
    if are_receivers(&to, units, path) {
        Some(to)
    } else {
        None
    }
}

/// The word that an entry tells, if it tells one: `None` where what is there is no word value.
fn said_of(entry: &Value) -> Option<Option<Word>>
    ensures found { IfSome result (λ said. said ≡ option_and_then word_value (get (codes "value") (view entry.now))) }
    ensures word { IfSome result (λ _. HasWord (view entry.now)) }
    ensures none { IfNone result (¬ HasWord (view entry.now)) }
{
    match member_in(entry, "value") {
        Some(value) => match word_value(value) {
            Some(word) => Some(Some(word)),
            None => None,
        },
        None => Some(None),
    }
}

// ---- lists of units

/// Whether these are 1 to `m + 1` different units, each below `units`.
fn is_path(path: &[u8], units: u8, m: u8) -> bool
    ensures { IsTrue result ↔ IsPath units m path.now }
{
    !path.is_empty()
        && path.len() <= usize::from(m) + 1
        && are_below(path, units)
        && are_different(path)
}

/// Whether each of these is below `units`.
fn are_below(list: &[u8], units: u8) -> bool
    ensures { IsTrue result ↔ All (λ u. u < units) list.now }
{
    for unit in list {
        if *unit >= units {
            return false;
        }
    }
    true
}

/// Whether no unit stands in a list twice.
fn are_different(list: &[u8]) -> bool
    ensures { IsTrue result ↔ AreDifferent list.now }
{
    match list {
        [first, rest @ ..] => !rest.contains(first) && are_different(rest),
        [] => true,
    }
}

/// Whether these are receivers of what comes by a path.
fn are_receivers(to: &[u8], units: u8, path: &[u8]) -> bool
    ensures { IsTrue result ↔ AreReceivers units path.now to.now }
{
    // Ascending units stand there once each, so a path and its receivers are told in one way.
    !to.is_empty() && is_ascending(to) && are_below(to, units) && !has_any(path, to)
}

/// Whether some of these units are in a path.
fn has_any(path: &[u8], units: &[u8]) -> bool
    ensures { result ≡ list_any (has path.now) units.now }
{
    for unit in units {
        if path.contains(unit) {
            return true;
        }
    }
    false
}
