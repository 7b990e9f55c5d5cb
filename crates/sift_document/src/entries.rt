//! The entries of an array, the tables that they are, and the rules that a document breaks.

ghost use Rattle.std.specs.Prelude.{◌≡◌, ◌<◌, ◌^◌, ◌≤◌, IfErr, IfOk, length, map};
ghost use Rattle.toml.specs.View.{table_view, view};
ghost use Rattle.sift_document.specs.Document.{IsArrayOf, IsTableOf, entries_of, members_of};
ghost use Rattle.sift_document.specs.Rules.{HoldsOf};
ghost use Rattle.sift_document.specs.Testing.{Tests};

use crate::value::table_of;
use sift_base::Stop;
use std::alloc::Global;
use toml::{Table, Value};

/// The first of some rules that a document breaks.
#[derive(Clone, Copy)]
pub struct BrokenRule {
    pub number: u32,
    /// The number of the first entry that breaks it, and 0 for a rule that speaks of no entry.
    pub place: u32,
}

impl BrokenRule {
    /// The rule of this number, which is broken at an entry.
    pub fn at(number: u32, entry: usize) -> BrokenRule
        requires { entry < 2 ^ 32 }
        ensures { result ≡ record { number = number; place = entry } }
    {
        BrokenRule {
            number,
            place: entry as u32,
        }
    }
}

// So a call that takes memory hands on, by `?`, what one that takes none refused.
impl From<BrokenRule> for Stop<BrokenRule> {
    ghost use Rattle.std.specs.Prelude.{◌≡◌};
    ghost use Rattle.sift_base.specs.declared.stop.Stop.TheVariants as stop;

    ghost from_gives = { λ broken came. came ≡ stop.Refused broken };

    fn from(broken: BrokenRule) -> Self {
        Stop::Refused(broken)
    }
}

/// The refusal of a rule that is broken at an entry.
pub fn broken(number: u32, entry: usize) -> Stop<BrokenRule>
    requires { entry < 2 ^ 32 }
    ensures { result ≡ Stop.Refused (record { number = number; place = entry }) }
{
    Stop::Refused(BrokenRule::at(number, entry))
}

/// The entries of an array that has from `low` to `high` of them, by the rule of this number.
pub fn entries_between(
    value: &Value,
    low: usize,
    high: usize,
    rule: u32,
) -> Result<&[Value], Stop<BrokenRule>>
    ensures entries { IfOk result (λ entries. map (λ entry. view entry) entries.now ≡ entries_of (Some (view value.now))) }
    ensures few { IfOk result (λ entries. length entries.now ≤ high) }
    ensures right { IfOk result (λ _. IsArrayOf low high (view value.now)) }
    ensures wrong { IfErr result (λ why. (why ≡ Stop.Refused (record { number = rule; place = 0 })) × (IsArrayOf low high (view value.now) → ⊥)) }
{
    let Some(array) = value.as_array() else {
        return Err(broken(rule, 0));
    };
    let entries = array.as_slice();
    if entries.len() < low || high < entries.len() {
        return Err(broken(rule, 0));
    }
    Ok(entries)
}

/// The tables that these entries are, by the rule of this number: each is a table with no other keys
/// than these.
pub fn tables_in<'a>(
    alloc: Global,
    entries: &'a [Value],
    known: &[&str],
    rule: u32,
) -> Result<Vec<&'a Table>, Stop<BrokenRule>>
    requires { length entries.now < 2 ^ 32 }
    ensures tables { IfOk result (λ tables.
        map (λ table. table_view table.now) tables.items ≡ map (λ entry. members_of (view entry)) entries.now) }
    ensures tests { let keys = map (λ key. key.now) known.now in
        Tests rule (λ place. HoldsOf (map (λ entry. view entry) entries.now) place (λ entry. ¬ IsTableOf keys entry)) result }
{
    let mut tables = Vec::new(alloc);
    for (place, entry) in entries.iter().enumerate() {
        match table_of(entry, known) {
            Some(table) => tables.push(table)?,
            None => return Err(broken(rule, place)),
        }
    }
    Ok(tables)
}
