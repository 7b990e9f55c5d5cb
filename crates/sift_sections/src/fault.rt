//! The faults of a document.

ghost use Rattle.std.specs.Prelude.{codes, ◌≡◌, ◌≤◌, ◌⊎◌, ◌↔◌, ◌∷◌, [], IfOk, IfSome, IfNone, IsTrue, None, Some, length, map, option_map, unwrap_or};
ghost use Rattle.std.specs.List.{All};
ghost use Rattle.toml.specs.Data.{get_member};
ghost use Rattle.toml.specs.View.{table_view, view};
ghost use Rattle.sift_script.specs.Script.{change_of, changing, failing_of, fault_of, faults_of};
ghost use Rattle.sift_document.specs.Document.{IsTableOf, each_read, members_of, tables_in};
ghost use Rattle.sift_document.specs.Rules.{BreaksEntries, HoldsOf};
ghost use Rattle.sift_document.specs.Testing.{Decides, Tests, TestsEach};
ghost use Rattle.sift_sections.specs.Fault.{AreItems, StandsAlone, changes_of, fault_in, fault_limit, fault_rules, from_of, stated_storm, unit_of};
ghost use Rattle.sift_sections.specs.Item.{change_in, item_keys};
ghost use Rattle.sift_sections.specs.Reading.{AreFaultsRead};

use crate::item::{item_of, storm_in};
use sift_base::{NoMemory, Stop};
use sift_document::{
    BrokenRule, broken, entries_at, entries_between, member_of, number_at, table_of, tables_in,
};
use sift_script::{Entry, Item, Plan, Script};
use std::alloc::Global;
use toml::{Table, Value};

/// The script of the faults of a document, which may have none: an entry for each, in their order, with its unit, the frame from
/// which on it fails, and how: by the items that it says, or by a storm.
///
/// Where the entries of `fault` break a rule, this is the first of rules 26 to 30 that they break, at the first such fault
/// (at 0, where there are more than 16). Whether the script is good, as that no two entries have one unit, isn't asked here.
pub fn script_of(alloc: Global, document: &Table) -> Result<Script, Stop<BrokenRule>>
    ensures read { IfOk result (λ script.
        faults_of script ≡ map fault_in (tables_in (get_member (codes "fault") (table_view document.now)))) }
    ensures tests { TestsEach (fault_rules (get_member (codes "fault") (table_view document.now))) result }
{
    match member_of(document, "fault") {
        Some(value) => stated_script(alloc, value),
        None => Ok(Script {
            entries: Vec::new(alloc),
        }),
    }
}

/// The script that the value of `fault` states.
fn stated_script(alloc: Global, value: &Value) -> Result<Script, Stop<BrokenRule>>
    ensures read { IfOk result (λ script.
        faults_of script ≡ map fault_in (tables_in (Some (view value.now)))) }
    ensures tests { TestsEach (fault_rules (Some (view value.now))) result }
{
    let faults = fault_tables(alloc, value)?;
    let tables = faults.as_slice();
    let heads = fault_heads(alloc, tables)?;
    check_ways(tables)?;
    let said = said_items(alloc, tables)?;
    script_from(alloc, tables, &heads, said)
}

/// The tables of the faults.
fn fault_tables(alloc: Global, value: &Value) -> Result<Vec<&Table>, Stop<BrokenRule>>
    ensures tables { IfOk result (λ tables.
        map (λ fault. table_view fault.now) tables.items ≡ tables_in (Some (view value.now))) }
    ensures few { IfOk result (λ tables. length tables.items ≤ fault_limit) }
    ensures tests { Tests 26 (BreaksEntries 0 fault_limit
        (λ _. IsTableOf (codes "unit" ∷ codes "from" ∷ codes "say" ∷ codes "storm" ∷ [])) (Some (view value.now))) result }
{
    let entries = entries_between(value, 0, 16, 26)?;
    tables_in(alloc, entries, &["unit", "from", "say", "storm"], 26)
}

/// Which unit fails, and from which frame on.
#[derive(Clone, Copy)]
struct Head {
    unit: u8,
    from: u32,
}

/// Which unit of each fault fails, and from which frame on.
fn fault_heads(alloc: Global, tables: &[&Table]) -> Result<Vec<Head>, Stop<BrokenRule>>
    requires { length tables.now ≤ fault_limit }
    ensures units { IfOk result (λ heads.
        map (λ head. Some head.unit) heads.items ≡ map (λ fault. unit_of (table_view fault.now)) tables.now) }
    ensures from { IfOk result (λ heads.
        map (λ head. Some head.from) heads.items ≡ map (λ fault. from_of (table_view fault.now)) tables.now) }
    ensures tests { Tests 27 (λ place. HoldsOf (map (λ fault. table_view fault.now) tables.now) place
        (λ fault. (unit_of fault ≡ None) ⊎ (from_of fault ≡ None))) result }
{
    let mut heads = Vec::new(alloc);
    for (place, fault) in tables.iter().enumerate() {
        match head_of(fault) {
            Some(head) => heads.push(head)?,
            None => return Err(broken(27, place)),
        }
    }
    Ok(heads)
}

/// Which unit of a fault fails, and from which frame on.
fn head_of(fault: &Table) -> Option<Head>
    ensures unit { IfSome result (λ head. unit_of (table_view fault.now) ≡ Some head.unit) }
    ensures from { IfSome result (λ head. from_of (table_view fault.now) ≡ Some head.from) }
    ensures none { IfNone result ((unit_of (table_view fault.now) ≡ None) ⊎ (from_of (table_view fault.now) ≡ None)) }
{
    match (
        number_at(fault, "unit", 0, 7),
        number_at(fault, "from", 0, 999),
    ) {
        (Some(unit), Some(from)) => Some(Head {
            unit: unit as u8,
            from,
        }),
        _ => None,
    }
}

/// Tests that each fault fails in one way.
fn check_ways(tables: &[&Table]) -> Result<(), BrokenRule>
    requires { length tables.now ≤ fault_limit }
    ensures { Decides 28 (λ place. HoldsOf (map (λ fault. table_view fault.now) tables.now) place
        (λ fault. ¬ (StandsAlone (codes "say") (codes "storm") AreItems fault
        ⊎ StandsAlone (codes "storm") (codes "say") (IsTableOf (codes "number" ∷ codes "strays" ∷ [])) fault))) result }
{
    for (place, fault) in tables.iter().enumerate() {
        if !has_one_way(fault) {
            return Err(BrokenRule::at(28, place));
        }
    }
    Ok(())
}

/// Whether a fault fails in one way: by what it says, or by a storm.
fn has_one_way(fault: &Table) -> bool
    ensures { IsTrue result ↔ (StandsAlone (codes "say") (codes "storm") AreItems (table_view fault.now)
        ⊎ StandsAlone (codes "storm") (codes "say") (IsTableOf (codes "number" ∷ codes "strays" ∷ [])) (table_view fault.now)) }
{
    match (member_of(fault, "say"), member_of(fault, "storm")) {
        (Some(said), None) => are_items(said),
        (None, Some(storm)) => table_of(storm, &["number", "strays"]).is_some(),
        (Some(_), Some(_)) | (None, None) => false,
    }
}

/// Whether a `say` has as many items as it may, each a table with no other keys than it may have.
fn are_items(said: &Value) -> bool
    ensures { IsTrue result ↔ AreItems (view said.now) }
{
    match entries_between(said, 1, 64, 28) {
        Ok(entries) => have_item_keys(entries),
        Err(_) => false,
    }
}

/// Whether each of these entries is a table with no other keys than an item may have.
fn have_item_keys(entries: &[Value]) -> bool
    ensures { IsTrue result ↔ All (IsTableOf item_keys) (map (λ entry. view entry) entries.now) }
{
    for entry in entries {
        if table_of(entry, &["slot", "index", "word", "to", "frame", "value"]).is_none() {
            return false;
        }
    }
    true
}

/// The items that each fault says.
fn said_items(alloc: Global, tables: &[&Table]) -> Result<Vec<Vec<Item>>, Stop<BrokenRule>>
    requires { length tables.now ≤ fault_limit }
    ensures changes { IfOk result (λ said.
        map (λ items. Some (map change_of items.items)) said.items ≡ map (λ fault. changes_of (table_view fault.now)) tables.now) }
    ensures tests { Tests 29 (λ place. HoldsOf (map (λ fault. table_view fault.now) tables.now) place
        (λ fault. changes_of fault ≡ None)) result }
{
    let mut said = Vec::new(alloc);
    for (place, fault) in tables.iter().enumerate() {
        match items_in(alloc, entries_at(fault, "say"))? {
            Some(items) => said.push(items)?,
            None => return Err(broken(29, place)),
        }
    }
    Ok(said)
}

/// The items that these entries state, where each states one.
fn items_in(alloc: Global, entries: &[Value]) -> Result<Option<Vec<Item>>, NoMemory>
    ensures { IfOk result (λ found. option_map (λ items. map change_of items.items) found
        ≡ each_read change_in (map (λ entry. members_of (view entry)) entries.now)) }
{
    let mut items = Vec::new(alloc);
    for entry in entries {
        match stated_item(alloc, entry)? {
            Some(item) => items.push(item)?,
            None => return Ok(None),
        }
    }
    Ok(Some(items))
}

/// The item that an entry states, where it is a table that states one.
fn stated_item(alloc: Global, entry: &Value) -> Result<Option<Item>, NoMemory>
    ensures { IfOk result (λ found. option_map change_of found ≡ change_in (members_of (view entry.now))) }
{
    match entry.as_table() {
        Some(table) => item_of(alloc, table),
        None => Ok(None),
    }
}

/// The script of faults, where these are their heads, and what they say.
fn script_from(
    alloc: Global,
    tables: &[&Table],
    heads: &[Head],
    said: Vec<Vec<Item>>,
) -> Result<Script, Stop<BrokenRule>>
    requires few { length tables.now ≤ fault_limit }
    requires read { AreFaultsRead (map (λ fault. table_view fault.now) tables.now) heads.now
        (map (λ items. map change_of items.items) said.items) }
    ensures read { IfOk result (λ script.
        faults_of script ≡ map (λ fault. fault_in (table_view fault.now)) tables.now) }
    ensures tests { Tests 30 (λ place. HoldsOf (map (λ fault. table_view fault.now) tables.now) place
        (λ fault. stated_storm fault ≡ None)) result }
{
    let mut entries = Vec::new(alloc);
    for items in said {
        let place = entries.len();
        let Head { unit, from } = heads[place];
        match entry_plan_of(tables[place], items) {
            Some(plan) => entries.push(Entry { unit, from, plan })?,
            None => return Err(broken(30, place)),
        }
    }
    Ok(Script { entries })
}

/// How a fault fails that says this: by its storm, where it has one. `None` where its `storm` states none.
fn entry_plan_of(fault: &Table, items: Vec<Item>) -> Option<Plan>
    ensures { option_map failing_of result
        ≡ option_map (λ storm. unwrap_or storm (changing (map change_of items.items))) (stated_storm (table_view fault.now)) }
{
    match member_of(fault, "storm") {
        Some(value) => storm_in(value),
        None => Some(Plan::Say(items)),
    }
}
