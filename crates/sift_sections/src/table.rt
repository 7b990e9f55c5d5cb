//! The tables of a document, one for the configurations of each size.

ghost use Rattle.std.specs.Prelude.{codes, ◌≡◌, ◌≢◌, ◌≤◌, ◌<◌, ◌^◌, ◌⊎◌, ◌↔◌, IfOk, IfSome, IfNone, IsTrue, None, Some, length, map, option_map};
ghost use Rattle.std.specs.List.{All};
ghost use Rattle.toml.specs.Data.{get_member};
ghost use Rattle.toml.specs.View.{table_view, view};
ghost use Rattle.sift_base.specs.Layout.{least_units};
ghost use Rattle.sift_base.specs.Shapes.{task_limit};
ghost use Rattle.sift_base.specs.Units.{unit_limit};
ghost use Rattle.sift_table.specs.Schedule.{schedule_of};
ghost use Rattle.sift_document.specs.Document.{members_of, tables_in};
ghost use Rattle.sift_document.specs.Rules.{BreaksEntries, HoldsOf, IsKept, rule};
ghost use Rattle.sift_document.specs.Testing.{Tests, TestsEach};
ghost use Rattle.sift_sections.specs.Table.{IsTableEntry, positions_of, schedule_in, schedules_by, shed_of, size_count, size_of, subframes_at, table_keys, table_rules};
ghost use Rattle.sift_sections.specs.Reading.{IsPartial};

use sift_base::{NoMemory, Stop};
use sift_document::{
    BrokenRule, broken, digit_lists, entries_at, entries_between, member_of, number_at, numbers_to,
    table_of,
};
use sift_table::{Table, plain_table};
use std::alloc::Global;
use toml::Value;

/// The tables of a document of this version and of so many units, subframes (`period`) and tasks: those that it
/// states, or else the plain ones, one for the configurations of each size, from 4 units to all.
///
/// Where the entries of `table` break a rule, this is the first of rules 23 to 25 that they break, at the first such entry
/// (at 0, where there aren't as many as sizes). Whether the tables are good isn't asked here, nor rule 31, which comes
/// behind those of the faults (`check_sheds`): a table that breaks it sheds nothing.
pub fn tables_of(
    alloc: Global,
    document: &toml::Table,
    version: u32,
    units: u8,
    period: u8,
    tasks: u8,
) -> Result<Vec<Table>, Stop<BrokenRule>>
    requires enough_units { least_units ≤ units }
    requires few_units { units ≤ unit_limit }
    requires few_tasks { tasks ≤ task_limit }
    ensures read { IfOk result (λ tables.
        map schedule_of tables.items ≡ schedules_by (get_member (codes "table") (table_view document.now)) units period tasks) }
    ensures few { IfOk result (λ _. length (tables_in (get_member (codes "table") (table_view document.now))) ≤ unit_limit) }
    ensures tests { TestsEach (table_rules version units (get_member (codes "table") (table_view document.now))) result }
{
    match member_of(document, "table") {
        Some(value) => stated_tables(alloc, value, version, units, period),
        None => Ok(all_plain(alloc, units, period, tasks)?),
    }
}

/// The plain tables of all sizes.
fn all_plain(alloc: Global, units: u8, period: u8, tasks: u8) -> Result<Vec<Table>, NoMemory>
    requires enough_units { least_units ≤ units }
    requires few_units { units ≤ unit_limit }
    requires few_tasks { tasks ≤ task_limit }
    ensures { IfOk result (λ tables. map schedule_of tables.items ≡ schedules_by None units period tasks) }
{
    let mut tables = Vec::new(alloc);
    for size in 4..units + 1 {
        tables.push(plain_table(alloc, size, period, tasks)?)?;
    }
    Ok(tables)
}

/// The tables that the value of `table` states.
fn stated_tables(
    alloc: Global,
    value: &Value,
    version: u32,
    units: u8,
    period: u8,
) -> Result<Vec<Table>, Stop<BrokenRule>>
    requires enough_units { least_units ≤ units }
    requires few_units { units ≤ unit_limit }
    ensures read { IfOk result (λ tables.
        map schedule_of tables.items ≡ map (schedule_in period) (tables_in (Some (view value.now)))) }
    ensures few { IfOk result (λ _. length (tables_in (Some (view value.now))) ≤ unit_limit) }
    ensures tests { TestsEach (table_rules version units (Some (view value.now))) result }
{
    let tables = sized_tables(alloc, value, version, units)?;
    check_times(alloc, &tables)?;
    read_tables(alloc, &tables, period)
}

/// The tables in the value of `table`, one for each size.
fn sized_tables(
    alloc: Global,
    value: &Value,
    version: u32,
    units: u8,
) -> Result<Vec<&toml::Table>, Stop<BrokenRule>>
    requires enough_units { least_units ≤ units }
    requires few_units { units ≤ unit_limit }
    ensures tables { IfOk result (λ tables.
        map (λ table. table_view table.now) tables.items ≡ tables_in (Some (view value.now))) }
    ensures few { IfOk result (λ tables. length tables.items ≤ unit_limit) }
    ensures sized { IfOk result (λ tables. All (λ table. size_of (table_view table.now) ≢ None) tables.items) }
    ensures tests { Tests 23 (BreaksEntries (size_count units) (size_count units) (IsTableEntry version)
        (Some (view value.now))) result }
{
    let sizes = usize::from(units) - 3;
    let entries = entries_between(value, sizes, sizes, 23)?;
    entries_by_size(alloc, entries, version)
}

/// The tables that these entries are, each of the size that its place tells.
fn entries_by_size<'a>(
    alloc: Global,
    entries: &'a [Value],
    version: u32,
) -> Result<Vec<&'a toml::Table>, Stop<BrokenRule>>
    requires { length entries.now ≤ unit_limit }
    ensures tables { IfOk result (λ tables.
        map (λ table. table_view table.now) tables.items ≡ map (λ entry. members_of (view entry)) entries.now) }
    ensures sized { IfOk result (λ tables. All (λ table. size_of (table_view table.now) ≢ None) tables.items) }
    ensures tests { Tests 23 (λ place. HoldsOf (map (λ entry. view entry) entries.now) place (λ entry. ¬ IsTableEntry version place entry)) result }
{
    let mut tables = Vec::new(alloc);
    for (place, entry) in entries.iter().enumerate() {
        match sized_table(entry, version, place) {
            Some(table) => tables.push(table)?,
            None => return Err(broken(23, place)),
        }
    }
    Ok(tables)
}

/// The table that an entry is, where it has the size that its place tells.
fn sized_table(entry: &Value, version: u32, place: usize) -> Option<&toml::Table>
    requires { place ≤ unit_limit }
    ensures found { IfSome result (λ table. table_view table.now ≡ members_of (view entry.now)) }
    ensures sized { IfSome result (λ _. IsTableEntry version place (view entry.now)) }
    ensures none { IfNone result (¬ IsTableEntry version place (view entry.now)) }
{
    let table = table_of(entry, table_keys(version))?;
    if number_at(table, "size", 4, 8) == Some(4 + place as u32) {
        Some(table)
    } else {
        None
    }
}

/// The keys that a table of `table` may have in a document of this version.
fn table_keys(version: u32) -> &'static [&'static str]
    ensures { map (λ key. key.now) result.now ≡ table_keys version }
{
    if version < 2 {
        &["size", "run", "poll", "at"]
    } else {
        &["size", "run", "poll", "at", "shed"]
    }
}

/// Tests that each table says when the tasks are run and polled.
fn check_times(alloc: Global, tables: &[&toml::Table]) -> Result<(), Stop<BrokenRule>>
    requires { length tables.now ≤ unit_limit }
    ensures { Tests 24 (λ place. HoldsOf (map (λ table. table_view table.now) tables.now) place
        (λ table. (subframes_at (codes "run") table ≡ None) ⊎ (subframes_at (codes "poll") table ≡ None))) result }
{
    for (place, table) in tables.iter().enumerate() {
        let timeless = is_timeless(alloc, table)?;
        if timeless {
            return Err(broken(24, place));
        }
    }
    Ok(())
}

/// Whether a table doesn't say when the tasks are run and polled.
fn is_timeless(alloc: Global, table: &toml::Table) -> Result<bool, NoMemory>
    ensures { IfOk result (λ timeless. IsTrue timeless ↔
        ((subframes_at (codes "run") (table_view table.now) ≡ None) ⊎ (subframes_at (codes "poll") (table_view table.now) ≡ None))) }
{
    let run = subframes_at(alloc, table, "run")?;
    let poll = subframes_at(alloc, table, "poll")?;
    Ok(run.is_none() || poll.is_none())
}

/// The schedules that these tables state, for frames of so many subframes.
fn read_tables(
    alloc: Global,
    tables: &[&toml::Table],
    period: u8,
) -> Result<Vec<Table>, Stop<BrokenRule>>
    requires few { length tables.now ≤ unit_limit }
    requires sized { All (λ table. size_of (table_view table.now) ≢ None) tables.now }
    requires timed { IsKept (rule 24 (λ place. HoldsOf (map (λ table. table_view table.now) tables.now) place
        (λ table. (subframes_at (codes "run") table ≡ None) ⊎ (subframes_at (codes "poll") table ≡ None)))) }
    ensures read { IfOk result (λ schedules.
        map schedule_of schedules.items ≡ map (λ table. schedule_in period (table_view table.now)) tables.now) }
    ensures tests { Tests 25 (λ place. HoldsOf (map (λ table. table_view table.now) tables.now) place
        (λ table. positions_of table ≡ None)) result }
{
    let mut schedules = Vec::new(alloc);
    for (place, table) in tables.iter().enumerate() {
        match read_table(alloc, table, period)? {
            Some(schedule) => schedules.push(schedule)?,
            None => return Err(broken(25, place)),
        }
    }
    Ok(schedules)
}

/// The schedule that a table states, where it states all of one.
fn read_table(alloc: Global, table: &toml::Table, period: u8) -> Result<Option<Table>, NoMemory>
    ensures found { IfOk result (λ found. IfSome found (λ schedule.
        schedule_of schedule ≡ schedule_in period (table_view table.now))) }
    ensures whole { IfOk result (λ found. IfSome found (λ _. positions_of (table_view table.now) ≢ None)) }
    ensures none { IfOk result (λ found. IfNone found (IsPartial (table_view table.now))) }
{
    let size = number_at(table, "size", 4, 8);
    let run = subframes_at(alloc, table, "run")?;
    let poll = subframes_at(alloc, table, "poll")?;
    let at = positions_at(alloc, table)?;
    let shed = match shed_at(alloc, table)? {
        Some(shed) => shed,
        None => Vec::new(alloc),
    };
    match (size, run, poll, at) {
        (Some(size), Some(run), Some(poll), Some(at)) => Ok(Some(Table {
            size: size as u8,
            period,
            run,
            poll,
            at,
            shed,
        })),
        _ => Ok(None),
    }
}

/// The subframes at a key of a table.
fn subframes_at(alloc: Global, table: &toml::Table, key: &str) -> Result<Option<Vec<u8>>, NoMemory>
    ensures { IfOk result (λ found.
        option_map (λ list. list.items) found ≡ subframes_at key.now (table_view table.now)) }
{
    match member_of(table, key) {
        Some(value) => numbers_to(alloc, value, 63),
        None => Ok(None),
    }
}

/// The positions that a table states for each task.
fn positions_at(alloc: Global, table: &toml::Table) -> Result<Option<Vec<Vec<u8>>>, NoMemory>
    ensures { IfOk result (λ found.
        option_map (λ lists. map (λ list. list.items) lists.items) found ≡ positions_of (table_view table.now)) }
{
    match member_of(table, "at") {
        Some(value) => digit_lists(alloc, value, 7),
        None => Ok(None),
    }
}

/// The numbers of the tasks that a table sheds, and none where it doesn't say.
fn shed_at(alloc: Global, table: &toml::Table) -> Result<Option<Vec<u8>>, NoMemory>
    ensures { IfOk result (λ found.
        option_map (λ list. list.items) found ≡ shed_of (table_view table.now)) }
{
    match member_of(table, "shed") {
        Some(value) => numbers_to(alloc, value, 23),
        None => Ok(Some(Vec::new(alloc))),
    }
}

/// Tests that each table of a document sheds numbers of tasks, where it says what it sheds.
///
/// This is rule 31, the last of a document, which is broken at the first table whose `shed` is no array of integers from 0 to
/// 23. A document without `table` keeps it. It can't be tested with the other rules of tables: a document whose faults break one
/// of rules 26 to 30 as well is told that one.
pub fn check_sheds(alloc: Global, document: &toml::Table) -> Result<(), Stop<BrokenRule>>
    requires { length (tables_in (get_member (codes "table") (table_view document.now))) ≤ unit_limit }
    ensures { Tests 31 (λ place. HoldsOf (tables_in (get_member (codes "table") (table_view document.now))) place
        (λ table. shed_of table ≡ None)) result }
{
    check_shed_entries(alloc, entries_at(document, "table"))
}

/// Tests the same of these entries.
fn check_shed_entries(alloc: Global, entries: &[Value]) -> Result<(), Stop<BrokenRule>>
    requires { length entries.now ≤ unit_limit }
    ensures { Tests 31 (λ place. HoldsOf (map (λ entry. members_of (view entry)) entries.now) place
        (λ table. shed_of table ≡ None)) result }
{
    for (place, entry) in entries.iter().enumerate() {
        let wrong = sheds_no_numbers(alloc, entry)?;
        if wrong {
            return Err(broken(31, place));
        }
    }
    Ok(())
}

/// Whether an entry is a table that says what it sheds, but not by numbers of tasks.
fn sheds_no_numbers(alloc: Global, entry: &Value) -> Result<bool, NoMemory>
    ensures { IfOk result (λ wrong. IsTrue wrong ↔ (shed_of (members_of (view entry.now)) ≡ None)) }
{
    match entry.as_table() {
        Some(table) => Ok(shed_at(alloc, table)?.is_none()),
        None => Ok(false),
    }
}
