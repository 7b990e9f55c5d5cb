//! What a document states, by its rules.

ghost use Rattle.std.specs.Prelude.{codes, ◌≡◌, ℕ, IfOk, None, Some, unwrap_or, ◌≤◌, ◌+◌, ◌*◌, IfErr, IfSome};
ghost use Rattle.toml.specs.View.{table_view};
ghost use Rattle.sift_table.specs.Schedule.{shortest_period, agreed_in, hearing_delay};
ghost use Rattle.sift_mission.specs.PartsFit.{longest_period};
ghost use Rattle.sift_document.specs.Document.{HasOnlyKeys, integer_between, read_or};
ghost use Rattle.sift_document.specs.Rules.{OfNoEntry};
ghost use Rattle.sift_document.specs.Testing.{Decides, DecidesEach, RefusesFirst};
ghost use Rattle.sift_scenario.specs.Root.{frames_of, period_of, root_keys, root_rules, units_of, version_of};
ghost use Rattle.sift_base.specs.Shapes.{task_limit};
ghost use Rattle.sift_table.specs.Rules.{report_lead};
ghost use Rattle.sift_scenario.specs.Mission.{rules_of};
ghost use Rattle.sift_scenario.specs.Reading.{IsReadOf};

use crate::entries::{Sensors, Tasks, sensors_of, tasks_of};
use sift_base::Stop;
use sift_document::{BrokenRule, has_only_keys, number_at, optional_between};
use sift_script::Script;
use sift_sections::{check_sheds, script_of, stated_clocks, tables_of};
use sift_skew::ClockPlan;
use sift_table::Table;
use std::alloc::Global;

// ---- the rules of the root, but for its entries

/// The version, and how many units fly how many frames, and of how many subframes.
#[derive(Clone, Copy)]
pub(crate) struct Root {
    pub version: u32,
    pub units: u8,
    pub frames: u32,
    /// Where the document states it.
    pub subframes: Option<u32>,
}

/// What the root states beside its entries.
fn root_of(document: &toml::Table) -> Result<Root, BrokenRule>
    ensures version { IfOk result (λ root. version_of (table_view document.now) ≡ Some root.version) }
    ensures units { IfOk result (λ root. units_of (table_view document.now) ≡ Some root.units) }
    ensures frames { IfOk result (λ root. frames_of (table_view document.now) ≡ Some root.frames) }
    ensures subframes { IfOk result (λ root. (unstated : ℕ) →
        read_or unstated (integer_between shortest_period longest_period) (codes "subframes") (table_view document.now)
        ≡ Some (unwrap_or root.subframes unstated)) }
    ensures tests { DecidesEach (root_rules (table_view document.now)) result }
{
    check_keys(document)?;
    let units = units_of(document)?;
    let frames = frames_of(document)?;
    let version = version_of(document)?;
    let subframes = subframes_of(document)?;
    Ok(Root {
        version,
        units,
        frames,
        subframes,
    })
}

/// Tests the keys of the root.
fn check_keys(document: &toml::Table) -> Result<(), BrokenRule>
    ensures { Decides 1 (OfNoEntry (¬ HasOnlyKeys root_keys (table_view document.now))) result }
{
    if has_only_keys(
        document,
        &[
            "version",
            "units",
            "frames",
            "subframes",
            "clock",
            "sensor",
            "task",
            "table",
            "fault",
        ],
    ) {
        Ok(())
    } else {
        Err(BrokenRule::at(1, 0))
    }
}

/// How many units fly.
fn units_of(document: &toml::Table) -> Result<u8, BrokenRule>
    ensures units { IfOk result (λ units. units_of (table_view document.now) ≡ Some units) }
    ensures tests { Decides 2 (OfNoEntry (units_of (table_view document.now) ≡ None)) result }
{
    match number_at(document, "units", 4, 8) {
        Some(units) => Ok(units as u8),
        None => Err(BrokenRule::at(2, 0)),
    }
}

/// How many frames are flown.
fn frames_of(document: &toml::Table) -> Result<u32, BrokenRule>
    ensures frames { IfOk result (λ frames. frames_of (table_view document.now) ≡ Some frames) }
    ensures tests { Decides 3 (OfNoEntry (frames_of (table_view document.now) ≡ None)) result }
{
    number_at(document, "frames", 1, 1_000).ok_or(BrokenRule::at(3, 0))
}

/// The version, which is 1 where none is stated.
fn version_of(document: &toml::Table) -> Result<u32, BrokenRule>
    ensures version { IfOk result (λ version. version_of (table_view document.now) ≡ Some version) }
    ensures tests { Decides 4 (OfNoEntry (version_of (table_view document.now) ≡ None)) result }
{
    match optional_between(document, "version", 1, 2) {
        Some(version) => Ok(version.unwrap_or(1)),
        None => Err(BrokenRule::at(4, 0)),
    }
}

/// How many subframes a frame has, where it is stated.
fn subframes_of(document: &toml::Table) -> Result<Option<u32>, BrokenRule>
    ensures subframes { IfOk result (λ subframes. (unstated : ℕ) →
        read_or unstated (integer_between shortest_period longest_period) (codes "subframes") (table_view document.now)
        ≡ Some (unwrap_or subframes unstated)) }
    ensures tests { Decides 5 (OfNoEntry (period_of (table_view document.now) ≡ None)) result }
{
    match optional_between(document, "subframes", 12, 64) {
        Some(subframes) => Ok(subframes),
        None => Err(BrokenRule::at(5, 0)),
    }
}

// ---- the document

/// What a document states, before its texts are read.
#[derive(Drop)]
pub(crate) struct Entries<'a> {
    pub units: u8,
    pub frames: u32,
    /// How many subframes a frame has.
    pub period: u8,
    pub clock: ClockPlan,
    pub sensors: Sensors,
    pub tasks: Tasks<'a>,
    /// A table for each size.
    pub tables: Vec<Table>,
    pub script: Script,
}

/// What a document states, where it breaks no rule.
pub(crate) fn entries_of(
    alloc: Global,
    document: &toml::Table,
) -> Result<Entries<'_>, Stop<BrokenRule>>
    ensures read { IfOk result (IsReadOf (table_view document.now)) }
    ensures refused { IfErr result (RefusesFirst (rules_of (table_view document.now))) }
{
    let root = root_of(document)?;
    let clock = stated_clocks(document, root.units)?;
    let sensors = sensors_of(alloc, document)?;
    let tasks = tasks_of(alloc, document)?;
    let count = tasks.forms.len() as u8;
    let period = period_of(root.subframes, count);
    let tables = tables_of(alloc, document, root.version, root.units, period, count)?;
    let script = script_of(alloc, document)?;
    // The tables again: what they shed is rule 31, and a document is told the first rule that it breaks, of its faults too.
    check_sheds(alloc, document)?;
    Ok(Entries {
        units: root.units,
        frames: root.frames,
        period,
        clock,
        sensors,
        tasks,
        tables,
        script,
    })
}

/// How many subframes a frame has: as many as stated, or else as the plain table of so many tasks needs.
fn period_of(subframes: Option<u32>, tasks: u8) -> u8
    requires tasks { tasks ≤ task_limit }
    requires subframes { IfSome subframes (λ stated. stated ≤ longest_period) }
    ensures { result ≡ unwrap_or subframes (agreed_in + hearing_delay * tasks + report_lead) }
{
    match subframes {
        Some(stated) => stated as u8,
        None => 10 + 2 * tasks,
    }
}
