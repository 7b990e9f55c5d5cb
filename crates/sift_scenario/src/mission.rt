//! The mission that a document states, or why it states none.

ghost use Rattle.std.specs.Prelude.{◌≡◌, IfErr, IfOk, map, ◌<◌, ◌^◌};
ghost use Rattle.std.specs.List.{All};
ghost use Rattle.sift_base.specs.Layout.{IsLayout};
ghost use Rattle.sift_base.specs.Shapes.{AreShapes, shapes_of};
ghost use Rattle.sift_script.specs.Rules.{IsGood as IsGoodScript};
ghost use Rattle.sift_script.specs.Script.{script_for};
ghost use Rattle.sift_table.specs.Rules.{IsGood as IsGoodTable};
ghost use Rattle.sift_table.specs.Schedule.{schedule_of};
ghost use Rattle.sift_scenario.specs.Testing.{IsBadTable, RefusesScript, RefusesTable, code_refusal_of, rule_refusal_of};
ghost use Rattle.sift_scenario.specs.Refusal.{refusal_of, IsRefusedWith};
ghost use Rattle.sift_base.specs.Stop.{IfRefused};
ghost use Rattle.toml.specs.Data.{Members};
ghost use Rattle.toml.specs.View.{table_view};
ghost use Rattle.sift_mission.specs.Data.{MissionData};
ghost use Rattle.sift_mission.specs.Parts.{data_of};
ghost use Rattle.sift_document.specs.Testing.{OnlyRefuses};
ghost use Rattle.sift_scenario.specs.Mission.{IsMission};
ghost use Rattle.sift_scenario.specs.Reading.{IsReadOf, IsRunningOf};
ghost use Rattle.sift_scenario.specs.Laws.{MissionsAreAccepted, NoDocumentIsUnanswered, OneMission, OneRefusal, RulesAreKeptOrBroken, StatedMissionsFit, StormsAreStated, VersionOneShedsNothing};

use crate::document::{Entries, entries_of};
use crate::program::{Running, run_entries};
use sift_base::{Layout, Shapes, Stop};
use sift_compile::CompileStop;
use sift_document::BrokenRule;
use sift_mission::{Mission, MissionParts};
use sift_parse::ParseStop;
use sift_program::shapes_of;
use sift_script::{GoodScript, Script};
use sift_table::{GoodTable, Table};
use std::alloc::Global;

// ---- the checks of tables and of the script

/// The tables, each of which has to be good for tasks of these shapes.
fn check_tables(
    alloc: Global,
    tables: Vec<Table>,
    shapes: &Shapes,
) -> Result<Vec<GoodTable>, Stop<Refused>>
    requires { AreShapes (shapes_of shapes.now) }
    ensures same { IfOk result (λ goods. goods.items ≡ map schedule_of tables.items) }
    ensures good { IfOk result (λ goods. All (λ table. IsGoodTable table (shapes_of shapes.now)) goods.items) }
    ensures refused { IfErr result (RefusesTable (map schedule_of tables.items) (shapes_of shapes.now)) }
{
    let mut goods = Vec::new(alloc);
    for table in tables {
        goods.push(good_table(table, shapes)?)?;
    }
    Ok(goods)
}

/// A table, which has to be good for tasks of these shapes.
fn good_table(table: Table, shapes: &Shapes) -> Result<GoodTable, Stop<Refused>>
    requires { AreShapes (shapes_of shapes.now) }
    ensures same { IfOk result (λ good. good ≡ schedule_of table) }
    ensures good { IfOk result (λ good. IsGoodTable good (shapes_of shapes.now)) }
    ensures refused { IfErr result (IsBadTable (schedule_of table) (shapes_of shapes.now)) }
{
    let size = u32::from(table.size);
    match sift_table::check(table, shapes) {
        Ok(good) => Ok(good),
        Err(broken) => Err(Stop::Refused(Refused::Table {
            size,
            row: u32::from(broken.row),
            rule: u32::from(broken.rule),
        })),
    }
}

/// The script, which has to be good for a mission of this layout, with tasks of these shapes and so many frames.
fn check_script(
    script: Script,
    layout: &Layout,
    shapes: &Shapes,
    frames: u32,
) -> Result<GoodScript, Stop<Refused>>
    requires layout { IsLayout layout.now }
    requires shapes { AreShapes (shapes_of shapes.now) }
    ensures same { IfOk result (λ good. good ≡ script_for script layout.now (shapes_of shapes.now) frames) }
    ensures good { IfOk result IsGoodScript }
    ensures refused { IfErr result (RefusesScript (script_for script layout.now (shapes_of shapes.now) frames)) }
{
    match sift_script::check(script, layout, shapes, frames) {
        Ok(good) => Ok(good),
        Err(broken) => Err(Stop::Refused(Refused::Script {
            entry: u32::from(broken.entry),
            rule: u32::from(broken.rule),
        })),
    }
}

// ---- why a document states no mission

/// Why a document states no mission.
#[derive(Clone, Copy)]
pub enum Refused {
    /// It breaks the scenario rule of this number. `place` is the number of the first entry that
    /// does, and 0 for a rule that speaks of no entry.
    Scenario { rule: u32, place: u32 },
    /// This task is refused. `kind` is 1 where no token begins at the byte place `at` of its text, 2 for
    /// the grammar, 3 for a name that isn't there, 4 for the words of a task that isn't earlier, and 5
    /// for a limit of texts. It is 6 where its code has more than 1,024 instructions, of which `at` is
    /// the number, and 7 where it may take more steps than the tasks before it leave of 16,384; `at` is
    /// the bound of its steps.
    Task { task: u32, kind: u32, at: u32 },
    /// The table for the configurations of this size is the first that isn't good. It breaks the table
    /// rule of this number, in this row, which is a task's number.
    Table { size: u32, row: u32, rule: u32 },
    /// The script of faults isn't good: this entry is the first to break a script rule, and that has
    /// this number.
    Script { entry: u32, rule: u32 },
}

/// The refusal of a rule, or want of memory.
fn rule_refused(stop: Stop<BrokenRule>) -> Stop<Refused>
    ensures { result ≡ rule_refusal_of stop }
{
    match stop {
        Stop::Refused(broken) => Stop::Refused(Refused::Scenario {
            rule: broken.number,
            place: broken.place,
        }),
        Stop::NoMemory => Stop::NoMemory,
    }
}

/// The refusal of a task's text, or want of memory.
pub(crate) fn text_refused(task: usize, stop: ParseStop) -> Stop<Refused>
    requires { task < 2 ^ 32 }
    ensures { result ≡ refusal_of task stop }
{
    let (kind, at) = match stop {
        ParseStop::Lex { at } => (1, at),
        ParseStop::Syntax { at } => (2, at),
        ParseStop::UnknownName { at } => (3, at),
        ParseStop::Later { at } => (4, at),
        ParseStop::Limit { at, .. } => (5, at),
        ParseStop::NoMemory => return Stop::NoMemory,
    };
    Stop::Refused(Refused::Task {
        task: task as u32,
        kind,
        at,
    })
}

/// The refusal of a task's code, or want of memory.
pub(crate) fn code_refused(task: usize, stop: CompileStop) -> Stop<Refused>
    requires { task < 2 ^ 32 }
    ensures { result ≡ code_refusal_of task stop }
{
    let (kind, at) = match stop {
        CompileStop::CodeTooLong { len } => (6, len),
        CompileStop::TooManySteps { bound } => (7, bound),
        CompileStop::NoMemory => return Stop::NoMemory,
    };
    Stop::Refused(Refused::Task {
        task: task as u32,
        kind,
        at,
    })
}

// ---- the mission

/// The mission that a document states.
///
/// The rules are tested in the order of their numbers, and each for the entries in their order. Then
/// the tasks are parsed and compiled, one after the other. Then the tables are checked in ascending
/// size, and then the script of faults.
pub fn mission_of(alloc: Global, document: &toml::Table) -> Result<Mission, Stop<Refused>>
    ensures accepted { IfOk result (λ mission. IsMission (table_view document.now) (data_of mission)) }
    ensures refused { IfErr result (IfRefused (IsRefusedWith (table_view document.now))) }

    // A document that states a mission, or is owed a refusal, gets it, unless memory is wanting.
    ensures complete { (mission : MissionData) → IsMission (table_view document.now) mission
        → IfErr result (λ why. why ≡ Stop.NoMemory) }
    ensures exact { (owed : Refused) → IsRefusedWith (table_view document.now) owed → OnlyRefuses owed result }
{
    // What is told is the first that is wrong in this order: a rule, a text, a table, the script.
    let entries = lawful_entries(alloc, document)?;
    let running = run_entries(alloc, &entries)?;
    assemble(alloc, entries, running)
}

/// What a document states, or the rule that refuses it.
fn lawful_entries(alloc: Global, document: &toml::Table) -> Result<Entries<'_>, Stop<Refused>>
    ensures read { IfOk result (IsReadOf (table_view document.now)) }
    ensures refused { IfErr result (IfRefused (IsRefusedWith (table_view document.now))) }
{
    match entries_of(alloc, document) {
        Ok(entries) => Ok(entries),
        Err(stop) => Err(rule_refused(stop)),
    }
}

/// The mission of these entries and their program, where its tables and its script are good.
fn assemble(alloc: Global, entries: Entries<'_>, running: Running) -> Result<Mission, Stop<Refused>>
    requires { (document : Members) × IsReadOf document entries × IsRunningOf document running }
    ensures accepted { IfOk result (λ mission. (document : Members) → IsReadOf document entries.entry
        → IsRunningOf document running → IsMission document (data_of mission)) }
    ensures refused { IfErr result (λ why. (document : Members) → IsReadOf document entries.entry
        → IsRunningOf document running → IfRefused (IsRefusedWith document) why) }
{
    let layout = Layout {
        units: entries.units,
        sensors: entries.sensors.words.len() as u8,
        words: running.program.starts.len() as u8,
    };
    let shapes = shapes_of(alloc, &running.program, layout.sensors)?;
    let Entries {
        units,
        frames,
        period,
        clock,
        sensors,
        tasks,
        tables,
        script,
    } = entries;
    let Running { program, code } = running;
    let tables = check_tables(alloc, tables, &shapes)?;
    let script = check_script(script, &layout, &shapes, frames)?;
    Ok(Mission::of(MissionParts {
        units,
        frames,
        period,
        layout,
        names: tasks.names,
        program,
        code,
        tables,
        sensors: sensors.words,
        clock,
        script,
    }))
}

// ---- laws

/// A document that states a mission is refused by no rule, and none of its tasks is refused.
pub fn missions_are_accepted()
    ensures { MissionsAreAccepted }
{}

/// A document is refused in one way: by one rule at one place, or for one task, for one kind of fault at one place.
pub fn one_refusal()
    ensures { OneRefusal }
{}

/// A document states at most one mission.
pub fn one_mission()
    ensures { OneMission }
{}

/// The parts of the mission that a document states fit, so flights can stand on it.
pub fn stated_missions_fit()
    ensures { StatedMissionsFit }
{}

/// The storms of the mission that a document states are those that the document states: no unit turns stray otherwise, or in
/// another frame, by another number or with another count of strays.
pub fn storms_are_stated()
    ensures { StormsAreStated }
{}

/// A document of version 1 sheds nothing.
pub fn version_one_sheds_nothing()
    ensures { VersionOneShedsNothing }
{}

/// A document keeps all rules, or one is the first that it breaks, at a first place.
pub fn rules_are_kept_or_broken()
    ensures { RulesAreKeptOrBroken }
{}

/// No document is without an answer other than want of memory: it states a mission, or is refused.
pub fn no_document_is_unanswered()
    ensures { NoDocumentIsUnanswered }
{}
