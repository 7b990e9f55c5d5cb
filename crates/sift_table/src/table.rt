//! Schedule tables as they are written, the plain one, tables that were checked, and what holds of each.

ghost use Rattle.std.specs.Prelude.{◌≡◌, ◌+◌, ◌*◌, ◌^◌, ◌≤◌, ◌<◌, length, map, IfOk, false, IfErr, IfSome, IfNone};
ghost use Rattle.std.specs.List.{range_with_len};
ghost use Rattle.sift_base.specs.Shapes.{task_limit, shapes_of, AreShapes};
ghost use Rattle.sift_base.specs.Units.{has, unit_limit};
ghost use Rattle.sift_base.specs.Layout.{least_units};
ghost use Rattle.sift_table.specs.Schedule.{schedule_of, plain_of, positions_of, run_in, polled_in};
ghost use Rattle.sift_base.specs.Requirement.{AreMet, IsFirstUnmet};
ghost use Rattle.sift_table.specs.Rules.{HasAnEntryEach, IsGood, IsFirstBroken, row_rules, rules_where};
ghost use Rattle.sift_table.specs.Laws.{SlotsAreHeardInTime, TasksRunAfterTheirNeeds, TasksHaveThreeExecutors, PositionsRunOneTaskAtATime, WordsHaveTheirTask, PlainTablesAreGood, ShedTasksAreLeftOut, OneBrokenRule, TablesAreAnswered};

use crate::rules;
use sift_base::{NoMemory, Shapes};
use std::alloc::{AllocError, Global};
use std::marker::Model;

// ---- tables

/// The subframe in which the sensor words of a frame are agreed, before which no task runs.
pub const AGREED_IN: u8 = 4;

/// How many subframes pass at least from where a word is said to where it is heard, and so from a task's run to its poll.
pub const HEARING_DELAY: u8 = 2;

/// How many subframes before the frame's end the reports are said, after which no task is polled.
pub const REPORT_LEAD: u8 = 6;

/// How many subframes before the frame's end the reports are heard, and said again by those who heard them.
pub const RELAY_LEAD: u8 = 4;

/// How many subframes before the frame's end the last words of the frame are heard.
pub const END_LEAD: u8 = 2;

/// A schedule table for the configurations of one size. Entry t of `run`, `poll` and `at` belongs to task t.
#[derive(Drop)]
pub struct Table {
    /// How many units the configurations have.
    pub size: u8,
    /// How many subframes a frame has.
    pub period: u8,
    /// The subframe in which the task runs.
    pub run: Vec<u8>,
    /// The subframe in which the task is polled.
    pub poll: Vec<u8>,
    /// The positions at which the task runs: position i stands for the configuration's i-th unit.
    pub at: Vec<Vec<u8>>,
    /// The numbers of the tasks that are left out, in ascending order. Their words stay what they were.
    pub shed: Vec<u8>,
}

impl Table {
    /// The positions of a row's task.
    pub(crate) fn positions(&self, row: usize) -> &[u8]
        requires { row < length (schedule_of self.now).at }
        ensures { result.now ≡ positions_of (schedule_of self.now) row }
    {
        &self.at[row]
    }

    /// Whether the table leaves a task out.
    pub(crate) fn sheds(&self, task: usize) -> bool
        ensures { result ≡ has (schedule_of self.now).shed task }
    {
        self.shed.iter().any(|shed| usize::from(*shed) == task)
    }
}

/// The table of a mission that states none for this size: every unit runs every task, one task after another, and none is shed.
pub fn plain_table(alloc: Global, size: u8, period: u8, tasks: u8) -> Result<Table, NoMemory>
    requires enough_units { least_units ≤ size }
    requires few_units { size ≤ unit_limit }
    requires few_tasks { tasks ≤ task_limit }
    ensures { IfOk result (λ table. schedule_of table ≡ plain_of size period tasks) }
{
    let mut at = Vec::new(alloc);
    for _ in 0..tasks {
        at.push(all_positions(alloc, size)?)?;
    }
    Ok(Table {
        size,
        period,
        run: every_second(alloc, AGREED_IN, tasks)?,
        poll: every_second(alloc, AGREED_IN + HEARING_DELAY, tasks)?,
        at,
        shed: Vec::new(alloc),
    })
}

/// The positions of a configuration of a size.
fn all_positions(alloc: Global, size: u8) -> Result<Vec<u8>, AllocError>
    ensures { IfOk result (λ positions. positions.items ≡ range_with_len 0 size) }
{
    (0..size).collect(alloc)
}

/// Every second subframe from one on, one for each task.
fn every_second(alloc: Global, from: u8, tasks: u8) -> Result<Vec<u8>, AllocError>
    requires { from + 2 * tasks < 2 ^ 8 }
    ensures { IfOk result (λ subframes.
        subframes.items ≡ map (λ t. from + 2 * t) (range_with_len 0 tasks)) }
{
    (0..tasks).map(|t| from + 2 * t).collect(alloc)
}

// ---- tables that were checked

/// Why a table is refused: the number of the first rule that it breaks, and the first row in which it does.
#[derive(Clone, Copy)]
pub struct Broken {
    /// 1 to 11.
    pub rule: u8,
    /// The number of a task, and 0 for rules 1 and 10, which speak of the whole table.
    pub row: u16,
}

/// A table that meets all rules. A clause sees it as the schedule that it is.
#[derive(Drop)]
pub struct GoodTable {
    table: Table,
}

impl Model for GoodTable {
    ghost use Rattle.sift_table.specs.Schedule.{Schedule, schedule_of};
    ghost use Rattle.sift_table.specs.Rules.{IsChecked};

    ghost Value = { Schedule };

    ghost view = { λ good. schedule_of good.table };

    ghost invariant = { λ good. IsChecked (schedule_of good.table) };
}

impl GoodTable {
    /// The subframe in which task t runs, and 0 where it is shed.
    pub fn run_of(&self, t: usize) -> u8
        requires { t < length self.now.run }
        ensures { result ≡ run_in self.now t }
    {
        self.table.run[t]
    }

    /// The subframe in which task t is polled, and 0 where it is shed.
    pub fn poll_of(&self, t: usize) -> u8
        requires { t < length self.now.run }
        ensures { result ≡ polled_in self.now t }
    {
        self.table.poll[t]
    }

    /// Whether the unit at a position of the configuration runs task t.
    pub fn runs(&self, t: usize, position: usize) -> bool
        requires { t < length self.now.run }
        ensures { result ≡ has (positions_of self.now t) position }
    {
        self.table
            .positions(t)
            .iter()
            .any(|at| usize::from(*at) == position)
    }

    /// The numbers of the tasks that are shed, in ascending order.
    pub fn shed(&self) -> &[u8]
        ensures { result.now ≡ self.now.shed }
    {
        &self.table.shed
    }
}

/// Checks a table for tasks of these shapes. It takes no memory.
///
/// It is accepted exactly where it meets all rules. Else the first rule that it breaks is answered, with the
/// first row in which it does, and the table is given up.
pub fn check(table: Table, shapes: &Shapes) -> Result<GoodTable, Broken>
    requires { AreShapes (shapes_of shapes.now) }
    ensures same { IfOk result (λ good. good ≡ schedule_of table) }
    ensures good { IfOk result (λ good. IsGood good (shapes_of shapes.now)) }
    ensures broken { IfErr result (λ broken.
        IsFirstBroken (schedule_of table) (shapes_of shapes.now) broken.rule broken.row) }
{
    if !rules::has_an_entry_each(&table, shapes) {
        return Err(Broken { rule: 1, row: 0 });
    }
    if !rules::sheds_tasks(&table, shapes) {
        return Err(Broken { rule: 10, row: 0 });
    }
    for row in 0..shapes.tasks.len() {
        if let Some(rule) = broken_rule(&table, shapes, row) {
            return Err(Broken {
                rule,
                row: row as u16,
            });
        }
    }
    Ok(GoodTable { table })
}

/// The first rule that a row breaks.
fn broken_rule(table: &Table, shapes: &Shapes, row: usize) -> Option<u8>
    requires shapes { AreShapes (shapes_of shapes.now) }
    requires entries { HasAnEntryEach (schedule_of table.now) (shapes_of shapes.now) }
    requires row { row < length (shapes_of shapes.now).tasks }
    ensures broken { IfSome result
        (IsFirstUnmet (row_rules (schedule_of table.now) (shapes_of shapes.now) row)) }
    ensures met { IfNone result
        (AreMet (row_rules (schedule_of table.now) (shapes_of shapes.now) row)) }
{
    if !table.sheds(row) {
        return broken_run_rule(table, shapes, row);
    }
    if !rules::is_left_out(table, row) {
        return Some(11);
    }
    None
}

/// The first rule that the row of a task breaks that isn't shed.
fn broken_run_rule(table: &Table, shapes: &Shapes, row: usize) -> Option<u8>
    requires shapes { AreShapes (shapes_of shapes.now) }
    requires entries { HasAnEntryEach (schedule_of table.now) (shapes_of shapes.now) }
    requires row { row < length (shapes_of shapes.now).tasks }
    ensures broken { IfSome result
        (IsFirstUnmet (rules_where false (schedule_of table.now) (shapes_of shapes.now) row)) }
    ensures met { IfNone result
        (AreMet (rules_where false (schedule_of table.now) (shapes_of shapes.now) row)) }
{
    if !rules::runs_after_agreement(table, row) {
        return Some(2);
    }
    if !rules::is_polled_by_reports(table, row) {
        return Some(3);
    }
    if !rules::is_polled_after_run(table, row) {
        return Some(4);
    }
    if !rules::has_enough_positions(table, row) {
        return Some(5);
    }
    if !rules::has_positions_inside(table, row) {
        return Some(6);
    }
    if !rules::has_ascending_positions(table, row) {
        return Some(7);
    }
    if !rules::reads_polled_words(table, shapes, row) {
        return Some(8);
    }
    if !rules::shares_no_position(table, row) {
        return Some(9);
    }
    None
}

// ---- laws

/// What is said in a slot is heard two subframes later at the earliest, and two before the frame's end at the latest. In the slots
/// of a task that is shed nothing is said.
pub fn slots_are_heard_in_time()
    ensures { SlotsAreHeardInTime }
{}

/// No task runs before the sensor words are agreed and what it reads of the frame was polled.
pub fn tasks_run_after_their_needs()
    ensures { TasksRunAfterTheirNeeds }
{}

/// Each task is run by three units of a configuration, or more, and one that is shed by none.
pub fn tasks_have_three_executors()
    ensures { TasksHaveThreeExecutors }
{}

/// No unit runs two tasks in one subframe.
pub fn positions_run_one_task_at_a_time()
    ensures { PositionsRunOneTaskAtATime }
{}

/// Each output word belongs to one task: the words of the tasks follow one another.
pub fn words_have_their_task()
    ensures { WordsHaveTheirTask }
{}

/// The plain table meets all rules in every frame that is long enough for its tasks.
pub fn plain_tables_are_good()
    ensures { PlainTablesAreGood }
{}

/// A task that is shed is neither run nor polled.
pub fn shed_tasks_are_left_out()
    ensures { ShedTasksAreLeftOut }
{}

/// A table is refused in at most one way, and never if it meets all rules.
pub fn one_broken_rule()
    ensures { OneBrokenRule }
{}

/// A table that doesn't meet all rules has a first broken one: no table is left without an answer.
pub fn tables_are_answered()
    ensures { TablesAreAnswered }
{}
