//! The rules of a row, one test a rule.

ghost use Rattle.std.specs.Prelude.{◌≡◌, ◌<◌, ◌↔◌, All, length, IsTrue};
ghost use Rattle.sift_base.specs.Shapes.{shapes_of, shape_at, AreShapes};
ghost use Rattle.sift_table.specs.Schedule.{schedule_of};
ghost use Rattle.sift_table.specs.Rules.{HasAnEntryEach, RunsAfterAgreement, IsPolledByReports, IsPolledAfterRun, HasEnoughPositions};
ghost use Rattle.sift_table.specs.Rules.{HasPositionsInside, HasAscendingPositions, ReadsPolledWords, SharesNoPosition, AreApart, IsLeftOut, ShedsTasks};

use crate::table::{AGREED_IN, HEARING_DELAY, REPORT_LEAD, Table};
use sift_base::{Shapes, is_ascending};

/// How many units run a task at least.
const EXECUTORS: usize = 3;

/// Whether each task has an entry in each list.
pub fn has_an_entry_each(table: &Table, shapes: &Shapes) -> bool
    ensures { IsTrue result ↔ HasAnEntryEach (schedule_of table.now) (shapes_of shapes.now) }
{
    let tasks = shapes.tasks.len();
    table.run.len() == tasks && table.poll.len() == tasks && table.at.len() == tasks
}

/// Whether the numbers of the tasks that are shed ascend, and each is that of a task.
pub fn sheds_tasks(table: &Table, shapes: &Shapes) -> bool
    ensures { IsTrue result ↔ ShedsTasks (schedule_of table.now) (shapes_of shapes.now) }
{
    is_ascending(&table.shed) && are_tasks(&table.shed, shapes.tasks.len())
}

/// Whether each number is below the count of tasks.
fn are_tasks(numbers: &[u8], tasks: usize) -> bool
    ensures { IsTrue result ↔ All (λ t. t < tasks) numbers.now }
{
    numbers.iter().all(|number| usize::from(*number) < tasks)
}

/// Whether a row's task runs when the sensor words are agreed, or later.
pub fn runs_after_agreement(table: &Table, row: usize) -> bool
    requires { row < length (schedule_of table.now).run }
    ensures { IsTrue result ↔ RunsAfterAgreement (schedule_of table.now) row }
{
    table.run[row] >= AGREED_IN
}

/// Whether a row's task is polled when the reports are said, or earlier. In a frame that is too short for reports none is.
pub fn is_polled_by_reports(table: &Table, row: usize) -> bool
    requires { row < length (schedule_of table.now).poll }
    ensures { IsTrue result ↔ IsPolledByReports (schedule_of table.now) row }
{
    table.period >= REPORT_LEAD && table.poll[row] <= table.period - REPORT_LEAD
}

/// Whether a row's task is polled once its words can be heard.
pub fn is_polled_after_run(table: &Table, row: usize) -> bool
    requires run { row < length (schedule_of table.now).run }
    requires poll { row < length (schedule_of table.now).poll }
    ensures { IsTrue result ↔ IsPolledAfterRun (schedule_of table.now) row }
{
    table.poll[row] >= HEARING_DELAY && table.poll[row] - HEARING_DELAY >= table.run[row]
}

/// Whether enough units run a row's task.
pub fn has_enough_positions(table: &Table, row: usize) -> bool
    requires { row < length (schedule_of table.now).at }
    ensures { IsTrue result ↔ HasEnoughPositions (schedule_of table.now) row }
{
    table.positions(row).len() >= EXECUTORS
}

/// Whether a row's positions are those of a configuration of the table's size.
pub fn has_positions_inside(table: &Table, row: usize) -> bool
    requires { row < length (schedule_of table.now).at }
    ensures { IsTrue result ↔ HasPositionsInside (schedule_of table.now) row }
{
    table
        .positions(row)
        .iter()
        .all(|position| *position < table.size)
}

/// Whether a row's positions ascend strictly.
pub fn has_ascending_positions(table: &Table, row: usize) -> bool
    requires { row < length (schedule_of table.now).at }
    ensures { IsTrue result ↔ HasAscendingPositions (schedule_of table.now) row }
{
    is_ascending(table.positions(row))
}

/// The tasks whose words of the frame task t reads.
fn needs_of(shapes: &Shapes, t: usize) -> &[u8]
    requires { t < length (shapes_of shapes.now).tasks }
    ensures { result.now ≡ (shape_at (shapes_of shapes.now) t).needs }
{
    &shapes.tasks[t].needs
}

/// Whether what a row's task reads of the frame is polled by the time it runs, or shed.
pub fn reads_polled_words(table: &Table, shapes: &Shapes, row: usize) -> bool
    requires shapes { AreShapes (shapes_of shapes.now) }
    requires entries { HasAnEntryEach (schedule_of table.now) (shapes_of shapes.now) }
    requires row { row < length (shapes_of shapes.now).tasks }
    ensures { IsTrue result
        ↔ ReadsPolledWords (schedule_of table.now) (shapes_of shapes.now) row }
{
    for &needed in needs_of(shapes, row) {
        let needed = usize::from(needed);
        if !table.sheds(needed) && table.poll[needed] > table.run[row] {
            return false;
        }
    }
    true
}

/// Whether no position is in both lists.
fn are_apart(some: &[u8], others: &[u8]) -> bool
    ensures { IsTrue result ↔ AreApart some.now others.now }
{
    some.iter().all(|position| !others.contains(position))
}

/// Whether no earlier task that isn't shed runs in a row's subframe at one of its positions.
pub fn shares_no_position(table: &Table, row: usize) -> bool
    requires run { row < length (schedule_of table.now).run }
    requires at { row < length (schedule_of table.now).at }
    ensures { IsTrue result ↔ SharesNoPosition (schedule_of table.now) row }
{
    for earlier in 0..row {
        if !table.sheds(earlier)
            && table.run[earlier] == table.run[row]
            && !are_apart(table.positions(earlier), table.positions(row))
        {
            return false;
        }
    }
    true
}

/// Whether a row's task has no run, no poll and no position.
pub fn is_left_out(table: &Table, row: usize) -> bool
    requires run { row < length (schedule_of table.now).run }
    requires poll { row < length (schedule_of table.now).poll }
    requires at { row < length (schedule_of table.now).at }
    ensures { IsTrue result ↔ IsLeftOut (schedule_of table.now) row }
{
    table.run[row] == 0 && table.poll[row] == 0 && table.positions(row).is_empty()
}
