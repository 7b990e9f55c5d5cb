//! The tasks of a scenario.

ghost use Rattle.std.specs.Prelude.{codes, ◌≡◌, ◌<◌, ◌≤◌, IfOk, [], ◌∷◌, map, string_bytes};
ghost use Rattle.std.specs.List.{concat};
ghost use Rattle.toml.specs.View.{table_view, view};
ghost use Rattle.toml.specs.Data.{member, no_members, string, table};
ghost use Rattle.sift_base.specs.Draw.{after, draw_at};
ghost use Rattle.sift_gen.specs.Tasks.{draws_by, pattern_of, sensor_name, task_name, text_by};
ghost use Rattle.sift_gen.specs.Scenario.{array_of, number, pattern_from, task_place, task_table, task_tables};

use crate::scenario::{array_of_one, with};
use sift_base::{Draw, NoMemory};
use std::alloc::Global;
use toml::{Table, Value};

/// How many words there are.
pub(crate) const WORDS: u32 = 65_536;

/// What a task does with its words.
#[derive(Clone, Copy)]
pub enum Pattern {
    /// It sums up a sensor's words.
    Sum,
    /// It takes the middle one of two sensors and its word before.
    Middle,
    /// It goes one step a frame after a sensor.
    Chase,
    /// It adds a sensor to three times an earlier task's word.
    Triple,
}

impl Pattern {
    /// The pattern of a task, by the number that was drawn for it.
    fn of(n: u32, task: u32) -> Pattern
        ensures { result ≡ pattern_of n task }
    {
        match n {
            1 => Pattern::Middle,
            2 => Pattern::Chase,
            3 if task > 0 => Pattern::Triple,
            // The first task has no earlier one whose word it could take.
            _ => Pattern::Sum,
        }
    }

    /// The text of a task of this pattern, and the draws that it takes.
    fn text(
        self,
        alloc: Global,
        draw: &mut Draw,
        task: u32,
        sensors: u32,
    ) -> Result<String, NoMemory>
        requires sensors { 0 < sensors }
        requires earlier { self ≡ Pattern.Triple → 0 < task }
        ensures made { IfOk result (λ text. string_bytes text ≡ text_by self task sensors draw.old) }
        ensures drawn { IfOk result (λ _. draw.new ≡ after draw.old (draws_by self)) }
    {
        match self {
            Pattern::Sum => sum_text(alloc, task, drawn(draw, sensors)),
            Pattern::Middle => {
                let first = drawn(draw, sensors);
                middle_text(alloc, task, first, drawn(draw, sensors))
            }
            Pattern::Chase => chase_text(alloc, task, drawn(draw, sensors)),
            Pattern::Triple => {
                let earlier = drawn(draw, task);
                triple_text(alloc, earlier, drawn(draw, sensors))
            }
        }
    }
}

/// The tables of so many tasks, and the draws that they take.
pub(crate) fn task_tables(
    alloc: Global,
    draw: &mut Draw,
    tasks: u32,
    sensors: u32,
) -> Result<Vec<Value>, NoMemory>
    requires { 0 < sensors }
    ensures made { IfOk result (λ tables. map view tables.items ≡ task_tables tasks sensors draw.old) }
    ensures drawn { IfOk result (λ _. draw.new ≡ task_place tasks draw.old) }
{
    let mut tables = Vec::new(alloc);
    for task in 0..tasks {
        tables.push(Value::Table(task_table(alloc, draw, task, sensors)?))?;
    }
    Ok(tables)
}

/// The table of a task: its name, its start word and its text.
fn task_table(alloc: Global, draw: &mut Draw, task: u32, sensors: u32) -> Result<Table, NoMemory>
    requires { 0 < sensors }
    ensures made { IfOk result (λ entries. table (table_view entries) ≡ task_table task sensors draw.old) }
    ensures drawn { IfOk result (λ _. draw.new ≡ after (after draw.old 2) (draws_by (pattern_from task draw.old))) }
{
    let start = drawn(draw, WORDS);
    let pattern = Pattern::of(drawn(draw, 4), task);
    let text = pattern.text(alloc, draw, task, sensors)?;
    task_entries(alloc, task, start, text)
}

/// The entries of a task: its name, its start word and its text.
fn task_entries(alloc: Global, task: u32, start: u32, text: String) -> Result<Table, NoMemory>
    ensures { IfOk result (λ entries. table (table_view entries)
        ≡ table (member (codes "name") (string (task_name task)) (member (codes "start") (array_of (number start ∷ []))
        (member (codes "text") (string (string_bytes text)) no_members)))) }
{
    let entries = with(
        alloc,
        Table::new(alloc),
        "name",
        Value::String(task_name(alloc, task)?),
    )?;
    let entries = with(
        alloc,
        entries,
        "start",
        array_of_one(alloc, Value::from(start))?,
    )?;
    with(alloc, entries, "text", Value::String(text))
}

/// A number below `m`.
pub(crate) fn drawn(draw: &mut Draw, m: u32) -> u32
    requires { 0 < m }
    ensures drawn { result ≡ draw_at draw.old 0 m }
    ensures below { result < m }
    ensures next { draw.new ≡ after draw.old 1 }
{
    draw.draw(u64::from(m)) as u32
}

/// The name of a task.
fn task_name(alloc: Global, task: u32) -> Result<String, NoMemory>
    ensures { IfOk result (λ name. string_bytes name ≡ task_name task) }
{
    Ok(format!(in alloc; "t{task}")?)
}

/// A sensor's words are summed up.
fn sum_text(alloc: Global, task: u32, sensor: u32) -> Result<String, NoMemory>
    ensures { IfOk result (λ text. string_bytes text
        ≡ concat (codes "out 0 = sense " ∷ sensor_name sensor ∷ codes " + last " ∷ task_name task ∷ codes ".0;" ∷ [])) }
{
    Ok(format!(in alloc; "out 0 = sense s{sensor} + last t{task}.0;")?)
}

/// The middle one of two sensors and the word before.
fn middle_text(alloc: Global, task: u32, first: u32, second: u32) -> Result<String, NoMemory>
    ensures { IfOk result (λ text. string_bytes text
        ≡ concat (codes "out 0 = mid(sense " ∷ sensor_name first ∷ codes ", sense " ∷ sensor_name second
        ∷ codes ", last " ∷ task_name task ∷ codes ".0);" ∷ [])) }
{
    Ok(format!(in alloc; "out 0 = mid(sense s{first}, sense s{second}, last t{task}.0);")?)
}

/// One step a frame after a sensor.
fn chase_text(alloc: Global, task: u32, sensor: u32) -> Result<String, NoMemory>
    ensures { IfOk result (λ text. string_bytes text
        ≡ concat (codes "let d = sense " ∷ sensor_name sensor ∷ codes " - last " ∷ task_name task
        ∷ codes ".0; if d < 0 { out 0 = last " ∷ task_name task ∷ codes ".0 - 1; } else { out 0 = last " ∷ task_name task ∷ codes ".0 + 1; }" ∷ [])) }
{
    Ok(format!(in alloc;
        "let d = sense s{sensor} - last t{task}.0; if d < 0 {{ out 0 = last t{task}.0 - 1; }} else {{ out 0 = last t{task}.0 + 1; }}"
    )?)
}

/// Three times an earlier task's word, and a sensor.
fn triple_text(alloc: Global, earlier: u32, sensor: u32) -> Result<String, NoMemory>
    ensures { IfOk result (λ text. string_bytes text
        ≡ concat (codes "out 0 = now " ∷ task_name earlier ∷ codes ".0 * 3 + sense " ∷ sensor_name sensor ∷ codes ";" ∷ [])) }
{
    Ok(format!(in alloc; "out 0 = now t{earlier}.0 * 3 + sense s{sensor};")?)
}
