//! The scenario of a number: its sensors, its fault and its tree.

ghost use Rattle.std.specs.Prelude.{◌≡◌, IfOk, [], ◌∷◌, map, pos, ◌≤◌, ◌*◌, string_bytes, ◌<◌, codes};
ghost use Rattle.toml.specs.Data.{integer, table, member, no_members};
ghost use Rattle.toml.specs.View.{table_view, view};
ghost use Rattle.sift_gen.specs.Scenario.{array_of, number, placed, sensor_table, sensor_tables, sensor_words, words_each, fault_item, fault_table, other_digits, tree_of, IsTextOf, OneTextOfANumber};
ghost use Rattle.sift_base.specs.Draw.{after};
ghost use Rattle.sift_gen.specs.Tasks.{sensor_name};

use crate::task::{WORDS, drawn, task_tables};
use sift_base::{Draw, NoMemory};
use std::alloc::Global;
use toml::{Table, Value};

// ---- tables and arrays of a document

/// The table with one more entry, in the order of the keys.
pub(crate) fn with(
    alloc: Global,
    mut entries: Table,
    key: &str,
    value: Value,
) -> Result<Table, NoMemory>
    ensures { IfOk result (λ table. table_view table ≡ placed key.now (view value) (table_view entries)) }
{
    let key = String::from_str(alloc, key)?;
    match entries.insert(key, value) {
        Ok(_) => Ok(entries),
        Err(_) => Err(NoMemory),
    }
}

/// The table with one more entry that is a number.
fn with_number(alloc: Global, entries: Table, key: &str, n: u32) -> Result<Table, NoMemory>
    ensures { IfOk result (λ table. table_view table ≡ placed key.now (number n) (table_view entries)) }
{
    with(alloc, entries, key, Value::from(n))
}

/// An array of one value.
pub(crate) fn array_of_one(alloc: Global, value: Value) -> Result<Value, NoMemory>
    ensures { IfOk result (λ array. view array ≡ array_of (view value ∷ [])) }
{
    let mut values = Vec::new(alloc);
    values.push(value)?;
    Ok(array(values))
}

/// An array of values.
fn array(values: Vec<Value>) -> Value
    ensures { view result ≡ array_of (map view values.items) }
{
    Value::Array(values)
}

// ---- sensors

/// The tables of so many sensors, and as many draws as they have words.
fn sensor_tables(alloc: Global, draw: &mut Draw, sensors: u32) -> Result<Vec<Value>, NoMemory>
    ensures made { IfOk result (λ tables. map view tables.items ≡ sensor_tables sensors draw.old) }
    ensures drawn { IfOk result (λ _. draw.new ≡ after draw.old (words_each * sensors)) }
{
    let mut tables = Vec::new(alloc);
    for k in 0..sensors {
        tables.push(Value::Table(sensor_table(alloc, draw, k)?))?;
    }
    Ok(tables)
}

/// The table of a sensor: its name and its words, which are drawn.
fn sensor_table(alloc: Global, draw: &mut Draw, k: u32) -> Result<Table, NoMemory>
    ensures made { IfOk result (λ entries. table (table_view entries) ≡ sensor_table k draw.old) }
    ensures drawn { IfOk result (λ _. draw.new ≡ after draw.old words_each) }
{
    let name = sensor_name(alloc, k)?;
    let words = array(drawn_words(alloc, draw)?);
    let entries = with(alloc, Table::new(alloc), "name", Value::String(name))?;
    with(alloc, entries, "words", words)
}

/// The name of a sensor.
fn sensor_name(alloc: Global, k: u32) -> Result<String, NoMemory>
    ensures { IfOk result (λ name. string_bytes name ≡ sensor_name k) }
{
    Ok(format!(in alloc; "s{k}")?)
}

/// Sixteen words, drawn.
fn drawn_words(alloc: Global, draw: &mut Draw) -> Result<Vec<Value>, NoMemory>
    ensures made { IfOk result (λ words. map view words.items ≡ sensor_words draw.old) }
    ensures drawn { IfOk result (λ _. draw.new ≡ after draw.old words_each) }
{
    let mut words = Vec::new(alloc);
    for _ in 0..16u32 {
        let word = draw.draw(65536) as u32;
        words.push(Value::from(word))?;
    }
    Ok(words)
}

// ---- the fault

/// The table of the fault: which unit is faulty, from which frame on, and the wrong word that it says.
fn fault_table(
    alloc: Global,
    draw: &mut Draw,
    units: u32,
    frames: u32,
    tasks: u32,
) -> Result<Table, NoMemory>
    requires units { 0 < units }
    requires frames { 0 < frames }
    requires tasks { 0 < tasks }
    ensures { IfOk result (λ entries. table (table_view entries) ≡ fault_table units frames tasks draw.old) }
{
    let unit = drawn(draw, units);
    let from = drawn(draw, frames);
    let task = drawn(draw, tasks);
    let value = drawn(draw, WORDS);
    let item = Value::Table(fault_item(alloc, units, unit, task, value)?);
    let entries = with_number(alloc, Table::new(alloc), "unit", unit)?;
    let entries = with_number(alloc, entries, "from", from)?;
    with(alloc, entries, "say", array_of_one(alloc, item)?)
}

/// The item of a wrong word of a task, said to all other units.
fn fault_item(
    alloc: Global,
    units: u32,
    unit: u32,
    task: u32,
    value: u32,
) -> Result<Table, NoMemory>
    ensures { IfOk result (λ entries. table (table_view entries) ≡ fault_item units unit task value) }
{
    let slot = Value::String(String::from_str(alloc, "out")?);
    let to = Value::String(other_digits(alloc, units, unit)?);
    let entries = with(alloc, Table::new(alloc), "slot", slot)?;
    let entries = with_number(alloc, entries, "index", task)?;
    let entries = with_number(alloc, entries, "word", 0)?;
    let entries = with(alloc, entries, "to", to)?;
    with_number(alloc, entries, "value", value)
}

/// The digits of all units but one.
fn other_digits(alloc: Global, units: u32, unit: u32) -> Result<String, NoMemory>
    ensures { IfOk result (λ digits. string_bytes digits ≡ other_digits units unit) }
{
    let mut digits = String::new(alloc);
    for other in 0..units {
        if other != unit {
            write!(digits, "{other}")?;
        }
    }
    Ok(digits)
}

// ---- the scenario

/// The tree of the scenario with this number: 5 to 8 units, 20 to 200 frames, 1 to 8 sensors, 1 to 12 tasks,
/// and one unit that says a wrong word from some frame on.
pub fn scenario_tree(alloc: Global, number: u64) -> Result<Table, NoMemory>
    ensures { IfOk result (λ tree. table_view tree ≡ tree_of number) }
{
    // The order of the draws is part of what a number means: in another one each number would be another mission.
    let mut draw = Draw::of(number);
    let units = 5 + drawn(&mut draw, 4);
    let frames = 20 + drawn(&mut draw, 181);
    let sensors = 1 + drawn(&mut draw, 8);
    let tasks = 1 + drawn(&mut draw, 12);
    let sensor_entries = sensor_tables(alloc, &mut draw, sensors)?;
    let task_entries = task_tables(alloc, &mut draw, tasks, sensors)?;
    let fault = fault_table(alloc, &mut draw, units, frames, tasks)?;
    document_of(alloc, units, frames, sensor_entries, task_entries, fault)
}

/// The document with these units, frames, sensors, tasks and one fault.
fn document_of(
    alloc: Global,
    units: u32,
    frames: u32,
    sensors: Vec<Value>,
    tasks: Vec<Value>,
    fault: Table,
) -> Result<Table, NoMemory>
    ensures { IfOk result (λ tree. table_view tree
        ≡ member (codes "fault") (array_of (table (table_view fault) ∷ [])) (member (codes "frames") (number frames)
        (member (codes "sensor") (array_of (map view sensors.items)) (member (codes "task") (array_of (map view tasks.items))
        (member (codes "units") (number units) no_members))))) }
{
    let entries = with_number(alloc, Table::new(alloc), "units", units)?;
    let entries = with_number(alloc, entries, "frames", frames)?;
    let entries = with(alloc, entries, "sensor", array(sensors))?;
    let entries = with(alloc, entries, "task", array(tasks))?;
    with(
        alloc,
        entries,
        "fault",
        array_of_one(alloc, Value::Table(fault))?,
    )
}

/// The text of that tree, as `toml` prints it and reads it back.
pub fn scenario_text(alloc: Global, number: u64) -> Result<String, NoMemory>
    ensures { IfOk result (λ text. IsTextOf number (string_bytes text)) }
{
    let tree = scenario_tree(alloc, number)?;
    match toml::table_to_string(alloc, &tree) {
        Ok(text) => Ok(text),
        // A tree of texts and whole numbers has a text, so only memory can have been wanting.
        Err(_) => Err(NoMemory),
    }
}

// ---- its texts

/// A number has one text at most: its tree is printed in one way alone.
pub fn one_text_of_a_number()
    ensures { OneTextOfANumber }
{}
