//! The entries of a document: its sensors and its tasks.

ghost use Rattle.std.specs.Prelude.{◌≡◌, ◌<◌, ◌≤◌, ◌↔◌, ◌^◌, ℕ, List, Contains, IfErr, IfOk, IfSome, IfNone, IsTrue, Some, length, map, codes, ◌∷◌, [], None, option_map, ◌≢◌, ◌+◌, sum, take};
ghost use Rattle.toml.specs.View.{table_view, view};
ghost use Rattle.sift_document.specs.Document.{IsArrayOf, entries_of, members_of, IsTableOf, tables_in, word_array};
ghost use Rattle.sift_document.specs.Rules.{HoldsOf, BreaksEntries};
ghost use Rattle.sift_document.specs.Testing.{Decides, Tests, TestsEach};
ghost use Rattle.sift_scenario.specs.Task.{IsNewName, name_of, BreaksNames, BreaksTasks, task_rules, AreForms, Form as Stated, HasForm, counts_of, start_words, tasks_of, task_outputs};
ghost use Rattle.toml.specs.Data.{get_member};
ghost use Rattle.sift_base.specs.Layout.{sensor_limit, word_limit};
ghost use Rattle.sift_scenario.specs.Reading.{AreSensorsIn, AreSensorsOf, AreTasksOf};
ghost use Rattle.sift_scenario.specs.Sensor.{sensor_rules, words_of};
ghost use Rattle.sift_base.specs.Shapes.{task_limit};
ghost use Rattle.sift_scenario.specs.Testing.{IsLinearForm, form_of};

use arrayvec::ArrayVec;
use sift_base::{Name, NoMemory, Stop, Word, is_name};
use sift_document::{
    BrokenRule, broken, entries_at, entries_between, member_of, table_of, tables_in, word_array,
    word_value,
};
use sift_program::{TASK_LIMIT, WORD_LIMIT};
use std::alloc::Global;
use toml::{Table, Value};

// ---- entries and their names

/// The names of the entries in these tables, by the rule of this number.
pub(crate) fn names_in(
    alloc: Global,
    tables: &[&Table],
    rule: u32,
) -> Result<Vec<Name>, Stop<BrokenRule>>
    requires { length tables.now < 2 ^ 32 }
    ensures names { IfOk result (λ names.
        map (λ name. Some name.bytes) names.items ≡ map (λ entry. name_of (table_view entry.now)) tables.now) }
    ensures tests { Tests rule (BreaksNames (map (λ entry. table_view entry.now) tables.now)) result }
{
    let mut names = Vec::new(alloc);
    for (place, entry) in tables.iter().enumerate() {
        match new_name(entry, &names) {
            Some(name) => names.push(name)?,
            None => return Err(broken(rule, place)),
        }
    }
    Ok(names)
}

/// The name of an entry that comes after entries of these names, where it may have it.
fn new_name(entry: &Table, earlier: &[Name]) -> Option<Name>
    ensures found { IfSome result (λ name.
        IsNewName (map (λ other. Some other.bytes) earlier.now) (table_view entry.now) name.bytes) }
    ensures none { IfNone result ((name : List ℕ) →
        ¬ IsNewName (map (λ other. Some other.bytes) earlier.now) (table_view entry.now) name) }
{
    let text = member_of(entry, "name")?.as_str()?;
    if is_name(text) && !is_among(text, earlier) {
        Name::from(text).ok()
    } else {
        None
    }
}

/// Whether one of the names is this text.
fn is_among(text: &str, names: &[Name]) -> bool
    ensures { IsTrue result ↔ Contains (map (λ name. name.bytes) names.now) text.now }
{
    for name in names {
        if name.as_str() == text {
            return true;
        }
    }
    false
}

// ---- sensors

/// What the tables of the sensors state, each in the order of the sensors.
#[derive(Drop)]
pub(crate) struct Sensors {
    pub names: Vec<Name>,
    pub words: Vec<Vec<Word>>,
}

/// The sensors of a document, which may have none.
pub(crate) fn sensors_of(alloc: Global, document: &Table) -> Result<Sensors, Stop<BrokenRule>>
    ensures read { IfOk result (AreSensorsOf (table_view document.now)) }
    ensures tests { TestsEach (sensor_rules (get_member (codes "sensor") (table_view document.now))) result }
{
    match member_of(document, "sensor") {
        Some(value) => stated_sensors(alloc, value),
        None => Ok(Sensors {
            names: Vec::new(alloc),
            words: Vec::new(alloc),
        }),
    }
}

/// The sensors that the value of `sensor` states.
fn stated_sensors(alloc: Global, value: &Value) -> Result<Sensors, Stop<BrokenRule>>
    ensures read { IfOk result (AreSensorsIn (tables_in (Some (view value.now)))) }
    ensures tests { TestsEach (sensor_rules (Some (view value.now))) result }
{
    let tables = sensor_tables(alloc, value)?;
    let names = names_in(alloc, &tables, 16)?;
    let words = sensed_words(alloc, &tables)?;
    Ok(Sensors { names, words })
}

/// The tables of the sensors.
fn sensor_tables(alloc: Global, value: &Value) -> Result<Vec<&Table>, Stop<BrokenRule>>
    ensures tables { IfOk result (λ tables.
        map (λ sensor. table_view sensor.now) tables.items ≡ tables_in (Some (view value.now))) }
    ensures few { IfOk result (λ tables. length tables.items ≤ sensor_limit) }
    ensures tests { Tests 15 (BreaksEntries 0 sensor_limit
        (λ _. IsTableOf (codes "name" ∷ codes "words" ∷ [])) (Some (view value.now))) result }
{
    let entries = entries_between(value, 0, 8, 15)?;
    tables_in(alloc, entries, &["name", "words"], 15)
}

/// The words of each sensor.
fn sensed_words(alloc: Global, tables: &[&Table]) -> Result<Vec<Vec<Word>>, Stop<BrokenRule>>
    requires { length tables.now < 2 ^ 32 }
    ensures words { IfOk result (λ words.
        map (λ list. Some list.items) words.items ≡ map (λ sensor. words_of (table_view sensor.now)) tables.now) }
    ensures tests { Tests 17 (λ place. HoldsOf (map (λ sensor. table_view sensor.now) tables.now) place
        (λ sensor. words_of sensor ≡ None)) result }
{
    let mut words = Vec::new(alloc);
    for (place, sensor) in tables.iter().enumerate() {
        match words_of(alloc, sensor)? {
            Some(list) => words.push(list)?,
            None => return Err(broken(17, place)),
        }
    }
    Ok(words)
}

/// The words of a sensor.
fn words_of(alloc: Global, sensor: &Table) -> Result<Option<Vec<Word>>, NoMemory>
    ensures { IfOk result (λ found. option_map (λ list. list.items) found ≡ words_of (table_view sensor.now)) }
{
    match member_of(sensor, "words") {
        Some(value) => word_list(alloc, value),
        None => Ok(None),
    }
}

/// The words of an array of 1 to 1,000 word values.
fn word_list(alloc: Global, value: &Value) -> Result<Option<Vec<Word>>, NoMemory>
    ensures { IfOk result (λ found.
        option_map (λ list. list.items) found ≡ word_array 1 1000 (view value.now)) }
{
    let Some(array) = value.as_array() else {
        return Ok(None);
    };
    let entries = array.as_slice();
    if entries.is_empty() || entries.len() > 1_000 {
        return Ok(None);
    }
    let mut words = Vec::new(alloc);
    for entry in entries {
        match word_value(entry) {
            Some(word) => words.push(word)?,
            None => return Ok(None),
        }
    }
    Ok(Some(words))
}

// ---- tasks

/// What a task runs.
#[derive(Clone, Copy)]
pub(crate) enum Form<'a> {
    /// In each frame its word is `factor * last + addend`, where `last` is its word of the frame
    /// before.
    Linear { factor: Word, addend: Word },
    /// A text of the task language.
    Text(&'a str),
}

/// The start words of a task, one for each of its output words.
pub(crate) type Starts = ArrayVec<Word, 8>;

/// What the tables of the tasks state, each in the order of the tasks.
#[derive(Drop)]
pub(crate) struct Tasks<'a> {
    pub names: Vec<Name>,
    pub starts: Vec<Starts>,
    pub forms: Vec<Form<'a>>,
}

/// The tasks of a document.
pub(crate) fn tasks_of(alloc: Global, document: &Table) -> Result<Tasks<'_>, Stop<BrokenRule>>
    ensures read { IfOk result (AreTasksOf (table_view document.now)) }
    ensures tests { TestsEach (task_rules (table_view document.now)) result }
{
    let tables = task_tables(alloc, document)?;
    let names = names_in(alloc, &tables, 19)?;
    let starts = task_starts(alloc, &tables)?;
    check_words(&starts)?;
    let forms = task_forms(alloc, &tables, &starts)?;
    Ok(Tasks {
        names,
        starts,
        forms,
    })
}

/// The tables of the tasks.
fn task_tables(alloc: Global, document: &Table) -> Result<Vec<&Table>, Stop<BrokenRule>>
    ensures tables { IfOk result (λ tables.
        map (λ task. table_view task.now) tables.items ≡ tasks_of (table_view document.now)) }
    ensures some { IfOk result (λ tables. 0 < length tables.items) }
    ensures few { IfOk result (λ tables. length tables.items ≤ task_limit) }
    ensures tests { Tests 18 (BreaksTasks (table_view document.now)) result }
{
    let entries = entries_at(document, "task");
    if entries.is_empty() || entries.len() > TASK_LIMIT {
        return Err(broken(18, 0));
    }
    tables_in(alloc, entries, &["name", "start", "text", "linear"], 18)
}

/// The start words of each task.
fn task_starts(alloc: Global, tasks: &[&Table]) -> Result<Vec<Starts>, Stop<BrokenRule>>
    requires { length tasks.now ≤ task_limit }
    ensures starts { IfOk result (λ starts.
        map (λ words. Some words.items) starts.items ≡ map (λ task. start_words (table_view task.now)) tasks.now) }
    ensures tests { Tests 20 (λ place. HoldsOf (map (λ task. table_view task.now) tasks.now) place
        (λ task. start_words task ≡ None)) result }
{
    let mut starts = Vec::new(alloc);
    for (place, task) in tasks.iter().enumerate() {
        match start_words(task) {
            Some(words) => starts.push(words)?,
            None => return Err(broken(20, place)),
        }
    }
    Ok(starts)
}

/// The start words of a task.
fn start_words(task: &Table) -> Option<Starts>
    ensures { option_map (λ words. words.items) result ≡ start_words (table_view task.now) }
{
    word_array(member_of(task, "start")?, 1, 8)
}

/// Tests how many output words there are, where these are the start words of the tasks.
fn check_words(starts: &[Starts]) -> Result<(), BrokenRule>
    requires { length starts.now ≤ task_limit }
    ensures { Decides 21 (λ place. (place < length starts.now)
        × (word_limit < sum (take (place + 1) (map (λ words. length words.items) starts.now)))) result }
{
    let mut words = 0;
    for (place, task) in starts.iter().enumerate() {
        words += task.len();
        if words > WORD_LIMIT {
            return Err(BrokenRule::at(21, place));
        }
    }
    Ok(())
}

/// What each task runs, where these are the start words of the tasks.
fn task_forms<'a>(
    alloc: Global,
    tasks: &[&'a Table],
    starts: &[Starts],
) -> Result<Vec<Form<'a>>, Stop<BrokenRule>>
    requires few { length tasks.now ≤ task_limit }
    requires starts { map (λ words. length words.items) starts.now
        ≡ counts_of (map (λ task. table_view task.now) tasks.now) }
    ensures forms { IfOk result (λ forms.
        AreForms (map (λ task. table_view task.now) tasks.now) (map form_of forms.items)) }
    ensures tests { Tests 22 (λ place. HoldsOf (map (λ task. table_view task.now) tasks.now) place
        (λ task. (form : Stated) → ¬ HasForm task form)) result }
{
    let mut forms = Vec::with_capacity(alloc, tasks.len())?;
    for (place, task) in tasks.iter().enumerate() {
        match form_of(task, starts[place].len()) {
            Some(form) => forms.push_reserved(form),
            None => return Err(broken(22, place)),
        }
    }
    Ok(forms)
}

/// What a task of so many output words runs: a text alone, or a linear rule alone.
fn form_of(task: &Table, words: usize) -> Option<Form<'_>>
    requires { words ≡ task_outputs (table_view task.now) }
    ensures found { IfSome result (λ form. HasForm (table_view task.now) (form_of form)) }
    ensures none { IfNone result ((form : Stated) → ¬ HasForm (table_view task.now) form) }
{
    match (member_of(task, "text"), member_of(task, "linear")) {
        (Some(text), None) => Some(Form::Text(text.as_str()?)),
        (None, Some(rule)) if words == 1 => linear_form(rule),
        _ => None,
    }
}

/// A linear rule.
fn linear_form(rule: &Value) -> Option<Form<'_>>
    ensures found { IfSome result (λ form. IsLinearForm (view rule.now) (form_of form)) }
    ensures none { IfNone result ((factor addend : ℕ) →
        word_array 2 2 (view rule.now) ≢ Some (factor ∷ addend ∷ [])) }
{
    let pair = word_array::<2>(rule, 2, 2)?;
    Some(Form::Linear {
        factor: pair[0],
        addend: pair[1],
    })
}
