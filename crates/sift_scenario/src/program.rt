//! The program of the tasks of a document, with its code.

ghost use Rattle.std.specs.Prelude.{◌≡◌, ◌≢◌, ◌<◌, ◌≤◌, ◌^◌, Err, IfErr, IfOk, IsOk, length, map};
ghost use Rattle.sift_base.specs.Stop.{IfRefused};
ghost use Rattle.std.specs.List.{flat_map, sum};
ghost use Rattle.sift_code.specs.Bound.{bound_of};
ghost use Rattle.sift_compile.specs.Length.{code_limit, task_length, task_steps};
ghost use Rattle.sift_lang.specs.Sound.{IsSound};
ghost use Rattle.sift_lang.specs.Tree.{tree_of};
ghost use Rattle.sift_parse.specs.Outcome.{AreNames, linear_tree};
ghost use Rattle.sift_parse.specs.Roll.{first_word, Roll, roll_of};
ghost use Rattle.sift_document.specs.Rules.{AreMatched};
ghost use Rattle.sift_compile.specs.Tasks.{AreCodesOf, IsCodeOf};
ghost use Rattle.sift_scenario.specs.Program.{AreAllowed, IsTreeOf, step_limit, turn_of};
ghost use Rattle.sift_scenario.specs.Refusal.{IsFirstRefused, IsNoTask, IsOver, IsRefusedWith};
ghost use Rattle.sift_base.specs.Layout.{sensor_limit, word_limit};
ghost use Rattle.sift_base.specs.Shapes.{task_limit};
ghost use Rattle.sift_scenario.specs.Testing.{AreTurns, IsCodeStop, form_of};
ghost use Rattle.toml.specs.Data.{Members};
ghost use Rattle.sift_scenario.specs.Reading.{IsReadOf, IsRunningOf};

use crate::document::Entries;
use crate::entries::{Form, Starts};
use crate::mission::{Refused, code_refused, text_refused};
use sift_base::{Name, NoMemory, Stop, Word};
use sift_lang::{Expr, Op, Stmt, Task};
use sift_parse::{Names, parse_task};
use sift_program::Program;
use sift_registers::{Registers, compile_registers};
use std::alloc::Global;

// ---- trees, code and start words, task by task

/// The names that the texts of tasks may use, where these are the sensors' names, and the tasks' names
/// and start words.
fn names_for(
    alloc: Global,
    sensors: &[Name],
    names: &[Name],
    starts: &[Starts],
) -> Result<Names, NoMemory>
    requires { length names.now ≡ length starts.now }
    ensures { IfOk result (λ all. roll_of all ≡ record {
      sensors = map (λ name. name.bytes) sensors.now;
      tasks = map (λ name. name.bytes) names.now;
      sizes = map (λ words. length words.items) starts.now;
      this = 0;
    }) }
{
    let mut tasks = Vec::new(alloc);
    for (place, name) in names.iter().enumerate() {
        tasks.push((*name, starts[place].len() as u8))?;
    }
    Ok(Names {
        sensors: Vec::from_slice(alloc, sensors)?,
        tasks,
        this: 0,
    })
}

/// The start words of all tasks, in their order.
fn all_starts(alloc: Global, starts: &[Starts]) -> Result<Vec<Word>, NoMemory>
    ensures { IfOk result (λ all. all.items ≡ flat_map (λ words. words.items) starts.now) }
{
    let mut all = Vec::new(alloc);
    for words in starts {
        all.extend_from_slice(words)?;
    }
    Ok(all)
}

/// The most steps that the tasks of a mission may take in a frame, all together.
const STEP_LIMIT: u32 = 16_384;

/// The trees of tasks, and their code.
#[derive(Drop)]
pub(crate) struct Compiled {
    pub trees: Vec<Task>,
    pub codes: Vec<Registers>,
}

/// The trees and the code of the tasks of these forms, each in its turn. There are so many sensors and
/// output words.
fn compile_tasks(
    alloc: Global,
    forms: &[Form<'_>],
    names: &mut Names,
    sensors: u8,
    words: u8,
) -> Result<Compiled, Stop<Refused>>
    requires few { length forms.now ≤ task_limit }
    requires turns { AreTurns (length forms.now) (roll_of names.old) }
    requires words { words ≡ sum (roll_of names.old).sizes }
    requires sensors { sensors ≡ length (roll_of names.old).sensors }
    ensures trees { IfOk result (λ compiled.
        AreMatched (λ task form tree. IsTreeOf (turn_of task (roll_of names.old)) form tree)
        (map form_of forms.now) (map tree_of compiled.trees.items)) }
    ensures allowed { IfOk result (λ compiled. AreAllowed (map tree_of compiled.trees.items)) }
    ensures codes { IfOk result (λ compiled.
        AreCodesOf sensors words (map tree_of compiled.trees.items) compiled.codes.items) }
    ensures refused { IfErr result (IfRefused (
        IsFirstRefused (roll_of names.old) (map form_of forms.now))) }
{
    let mut trees = Vec::new(alloc);
    let mut codes = Vec::new(alloc);
    let mut left = STEP_LIMIT;
    for (task, form) in forms.iter().enumerate() {
        names.this = task;
        let tree = form_tree(alloc, form, names)?;
        let code = tree_code(
            alloc,
            &tree,
            task,
            Room {
                sensors,
                words,
                left,
            },
        )?;
        left -= code.stack().bound();
        trees.push(tree)?;
        codes.push(code)?;
    }
    Ok(Compiled { trees, codes })
}

/// What a task's code may name, and how many steps it may take.
#[derive(Clone, Copy)]
struct Room {
    sensors: u8,
    words: u8,
    left: u32,
}

/// The code of a tree that has so much room.
fn tree_code(
    alloc: Global,
    tree: &Task,
    task: usize,
    room: Room,
) -> Result<Registers, Stop<Refused>>
    requires task { task < 2 ^ 32 }
    requires few_sensors { room.sensors ≤ sensor_limit }
    requires few_words { room.words ≤ word_limit }
    requires sound { IsSound room.sensors room.words (tree_of tree.now) }
    requires left { room.left ≤ step_limit }
    ensures code { IfOk result (IsCodeOf room.sensors room.words (tree_of tree.now)) }
    ensures short { IsOk result → task_length (tree_of tree.now) ≤ code_limit }
    ensures quick { IsOk result → task_steps (tree_of tree.now) ≤ room.left }
    ensures steps { IfOk result (λ code. bound_of code.code ≡ task_steps (tree_of tree.now)) }
    ensures refused { IfErr result (IsCodeStop room.left task (tree_of tree.now)) }
    // Code over a limit is refused so, whatever memory there is.
    ensures over { (refused : Refused) → IsOver room.left task (tree_of tree.now) refused → result ≡ Err (Stop.Refused refused) }
{
    match compile_registers(alloc, tree, room.sensors, room.words, room.left) {
        Ok(code) => Ok(code),
        Err(stop) => Err(code_refused(task, stop)),
    }
}

/// The tree of a task of this form, where it is its turn.
fn form_tree(alloc: Global, form: &Form<'_>, names: &Names) -> Result<Task, Stop<Refused>>
    requires { AreNames (roll_of names.now) }
    ensures tree { IfOk result (λ task. IsTreeOf (roll_of names.now) (form_of form.now) (tree_of task)) }
    ensures refused { IfErr result (IfRefused (
        IsNoTask (roll_of names.now) (roll_of names.now).this (form_of form.now))) }
{
    match form {
        Form::Linear { factor, addend } => {
            let word = first_word(names);
            Ok(linear_task(alloc, word, *factor, *addend)?)
        }
        Form::Text(text) => match parse_task(alloc, text, names) {
            Ok(task) => Ok(task),
            Err(stop) => Err(text_refused(names.this, stop)),
        },
    }
}

/// How many words the tasks before the one whose turn it is have, which is the number of its first.
fn first_word(names: &Names) -> u8
    requires { AreNames (roll_of names.now) }
    ensures { result ≡ first_word (roll_of names.now) (roll_of names.now).this }
{
    let mut words = 0;
    for task in &names.tasks[..names.this] {
        words += task.1;
    }
    words
}

/// The linear task of this rule, whose word has this number.
fn linear_task(alloc: Global, word: u8, factor: Word, addend: Word) -> Result<Task, NoMemory>
    ensures { IfOk result (λ task. tree_of task ≡ linear_tree word factor addend) }
{
    let factor = Box::new(alloc, Expr::Number(factor))?;
    let last = Box::new(alloc, Expr::Last(word))?;
    let product = Box::new(alloc, Expr::Binary(Op::Mul, factor, last))?;
    let addend = Box::new(alloc, Expr::Number(addend))?;
    let value = Expr::Binary(Op::Add, product, addend);
    Ok(Task {
        outputs: 1,
        body: vec![in alloc; Stmt::Output(0, value)]?,
    })
}

// ---- the program

/// A program and the checked code of its tasks.
#[derive(Drop)]
pub(crate) struct Running {
    pub program: Program,
    pub code: Vec<Registers>,
}

/// The program of the tasks among these entries, with the code of each.
pub(crate) fn run_entries(alloc: Global, entries: &Entries<'_>) -> Result<Running, Stop<Refused>>
    requires { (document : Members) × IsReadOf document entries.now }
    ensures running { IfOk result (λ running. (document : Members)
        → IsReadOf document entries.now → IsRunningOf document running) }
    ensures refused { IfErr result (λ why. (document : Members)
        → IsReadOf document entries.now → IfRefused (IsRefusedWith document) why) }
{
    let sensors = &entries.sensors.names;
    let tasks = &entries.tasks;
    let mut names = names_for(alloc, sensors, &tasks.names, &tasks.starts)?;
    let starts = all_starts(alloc, &tasks.starts)?;
    let compiled = compile_tasks(
        alloc,
        &tasks.forms,
        &mut names,
        sensors.len() as u8,
        starts.len() as u8,
    )?;
    let program = Program {
        tasks: compiled.trees,
        starts,
    };
    Ok(Running {
        program,
        code: compiled.codes,
    })
}
