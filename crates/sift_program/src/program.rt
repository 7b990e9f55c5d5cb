//! The program of a mission, how large it may be, and the shapes of its tasks.

ghost use Rattle.std.specs.Prelude.{◌≡◌, ◌<◌, ◌≤◌, ◌+◌, ◌^◌, IfOk, length, map};
ghost use Rattle.sift_base.specs.Layout.{word_limit, sensor_limit};
ghost use Rattle.sift_base.specs.Shapes.{task_limit, AreShapes, shapes_of};
ghost use Rattle.std.specs.List.{filter, list_any, range_with_len};
ghost use Rattle.sift_lang.specs.Tree.{block_of, statement_of, term_of, tree_of};
ghost use Rattle.sift_program.specs.Program.{program_of, IsSoundProgram, output_count, SoundProgramsHaveShapes, block_reads, program_shapes, reads_task, statement_reads, task_at, term_reads};

use sift_base::{NoMemory, Shapes, TaskShape, Word};
use sift_lang::{Expr, Stmt, Task};
use std::alloc::Global;

/// The most tasks of a program.
pub const TASK_LIMIT: usize = 24;

/// The most output words of all tasks of a program together.
pub const WORD_LIMIT: usize = 64;

/// The limits that the code holds are those of a mission.
pub fn limits_are_the_missions()
    ensures tasks { TASK_LIMIT ≡ task_limit }
    ensures words { WORD_LIMIT ≡ word_limit }
{}

/// The tasks that run in each frame. Their output words are numbered from 0 on in the order of the tasks.
#[derive(Drop)]
pub struct Program {
    /// In the order in which they run.
    pub tasks: Vec<Task>,
    /// For each output word the one that stands for it before frame 0.
    pub starts: Vec<Word>,
}

// ---- the shapes of its tasks

/// The shapes of a program's tasks, beside so many sensors: of each task the number of its outputs, and the earlier
/// tasks of whose words it reads one by `now`, in ascending order. It is what tables are planned and checked by.
pub fn shapes_of(alloc: Global, program: &Program, sensors: u8) -> Result<Shapes, NoMemory>
    requires sensors { sensors ≤ sensor_limit }
    requires program { IsSoundProgram sensors (program_of program.now) }
    ensures shapes { IfOk result (λ shapes. shapes_of shapes ≡ program_shapes sensors (program_of program.now)) }
    ensures fit { IfOk result (λ shapes. AreShapes (shapes_of shapes)) }
{
    let mut tasks = Vec::new(alloc);
    for (place, task) in program.tasks.iter().enumerate() {
        tasks.push(TaskShape {
            outputs: task.outputs,
            needs: needs_of(alloc, &program.tasks, place)?,
        })?;
    }
    Ok(Shapes { sensors, tasks })
}

/// The shapes of a sound program's tasks are shapes that a mission may have.
pub fn sound_programs_have_shapes()
    ensures { SoundProgramsHaveShapes }
{}

/// The earlier tasks of whose words of this frame the task at a place reads one.
fn needs_of(alloc: Global, tasks: &[Task], place: usize) -> Result<Vec<u8>, NoMemory>
    requires place { place < length tasks.now }
    requires few { length tasks.now < 2 ^ 8 }
    requires words { output_count (map tree_of tasks.now) < 2 ^ 8 }
    ensures { IfOk result (λ needs. needs.items
        ≡ filter (reads_task (map tree_of tasks.now) (task_at (map tree_of tasks.now) place)) (range_with_len 0 place)) }
{
    let mut needs = Vec::new(alloc);
    let mut first = 0;
    for earlier in 0..place {
        let outputs = tasks[earlier].outputs;
        if reads_some(&tasks[place], first, outputs) {
            needs.push(earlier as u8)?;
        }
        first += outputs;
    }
    Ok(needs)
}

/// Whether a task reads one of so many words of this frame, from the first on.
fn reads_some(task: &Task, first: u8, count: u8) -> bool
    requires { first + count < 2 ^ 8 }
    ensures { result ≡ list_any (λ w. block_reads w (tree_of task.now).body) (range_with_len first count) }
{
    for word in first..first + count {
        if block_reads(&task.body, word) {
            return true;
        }
    }
    false
}

/// Whether an expression reads a word of this frame.
fn reads(e: &Expr, word: u8) -> bool
    ensures { result ≡ term_reads word (term_of e.now) }
{
    match e {
        Expr::Number(_) | Expr::Local(_) | Expr::Sense(_) | Expr::Last(_) => false,
        Expr::Now(w) => *w == word,
        Expr::Minus(e) => reads(e, word),
        Expr::Binary(_, a, b) => reads(a, word) || reads(b, word),
        Expr::Mid(a, b, c) => reads(a, word) || reads(b, word) || reads(c, word),
    }
}

/// Whether a statement reads a word of this frame.
#[cycle(reading)]
fn statement_reads(statement: &Stmt, word: u8) -> bool
    ensures { result ≡ statement_reads word (statement_of statement.now) }
{
    match statement {
        Stmt::Let(e) | Stmt::Set(_, e) | Stmt::Output(_, e) => reads(e, word),
        Stmt::If(e, first, None) => reads(e, word) || block_reads(first, word),
        Stmt::If(e, first, Some(second)) => {
            reads(e, word) || block_reads(first, word) || block_reads(second, word)
        }
        Stmt::Repeat(_, body) => block_reads(body, word),
    }
}

/// Whether a statement of a block reads a word of this frame.
#[cycle(reading)]
fn block_reads(block: &[Stmt], word: u8) -> bool
    ensures { result ≡ block_reads word (block_of block.now) }
{
    for statement in block {
        if statement_reads(statement, word) {
            return true;
        }
    }
    false
}
