//! The compiler: code of a task within the limits, or why there is none.

ghost use Rattle.std.specs.Prelude.{◌≡◌, ◌<◌, ◌≤◌, length, Err, IsOk, IfOk, IfErr};
ghost use Rattle.sift_lang.specs.Tree.{tree_of};
ghost use Rattle.sift_lang.specs.Sound.{IsSound};
ghost use Rattle.sift_compile.specs.Code.{task_code, task_program};
ghost use Rattle.sift_compile.specs.Correct.{IsMeasured, Means, CodeIsSound, CodeMeansItsTask};
ghost use Rattle.sift_compile.specs.Stop.{IsAllowed, IsOver, Stops};

use crate::emit::{Count, block_takes, emit_block};
use sift_base::NoMemory;
use sift_code::{Bad, Checked, verify};
use sift_lang::Task;
use std::alloc::Global;

// ---- why a task has no code

/// The most instructions of a task's code.
pub const CODE_LIMIT: u32 = 1024;

/// Why a task isn't compiled.
#[derive(Clone, Copy)]
pub enum CompileStop {
    /// The code has more than 1,024 instructions: so many, or 4294967295 where there are more.
    CodeTooLong { len: u32 },
    /// A run may take more instructions than the budget: so many, or 4294967295 where there are more.
    TooManySteps { bound: u32 },
    /// An allocation failed. It says nothing of the task.
    NoMemory,
}

impl From<NoMemory> for CompileStop {
    ghost use Rattle.std.specs.Prelude.{◌≡◌};
    ghost use Rattle.sift_compile.specs.declared.compiler.CompileStop.TheVariants.{NoMemory};

    ghost from_gives = { λ _ stop. stop ≡ NoMemory };

    fn from(_: NoMemory) -> Self {
        CompileStop::NoMemory
    }
}

// ---- the compiler

/// Compiles a task, which may name so many sensors and voted words.
///
/// Its code may have 1,024 instructions, and a run of it may take as many as the budget. Both limits are
/// tested before any memory is asked for, the length first.
pub fn compile(
    alloc: Global,
    task: &Task,
    sensors: u8,
    words: u8,
    budget: u32,
) -> Result<Checked, CompileStop>
    requires sound { IsSound sensors words (tree_of task.now) }
    requires bounded { budget < 4294967295 }
    ensures code { IfOk result (λ checked. checked ≡ task_program sensors words (tree_of task.now)) }
    ensures means { IfOk result (λ checked. Means checked (tree_of task.now)) }
    ensures allowed { IsOk result → IsAllowed budget (task_code (tree_of task.now)) }
    ensures stopped { IfErr result (Stops budget (task_code (tree_of task.now))) }
    // The length of the code, and the bound of its steps, can be read off the task's tree.
    ensures measured { IsMeasured (tree_of task.now) }
    // A code over a limit is told so, whatever memory there is.
    ensures over { (stop : CompileStop) → IsOver budget (task_code (tree_of task.now)) stop → result ≡ Err stop }
{
    test_limits(task, budget)?;
    Ok(check(alloc, task, sensors, words)?)
}

/// Tests the two limits of a task's code, by what its tree tells. It asks for no memory, so none is wanting.
fn test_limits(task: &Task, budget: u32) -> Result<(), CompileStop>
    requires { budget < 4294967295 }
    ensures allowed { IsOk result → IsAllowed budget (task_code (tree_of task.now)) }
    ensures over { IfErr result (IsOver budget (task_code (tree_of task.now))) }
{
    let len = block_takes(Count::Instructions, &task.body);
    if len > CODE_LIMIT {
        return Err(CompileStop::CodeTooLong { len });
    }
    let bound = block_takes(Count::Steps, &task.body);
    if bound > budget {
        return Err(CompileStop::TooManySteps { bound });
    }
    Ok(())
}

/// The code of a task, checked.
fn check(alloc: Global, task: &Task, sensors: u8, words: u8) -> Result<Checked, NoMemory>
    requires sound { IsSound sensors words (tree_of task.now) }
    requires short { length (task_code (tree_of task.now)) ≤ CODE_LIMIT }
    ensures { IfOk result (λ checked. checked ≡ task_program sensors words (tree_of task.now)) }
{
    let mut code = Vec::new(alloc);
    emit_block(&mut code, 0, &task.body)?;
    match verify(alloc, code, sensors, words, task.outputs) {
        Ok(checked) => Ok(checked),
        Err(bad) => Err(no_memory(bad)),
    }
}

/// The one refusal of sound code.
fn no_memory(bad: Bad) -> NoMemory
    requires { bad ≡ Bad.NoMemory }
{
    match bad {
        Bad::NoMemory => NoMemory,
        _ => unreachable!(),
    }
}

// ---- laws

/// The code of a sound task is sound, so `verify` never refuses it.
pub fn compiled_code_is_sound()
    ensures { CodeIsSound }
{}

/// The code of a sound task means the task: its run gives what the task means.
pub fn compiled_code_means_its_task()
    ensures { CodeMeansItsTask }
{}
