//! Checked code, the verifier that makes it, and the laws of both.

ghost use Rattle.std.specs.Prelude.{◌≡◌, ◌≢◌, ◌<◌, ◌≤◌, ◌^◌, length, IfOk, IfErr, IsOk};
ghost use Rattle.sift_code.specs.Refusal.{IsSound, IsFirst, within, program_of, Program};
ghost use Rattle.sift_code.specs.Heights.{stack_through};
ghost use Rattle.sift_code.specs.Bound.{bound_of, kept};
ghost use Rattle.sift_code.specs.Ends.{Ends};

use crate::instr::{Instr, Limits};
use crate::machine::WORK_WORDS;
use crate::nest::{Nest, Walk};
use crate::refusal::Bad;
use arrayvec::ArrayVec;
use std::alloc::Global;
use std::marker::Model;

/// Code that was verified. A clause sees its instructions and the limits that it was verified for.
#[derive(Drop)]
pub struct Checked {
    nest: Nest,
    limits: Limits,
    stack: u16,
    bound: u32,
}

impl Model for Checked {
    ghost use Rattle.sift_code.specs.Refusal.{Program, within};
    ghost use Rattle.sift_code.specs.Kept.{IsChecked};

    ghost Value = { Program };

    ghost view = { λ c. within c.nest c.limits };

    ghost invariant = { λ c. IsChecked c.nest c.limits c.stack c.bound };
}

impl Checked {
    /// The greatest height of the stack after any of the instructions, and 0 for empty code.
    pub fn stack(&self) -> u16
        ensures { result ≡ stack_through self.now.code (length self.now.code) }
    {
        self.stack
    }

    /// At most how many instructions a run takes, or 4294967295 where that is more.
    pub fn bound(&self) -> u32
        ensures { result ≡ kept (bound_of self.now.code) }
    {
        self.bound
    }

    /// The code with its loops. It is sound.
    pub(crate) fn nest(&self) -> &Nest
        ensures code { result.now ≡ self.now.code }
        ensures sound { IsSound self.now }
    {
        &self.nest
    }

    /// How many words it may put out.
    pub(crate) fn outputs(&self) -> u8
        ensures count { result ≡ self.now.limits.outputs }
        ensures few { result ≤ 8 }
        ensures sound { IsSound self.now }
    {
        self.limits.outputs
    }
}

/// Checks code that may name so many sensors, voted words and output words.
///
/// It is accepted exactly where no place offends, the code's length counted as a place. Else the first
/// place that offends is answered, and the code is given up.
pub fn verify(
    alloc: Global,
    code: Vec<Instr>,
    sensors: u8,
    words: u8,
    outputs: u8,
) -> Result<Checked, Bad>
    requires few { outputs ≤ 8 }
    requires short { length code.items ≤ 4294967295 }
    ensures kept { IfOk result (λ checked. checked ≡ program_of code.items sensors words outputs) }
    ensures sound { IsOk result → IsSound (program_of code.items sensors words outputs) }
    ensures refused { IfErr result
        (λ bad. bad ≢ Bad.NoMemory → IsFirst (program_of code.items sensors words outputs) bad) }
{
    let limits = Limits {
        sensors,
        words,
        outputs,
    };
    let nest = Nest::of(alloc, code)?;
    let stack = follow(alloc, &nest, &limits)?;
    let bound = bound(&nest, &limits);
    Ok(Checked {
        nest,
        limits,
        stack,
        bound,
    })
}

/// Follows the heights through the code, and finds the greatest.
fn follow(alloc: Global, nest: &Nest, limits: &Limits) -> Result<u16, Bad>
    requires { length nest.now < 2 ^ 32 }
    ensures stack { IfOk result (λ stack. stack ≡ stack_through nest.now (length nest.now)) }
    ensures sound { IsOk result → IsSound (within nest.now limits.now) }
    ensures refused { IfErr result (λ bad. bad ≢ Bad.NoMemory → IsFirst (within nest.now limits.now) bad) }
{
    let mut walk = Walk::start(alloc, nest)?;
    for (at, &instr) in nest.code().iter().enumerate() {
        walk.check(nest, limits, at)?;
        walk.pass(nest, at, instr);
    }
    walk.check(nest, limits, nest.len())?;
    Ok(walk.stack)
}

/// At most how many instructions a run of sound code takes, or 4294967295.
fn bound(nest: &Nest, limits: &Limits) -> u32
    requires { IsSound (within nest.now limits.now) }
    ensures { result ≡ kept (bound_of nest.now) }
{
    let mut bound = 0u32;
    let mut product = 1u32;
    let mut outside: ArrayVec<u32, 32> = ArrayVec::new();
    for &instr in nest.code() {
        bound = bound.saturating_add(product);
        match instr {
            Instr::Begin(rounds) => {
                outside.push(product);
                product = product.saturating_mul(u32::from(rounds));
            }
            Instr::End => product = outside.pop().unwrap_or(1),
            _ => {}
        }
    }
    bound
}

// ---- laws

/// Code in which no place offends comes to its end within its bound, whatever the words that it reads.
pub fn checked_code_ends()
    ensures { (program : Program) → IsSound program → Ends program }
{}

/// A span of 352 words is room for any run: 256 of the stack, 32 locals, and twice as many as loops may be open.
pub fn runs_have_room_in_352_words()
    ensures { WORK_WORDS ≡ 352 }
{}
