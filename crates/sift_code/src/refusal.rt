//! Why code is refused, and the test of one place of code, reason by reason.

ghost use Rattle.std.specs.Prelude.{Some, ◌≡◌, ◌+◌, ◌<◌, ◌≤◌, ◌^◌, ◌↔◌, length, slice_get, IfErr, IsOk, IsTrue};
ghost use Rattle.sift_code.specs.Refusal.{within, stack_limit, Refuses, place_of, IsFree, IsBadTarget, IsBadJump, IsUnequal, IsUnequalEnd, IsUnderflow, IsTooDeep, IsCrowdedAt, IsBadOperandAt};
ghost use Rattle.sift_code.specs.Heights.{height_at, height_after, heights_brought};
ghost use Rattle.std.specs.List.{All};
ghost use Rattle.sift_code.specs.Walk.{IsAt};

use crate::instr::{Instr, Limits};
use crate::nest::{Nest, Walk};
use sift_base::NoMemory;

// ---- why code is refused

/// Why code is refused, and at which place: the first that offends.
///
/// At one place the first in this order is answered: BadJump, Unequal, Underflow, TooDeep, BadOperand.
#[derive(Clone, Copy, Debug, PartialEq, Eq)]
pub enum Bad {
    /// A Begin or End has no match, or a jump goes back, past the code, or into or out of a loop.
    BadJump { at: u32 },
    /// An instruction pops more than there is.
    Underflow { at: u32 },
    /// Two ways to a place bring different heights, a round of a loop changes the height, or the code
    /// leaves words on the stack.
    Unequal { at: u32 },
    /// The stack is higher than 256 words after an instruction, or a Begin is the 33rd open.
    TooDeep { at: u32 },
    /// A local, sensor, word or output of this number isn't there.
    BadOperand { at: u32 },
    /// An allocation failed. It says nothing of the code.
    NoMemory,
}

impl From<NoMemory> for Bad {
    ghost use Rattle.std.specs.Prelude.{◌≡◌};
    ghost use Rattle.sift_code.specs.declared.refusal.Bad.TheVariants.{NoMemory};

    ghost from_gives = { λ _ bad. bad ≡ NoMemory };

    fn from(_: NoMemory) -> Self {
        Bad::NoMemory
    }
}

// ---- the test of a place

/// How many locals there are.
const LOCALS: u8 = 32;

/// The most words of a stack.
const STACK_LIMIT: u32 = 256;

/// The most loops that are open at once.
const LOOP_LIMIT: usize = 32;

/// Whether the instruction is a Begin or an End without a match, or a jump that may not go where it goes.
pub(crate) fn is_bad_jump(nest: &Nest, at: usize) -> bool
    requires short { length nest.now < 2 ^ 32 }
    requires inside { at ≤ length nest.now }
    ensures { IsTrue result ↔ IsBadJump nest.now at }
{
    match nest.instr(at) {
        Some(Instr::Begin(_)) => nest.past(at + 1).is_none(),
        Some(Instr::End) => nest.start(at).is_none(),
        Some(Instr::JumpZ(to)) => is_bad_target(nest, at, to as usize),
        Some(Instr::Jump(to)) => is_bad_target(nest, at, to as usize),
        _ => false,
    }
}

/// Whether a jump from a place may not go to another.
fn is_bad_target(nest: &Nest, at: usize, to: usize) -> bool
    requires { at ≤ length nest.now }
    ensures { IsTrue result ↔ IsBadTarget nest.now at to }
{
    to <= at || to > nest.len() || !nest.same_loops(to, at)
}

/// Whether the instruction names a local, sensor, word or output that isn't there.
fn is_bad_operand(limits: &Limits, instr: Option<Instr>) -> bool
    ensures { IsTrue result ↔ IsBadOperandAt limits.now instr }
{
    match instr {
        Some(Instr::Load(local) | Instr::Store(local)) => local >= LOCALS,
        Some(Instr::Sense(sensor)) => sensor >= limits.sensors,
        Some(Instr::Now(word) | Instr::Last(word)) => word >= limits.words,
        Some(Instr::Out(output)) => output >= limits.outputs,
        _ => false,
    }
}

/// Whether the stack is too high after the instruction.
fn is_too_high(height: u16, instr: &Instr) -> bool
    ensures { IsTrue result ↔ (stack_limit < height_after instr.now height) }
{
    let left = height.saturating_sub(instr.pops());
    u32::from(left) + u32::from(instr.pushes()) > STACK_LIMIT
}

/// Whether the instruction is a Begin and no more loops may be open.
fn is_too_many(depth: usize, instr: &Instr) -> bool
    ensures { IsTrue result ↔ IsCrowdedAt depth (Some instr.now) }
{
    matches!(instr, Instr::Begin(_)) && depth >= LOOP_LIMIT
}

impl Walk {
    /// Whether heights meet at a place that aren't the same.
    fn is_unequal(&self, nest: &Nest, at: usize) -> bool
        requires inside { at ≤ length nest.now }
        requires here { IsAt nest.now at self.now }
        ensures { IsTrue result ↔ IsUnequal nest.now at }
    {
        self.meets_another(nest, at)
            || self.ends_unequal(nest, at)
            || (at == nest.len() && self.heights[at] != 0)
    }

    /// Whether an earlier jump brought another height to a place.
    fn meets_another(&self, nest: &Nest, at: usize) -> bool
        requires inside { at ≤ length nest.now }
        requires here { IsAt nest.now at self.now }
        ensures { IsTrue result ↔ ¬ All (λ height. height ≡ height_at nest.now at) (heights_brought nest.now at) }
    {
        match self.brought[at] {
            Some(brought) => !brought.same || brought.height != self.heights[at],
            None => false,
        }
    }

    /// Whether the height at an End isn't the height after its Begin.
    fn ends_unequal(&self, nest: &Nest, at: usize) -> bool
        requires inside { at ≤ length nest.now }
        requires here { IsAt nest.now at self.now }
        ensures { IsTrue result ↔ IsUnequalEnd nest.now at (slice_get nest.now at) }
    {
        match (nest.instr(at), nest.start(at)) {
            (Some(Instr::End), Some(start)) => self.heights[start as usize] != self.heights[at],
            _ => false,
        }
    }

    /// Whether the instruction pops more than there is.
    fn is_underflow(&self, nest: &Nest, at: usize) -> bool
        requires inside { at ≤ length nest.now }
        requires here { IsAt nest.now at self.now }
        ensures { IsTrue result ↔ IsUnderflow nest.now at }
    {
        match nest.instr(at) {
            Some(instr) => self.heights[at] < instr.pops(),
            None => false,
        }
    }

    /// Whether the stack or the loops are too deep after the instruction.
    fn is_too_deep(&self, nest: &Nest, at: usize) -> bool
        requires inside { at ≤ length nest.now }
        requires here { IsAt nest.now at self.now }
        ensures { IsTrue result ↔ IsTooDeep nest.now at }
    {
        match nest.instr(at) {
            Some(instr) => {
                is_too_high(self.heights[at], &instr) || is_too_many(self.depth, &instr)
            }
            None => false,
        }
    }

    /// Whether a place offends, and why.
    pub fn check(&self, nest: &Nest, limits: &Limits, at: usize) -> Result<(), Bad>
        requires short { length nest.now < 2 ^ 32 }
        requires inside { at ≤ length nest.now }
        requires here { IsAt nest.now at self.now }
        ensures free { IsOk result → IsFree (within nest.now limits.now) at }
        ensures refused { IfErr result (λ bad. Refuses (within nest.now limits.now) bad × (place_of bad ≡ at)) }
    {
        let place = at as u32;
        if is_bad_jump(nest, at) {
            return Err(Bad::BadJump { at: place });
        }
        if self.is_unequal(nest, at) {
            return Err(Bad::Unequal { at: place });
        }
        if self.is_underflow(nest, at) {
            return Err(Bad::Underflow { at: place });
        }
        if self.is_too_deep(nest, at) {
            return Err(Bad::TooDeep { at: place });
        }
        if is_bad_operand(limits, nest.instr(at)) {
            return Err(Bad::BadOperand { at: place });
        }
        Ok(())
    }
}
