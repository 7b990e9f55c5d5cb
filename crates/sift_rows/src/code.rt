//! Rows of the verifier of stack code.

ghost use Rattle.std.specs.Prelude.{◌≤◌, length};

use crate::code::Plain::*;
use sift_base::Word;
use sift_code::{Bad, Instr, verify};
use std::alloc::{AllocError, Global};
use std::process::Abort;
use std::test::Fail;

/// The instructions of the rows, with plain numbers: constants hold these, and no `Word`.
#[derive(Clone, Copy)]
enum Plain {
    Push(u16),
    Load(u8),
    Store(u8),
    Sense(u8),
    Now(u8),
    Last(u8),
    Out(u8),
    Add,
    Mid,
    JumpZ(u32),
    Jump(u32),
    Begin(u16),
    End,
}

/// The instruction.
fn instr(plain: Plain) -> Instr {
    match plain {
        Push(word) => Instr::Push(Word::of(word)),
        Load(local) => Instr::Load(local),
        Store(local) => Instr::Store(local),
        Sense(sensor) => Instr::Sense(sensor),
        Now(word) => Instr::Now(word),
        Last(word) => Instr::Last(word),
        Out(output) => Instr::Out(output),
        Add => Instr::Add,
        Mid => Instr::Mid,
        JumpZ(place) => Instr::JumpZ(place),
        Jump(place) => Instr::Jump(place),
        Begin(rounds) => Instr::Begin(rounds),
        End => Instr::End,
    }
}

/// A code, and its stack and bound or why it is refused.
type Row = (&'static [Plain], Result<(u16, u32), Bad>);

/// The stack and the bound of checked code, or why it is refused.
fn answer(
    alloc: Global,
    code: Vec<Instr>,
    sensors: u8,
    words: u8,
    outputs: u8,
) -> Result<(u16, u32), Bad>
    requires few { outputs ≤ 8 }
    requires short { length code.items ≤ 4294967295 }
{
    let checked = verify(alloc, code, sensors, words, outputs)?;
    Ok((checked.stack(), checked.bound()))
}

/// Checks a code with so many sensors, one voted word and one output word.
fn expect(
    rt: &impl Abort,
    alloc: Global,
    code: Vec<Instr>,
    sensors: u8,
    want: Result<(u16, u32), Bad>,
) {
    assert!(rt; code.len() < 1000);
    let got = answer(alloc, code, sensors, 1, 1);
    assert_eq!(rt; got, want);
}

/// The code of these instructions.
fn code_of(alloc: Global, plain: &[Plain]) -> Result<Vec<Instr>, AllocError> {
    let mut code = Vec::new(alloc);
    for &one in plain {
        code.push(instr(one))?;
    }
    Ok(code)
}

fn expect_rows(rt: &impl Abort, alloc: Global, sensors: u8, rows: &[Row]) -> Result<(), Fail> {
    for &(plain, want) in rows {
        expect(rt, alloc, code_of(alloc, plain)?, sensors, want);
    }
    Ok(())
}

#[rattlefmt::skip]
const JUMPS: [Row; 17] = [
    (&[Jump(0)], Err(Bad::BadJump { at: 0 })), // a jump to itself
    (&[Jump(1)], Ok((0, 1))), // a jump to the end
    (&[Jump(2)], Err(Bad::BadJump { at: 0 })), // a jump past the end
    (&[Load(0), JumpZ(0)], Err(Bad::BadJump { at: 1 })), // a jump back
    (&[Load(0), JumpZ(2)], Ok((1, 2))), // a test before the end
    (&[Load(0), JumpZ(3)], Err(Bad::BadJump { at: 1 })), // a test that goes past the end
    (&[Jump(1), Begin(1), End], Ok((0, 3))), // a jump to a Begin
    (&[Jump(2), Begin(1), End], Err(Bad::BadJump { at: 0 })), // a jump to an End from outside its loop
    (&[Jump(3), Begin(1), End], Ok((0, 3))), // a jump over a loop
    (&[Begin(1), Jump(2), End], Ok((0, 3))), // a jump to the End of its own loop
    (&[Begin(1), Jump(3), End], Err(Bad::BadJump { at: 1 })), // a jump out of a loop to the end
    (&[Begin(1), Jump(3), End, Jump(4)], Err(Bad::BadJump { at: 1 })), // a jump out of a loop
    (&[Begin(1), Jump(4), End, Begin(1), End], Err(Bad::BadJump { at: 1 })), // a jump into another loop
    (&[Begin(1), Jump(4), Begin(1), End, End], Ok((0, 5))), // a jump over an inner loop
    (&[Begin(1), Jump(3), Begin(1), End, End], Err(Bad::BadJump { at: 1 })), // a jump into an inner loop
    (&[Jump(2), Begin(1)], Err(Bad::BadJump { at: 1 })), // a jump over a Begin without an End
    (&[Jump(2), End], Err(Bad::BadJump { at: 1 })), // a jump over an End without a Begin
];

#[test]
fn jumps_go_ahead_within_their_loops(rt: HostRuntime) -> Result<(), Fail> {
    expect_rows(&rt, rt.alloc(), 1, &JUMPS)
}

#[rattlefmt::skip]
const BRACKETS: [Row; 13] = [
    (&[Begin(1)], Err(Bad::BadJump { at: 0 })), // a Begin alone
    (&[End], Err(Bad::BadJump { at: 0 })), // an End alone
    (&[Begin(2), End, End], Err(Bad::BadJump { at: 2 })), // an End too many
    (&[Begin(2), Begin(3), End], Err(Bad::BadJump { at: 0 })), // a Begin too many
    (&[Begin(2), End], Ok((0, 3))), // two rounds of an End
    (&[Begin(0), End], Ok((0, 1))), // no round
    (&[Begin(2), Begin(3), End, End], Ok((0, 11))), // nested loops
    (&[Begin(2), End, Begin(3), End], Ok((0, 7))), // loops in a row
    (&[Begin(3), Load(0), Out(0), End], Ok((1, 10))), // three rounds of three
    (&[Begin(65535), Begin(65535), End, End], Ok((0, 4294967295))), // one more than is kept
    (&[Begin(65535), Begin(65534), End, End], Ok((0, 4294901761))), // nearly as much as is kept
    (&[Begin(65535), Begin(65535), Begin(65535), End, End, End], Ok((0, 4294967295))), // far more than is kept
    (&[Begin(0), Begin(65535), Begin(65535), End, End, End], Ok((0, 1))), // many rounds in none
];

#[test]
fn loops_are_matched_as_brackets(rt: HostRuntime) -> Result<(), Fail> {
    expect_rows(&rt, rt.alloc(), 1, &BRACKETS)
}

#[rattlefmt::skip]
const UNDERFLOWS: [Row; 8] = [
    (&[Out(0)], Err(Bad::Underflow { at: 0 })), // no word to put out
    (&[Store(0)], Err(Bad::Underflow { at: 0 })), // no word to store
    (&[JumpZ(1)], Err(Bad::Underflow { at: 0 })), // no word to test
    (&[Load(0), Add], Err(Bad::Underflow { at: 1 })), // one word to add
    (&[Load(0), Load(0), Add, Out(0)], Ok((2, 4))), // two words to add
    (&[Load(0), Load(0), Mid], Err(Bad::Underflow { at: 2 })), // two words and a Mid
    (&[Load(0), Load(0), Load(0), Mid, Out(0)], Ok((3, 5))), // three words and a Mid
    (&[Jump(2), Out(0)], Err(Bad::Underflow { at: 1 })), // no word behind a jump
];

#[test]
fn operands_are_on_the_stack(rt: HostRuntime) -> Result<(), Fail> {
    expect_rows(&rt, rt.alloc(), 1, &UNDERFLOWS)
}

#[rattlefmt::skip]
const HEIGHTS: [Row; 8] = [
    (&[Load(0)], Err(Bad::Unequal { at: 1 })), // a word left at the end
    (&[Begin(2), Load(0), End, Out(0)], Err(Bad::Unequal { at: 2 })), // a word more after each round
    (&[Load(0), Begin(2), Store(0), End], Err(Bad::Unequal { at: 3 })), // a word less after each round
    (&[Load(0), JumpZ(5), Load(0), Jump(5), Out(0)], Err(Bad::Unequal { at: 5 })), // two jumps with two heights
    (&[Load(0), JumpZ(4), Load(0), Jump(5), Load(0), Out(0)], Ok((1, 6))), // either of two words
    (&[Load(0), JumpZ(4), Jump(5), Load(0), Out(0)], Err(Bad::Unequal { at: 4 })), // a word on one way alone
    (&[Load(0), Jump(4), Load(0), Load(0), Out(0)], Err(Bad::Unequal { at: 4 })), // a height kept behind a jump
    (&[Load(0), Jump(3), Add, Out(0)], Err(Bad::Underflow { at: 2 })), // code that no jump reaches
];

#[test]
fn heights_that_meet_are_the_same(rt: HostRuntime) -> Result<(), Fail> {
    expect_rows(&rt, rt.alloc(), 1, &HEIGHTS)
}

#[rattlefmt::skip]
const OPERANDS: [Row; 11] = [
    (&[Load(31), Out(0)], Ok((1, 2))), // the last local
    (&[Load(32), Out(0)], Err(Bad::BadOperand { at: 0 })), // no such local to load
    (&[Load(0), Store(31)], Ok((1, 2))), // the last local stored
    (&[Load(0), Store(32)], Err(Bad::BadOperand { at: 1 })), // no such local to store
    (&[Sense(0), Out(0)], Ok((1, 2))), // the last sensor
    (&[Sense(1), Out(0)], Err(Bad::BadOperand { at: 0 })), // no such sensor
    (&[Now(0), Out(0)], Ok((1, 2))), // the last word of this frame
    (&[Now(1), Out(0)], Err(Bad::BadOperand { at: 0 })), // no such word of this frame
    (&[Last(0), Out(0)], Ok((1, 2))), // the last word of the frame before
    (&[Last(1), Out(0)], Err(Bad::BadOperand { at: 0 })), // no such word of the frame before
    (&[Load(0), Out(1)], Err(Bad::BadOperand { at: 1 })), // no such output word
];

#[test]
fn operands_are_there(rt: HostRuntime) -> Result<(), Fail> {
    expect_rows(&rt, rt.alloc(), 1, &OPERANDS)
}

// The pairs of reasons that can stand at one place. Those with a stack or loops that are too deep have rows
// further down. A bad jump is never too deep and names no operand, and what pops too much leaves a low stack.
#[rattlefmt::skip]
const REASONS: [Row; 6] = [
    (&[JumpZ(0)], Err(Bad::BadJump { at: 0 })), // a bad jump before too little
    (&[Load(0), JumpZ(3), Load(0), Jump(0)], Err(Bad::BadJump { at: 3 })), // a bad jump before unequal heights
    (&[Load(0), JumpZ(3), Load(0), Mid], Err(Bad::Unequal { at: 3 })), // unequal heights before too little
    (&[Load(0), JumpZ(3), Load(0), Out(9)], Err(Bad::Unequal { at: 3 })), // unequal heights before no output
    (&[Out(9)], Err(Bad::Underflow { at: 0 })), // too little before no output
    (&[Load(40), Jump(0)], Err(Bad::BadOperand { at: 0 })), // an earlier place before a later
];

#[test]
fn the_first_reason_at_a_place_is_answered(rt: HostRuntime) -> Result<(), Fail> {
    expect_rows(&rt, rt.alloc(), 1, &REASONS)
}

#[rattlefmt::skip]
const SENSELESS: [Row; 6] = [
    (&[Add], Err(Bad::Underflow { at: 0 })), // a sum of nothing
    (&[Jump(0)], Err(Bad::BadJump { at: 0 })), // a jump to itself
    (&[Load(0), JumpZ(3), Load(0), Out(0)], Err(Bad::Unequal { at: 3 })), // two heights at an Out
    (&[Sense(0), Out(0)], Err(Bad::BadOperand { at: 0 })), // no sensor
    (&[Load(0), Out(0)], Ok((1, 2))), // one word put out
    (&[], Ok((0, 0))), // empty code
];

#[test]
fn codes_without_a_sensor(rt: HostRuntime) -> Result<(), Fail> {
    expect_rows(&rt, rt.alloc(), 0, &SENSELESS)
}

/// A code of so many of each instruction, and its stack and bound or why it is refused.
type Runs = (&'static [(Plain, usize)], Result<(u16, u32), Bad>);

/// Puts so many of an instruction behind a code.
fn push_run(code: &mut Vec<Instr>, plain: Plain, count: usize) -> Result<(), AllocError> {
    for _ in 0..count {
        code.push(instr(plain))?;
    }
    Ok(())
}

fn expect_runs(rt: &impl Abort, alloc: Global, rows: &[Runs]) -> Result<(), Fail> {
    for &(runs, want) in rows {
        let mut code = Vec::new(alloc);
        for &(plain, count) in runs {
            push_run(&mut code, plain, count)?;
        }
        expect(rt, alloc, code, 1, want);
    }
    Ok(())
}

#[rattlefmt::skip]
const STACKS: [Runs; 4] = [
    (&[(Load(0), 256), (Out(0), 256)], Ok((256, 512))),
    (&[(Load(0), 257), (Out(0), 257)], Err(Bad::TooDeep { at: 256 })),
    (&[(Load(0), 256), (Load(40), 1)], Err(Bad::TooDeep { at: 256 })),
    (&[(Load(0), 256), (Out(9), 1)], Err(Bad::BadOperand { at: 256 })),
];

#[test]
fn stacks_have_limits(rt: HostRuntime) -> Result<(), Fail> {
    expect_runs(&rt, rt.alloc(), &STACKS)
}

#[rattlefmt::skip]
const LOOPS: [Runs; 3] = [
    (&[(Begin(1), 32), (End, 32)], Ok((0, 64))),
    (&[(Begin(1), 33), (End, 33)], Err(Bad::TooDeep { at: 32 })),
    (&[(Begin(1), 33), (End, 32)], Err(Bad::BadJump { at: 0 })),
];

#[test]
fn loops_have_limits(rt: HostRuntime) -> Result<(), Fail> {
    expect_runs(&rt, rt.alloc(), &LOOPS)
}

/// Heights 0 and 256 at a `Load`.
#[rattlefmt::skip]
const WORDS: [Runs; 1] = [
    (&[(Load(0), 1), (JumpZ(258), 1), (Load(0), 257)], Err(Bad::Unequal { at: 258 })),
];

#[test]
fn unequal_heights_go_before_too_many_words(rt: HostRuntime) -> Result<(), Fail> {
    expect_runs(&rt, rt.alloc(), &WORDS)
}

/// Heights 0 and 1 at the 33rd `Begin`.
#[rattlefmt::skip]
const BEGINS: [Runs; 1] = [
    (&[(Begin(1), 32), (Load(0), 1), (JumpZ(35), 1), (Load(0), 1), (Begin(1), 1), (End, 33)], Err(Bad::Unequal { at: 35 })),
];

#[test]
fn unequal_heights_go_before_too_many_loops(rt: HostRuntime) -> Result<(), Fail> {
    expect_runs(&rt, rt.alloc(), &BEGINS)
}

#[rattlefmt::skip]
const PUSHED: [Row; 2] = [
    (&[Push(1), Out(0)], Ok((1, 2))), // one word put out
    (&[Push(1), JumpZ(3), Push(2), Out(0)], Err(Bad::Unequal { at: 3 })), // two heights at an Out
];

const PUSHES: [Runs; 1] = [(&[(Push(1), 257)], Err(Bad::TooDeep { at: 256 }))];

#[test]
fn pushed_words_are_tested_and_put_out(rt: HostRuntime) -> Result<(), Fail> {
    expect_rows(&rt, rt.alloc(), 0, &PUSHED)?;
    expect_runs(&rt, rt.alloc(), &PUSHES)
}
