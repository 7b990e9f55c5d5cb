//! Rows of the machine that runs stack code, on codes that no text has. Those of texts are cases, in cases/texts.txt.

ghost use Rattle.std.specs.Prelude.{◌≡◌, ◌≤◌};
ghost use Rattle.sift_pool.specs.Region.{IsLive, KeepsLive};
ghost use Rattle.sift_code.specs.Refusal.{limits};

use arrayvec::ArrayVec;
use sift_base::Word;
use sift_code::Instr::*;
use sift_code::{Checked, Instr, WORK_WORDS, run, verify};
use sift_pool::{Pool, Span};
use std::alloc::Global;
use std::process::Abort;
use std::test::Fail;

/// A code, and the two words that it puts out.
type Row<'a> = (&'a [Instr], [u16; 2]);

/// How many words there are, and the first two of them.
fn numbers(outs: &ArrayVec<Word, 8>) -> (usize, [u16; 2]) {
    let first = outs.get(0).map_or(0, |word| word.get());
    let second = outs.get(1).map_or(0, |word| word.get());
    (outs.len(), [first, second])
}

/// Runs a code on 5 and 3 of the sensors, 7 and 65535 of this frame, and 12 and 2 of the frame before.
fn run_once(
    code: &Checked,
    pool: &mut Pool,
    work: &Span,
    outs: &mut ArrayVec<Word, 8>,
) -> (usize, [u16; 2])
    requires live { IsLive pool.old work.now }
    requires room { WORK_WORDS ≤ work.now.len }
    requires named { code.now.limits ≡ limits 2 2 2 }
    ensures { KeepsLive pool.old pool.new }
{
    let ins = [Word::of(5), Word::of(3)];
    let made = [Word::of(7), Word::of(65535)];
    let last = [Word::of(12), Word::of(2)];
    run(code, pool, work, &ins, &made, &last, outs);
    numbers(outs)
}

/// What a code puts out, twice over a span of other words and with another word put out before, and the word below that
/// span.
fn run_twice(alloc: Global, code: &Checked) -> Result<([(usize, [u16; 2]); 2], u16), Fail>
    requires { code.now.limits ≡ limits 2 2 2 }
{
    let mut pool = Pool::make(alloc, 400, 2)?;
    let below = pool.carve(1)?;
    pool.fill(&below, 77);
    let work = pool.carve(WORK_WORDS)?;
    pool.fill(&work, 43981);
    let mut outs = ArrayVec::new();
    outs.push(Word::of(9));
    let first = run_once(code, &mut pool, &work, &mut outs);
    let again = run_once(code, &mut pool, &work, &mut outs);
    Ok(([first, again], pool.get(&below, 0)))
}

fn expect_outputs(rt: &impl Abort, alloc: Global, rows: &[Row]) -> Result<(), Fail> {
    for &(code, want) in rows {
        assert!(rt; code.len() < 1000);
        let checked = verify(alloc, code.to_vec(alloc)?, 2, 2, 2)?;
        let got = run_twice(alloc, &checked)?;
        assert_eq!(rt; got, ([(2, want), (2, want)], 77));
    }
    Ok(())
}

#[rattlefmt::skip]
#[test]
fn codes_that_no_text_has_are_run(rt: HostRuntime) -> Result<(), Fail> {
    let rows: [Row; 2] = [
        (&[Sense(0), Store(31), Load(31), Out(0), Load(30), Out(1)], [5, 0]), // a local stored, and one that wasn't
        (&[Sense(0), Begin(2), Sense(1), Add, End, Out(0)], [11, 0]), // a word under a loop
    ];
    expect_outputs(&rt, rt.alloc(), &rows)
}
