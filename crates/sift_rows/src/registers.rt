//! Rows of three-address code: texts, with the first two output words that a run of their code leaves, worked out by hand.

ghost use Rattle.std.specs.Prelude.{◌≡◌, ◌≤◌, IfOk};
ghost use Rattle.sift_code.specs.Ends.{Fits};
ghost use Rattle.sift_code.specs.Machine.{inputs};
ghost use Rattle.sift_pool.specs.Region.{IsLive, KeepsLive};

use crate::texts::task_of;
use arrayvec::ArrayVec;
use sift_base::Word;
use sift_pool::{Pool, Span};
use sift_registers::{FILE_WORDS, Registers, compile_registers, run_registers};
use std::alloc::Global;
use std::process::Abort;
use std::test::Fail;

/// A text, and the first two words that it puts out.
type Row<'a> = (&'a str, [u16; 2]);

/// The code of a text, for two sensors and eleven voted words.
fn code_of(alloc: Global, text: &str) -> Result<Registers, Fail>
    ensures { IfOk result (λ code. (code.limits.sensors ≡ 2) × (code.limits.words ≡ 11)) }
{
    let task = task_of(alloc, text)?;
    match compile_registers(alloc, &task, 2, 11, 16_384) {
        Ok(code) => Ok(code),
        Err(_) => Err(Fail::new("the text of a row isn't compiled")),
    }
}

/// How many words there are, and the first two of them.
fn numbers(outs: &ArrayVec<Word, 8>) -> (usize, [u16; 2]) {
    let first = outs.get(0).map_or(0, |word| word.get());
    let second = outs.get(1).map_or(0, |word| word.get());
    (outs.len(), [first, second])
}

/// Runs a code on 5 and 3 of the sensors, 7 and 65535 of the first task in this frame, and in the frame before 12 and 2 of
/// the first task, 20 to 27 of this one, and 9 of the later one.
fn run_once(
    code: &Registers,
    pool: &mut Pool,
    work: &Span,
    outs: &mut ArrayVec<Word, 8>,
) -> (usize, [u16; 2])
    requires live { IsLive pool.old work.now }
    requires room { FILE_WORDS ≤ work.now.len }
    requires sensors { code.now.limits.sensors ≡ 2 }
    requires words { code.now.limits.words ≡ 11 }
    ensures { KeepsLive pool.old pool.new }
{
    let ins = [Word::of(5), Word::of(3)];
    let zero = Word::of(0);
    let made = [
        Word::of(7),
        Word::of(65535),
        zero,
        zero,
        zero,
        zero,
        zero,
        zero,
        zero,
        zero,
        zero,
    ];
    let last = [
        Word::of(12),
        Word::of(2),
        Word::of(20),
        Word::of(21),
        Word::of(22),
        Word::of(23),
        Word::of(24),
        Word::of(25),
        Word::of(26),
        Word::of(27),
        Word::of(9),
    ];
    run_registers(code, pool, work, &ins, &made, &last, outs);
    numbers(outs)
}

/// What a text's code puts out, twice over a span of other words and with another word put out before, and the word below
/// that span.
fn run_twice(alloc: Global, text: &str) -> Result<([(usize, [u16; 2]); 2], u16), Fail> {
    let code = code_of(alloc, text)?;
    let mut pool = Pool::make(alloc, FILE_WORDS + 1, 2)?;
    let below = pool.carve(1)?;
    pool.fill(&below, 77);
    let work = pool.carve(FILE_WORDS)?;
    pool.fill(&work, 43981);
    let mut outs = ArrayVec::new();
    outs.push(Word::of(9));
    let first = run_once(&code, &mut pool, &work, &mut outs);
    let again = run_once(&code, &mut pool, &work, &mut outs);
    Ok(([first, again], pool.get(&below, 0)))
}

#[rattlefmt::skip]
#[test]
fn texts_put_out_their_words(rt: HostRuntime) -> Result<(), Fail> {
    let rows: [Row; 15] = [
        ("out 0 = sense a; out 1 = last this.1;", [5, 21]), // words that are moved
        ("out 0 = sense a - sense b * 2; out 1 = -sense b;", [65535, 65533]), // 5 - 6, and 0 - 3
        ("out 0 = mid(sense a, last first.0, now first.0); out 1 = 1 << sense b | 1;", [7, 9]), // of 5, 12 and 7; 8 and 1
        ("out 0 = 0xff00 >> 4; out 1 = 3 << 15;", [4080, 32768]), // zeros come in, and the upper bit falls out
        ("out 0 = 1 + (2 + (3 + (4 + 5))); out 1 = ((1 - 2) - 3) - 4;", [15, 65528]), // values that wait, and some that don't
        ("out 0 = now first.1 < 0; out 1 = now first.1 / 2;", [1, 0]), // -1 is below 0, and -1 / 2 is 0
        ("out 1 = 3; out 1 = sense a & 6 ^ 1;", [0, 5]), // the last one wins: 4 and 1; word 0 isn't set
        ("let x = sense a < 6; let y = x == 0; out 0 = x; out 1 = y;", [1, 0]), // comparisons that aren't tests
        ("let x = 3; if 1 { let x = 4; out 0 = x; } out 1 = x;", [4, 3]), // a local that is hidden, and seen again
        ("if sense b < sense a { out 0 = 1; } else { out 0 = 2; } if sense a < sense b { out 1 = 1; } else { out 1 = 2; }", [1, 2]),
        ("if now first.0 == 7 { out 0 = 4; } if now first.0 == 8 { out 1 = 4; }", [4, 0]), // tests that compare
        ("if now first.1 { out 0 = 6; } if last first.1 - 2 { out 1 = 1; } else { out 1 = 3; }", [6, 3]), // and tests that don't
        ("let x = sense a; repeat 4 { let y = x; x = x + y; } out 0 = x; out 1 = x % 7;", [80, 3]), // 5 doubled four times
        ("let n = 0; repeat 3 { repeat 2 { n = n + sense b; } n = n + 1; } out 0 = n;", [21, 0]), // three times 3 + 3 + 1
        ("repeat 0 { out 0 = 9; } out 1 = 1;", [0, 1]), // a loop of no rounds
    ];
    for &(text, want) in &rows {
        let got = run_twice(rt.alloc(), text)?;
        assert_eq!(rt; got, ([(8, want), (8, want)], 77));
    }
    Ok(())
}
