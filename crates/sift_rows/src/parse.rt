//! Which limit a text passes, and the longest chains of operators. Texts with their words, and the places at which others
//! are refused, are cases, in cases/texts.txt.

use crate::texts::{names, task_of};
use sift_base::Word;
use sift_lang::eval;
use sift_parse::Which::{self, Depth, Locals, Name, Number, Repeat, Text};
use sift_parse::{ParseStop, parse_task};
use std::alloc::{AllocError, Global};
use std::process::Abort;
use std::test::Fail;

/// Expects that a text passes this limit.
fn expect(rt: &impl Abort, alloc: Global, text: &str, want: Which) -> Result<(), Fail> {
    let names = names(alloc)?;
    let passed = match parse_task(alloc, text, &names) {
        Err(ParseStop::Limit { which, .. }) => Some(which),
        _ => None,
    };
    assert_eq!(rt; passed, Some(want));
    Ok(())
}

/// A head, a piece so many times, and a tail.
fn long(
    alloc: Global,
    head: &str,
    piece: &str,
    count: u16,
    tail: &str,
) -> Result<String, AllocError> {
    let mut text = String::from_str(alloc, head)?;
    for _ in 0..count {
        text.push_str(piece)?;
    }
    text.push_str(tail)?;
    Ok(text)
}

#[test]
fn texts_pass_each_limit(rt: HostRuntime) -> Result<(), Fail> {
    let alloc = rt.alloc();
    expect(&rt, alloc, "out 0 = 65536;", Number)?;
    expect(&rt, alloc, "let abcdefghijklmnopq = 1;", Name)?;
    expect(&rt, alloc, "repeat 1025 { }", Repeat)?;
    let locals = long(alloc, "", "let x = 1; ", 33, "out 0 = x;")?;
    expect(&rt, alloc, &locals, Locals)?;
    let levels = long(alloc, "out 0 = ", "(", 33, "1;")?;
    expect(&rt, alloc, &levels, Depth)?;
    let text = long(alloc, "out 0 = 1;", " ", 4087, "")?;
    expect(&rt, alloc, &text, Text)
}

/// The first output word of a text's task where all words are 0.
fn first_word(alloc: Global, text: &str) -> Result<Option<u16>, Fail> {
    let task = task_of(alloc, text)?;
    let zero = Word::of(0);
    let words = eval(&task, &[zero; 2], &[zero; 2], &[zero; 11]);
    Ok(words.first().map(|word| word.get()))
}

/// The longest chains of operators are read, evaluated and dropped.
#[test]
fn long_chains_have_their_word(rt: HostRuntime) -> Result<(), Fail> {
    for (piece, count, want) in [("+1", 2043, 2044), ("<<0", 1362, 1)] {
        let text = long(rt.alloc(), "out 0 = 1", piece, count, ";")?;
        let got = first_word(rt.alloc(), &text)?;
        assert_eq!(rt; got, Some(want));
    }
    Ok(())
}
