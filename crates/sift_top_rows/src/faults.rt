//! A source and a sink that fail at any one of their calls. What the top call answers else is in cases/.

use crate::calling::{Failing, call};
use crate::stated::{COUNT, COUNT_REPORT, silents};
use sift_base::NoMemory;
use sift_io::BytesOut;
use sift_threads::NoProbe;
use std::alloc::Global;
use std::process::Abort;
use std::sync::Wait;
use std::test::Fail;
use std::thread::Threads;

/// Calls the top call with rogues that rest.
fn call_with_failing<H: Threads + Wait + Sync>(
    rt: &H,
    alloc: Global,
    word: &str,
    input: &str,
    failing: Failing,
) -> Result<(u8, BytesOut), NoMemory> {
    let rogues = silents(alloc)?;
    call(
        rt,
        alloc,
        &[word],
        input.as_bytes(),
        failing,
        rogues,
        &NoProbe,
    )
}

#[test]
fn a_source_may_fail_at_any_call(rt: HostRuntime) -> Result<(), Fail> {
    // Four pieces of 16 bytes, one of 15, and the end.
    for read in 1..=6 {
        let failing = Failing { read, write: 0 };
        let (status, sink) = call_with_failing(&rt, rt.alloc(), "run", COUNT, failing)?;
        assert_eq!(rt; status, 8);
        assert_eq!(rt; sink.bytes.as_slice(), b"read fault\n".as_slice());
    }
    // No read comes after the end.
    let failing = Failing { read: 7, write: 0 };
    let (status, _) = call_with_failing(&rt, rt.alloc(), "run", COUNT, failing)?;
    assert_eq!(rt; status, 0);
    Ok(())
}

#[test]
fn a_sink_may_fail_at_any_call(rt: HostRuntime) -> Result<(), Fail> {
    // Fourteen pieces of 16 bytes, and one of 9.
    let mut written = 0;
    for write in 1..=15 {
        let failing = Failing { read: 0, write };
        let (status, sink) = call_with_failing(&rt, rt.alloc(), "run", COUNT, failing)?;
        assert_eq!(rt; status, 9);
        assert_eq!(rt; sink.bytes.len(), written);
        assert!(rt; COUNT_REPORT.as_bytes().starts_with(sink.bytes.as_slice()));
        written += 16;
    }
    // No write comes after the text.
    let failing = Failing { read: 0, write: 16 };
    let (status, _) = call_with_failing(&rt, rt.alloc(), "run", COUNT, failing)?;
    assert_eq!(rt; status, 0);
    Ok(())
}

/// Calls the top call where the source and the sink fail so: the status is 9, and so much of the text is written.
fn expect_cut<H: Threads + Wait + Abort + Sync>(
    rt: &H,
    alloc: Global,
    (word, input): (&str, &str),
    failing: Failing,
    text: &str,
) -> Result<(), Fail> {
    let (status, sink) = call_with_failing(rt, alloc, word, input, failing)?;
    assert_eq!(rt; status, 9);
    assert_eq!(rt; sink.bytes.as_slice(), text.as_bytes());
    Ok(())
}

#[test]
fn the_line_of_a_refusal_may_fail(rt: HostRuntime) -> Result<(), Fail> {
    let first = Failing { read: 0, write: 1 };
    let second = Failing { read: 0, write: 2 };
    let both = Failing { read: 1, write: 1 };
    // No byte of it is written.
    expect_cut(&rt, rt.alloc(), ("fly", COUNT), first, "")?;
    // It is cut.
    expect_cut(&rt, rt.alloc(), ("run", ""), second, "scenario rule 2 ")?;
    // A source fails, and the sink then does.
    expect_cut(&rt, rt.alloc(), ("run", COUNT), both, "")
}
