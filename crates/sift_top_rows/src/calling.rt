//! The top call, on words and bytes in memory.

ghost use Rattle.std.specs.Prelude.{◌≡◌, length};
ghost use Rattle.sift_base.specs.Units.{unit_limit};

use sift_base::NoMemory;
use sift_io::{BytesIn, BytesOut};
use sift_rogue::Rogue;
use sift_run::sift;
use sift_threads::Probe;
use std::alloc::Global;
use std::sync::Wait;
use std::thread::Threads;

/// Which of the calls of a source and a sink fail, counted from 1; none where it is 0.
#[derive(Clone, Copy)]
pub struct Failing {
    pub read: u64,
    pub write: u64,
}

impl Failing {
    /// No call fails.
    pub const NONE: Failing = Failing { read: 0, write: 0 };
}

/// Calls `sift` on words and bytes in memory. The source and the sink move 16 bytes a call.
pub(crate) fn call<R: Rogue + Send, P: Probe + Sync, H: Threads + Wait + Sync>(
    rt: &H,
    alloc: Global,
    words: &[&str],
    input: &[u8],
    failing: Failing,
    rogues: Vec<R>,
    probe: &P,
) -> Result<(u8, BytesOut), NoMemory>
    requires { length rogues.items ≡ unit_limit }
{
    let mut command = Vec::new(alloc);
    for word in words {
        command.push(String::from_str(alloc, word)?)?;
    }
    let input = input.to_vec(alloc)?;
    let mut source = BytesIn::new(input, 16, vec![in alloc; failing.read]?);
    let mut sink = BytesOut::new(alloc, 16, vec![in alloc; failing.write]?);
    let status = sift(rt, alloc, &command, &mut source, &mut sink, rogues, probe);
    Ok((status, sink))
}
