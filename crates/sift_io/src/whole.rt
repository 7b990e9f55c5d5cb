//! Whole reads and whole writes.

ghost use Rattle.std.specs.Prelude.{◌≡◌, ◌+◌, ◌-◌, ◌^◌, ◌<◌, ◌≤◌, IfErr, IfOk, IsErrOf};
ghost use Rattle.sift_io.specs.Flow.{Rose};
ghost use Rattle.sift_io.specs.Reading.{StopsReading, TakesAll};
ghost use Rattle.sift_io.specs.Writing.{WritesAll};
ghost use Rattle.sift_io.specs.declared.whole.ReadStop.TheVariants.{NoMemory};

use crate::{Got, Put, Sink, Source};
use std::alloc::{AllocError, Global};

/// How many bytes a whole read asks for at once.
const PIECE: usize = 4_096;

/// Why a whole read stopped before the end.
#[derive(Clone, Copy, Debug, PartialEq, Eq)]
pub enum ReadStop {
    /// The source had a fault.
    Failed,
    /// The source has more bytes than the limit allows: one more was taken.
    TooLong,
    /// There was no memory for the bytes.
    NoMemory,
}

impl From<AllocError> for ReadStop {
    ghost from_gives = { λ _ stop. stop ≡ NoMemory };

    fn from(_: AllocError) -> Self {
        ReadStop::NoMemory
    }
}

/// Why a whole write stopped before the end.
#[derive(Clone, Copy, Debug, PartialEq, Eq)]
pub enum WriteStop {
    /// The sink had a fault, or took nothing.
    Failed,
}

/// Reads the source to its end and gives all its bytes, in order. It asks for no more than `limit + 1`
/// bytes in all, and takes no memory for a byte past the limit.
pub fn read_all<S: Source>(alloc: Global, source: &mut S, limit: usize) -> Result<Vec<u8>, ReadStop>
    requires { limit < 2 ^ 64 - 1 }
    ensures all { IfOk result (λ all.
        TakesAll (S.inflow source.old) (S.inflow source.new) all.items limit) }
    ensures stopped { IfErr result (λ stop.
        StopsReading stop (S.inflow source.old) (S.inflow source.new) limit) }
    ensures later { (S.inflow source.old).faults ≤ (S.inflow source.new).faults }
{
    let mut all = Vec::new(alloc);
    let mut piece = [0; PIECE];
    loop {
        // One byte past the limit is asked for, since input of just the limit is told from a longer one by it.
        let room = PIECE.min(limit + 1 - all.len());
        match source.read(&mut piece[..room]) {
            Got::Taken(n) if n > limit - all.len() => return Err(ReadStop::TooLong),
            Got::Taken(n) => all.extend_from_slice(&piece[..n])?,
            Got::End => return Ok(all),
            Got::Failed => return Err(ReadStop::Failed),
        }
    }
}

/// Writes all the bytes, in order. It takes no memory.
pub fn write_all<K: Sink>(sink: &mut K, bytes: &[u8]) -> Result<(), WriteStop>
    ensures bytes { WritesAll result (K.outflow sink.old) (K.outflow sink.new) bytes.now }
    ensures later { (K.outflow sink.old).faults ≤ (K.outflow sink.new).faults }
    ensures calm { IfOk result (λ _. (K.outflow sink.new).faults ≡ (K.outflow sink.old).faults) }
    ensures cause { IsErrOf result WriteStop.Failed
        → Rose (K.outflow sink.old).faults (K.outflow sink.new).faults }
{
    let mut rest = bytes;
    while !rest.is_empty() {
        match sink.write(rest) {
            Put::Took(0) => return Err(WriteStop::Failed),
            Put::Took(n) => rest = &rest[n..],
            Put::Failed => return Err(WriteStop::Failed),
        }
    }
    Ok(())
}
