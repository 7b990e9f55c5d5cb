//! What a reader or writer of std answers to the calls of one read or write, and what is told of it.
//!
//! Nothing else is told: what was heard can only be had by calls.

ghost use Rattle.std.specs.Prelude.{◌≡◌, ◌<◌, ◌≢◌, ◌↔◌, IfNone, IfSome, IsTrue, None, length, unwrap_or};
ghost use Rattle.std.specs.Io.KnownBytes.{Keeps};
ghost use Rattle.sift_io.specs.Heard.{IsOpen, IsToldOfRead, IsToldOfWrite, heard_also};
ghost use Rattle.sift_io.specs.Reading.{FitsRoom, GivesNext};
ghost use Rattle.sift_io.specs.Writing.{AddsFront, FitsPiece};

use crate::{Got, Put};
use std::io;
use std::io::{ErrorKind, Read, Write};

/// How often a call is made where a signal interrupts it each time.
const TRIES: u32 = 1_000;

/// What a reader or writer answered to the calls of one read or write.
#[derive(Clone, Copy)]
pub struct Heard<T> {
    /// How many calls a signal interrupted, before any other answer.
    interruptions: u32,
    /// What is told of the answer that came then, if one came.
    told: Option<T>,
}

impl<T: Copy> Heard<T> {
    /// Nothing, before the first call.
    pub(crate) fn nothing() -> Heard<T>
        ensures none { result.told ≡ None }
        ensures uninterrupted { result.interruptions ≡ 0 }
    {
        Heard {
            interruptions: 0,
            told: None,
        }
    }

    /// Whether the call is made once more.
    pub(crate) fn is_open(&self) -> bool
        ensures { IsTrue result ↔ IsOpen self.now }
    {
        self.told.is_none() && self.interruptions < TRIES
    }

    /// What is told, which is a failure where each call was interrupted.
    pub(crate) fn told_or(&self, failed: T) -> T
        ensures { result ≡ unwrap_or self.now.told failed }
    {
        self.told.unwrap_or(failed)
    }

    /// The same, and one answer more.
    fn and(self, told: Option<T>) -> Heard<T>
        requires { IsOpen self }
        ensures { result ≡ heard_also self told }
    {
        match told {
            Some(_) => Heard { told, ..self },
            None => Heard {
                interruptions: self.interruptions + 1,
                ..self
            },
        }
    }
}

// ---- reading

/// What was heard, and the answer to one more read.
pub(crate) fn read_once<R: Read>(heard: Heard<Got>, input: &mut R, buf: &mut [u8]) -> Heard<Got>
    requires open { IsOpen heard }
    requires room { 0 < length buf.old }
    ensures one { result ≡ heard_also heard result.told }
    ensures within { IfSome result.told (λ got. FitsRoom got (length buf.old)) }
    ensures bytes { IfSome result.told (λ got. GivesNext got (R.remaining input.old) (R.remaining input.new) buf.new) }
    ensures kept { IfNone result.told (Keeps (R.remaining input.old) (R.remaining input.new)) }
{
    heard.and(told_of_read(input.read(buf)))
}

/// What is told of an answer to a read.
fn told_of_read(answer: io::Result<usize>) -> Option<Got>
    ensures { IsToldOfRead answer result }
{
    match answer {
        Ok(0) => Some(Got::End),
        Ok(n) => Some(Got::Taken(n)),
        Err(error) if error.kind() == ErrorKind::Interrupted => None,
        Err(_) => Some(Got::Failed),
    }
}

// ---- writing

/// What was heard, and the answer to one more write.
pub(crate) fn write_once<W: Write>(heard: Heard<Put>, output: &mut W, bytes: &[u8]) -> Heard<Put>
    requires { IsOpen heard }
    ensures one { result ≡ heard_also heard result.told }
    ensures within { IfSome result.told (λ put. FitsPiece put (length bytes.now)) }
    ensures bytes { IfSome result.told (λ put. AddsFront put (W.contents output.old) (W.contents output.new) bytes.now) }
    ensures kept { IfNone result.told (Keeps (W.contents output.old) (W.contents output.new)) }
    ensures some { IfSome result.told (λ put. 0 < length bytes.now → put ≢ Put.Took 0) }
{
    heard.and(told_of_write(output.write(bytes), bytes.len()))
}

/// What is told of an answer to a write of so many bytes.
fn told_of_write(answer: io::Result<usize>, count: usize) -> Option<Put>
    ensures { IsToldOfWrite count answer result }
{
    match answer {
        Ok(0) if count > 0 => Some(Put::Failed),
        Ok(n) => Some(Put::Took(n)),
        Err(error) if error.kind() == ErrorKind::Interrupted => None,
        Err(_) => Some(Put::Failed),
    }
}
