//! What the program answers to its input.

ghost use Rattle.std.specs.Prelude.{◌≡◌};
ghost use Rattle.sift_reread.specs.Answer.{IsAnswered, IsAnsweredTo, IsCertain, WritesNothing};

use crate::ending::Ending;
use crate::reread::{Stop, reread};
use sift_io::{ReadStop, Sink, Source, read_all, write_all};
use std::alloc::Global;

/// The most bytes of a report.
const REPORT_LIMIT: usize = 16_777_216;

/// Reads a report from the source to its end, and writes it again, or the number of the first line that is none; and
/// answers how the program ends.
///
/// `certain` speaks of a source that tells its bytes.
pub fn answer<S: Source, K: Sink>(alloc: Global, source: &mut S, sink: &mut K) -> Ending
    ensures answered { IsAnswered (S.inflow source.old) (S.inflow source.new)
        (K.outflow sink.old) (K.outflow sink.new) result }
    ensures certain { IsCertain (S.inflow source.old) (S.inflow source.new)
        (K.outflow sink.old) (K.outflow sink.new) result }
    ensures unwritten { WritesNothing result → sink.new ≡ sink.old }
{
    match read_all(alloc, source, REPORT_LIMIT) {
        Ok(bytes) => answer_to(alloc, &bytes, sink),
        Err(ReadStop::TooLong) => Ending::TooLong,
        Err(ReadStop::Failed) => Ending::ReadFault,
        Err(ReadStop::NoMemory) => Ending::NoMemory,
    }
}

/// Answers to these bytes, the whole input. All that is written is made before any of it is written.
fn answer_to<K: Sink>(alloc: Global, bytes: &[u8], sink: &mut K) -> Ending
    ensures answered { IsAnsweredTo (K.outflow sink.old) (K.outflow sink.new) bytes.now result }
    ensures unwritten { WritesNothing result → sink.new ≡ sink.old }
{
    let Ok(report) = str::from_utf8(bytes) else {
        return Ending::NoText;
    };
    match reread(alloc, report) {
        Ok(text) => match write_all(sink, text.as_bytes()) {
            Ok(()) => Ending::Reread,
            Err(_) => Ending::WriteFault,
        },
        Err(Stop::NoLine(number)) => {
            let Ok(text) = format!(in alloc; "line {number}\n") else {
                return Ending::NoMemory;
            };
            match write_all(sink, text.as_bytes()) {
                Ok(()) => Ending::NoLine,
                Err(_) => Ending::WriteFault,
            }
        }
        Err(Stop::NoMemory) => Ending::NoMemory,
    }
}
