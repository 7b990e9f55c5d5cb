//! The top call, and the exit code of the program.

ghost use Rattle.std.specs.Prelude.{◌≡◌, IfOk, length, map, string_bytes, ◌⊎◌, IsErr};
ghost use Rattle.sift_base.specs.Units.{unit_limit};
ghost use Rattle.sift_alone.specs.Flown.{flying_with};
ghost use Rattle.sift_alone.specs.Told.{TellsOfFleet};
ghost use Rattle.sift_reply.specs.Reply.{no_memory_status};
ghost use Rattle.sift_reply.specs.Promise.{AskForNoInput, IsAnswered, IsCertain};
ghost use Rattle.sift_commands.specs.Command.{commands};
ghost use Rattle.sift_commands.specs.Headline.{IsCaughtWritten, IsHeadlineWritten};
ghost use Rattle.std.specs.Process.{exit_status};

use crate::flying::tell;
use sift_alone::{Fleet, sift_by};
use sift_base::NoMemory;
use sift_commands::Order;
use sift_io::{Sink, Source};
use sift_reply::NO_MEMORY_STATUS;
use sift_rogue::Rogue;
use sift_threads::Probe;
use std::alloc::Global;
use std::process::ExitCode;
use std::sync::Wait;
use std::thread::Threads;

/// Does what the command words ask for, without the program's name: reads the source where the command does, writes a reply
/// to the sink, and answers its exit status. The whole reply is made before any of it is written.
///
/// The rogues are those of the units 0 to 7: that of a unit with a storm is called once the unit has turned stray. Where
/// several workers fly, the probe is told of entries of units into subframes; that it is told of each is seen by a test, and is no clause.
///
/// The tests come in the order of the statuses 2, 8 or 11, 3, 4, 5, 6, 7, those of one command alone, and 9; `judge` tests
/// before 3 whether a line divides its input. Words that are no command line never get 10.
/// Clauses on bytes hold where the source and the sink tell their bytes. Several workers wait for one another, so all
/// clauses hold if the call returns.
pub fn sift<S: Source, K: Sink, R: Rogue + Send, P: Probe + Sync, H: Threads + Wait + Sync>(
    rt: &H,
    alloc: Global,
    words: &[String],
    source: &mut S,
    sink: &mut K,
    rogues: Vec<R>,
    probe: &P,
) -> u8
    requires { length rogues.items ≡ unit_limit }
    ensures answered { IsAnswered (commands (flying_with R.allows rogues.items)) (map string_bytes words.now)
        (record { before = S.inflow source.old; after = S.inflow source.new })
        (record { before = K.outflow sink.old; after = K.outflow sink.new }) result }
    ensures certain { IsCertain (commands (flying_with R.allows rogues.items)) (map string_bytes words.now)
        (record { before = S.inflow source.old; after = S.inflow source.new })
        (record { before = K.outflow sink.old; after = K.outflow sink.new }) result }
    ensures headline { IsHeadlineWritten (flying_with R.allows rogues.items) (map string_bytes words.now)
        (record { before = S.inflow source.old; after = S.inflow source.new })
        (record { before = K.outflow sink.old; after = K.outflow sink.new }) result }
    ensures caught { IsCaughtWritten (flying_with R.allows rogues.items) (map string_bytes words.now)
        (record { before = S.inflow source.old; after = S.inflow source.new })
        (record { before = K.outflow sink.old; after = K.outflow sink.new }) result }

    // Only a command that reads it reads the source, and want of memory writes nothing.
    ensures unread { AskForNoInput (commands (flying_with R.allows rogues.items)) (map string_bytes words.now) → source.new ≡ source.old }
    ensures unwritten { result ≡ no_memory_status → sink.new ≡ sink.old }
{
    sift_by(
        alloc,
        words,
        source,
        sink,
        rogues,
        &|order: Order<Fleet<R>>| -> Result<String, NoMemory>
            ensures { IfOk result (λ text. TellsOfFleet R.allows order (string_bytes text)) }
        { tell(rt, alloc, order, probe) },
    )
}

/// Does what the words ask for, and answers how the program ends: with the status that the top call answers, or with
/// that of want of memory, having read and written nothing, where there was none for the words or the rogues.
pub fn exit_code<S: Source, K: Sink, R: Rogue + Send, P: Probe + Sync, H: Threads + Wait + Sync>(
    rt: &H,
    alloc: Global,
    words: Result<Vec<String>, NoMemory>,
    source: &mut S,
    sink: &mut K,
    rogues: Result<Vec<R>, NoMemory>,
    probe: &P,
) -> ExitCode
    requires { IfOk rogues (λ rogues. length rogues.items ≡ unit_limit) }
    ensures answered { IfOk words (λ words. IfOk rogues (λ rogues. IsAnswered (commands (flying_with R.allows rogues.items)) (map string_bytes words.items)
        (record { before = S.inflow source.old; after = S.inflow source.new })
        (record { before = K.outflow sink.old; after = K.outflow sink.new }) (exit_status result))) }
    ensures certain { IfOk words (λ words. IfOk rogues (λ rogues. IsCertain (commands (flying_with R.allows rogues.items)) (map string_bytes words.items)
        (record { before = S.inflow source.old; after = S.inflow source.new })
        (record { before = K.outflow sink.old; after = K.outflow sink.new }) (exit_status result))) }
    ensures headline { IfOk words (λ words. IfOk rogues (λ rogues. IsHeadlineWritten (flying_with R.allows rogues.items) (map string_bytes words.items)
        (record { before = S.inflow source.old; after = S.inflow source.new })
        (record { before = K.outflow sink.old; after = K.outflow sink.new }) (exit_status result))) }
    ensures caught { IfOk words (λ words. IfOk rogues (λ rogues. IsCaughtWritten (flying_with R.allows rogues.items) (map string_bytes words.items)
        (record { before = S.inflow source.old; after = S.inflow source.new })
        (record { before = K.outflow sink.old; after = K.outflow sink.new }) (exit_status result))) }
    ensures no_memory { IsErr words ⊎ IsErr rogues → (exit_status result ≡ no_memory_status) × (source.new ≡ source.old) }

    // As with the top call: only a command that reads it reads the source, and want of memory writes nothing.
    ensures unread { IfOk words (λ words. IfOk rogues (λ rogues.
        AskForNoInput (commands (flying_with R.allows rogues.items)) (map string_bytes words.items) → source.new ≡ source.old)) }
    ensures unwritten { exit_status result ≡ no_memory_status → sink.new ≡ sink.old }
{
    match (words, rogues) {
        (Ok(words), Ok(rogues)) => {
            ExitCode::from(sift(rt, alloc, &words, source, sink, rogues, probe))
        }
        (Err(NoMemory), _) | (_, Err(NoMemory)) => ExitCode::from(NO_MEMORY_STATUS),
    }
}
