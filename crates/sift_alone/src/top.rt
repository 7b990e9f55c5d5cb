//! The top call, by whatever tells of flights.

ghost use Rattle.std.specs.Prelude.{◌≡◌, IfOk, length, map, string_bytes};
ghost use Rattle.sift_base.specs.Units.{unit_limit};
ghost use Rattle.sift_alone.specs.Flown.{flying_with};
ghost use Rattle.sift_alone.specs.Told.{TellsOfFleet};
ghost use Rattle.sift_reply.specs.Reply.{no_memory_status};
ghost use Rattle.sift_reply.specs.Promise.{AskForNoInput, IsAnswered, IsCertain};
ghost use Rattle.sift_commands.specs.Command.{commands};
ghost use Rattle.sift_commands.specs.Headline.{IsCaughtWritten, IsHeadlineWritten};

use crate::fleet::Fleet;
use crate::flying::tell;
use sift_base::NoMemory;
use sift_commands::{
    Command, Order, commands_have_own_statuses, the_caught_are_written, the_headline_is_written,
};
use sift_io::{Sink, Source};
use sift_reply::answer;
use sift_rogue::Rogue;
use std::alloc::Global;

/// Does what the command words ask for, without the program's name: reads the source where the command does, writes a reply
/// to the sink, and answers its exit status. The whole reply is made before any of it is written. What has to be flown is
/// flown and told of by `tell`.
///
/// The rogues are those of the units 0 to 7: that of a unit with a storm is called once the unit has turned stray.
///
/// The tests come in the order of the statuses 2, 8 or 11, 3, 4, 5, 6, 7, those of one command alone, and 9; `judge` tests
/// before 3 whether a line divides its input. Words that are no command line never get 10.
/// Clauses on bytes hold where the source and the sink tell their bytes.
pub fn sift_by<S: Source, K: Sink, R: Rogue, T: Fn(Order<Fleet<R>>) -> Result<String, NoMemory>>(
    alloc: Global,
    words: &[String],
    source: &mut S,
    sink: &mut K,
    rogues: Vec<R>,
    tell: &T,
) -> u8
    requires eight { length rogues.items ≡ unit_limit }
    requires callable { (order : _) → T.pre tell.now order }
    requires told { (order : _) (came : _) → T.post tell.now order came
        → IfOk came (λ text. TellsOfFleet R.allows order (string_bytes text)) }
    ensures answered { IsAnswered (commands (flying_with R.allows rogues.items)) (map string_bytes words.now)
        (record { before = S.inflow source.old; after = S.inflow source.new })
        (record { before = K.outflow sink.old; after = K.outflow sink.new }) result }
    ensures certain { IsCertain (commands (flying_with R.allows rogues.items)) (map string_bytes words.now)
        (record { before = S.inflow source.old; after = S.inflow source.new })
        (record { before = K.outflow sink.old; after = K.outflow sink.new }) result }
    ensures headline { IsHeadlineWritten (flying_with R.allows rogues.items) (map string_bytes words.now)
        (record { before = S.inflow source.old; after = S.inflow source.new })
        (record { before = K.outflow sink.old; after = K.outflow sink.new }) result }
    ensures caught { IsCaughtWritten (flying_with R.allows rogues.items) (map string_bytes words.now)
        (record { before = S.inflow source.old; after = S.inflow source.new })
        (record { before = K.outflow sink.old; after = K.outflow sink.new }) result }

    // Only a command that reads it reads the source, and want of memory writes nothing.
    ensures unread { AskForNoInput (commands (flying_with R.allows rogues.items)) (map string_bytes words.now) → source.new ≡ source.old }
    ensures unwritten { result ≡ no_memory_status → sink.new ≡ sink.old }
{
    commands_have_own_statuses::<Fleet<R>>();
    the_headline_is_written::<Fleet<R>>();
    the_caught_are_written::<Fleet<R>>();
    let fleet = Fleet::of(rogues);
    answer::<Fleet<R>, Order<Fleet<R>>, Command, S, K, T>(alloc, fleet, words, source, sink, tell)
}

/// The same by one worker, who waits for nobody: the call returns.
pub fn sift_alone<S: Source, K: Sink, R: Rogue>(
    alloc: Global,
    words: &[String],
    source: &mut S,
    sink: &mut K,
    rogues: Vec<R>,
) -> u8
    requires { length rogues.items ≡ unit_limit }
    ensures answered { IsAnswered (commands (flying_with R.allows rogues.items)) (map string_bytes words.now)
        (record { before = S.inflow source.old; after = S.inflow source.new })
        (record { before = K.outflow sink.old; after = K.outflow sink.new }) result }
    ensures certain { IsCertain (commands (flying_with R.allows rogues.items)) (map string_bytes words.now)
        (record { before = S.inflow source.old; after = S.inflow source.new })
        (record { before = K.outflow sink.old; after = K.outflow sink.new }) result }
    ensures headline { IsHeadlineWritten (flying_with R.allows rogues.items) (map string_bytes words.now)
        (record { before = S.inflow source.old; after = S.inflow source.new })
        (record { before = K.outflow sink.old; after = K.outflow sink.new }) result }
    ensures caught { IsCaughtWritten (flying_with R.allows rogues.items) (map string_bytes words.now)
        (record { before = S.inflow source.old; after = S.inflow source.new })
        (record { before = K.outflow sink.old; after = K.outflow sink.new }) result }
    ensures unread { AskForNoInput (commands (flying_with R.allows rogues.items)) (map string_bytes words.now) → source.new ≡ source.old }
    ensures unwritten { result ≡ no_memory_status → sink.new ≡ sink.old }
{
    sift_by(
        alloc,
        words,
        source,
        sink,
        rogues,
        &|order: Order<Fleet<R>>| -> Result<String, NoMemory>
            ensures { IfOk result (λ text. TellsOfFleet R.allows order (string_bytes text)) }
        { tell(alloc, order) },
    )
}
