//! The program over memory.

ghost use Rattle.std.specs.Prelude.{◌≡◌, ◌≢◌, ◌≤◌, ℕ, List, IfOk, [], length, map, string_bytes};
ghost use Rattle.sift_call.specs.Room.{BeginsWith, bytes_of};
ghost use Rattle.sift_call.specs.Told.{IsTold, last_status};
ghost use Rattle.sift_reply.specs.Reply.{no_memory_status};

use crate::room::RoomOut;
use sift_alone::{Fleet, sift_alone, storms};
use sift_base::NoMemory;
use sift_commands::commands_are_kept;
use sift_io::SureIn;
use sift_reply::NO_MEMORY_STATUS;
use sift_rogue::Storm;
use std::alloc::Global;

/// The most bytes that the source gives at once.
const STEP: usize = 65_536;

/// The status where a sink failed: a room does for want of memory alone.
const SINK_FAULT_STATUS: u8 = 9;

/// A status, and how long the text is that comes with it.
#[derive(Clone, Copy, Debug, PartialEq, Eq)]
pub struct Answer {
    pub status: u8,
    /// How many bytes the text has.
    pub length: usize,
}

/// Does what the words ask for with this input, by one worker: writes the text of the reply to the front of the room, or as
/// much of it as there is place for, and answers its status and how long it is. What doesn't fit takes memory until the
/// call ends.
pub fn answer_in(
    alloc: Global,
    words: &[String],
    input: &[u8],
    room: &mut [u8],
) -> Result<Answer, NoMemory>
    ensures told { IfOk result (λ answer. (text : List ℕ) × IsTold (map string_bytes words.now) input.now answer.status text
        × BeginsWith room.new text × (answer.length ≡ length text)) }
    ensures known { IfOk result (λ answer. (answer.status ≤ last_status) × (answer.status ≢ no_memory_status)) }
    ensures long { length room.new ≡ length room.old }
{
    let mut beyond = Vec::new(alloc);
    let mut sink = RoomOut::over(room, &mut beyond);
    told_to(alloc, words, input, &mut sink)
}

/// Does what the words ask for with this input, and writes the text of the reply to a room that is empty.
fn told_to(
    alloc: Global,
    words: &[String],
    input: &[u8],
    sink: &mut RoomOut<'_>,
) -> Result<Answer, NoMemory>
    requires { bytes_of sink.old ≡ [] }
    ensures same_reference { sink.new.room.ghost_name ≡ sink.old.room.ghost_name }
    ensures told { IfOk result (λ answer. (text : List ℕ) × IsTold (map string_bytes words.now) input.now answer.status text
        × BeginsWith sink.new.room.now text × (answer.length ≡ length text)) }
    ensures known { IfOk result (λ answer. (answer.status ≤ last_status) × (answer.status ≢ no_memory_status)) }
{
    commands_are_kept::<Fleet<Storm>>();
    let mut source = SureIn::new(Vec::from_slice(alloc, input)?, STEP);
    let fleet = Fleet::of(storms(alloc)?);
    let Fleet { rogues } = fleet;
    let status = sift_alone(alloc, words, &mut source, sink, rogues);
    if status == SINK_FAULT_STATUS || status == NO_MEMORY_STATUS {
        return Err(NoMemory);
    }
    Ok(Answer {
        status,
        length: sink.length(),
    })
}
