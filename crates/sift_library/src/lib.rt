//! The program as a library: one function, which C or the host of a module calls.
#![tactic(auto)]

ghost use Rattle.std.specs.Prelude.{◌≡◌, ◌≢◌, ◌<◌, ◌≤◌, ℕ, IfOk, List, length};
ghost use Rattle.sift_call.specs.Room.{BeginsWith};
ghost use Rattle.sift_call.specs.Told.{last_status};
ghost use Rattle.sift_library.specs.Called.{HasNoRoom, HasReply, IsReply, no_room_status};
ghost use Rattle.sift_reply.specs.Reply.{no_memory_status};

use sift_base::NoMemory;
use sift_call::{Answer, answer_in, words_of};
use sift_reply::NO_MEMORY_STATUS;
use std::alloc::Global;

/// The status where the room is too small for the text of the reply.
const NO_ROOM_STATUS: u8 = 100;

/// Does what the words ask for, one a line, with this input: puts the text of the reply at the front of the room, tells how
/// many bytes it has, and answers its status. With status 100 the room holds the front of a text that is longer, whose
/// length is told; with status 10 memory was wanting, and the count is 0.
#[unsafe(no_mangle)]
pub extern "C" fn sift_call(
    alloc: Global,
    words: &[u8],
    input: &[u8],
    room: &mut [u8],
    count: &mut usize,
) -> u8
    ensures told { result ≢ no_room_status → result ≢ no_memory_status
        → HasReply words.now input.now room.new count.new result }
    ensures no_room { result ≡ no_room_status → HasNoRoom words.now input.now room.new count.new }
    ensures no_memory { result ≡ no_memory_status → count.new ≡ 0 }
    ensures long { length room.new ≡ length room.old }
{
    match answer_of(alloc, words, input, room) {
        Ok(answer) => {
            *count = answer.length;
            status_in(answer, room)
        }
        Err(NoMemory) => {
            *count = 0;
            NO_MEMORY_STATUS
        }
    }
}

/// The reply to the words that stand in a text, whose own text is written to the room.
fn answer_of(alloc: Global, words: &[u8], input: &[u8], room: &mut [u8]) -> Result<Answer, NoMemory>
    ensures told { IfOk result (λ answer. (text : List ℕ) × IsReply words.now input.now answer.status text
        × BeginsWith room.new text × (answer.length ≡ length text)) }
    ensures known { IfOk result (λ answer. (answer.status ≤ last_status) × (answer.status ≢ no_memory_status)) }
    ensures long { length room.new ≡ length room.old }
{
    let words = words_of(alloc, words)?;
    answer_in(alloc, &words, input, room)
}

/// The status of an answer, where the room has place for its text.
fn status_in(answer: Answer, room: &[u8]) -> u8
    ensures fits { answer.length ≤ length room.now → result ≡ answer.status }
    ensures small { length room.now < answer.length → result ≡ no_room_status }
{
    if answer.length <= room.len() {
        answer.status
    } else {
        NO_ROOM_STATUS
    }
}
