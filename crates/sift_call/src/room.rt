//! A sink over a room in memory.

ghost use Rattle.std.specs.Prelude.{◌≡◌, ◌≤◌, ◌<◌, ◌+◌, ◌-◌, ◌++◌, [], length, min, take};

use sift_io::{Put, Sink};

/// A sink that fills a room in memory, and adds what doesn't fit there to a list. It fails for want of memory alone.
#[derive(Drop)]
pub(crate) struct RoomOut<'a> {
    pub(crate) room: &'a mut [u8],
    /// How many bytes of the room are taken.
    pub(crate) count: usize,
    /// The bytes that didn't fit.
    pub(crate) beyond: &'a mut Vec<u8>,
    /// How often memory was wanting. It stays at its last value.
    pub(crate) faults: u64,
    ghost within: { count ≤ length room.now },
    ghost full: { count < length room.now → beyond.now.items ≡ [] },
}

impl<'a> RoomOut<'a> {
    ghost use Rattle.sift_call.specs.Room.{BeginsWith, bytes_of};

    /// A sink over a room that nothing was written to yet.
    pub(crate) fn over(room: &'a mut [u8], beyond: &'a mut Vec<u8>) -> RoomOut<'a>
        requires { beyond.old.items ≡ [] }
        ensures same_reference { result.room.ghost_name ≡ room.entry.ghost_name }
        ensures room { result.room.now ≡ room.old }
        ensures fresh { (result.count ≡ 0) × (result.beyond.now.items ≡ []) × (result.faults ≡ 0) }
    {
        RoomOut {
            room,
            count: 0,
            beyond,
            faults: 0,
        }
    }

    /// How many bytes were written. The room begins with them, or with as many as it has place for.
    pub(crate) fn length(&self) -> usize
        ensures all { result ≡ length (bytes_of self.now) }
        ensures begins { BeginsWith self.now.room.now (bytes_of self.now) }
    {
        self.count + self.beyond.len()
    }

    /// Puts bytes into the room, as many as there is place for, and answers how many.
    fn fill(&mut self, bytes: &[u8]) -> usize
        ensures same_reference { self.new.room.ghost_name ≡ self.old.room.ghost_name }
        ensures filled { take self.new.count self.new.room.now ≡ take self.old.count self.old.room.now ++ take result bytes.now }
        ensures kept { take self.old.count self.new.room.now ≡ take self.old.count self.old.room.now }
        ensures most { result ≡ min (length bytes.now) (length self.old.room.now - self.old.count) }
        ensures count { self.new.count ≡ self.old.count + result }
        ensures long { length self.new.room.now ≡ length self.old.room.now }
        ensures others { (self.new.beyond.now ≡ self.old.beyond.now) × (self.new.faults ≡ self.old.faults) }
    {
        let fits = bytes.len().min(self.room.len() - self.count);
        let end = self.count + fits;
        self.room[self.count..end].copy_from_slice(&bytes[..fits]);
        self.count = end;
        fits
    }
}

impl Sink for RoomOut<'_> {
    ghost use Rattle.sift_call.specs.Room.{outflow_of};

    ghost outflow = { outflow_of };

    fn write(&mut self, bytes: &[u8]) -> Put {
        let count = self.count;
        let fits = self.fill(bytes);
        if self.beyond.extend_from_slice(&bytes[fits..]).is_err() {
            self.count = count;
            self.faults = self.faults.saturating_add(1);
            return Put::Failed;
        }
        Put::Took(bytes.len())
    }
}
