//! Sources and sinks: what a read gives, what a write does, and the traits of both.

ghost use Rattle.std.specs.Prelude.{◌≡◌, ◌≢◌, ◌<◌, ◌≤◌, length};
ghost use Rattle.sift_io.specs.Flow.{Rose, Inflow, Outflow, RoseIsOneMoreAtLeast};
ghost use Rattle.sift_io.specs.Reading.{FitsRoom, GivesNext, ends_after_read, given_count};
ghost use Rattle.sift_io.specs.Writing.{AddsFront, FitsPiece, TakesNothing};

// ---- sources

/// What one read gave.
#[derive(Clone, Copy, Debug, PartialEq, Eq)]
pub enum Got {
    /// So many bytes, which stand at the front of the buffer.
    Taken(usize),
    /// Nothing: the source is at its end.
    End,
    /// Nothing: the source had a fault.
    Failed,
}

impl Got {
    /// How many bytes were given.
    pub fn count(self) -> usize
        ensures { result ≡ given_count self }
    {
        match self {
            Got::Taken(n) => n,
            Got::End | Got::Failed => 0,
        }
    }

    /// A count of ends after this read. It stays at its last value.
    pub(crate) fn ends_after(self, ends: u64) -> u64
        ensures { result ≡ ends_after_read self ends }
    {
        match self {
            Got::End => ends.saturating_add(1),
            Got::Taken(_) | Got::Failed => ends,
        }
    }
}

/// A place that bytes come from.
pub trait Source {
    /// The bytes that are left, where the source tells them, how often reading has failed, and how often
    /// it met the end. Both counts stay at their last value, 2 ^ 64 - 1.
    ghost inflow: { Self → Inflow };

    /// Reads the next bytes to the front of the buffer, as many as are at hand and have room.
    fn read(&mut self, buf: &mut [u8]) -> Got
        requires { 0 < length buf.old }
        ensures within { FitsRoom result (length buf.old) }
        ensures bytes { GivesNext result (inflow self.old).left (inflow self.new).left buf.new }
        ensures later { (inflow self.old).faults ≤ (inflow self.new).faults }
        ensures cause { result ≡ Got.Failed
            → Rose (inflow self.old).faults (inflow self.new).faults }
        ensures calm { result ≢ Got.Failed
            → (inflow self.new).faults ≡ (inflow self.old).faults }
        ensures ends { (inflow self.new).ends ≡ ends_after_read result (inflow self.old).ends };
}

// ---- sinks

/// What one write did.
#[derive(Clone, Copy, Debug, PartialEq, Eq)]
pub enum Put {
    /// The sink took so many bytes, from the front of the piece.
    Took(usize),
    /// The sink took nothing: it had a fault.
    Failed,
}

/// A place that bytes go to.
pub trait Sink {
    /// The bytes that were written, where the sink tells them, and how often writing has failed. That
    /// count stays at its last value, 2 ^ 64 - 1.
    ghost outflow: { Self → Outflow };

    /// Writes bytes from the front of the piece, as many as the sink takes now.
    fn write(&mut self, bytes: &[u8]) -> Put
        ensures within { FitsPiece result (length bytes.now) }
        ensures bytes { AddsFront result
            (outflow self.old).written (outflow self.new).written bytes.now }
        ensures later { (outflow self.old).faults ≤ (outflow self.new).faults }
        ensures cause { TakesNothing result (length bytes.now)
            → Rose (outflow self.old).faults (outflow self.new).faults }
        ensures calm { ¬ TakesNothing result (length bytes.now)
            → (outflow self.new).faults ≡ (outflow self.old).faults };
}

// ---- the law of counts of faults

/// A count within its type rose just where it is at least one more than before, or at its last value.
pub fn rose_is_one_more_at_least()
    ensures { RoseIsOneMoreAtLeast }
{}
