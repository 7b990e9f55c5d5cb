//! The commands of a list of rows.

ghost use Rattle.std.specs.Prelude.{◌≡◌, IfNone, IfOk, IfSome, map, string_bytes};
ghost use Rattle.sift_reply.specs.Begun.{ComesTo};
ghost use Rattle.sift_row.specs.Laws.{AreKept};

use crate::row::{Command, asked};
use sift_base::NoMemory;
use sift_load::bytes_state_one_mission;
use sift_reply::{Begun, Work};
use sift_scenario::{missions_are_accepted, one_mission, one_refusal};
use std::alloc::Global;

/// A command of a row, or of those behind it.
#[derive(Clone, Copy)]
pub enum Or<A, B> {
    /// It is a job of the row.
    This(A),
    /// It is a command of the others.
    Other(B),
}

/// The end of a list. No words ask for it, so it never begins, and no reply is due to it.
#[derive(Clone, Copy)]
pub struct NoCommand;

/// The commands of a list of rows.
pub trait Commands<M, W: Work>: Copy {
    ghost use Rattle.sift_row.specs.Rows.{Rows};

    /// The rows, by such means.
    ghost rows_of: { M → Rows Self };

    /// What the words ask for, where they are a command line.
    fn from_words(words: &[String]) -> Option<Self>
        ensures found { (means : M) → IfSome result ((rows_of means).asks (map string_bytes words.now)) }
        ensures none { (means : M) → IfNone result ((command : Self) → ¬ (rows_of means).asks (map string_bytes words.now) command) };

    /// The most bytes of its input. There is none where it reads nothing.
    fn limit(self) -> Option<u32>
        ensures { (means : M) → result ≡ ((rows_of means).duty self).limit };

    /// A reply to these bytes, the whole input, or what is left to be done for one.
    fn begin(self, alloc: Global, means: M, bytes: &[u8]) -> Result<Begun<W>, NoMemory>
        ensures { IfOk result (ComesTo W.gives (((rows_of means).duty self).gives bytes.now)) };

    /// The rows are kept.
    fn keep_their_rows()
        ensures { (means : M) → AreKept (rows_of means) };
}

impl<M: Drop, W: Work> Commands<M, W> for NoCommand {
    ghost use Rattle.sift_row.specs.Rows.{no_rows};

    ghost rows_of = { λ means. no_rows };

    fn from_words(_words: &[String]) -> Option<Self> {
        None
    }

    fn limit(self) -> Option<u32> {
        None
    }

    fn begin(self, _alloc: Global, _means: M, _bytes: &[u8]) -> Result<Begun<W>, NoMemory> {
        Err(NoMemory)
    }

    fn keep_their_rows() {}
}

impl<M, W: Work, A: Command<M, W>, B: Commands<M, W>> Commands<M, W> for Or<A, B> {
    ghost use Rattle.sift_row.specs.Rows.{◌⊕◌};

    ghost rows_of = { λ means. A.row_of means ⊕ B.rows_of means };

    fn from_words(words: &[String]) -> Option<Self> {
        match asked::<M, W, A>(words) {
            Some(job) => Some(Or::This(job)),
            None => Some(Or::Other(B::from_words(words)?)),
        }
    }

    fn limit(self) -> Option<u32> {
        match self {
            Or::This(job) => Command::<M, W>::limit(job),
            Or::Other(command) => Commands::<M, W>::limit(command),
        }
    }

    fn begin(self, alloc: Global, means: M, bytes: &[u8]) -> Result<Begun<W>, NoMemory> {
        match self {
            Or::This(job) => job.begin(alloc, means, bytes),
            Or::Other(command) => command.begin(alloc, means, bytes),
        }
    }

    fn keep_their_rows() {
        one_mission();
        missions_are_accepted();
        one_refusal();
        bytes_state_one_mission();
        A::keeps_its_row();
        B::keep_their_rows();
    }
}
