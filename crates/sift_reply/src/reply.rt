//! Replies: what a command owes, and how far a job has come.

ghost use Rattle.std.specs.Prelude.{◌≡◌, string_bytes, ℕ, List, IfNone, IfOk, IfSome, map};
ghost use Rattle.sift_reply.specs.Begun.{ComesTo};
ghost use Rattle.sift_reply.specs.Duty.{Duty};
ghost use Rattle.sift_reply.specs.Laws.{GivesOneOwesOne, StatusesAreExplained};
ghost use Rattle.sift_reply.specs.Reply as spec;

use sift_base::NoMemory;
use std::alloc::Global;
use std::borrow::CowStr;
use std::marker::Model;

// ---- how far a job has come

/// What is left to be done for the text of a reply with the status 0.
pub trait Work: Drop {
    ghost use Rattle.std.specs.Prelude.{ℕ, List};

    /// The texts that may come of it.
    ghost gives: { Self → List ℕ → Type 0 };
}

/// No work: no value of it is made.
#[derive(Drop)]
pub enum NoWork {}

impl Work for NoWork {
    ghost gives = { λ work text. ⊥ };
}

/// How far a job has come.
#[derive(Drop)]
pub enum Begun<W> {
    /// It has its reply.
    Replied(Reply),
    /// This is left to be done for one.
    Left(W),
}

// ---- replies

/// The status where the sink failed within the text of a reply.
pub(crate) const SINK_FAULT_STATUS: u8 = 9;

/// The status where memory was wanting.
pub const NO_MEMORY_STATUS: u8 = 10;

/// An exit status, and the text that is written with it.
#[derive(Drop)]
pub struct Reply {
    pub status: u8,
    pub text: CowStr<'static, Global>,
}

impl Model for Reply {
    ghost use Rattle.std.specs.Cow.{cow_str_bytes};
    ghost use Rattle.sift_reply.specs.Reply as spec;

    ghost Value = { spec.Reply };

    ghost view = { λ r. record { status = r.status; text = cow_str_bytes r.text } };
}

impl Reply {
    /// A reply with a text that takes no memory.
    pub fn fixed(status: u8, text: &'static str) -> Reply
        ensures { result ≡ record { status = status; text = text.now } }
    {
        Reply {
            status,
            text: CowStr::Borrowed(text),
        }
    }

    /// A reply with a text that was made.
    pub fn made(status: u8, text: String) -> Reply
        ensures { result ≡ record { status = status; text = string_bytes text } }
    {
        Reply {
            status,
            text: CowStr::Owned(text),
        }
    }

    /// The reply of a command that has done what was asked: the status 0, with this text.
    pub fn done(text: String) -> Reply
        ensures { result ≡ spec.done (string_bytes text) }
    {
        Reply::made(0, text)
    }

    /// The reply to words that are no command line.
    pub(crate) fn usage() -> Reply
        ensures { result ≡ spec.usage }
    {
        Reply::fixed(2, "usage\n")
    }

    /// The reply to an input that can't be read to its end.
    pub(crate) fn read_fault() -> Reply
        ensures { result ≡ spec.read_fault }
    {
        Reply::fixed(8, "read fault\n")
    }

    /// The reply to an input with more bytes than the command reads.
    pub(crate) fn too_long() -> Reply
        ensures { result ≡ spec.too_long }
    {
        Reply::fixed(11, "too long\n")
    }
}

// ---- what a command defines

/// Something to be done for an input, or for none, by means of this type. What it leaves to be done is of that type.
pub trait Job<M, W: Work>: Copy {
    /// What it has to do by such means.
    ghost duty: { M → Self → Duty };

    /// The most bytes of its input. There is none where it reads nothing.
    fn limit(self) -> Option<u32>
        ensures { (means : M) → result ≡ (duty means self).limit };

    /// A reply to these bytes, the whole input, or what is left to be done for one. A job that reads nothing is handed none.
    fn begin(self, alloc: Global, means: M, bytes: &[u8]) -> Result<Begun<W>, NoMemory>
        ensures { IfOk result (ComesTo W.gives ((duty means self).gives bytes.now)) };
}

/// A job that words may ask for.
pub trait Asked<M, W: Work>: Job<M, W> {
    /// The words ask for this one, by such means.
    ghost asks: { M → List (List ℕ) → Self → Type 0 };

    /// What the words ask for, where they are a command line.
    fn from_words(words: &[String]) -> Option<Self>
        ensures found { (means : M) → IfSome result (asks means (map string_bytes words.now)) }
        ensures none { (means : M) → IfNone result ((job : Self) → ¬ asks means (map string_bytes words.now) job) };
}

// ---- laws

/// What each status says, whatever the commands and their means are.
pub fn statuses_are_explained<M, W: Work, C: Asked<M, W>>()
    ensures { (means : M) → StatusesAreExplained (record { asks = C.asks means; duty = C.duty means }) }
{}

/// A job that gives one reply to an input owes one to its bytes. The input of a job that reads nothing is empty.
pub fn gives_one_owes_one<M, W: Work, J: Job<M, W>>()
    ensures { (means : M) (job : J) → GivesOneOwesOne (J.duty means job) }
{}
