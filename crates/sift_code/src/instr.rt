//! The instructions of the stack machine, what code may name, and where the instructions that only push a word read it.

ghost use Rattle.std.specs.Prelude.{◌≡◌, ◌<◌, ◌≤◌, false, length, true};
ghost use Rattle.sift_code.specs.Heights.{pops as popped, pushes as pushed};
ghost use Rattle.sift_code.specs.Sources.{source_of, words_at, IsWordAt};

use sift_base::Word;
use std::marker::Model;

// ---- what code may name

/// How many words a run may sense, how many were voted, and how many it may put out.
#[derive(Clone, Copy)]
pub(crate) struct Limits {
    pub sensors: u8,
    pub words: u8,
    pub outputs: u8,
}

impl Model for Limits {
    ghost use Rattle.sift_code.specs.Refusal.{Limits as Named};

    ghost Value = { Named };

    ghost view = { λ l. record { sensors = l.sensors; words = l.words; outputs = l.outputs } };

    ghost inverse = { λ l. record { sensors = l.sensors; words = l.words; outputs = l.outputs } };
}

// ---- instructions

/// An instruction of stack code.
#[derive(Clone, Copy)]
pub enum Instr {
    /// Pushes the word.
    Push(Word),
    /// Pushes a local.
    Load(u8),
    /// Pops into a local.
    Store(u8),
    /// Pushes a sensed word.
    Sense(u8),
    /// Pushes a word that was voted in this frame.
    Now(u8),
    /// Pushes a word that was voted in the frame before.
    Last(u8),
    /// Pops into an output word.
    Out(u8),
    /// Pops b, then a, and pushes their sum. The next eleven pop and push likewise.
    Add,
    /// The difference a - b.
    Sub,
    /// The product.
    Mul,
    /// The signed quotient of a by b.
    Div,
    /// The signed remainder of a by b.
    Rem,
    /// The bits that are set in both.
    And,
    /// The bits that are set in some of the two.
    Or,
    /// The bits that are set in one of the two alone.
    Xor,
    /// The bits of a moved up by b.
    Shl,
    /// The bits of a moved down by b.
    Shr,
    /// 1 where a is below b as signed numbers, else 0.
    Lt,
    /// 1 where both are equal, else 0.
    Eq,
    /// Pops three words and pushes the middle one, as signed numbers.
    Mid,
    /// Pops a word and goes to the place where it is 0.
    JumpZ(u32),
    /// Goes to the place.
    Jump(u32),
    /// Begins a loop of so many rounds. Where they are 0 it goes past the loop's End.
    Begin(u16),
    /// Ends a round: goes to the place after the Begin while rounds are left.
    End,
}

impl Instr {
    /// How many words it pops.
    pub(crate) fn pops(&self) -> u16
        ensures { result ≡ popped self.now }
    {
        match self {
            Instr::Push(_) | Instr::Load(_) | Instr::Sense(_) | Instr::Now(_) | Instr::Last(_) => 0,
            Instr::Jump(_) | Instr::Begin(_) | Instr::End => 0,
            Instr::Store(_) | Instr::Out(_) | Instr::JumpZ(_) => 1,
            Instr::Mid => 3,
            _ => 2,
        }
    }

    /// How many words it pushes.
    pub(crate) fn pushes(&self) -> u16
        ensures { result ≡ pushed self.now }
    {
        match self {
            Instr::Store(_) | Instr::Out(_) | Instr::JumpZ(_) => 0,
            Instr::Jump(_) | Instr::Begin(_) | Instr::End => 0,
            _ => 1,
        }
    }
}

// ---- where a word that is pushed is read

/// The list of a 0 alone. The lists that a run reads stand in a list, each at its number.
const ZERO: u8 = 0;

/// The list of the words sensed.
const SENSED: u8 = 1;

/// The list of the words voted in this frame.
const VOTED: u8 = 2;

/// The list of the words voted in the frame before.
const VOTED_BEFORE: u8 = 3;

/// How many lists there are.
pub(crate) const LISTS: u8 = 4;

/// Where an instruction reads the word that it pushes: the number of a list, a place in it, and what is added to the
/// word there. An instruction that does anything else names a list that isn't there.
#[derive(Clone, Copy)]
pub(crate) struct Source {
    list: u8,
    at: u8,
    plus: Word,
}

impl Source {
    /// Where the instruction reads.
    pub fn of(instr: &Instr) -> Source
        ensures { result ≡ source_of instr.now }
    {
        match *instr {
            Instr::Push(word) => Source::own(word),
            Instr::Sense(sensor) => Source::listed(SENSED, sensor),
            Instr::Now(word) => Source::listed(VOTED, word),
            Instr::Last(word) => Source::listed(VOTED_BEFORE, word),
            _ => Source::listed(LISTS, 0),
        }
    }

    /// A word of the instruction's own, added to the 0.
    fn own(word: Word) -> Source
        ensures { result ≡ record { list = 0; at = 0; plus = word } }
    {
        Source {
            list: ZERO,
            at: 0,
            plus: word,
        }
    }

    /// The word at a place of a list.
    fn listed(list: u8, at: u8) -> Source
        ensures { result ≡ record { list = list; at = at; plus = 0 } }
    {
        Source {
            list,
            at,
            plus: Word::of(0),
        }
    }

    /// Whether its list is there.
    pub fn is_there(&self) -> bool
        ensures there { result ≡ true → self.now.list < 4 }
        ensures nowhere { result ≡ false → 4 ≤ self.now.list }
    {
        self.list < LISTS
    }

    /// The word that is read there.
    pub fn word(&self, lists: &[&[Word]]) -> Word
        requires list { self.now.list < length lists.now }
        requires at { self.now.at < length (words_at lists.now self.now.list) }
        ensures { IsWordAt lists.now self.now result }
    {
        // What is pushed and what is read are one sum, so the machine needs no branch for it.
        let list = lists[self.list as usize];
        let there = list[self.at as usize].get();
        let own = self.plus.get();
        Word::of(there.wrapping_add(own))
    }
}
