//! Tokens, and those that are left to read.

ghost use Rattle.std.specs.Prelude.{◌≡◌};
ghost use Rattle.sift_parse.specs.Reading.{read_sign, read_name, read_number, read_index, read_word};
ghost use Rattle.sift_parse.specs.Parsing.{Answers, MatchElse, MatchOperator};
ghost use Rattle.sift_parse.specs.Grammar as spec;

use sift_lang::Op;
use std::alloc::{AllocError, AllocFailed};

// ---- tokens

/// The most blocks, parentheses and minuses that may be open at once.
pub const LEVEL_LIMIT: usize = 32;

/// A word that the language keeps for itself.
#[derive(Clone, Copy, PartialEq, Eq)]
pub(crate) enum Keyword {
    Let,
    Out,
    If,
    Else,
    Repeat,
    Mid,
    Sense,
    Now,
    Last,
}

/// A sign that is no operator.
#[derive(Clone, Copy)]
pub(crate) enum Sign {
    /// `=`
    Assign,
    /// `(`
    OpenParen,
    /// `)`
    CloseParen,
    /// `{`
    OpenBrace,
    /// `}`
    CloseBrace,
    /// `,`
    Comma,
    /// `.`
    Dot,
    /// `;`
    Semicolon,
}

/// A token, with each name taken for the number of what it names in its place.
#[derive(Clone, Copy)]
pub(crate) enum Token {
    Keyword(Keyword),
    /// A local, a sensor or a task.
    Name(u8),
    /// A number as it is written.
    Number(u16),
    /// The number of a word: of an output word after `out`, and of a voted word after a task's name and a dot.
    Index(u8),
    Operator(Op),
    Sign(Sign),
}

// ---- those that are left to read, taken one by one

/// Why reading stopped.
#[derive(Clone, Copy)]
pub(crate) enum ReadStop {
    /// The first token that is left offends, or the tokens end where one is missing.
    Syntax,
    NoMemory,
}

impl From<AllocError> for ReadStop {
    ghost use Rattle.std.specs.Prelude.{◌≡◌};
    ghost use Rattle.sift_parse.specs.declared.token.ReadStop.TheVariants.{NoMemory};

    ghost from_gives = { λ _ e. e ≡ NoMemory };

    fn from(_: AllocError) -> ReadStop {
        ReadStop::NoMemory
    }
}

impl<T: Drop> From<AllocFailed<T>> for ReadStop {
    ghost use Rattle.std.specs.Prelude.{◌≡◌};
    ghost use Rattle.sift_parse.specs.declared.token.ReadStop.TheVariants.{NoMemory};

    ghost from_gives = { λ _ e. e ≡ NoMemory };

    fn from(_: AllocFailed<T>) -> ReadStop {
        ReadStop::NoMemory
    }
}

/// The tokens that are left to read.
#[derive(Clone, Copy)]
pub(crate) struct Tokens<'a> {
    pub rest: &'a [Token],
}

impl<'a> Tokens<'a> {
    /// The sign, if it is the next token.
    pub fn sign(&mut self, sign: Sign) -> Result<(), ReadStop>
        ensures { Answers (λ _. tt) (read_sign sign self.old.rest.now) result self.new.rest.now }
    {
        match self.rest {
            [Token::Sign(found), rest @ ..] if *found == sign => {
                self.rest = rest;
                Ok(())
            }
            _ => Err(ReadStop::Syntax),
        }
    }

    /// The name, if the next token is one.
    pub fn name(&mut self) -> Result<u8, ReadStop>
        ensures { Answers (λ n. n) (read_name self.old.rest.now) result self.new.rest.now }
    {
        match self.rest {
            [Token::Name(number), rest @ ..] => {
                self.rest = rest;
                Ok(*number)
            }
            _ => Err(ReadStop::Syntax),
        }
    }

    /// The number, if the next token is one.
    pub fn number(&mut self) -> Result<u16, ReadStop>
        ensures { Answers (λ n. n) (read_number self.old.rest.now) result self.new.rest.now }
    {
        match self.rest {
            [Token::Number(number), rest @ ..] => {
                self.rest = rest;
                Ok(*number)
            }
            _ => Err(ReadStop::Syntax),
        }
    }

    /// The number of a word, if the next token is one.
    pub fn index(&mut self) -> Result<u8, ReadStop>
        ensures { Answers (λ n. n) (read_index self.old.rest.now) result self.new.rest.now }
    {
        match self.rest {
            [Token::Index(number), rest @ ..] => {
                self.rest = rest;
                Ok(*number)
            }
            _ => Err(ReadStop::Syntax),
        }
    }

    /// The number of a task's word: a name, a dot and the number.
    pub fn word(&mut self) -> Result<u8, ReadStop>
        ensures { Answers (λ n. n) (read_word self.old.rest.now) result self.new.rest.now }
    {
        self.name()?;
        self.sign(Sign::Dot)?;
        self.index()
    }

    /// Whether the next token is `else`. Then it is taken.
    pub fn otherwise(&mut self) -> bool
        ensures { MatchElse self.old.rest.now result self.new.rest.now }
    {
        match self.rest {
            [Token::Keyword(Keyword::Else), rest @ ..] => {
                self.rest = rest;
                true
            }
            _ => false,
        }
    }

    /// The operator of this level, if it is the next token.
    pub fn operator(&mut self, level: u8) -> Option<Op>
        ensures { MatchOperator level self.old.rest.now result self.new.rest.now }
    {
        match self.rest {
            [Token::Operator(op), rest @ ..] if level_of(*op) == level => {
                self.rest = rest;
                Some(*op)
            }
            _ => None,
        }
    }
}

/// The level of an operator: comparisons are level 0.
fn level_of(op: Op) -> u8
    ensures { result ≡ spec.level_of op }
{
    match op {
        Op::Lt | Op::Eq => 0,
        Op::And | Op::Or | Op::Xor => 1,
        Op::Add | Op::Sub => 2,
        Op::Mul | Op::Div | Op::Rem => 3,
        Op::Shl | Op::Shr => 4,
    }
}
