//! What is in force at a place of a text, kept lexeme by lexeme.
ghost use Rattle.std.specs.Prelude.{◌≡◌, ◌<◌, ◌^◌, IfOk, sum, slice_index};
ghost use Rattle.std.specs.Option.{ForSome};
ghost use Rattle.sift_parse.specs.declared.token.Sign.TheVariants.{CloseParen};
ghost use Rattle.sift_parse.specs.Force as spec;
ghost use Rattle.sift_parse.specs.Levels as levels;
ghost use Rattle.sift_parse.specs.Tokens as told;
ghost use Rattle.sift_parse.specs.Force.{at_start, is_minus, without_minuses, end_let, leave_block, moved, role_after};
ghost use Rattle.sift_parse.specs.Roll.{roll_of};
ghost use Rattle.sift_parse.specs.Lexeme as spec_lexeme;
ghost use Rattle.sift_parse.specs.Held.{force_of, NamesFew};
ghost use Rattle.sift_parse.specs.Written.{lexeme_of};

use crate::lexeme::Lexeme;
use crate::scan::{first_word, keyword_of, local_of, sensor_number, size_of, task_number};
use crate::task::Names;
use crate::token::{Keyword, Sign, Token};
use sift_base::NoMemory;
use sift_lang::Op;
use std::alloc::Global;

/// A level that is open.
#[derive(Clone, Copy)]
pub(crate) enum Level {
    /// A block, and how many locals lived at its `{`.
    Block(usize),
    Parenthesis,
    /// A `-` before a prim.
    Minus,
}

/// What is in force at a place of a text.
#[derive(Drop)]
pub(crate) struct Force<'a> {
    /// The lexeme before the place.
    pub before: Option<Lexeme<'a>>,
    /// The levels that are open, the innermost last.
    pub levels: Vec<Level>,
    /// The names of the locals that live, the newest last.
    pub locals: Vec<&'a [u8]>,
    /// The name of the `let` whose statement isn't over.
    pub pending: Option<&'a [u8]>,
    /// The last word before the place.
    pub named: &'a [u8],
}

impl<'a> Force<'a> {
    /// Nothing is open, and no local lives.
    pub fn at_start(alloc: Global) -> Force<'a>
        ensures { force_of result ≡ at_start }
    {
        Force {
            before: None,
            levels: Vec::new(alloc),
            locals: Vec::new(alloc),
            pending: None,
            named: &[],
        }
    }

    /// The keyword before the place.
    pub fn keyword_before(&self) -> Option<Keyword>
        ensures { result ≡ spec.keyword_before (force_of self.now) }
    {
        match self.before {
            Some(Lexeme::Word(word)) => keyword_of(word),
            _ => None,
        }
    }

    /// Whether an operand ends at the place, so that a `-` there is no minus before a prim.
    fn ends_operand(&self) -> bool
        ensures { result ≡ levels.ends_operand (force_of self.now).before }
    {
        match self.before {
            Some(Lexeme::Word(word)) => keyword_of(word).is_none(),
            Some(Lexeme::Numeral(_) | Lexeme::Mark(Sign::CloseParen)) => true,
            _ => false,
        }
    }

    /// Whether the lexeme opens a level here.
    pub fn opens(&self, lexeme: Lexeme<'_>) -> bool
        ensures { result ≡ spec.opens (force_of self.now) (lexeme_of lexeme.entry) }
    {
        match lexeme {
            Lexeme::Operator(Op::Sub) => !self.ends_operand(),
            Lexeme::Mark(Sign::OpenParen | Sign::OpenBrace) => true,
            _ => false,
        }
    }

    /// Ends the minuses of a prim that ends here.
    fn end_prim(&mut self)
        ensures { force_of self.new ≡ record (force_of self.old) { levels = without_minuses (force_of self.old).levels } }
    {
        while self.in_minus() {
            self.levels.pop();
        }
    }

    /// Whether the innermost level is a minus.
    fn in_minus(&self) -> bool
        ensures { result ≡ is_minus (force_of self.now).levels }
    {
        matches!(self.levels.last(), Some(Level::Minus))
    }

    /// Ends the innermost block: its locals are no more.
    fn leave_block(&mut self)
        ensures { force_of self.new ≡ leave_block (force_of self.old).levels (force_of self.old) }
    {
        if let Some(Level::Block(lived)) = self.levels.pop() {
            self.locals.truncate(lived);
        }
    }

    /// Ends a statement: the local of a `let` is seen from here on.
    fn end_let(&mut self) -> Result<(), NoMemory>
        ensures { IfOk result (λ _. force_of self.new ≡ end_let (force_of self.old).pending (force_of self.old)) }
    {
        if let Some(name) = self.pending.take() {
            self.locals.push(name)?;
        }
        Ok(())
    }

    /// A name: a prim ends with it, except with a task's, whose word's number is to come.
    fn after_name(&mut self, name: &'a [u8])
        ensures { force_of self.new ≡ spec.after_name (role_after (spec.keyword_before (force_of self.old))) name.now (force_of self.old) }
    {
        match self.keyword_before() {
            Some(Keyword::Let) => self.pending = Some(name),
            Some(Keyword::Now | Keyword::Last) => {}
            _ => self.end_prim(),
        }
    }

    /// A word: a name where it is no keyword.
    fn after_word(&mut self, word: &'a [u8])
        ensures { force_of self.new ≡ moved (force_of self.old) (spec_lexeme.word word.now) }
    {
        if keyword_of(word).is_none() {
            self.after_name(word);
        }
        self.named = word;
    }

    /// An operator, which opens a level where it is a minus before a prim.
    fn after_operator(&mut self, op: Op) -> Result<(), NoMemory>
        ensures { IfOk result (λ _. force_of self.new ≡ moved (force_of self.old) (spec_lexeme.operator op)) }
    {
        if self.opens(Lexeme::Operator(op)) {
            self.levels.push(Level::Minus)?;
        }
        Ok(())
    }

    /// A `)`, with which a prim ends.
    fn close_parenthesis(&mut self)
        ensures { force_of self.new ≡ moved (force_of self.old) (spec_lexeme.mark CloseParen) }
    {
        self.levels.pop();
        self.end_prim();
    }

    /// A sign that is no operator.
    fn after_mark(&mut self, mark: Sign) -> Result<(), NoMemory>
        ensures { IfOk result (λ _. force_of self.new ≡ moved (force_of self.old) (spec_lexeme.mark mark)) }
    {
        match mark {
            Sign::OpenParen => self.levels.push(Level::Parenthesis)?,
            Sign::CloseParen => self.close_parenthesis(),
            Sign::OpenBrace => self.levels.push(Level::Block(self.locals.len()))?,
            Sign::CloseBrace => self.leave_block(),
            Sign::Semicolon => self.end_let()?,
            Sign::Assign | Sign::Comma | Sign::Dot => {}
        }
        Ok(())
    }

    /// Goes past a lexeme.
    pub fn advance(&mut self, lexeme: Lexeme<'a>) -> Result<(), NoMemory>
        ensures { IfOk result (λ _. force_of self.new ≡ spec.advance (force_of self.old) (lexeme_of lexeme.entry)) }
    {
        match lexeme {
            Lexeme::Word(word) => self.after_word(word),
            Lexeme::Numeral(_) => self.end_prim(),
            Lexeme::Operator(op) => self.after_operator(op)?,
            Lexeme::Mark(mark) => self.after_mark(mark)?,
        }
        self.before = Some(lexeme);
        Ok(())
    }

    /// The number of what a name names here, where it is there.
    pub fn number_named(&self, names: &Names, name: &[u8]) -> Option<usize>
        ensures { result ≡ spec.number_named (roll_of names.now) (force_of self.now) name.now }
    {
        match self.keyword_before() {
            Some(Keyword::Let) => Some(self.locals.len()),
            Some(Keyword::Sense) => sensor_number(names, name),
            Some(Keyword::Now | Keyword::Last) => task_number(names, name),
            _ => local_of(&self.locals, name),
        }
    }

    /// The task whose word a number asks for here, where it asks for one.
    pub fn task_asked(&self, names: &Names) -> Option<usize>
        ensures { result ≡ spec.task_asked (roll_of names.now) (force_of self.now) (force_of self.now).before }
    {
        match self.before {
            Some(Lexeme::Word(word)) if keyword_of(word) == Some(Keyword::Out) => Some(names.this),
            Some(Lexeme::Mark(Sign::Dot)) => Some(task_number(names, self.named).unwrap_or(0)),
            _ => None,
        }
    }

    /// The token that a word is here; a name that isn't there counts as 0.
    fn word_token(&self, names: &Names, word: &[u8]) -> Token
        requires few { ForSome (spec.number_named (roll_of names.now) (force_of self.now) word.now) (λ n. n < 2 ^ 8) }
        ensures { result ≡ spec.word_token (roll_of names.now) (force_of self.now) word.now (spec_lexeme.keyword_of word.now) }
    {
        match keyword_of(word) {
            Some(keyword) => Token::Keyword(keyword),
            None => match self.number_named(names, word) {
                Some(number) => Token::Name(number as u8),
                // The scan ends at it, so nobody asks what it names.
                None => Token::Name(0),
            },
        }
    }

    /// The number of the word that a number of a task's asks for here.
    fn index_meant(&self, names: &Names, task: usize, n: u32) -> u8
        requires few { sum (roll_of names.now).sizes < 2 ^ 8 }
        requires there { n < slice_index (roll_of names.now).sizes task }
        ensures { result ≡ told.index_meant (roll_of names.now) (force_of self.now).before task n }
    {
        match self.before {
            Some(Lexeme::Mark(Sign::Dot)) => (first_word(names, task) + n) as u8,
            _ => n as u8,
        }
    }

    /// The token that a number is here; a number that is too large or asks for a word that isn't there counts as 0.
    fn number_token(&self, names: &Names, n: u32) -> Token
        requires few { sum (roll_of names.now).sizes < 2 ^ 8 }
        ensures { result ≡ told.number_token (roll_of names.now) (force_of self.now).before (spec.task_asked (roll_of names.now) (force_of self.now) (force_of self.now).before) n }
    {
        match self.task_asked(names) {
            Some(task) if n < size_of(names, task) => {
                Token::Index(self.index_meant(names, task, n))
            }
            Some(_) => Token::Index(0),
            None => Token::Number(u16::try_from(n).unwrap_or(0)),
        }
    }

    /// The token that a lexeme is here.
    pub fn token_of(&self, names: &Names, lexeme: Lexeme<'_>) -> Token
        requires few { sum (roll_of names.now).sizes < 2 ^ 8 }
        requires names { NamesFew (roll_of names.now) (force_of self.now) (lexeme_of lexeme) }
        ensures { result ≡ spec.token_of (roll_of names.now) (force_of self.now) (lexeme_of lexeme.entry) }
    {
        match lexeme {
            Lexeme::Word(word) => self.word_token(names, word),
            Lexeme::Numeral(n) => self.number_token(names, n),
            Lexeme::Operator(op) => Token::Operator(op),
            Lexeme::Mark(sign) => Token::Sign(sign),
        }
    }
}
