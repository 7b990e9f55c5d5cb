//! The trees of tasks, and the limits of the language.
ghost use Rattle.std.specs.Prelude.{◌≡◌};
ghost use Rattle.sift_base.specs.Shapes.{output_limit};
ghost use Rattle.sift_lang.specs.Tree.{local_limit, repeat_limit, round_limit, need_limit};

use sift_base::Word;

/// The most locals that may live at once, hidden ones counted.
pub const LOCAL_LIMIT: usize = 32;

/// The most `repeat`s that may be open at once.
pub const REPEAT_LIMIT: usize = 32;

/// The most rounds of a `repeat`.
pub const ROUND_LIMIT: u16 = 1024;

/// The most output words of a task.
pub const OUTPUT_LIMIT: usize = 8;

/// The most that an expression may need.
pub const NEED_LIMIT: usize = 256;

/// The limits that the code holds are those of the language.
pub fn limits_are_the_languages()
    ensures locals { LOCAL_LIMIT ≡ local_limit }
    ensures repeats { REPEAT_LIMIT ≡ repeat_limit }
    ensures rounds { ROUND_LIMIT ≡ round_limit }
    ensures outputs { OUTPUT_LIMIT ≡ output_limit }
    ensures needs { NEED_LIMIT ≡ need_limit }
{}

/// An operator of two words.
#[derive(Clone, Copy)]
pub enum Op {
    /// `+`
    Add,
    /// `-`
    Sub,
    /// `*`
    Mul,
    /// `/`
    Div,
    /// `%`
    Rem,
    /// `&`
    And,
    /// `|`
    Or,
    /// `^`
    Xor,
    /// `<<`
    Shl,
    /// `>>`
    Shr,
    /// `<`
    Lt,
    /// `==`
    Eq,
}

/// An expression, with names resolved to numbers.
#[derive(Drop)]
pub enum Expr {
    /// The word itself.
    Number(Word),
    /// The local of this number: as many locals live at its `let`.
    Local(u8),
    /// The agreed word of this sensor.
    Sense(u8),
    /// This word of those voted in this frame.
    Now(u8),
    /// This word of those voted in the frame before.
    Last(u8),
    /// 0 minus the part.
    Minus(Box<Expr>),
    /// The operator at its two parts.
    Binary(Op, Box<Expr>, Box<Expr>),
    /// The middle of three signed words.
    Mid(Box<Expr>, Box<Expr>, Box<Expr>),
}

/// A statement, with names resolved to numbers.
#[derive(Drop)]
pub enum Stmt {
    /// Adds a local, which lives to the end of its block.
    Let(Expr),
    /// Sets the local of this number.
    Set(u8, Expr),
    /// Sets this output word.
    Output(u8, Expr),
    /// Takes the first block where the word isn't 0, else the second where there is one.
    If(Expr, Vec<Stmt>, Option<Vec<Stmt>>),
    /// Runs the block so many times.
    Repeat(u16, Vec<Stmt>),
}

/// A task: what it runs in a frame, and how many output words it sets.
#[derive(Drop)]
pub struct Task {
    pub outputs: u8,
    pub body: Vec<Stmt>,
}
