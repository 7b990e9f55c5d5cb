//! The evaluator: the output words of a task.
ghost use Rattle.std.specs.Prelude.{◌≡◌, ℕ, ◌≤◌, length, replicate, []};
ghost use Rattle.arrayvec.specs.ArrayVec.{array_vec_len};
ghost use Rattle.sift_lang.specs.Tree.{term_of, statement_of, block_of, tree_of};
ghost use Rattle.sift_lang.specs.Meaning.{operation, value_of, after, after_all, scoped, meaning};
ghost use Rattle.sift_lang.specs.Sound.{Bounds, NamesWithin, IsSoundStatement, IsSoundBlock, IsSound, NowsBelow, EachTerm, EachTermOf, AllNowsBelow};
ghost use Rattle.sift_lang.specs.Held.{readings_of, state_of, bounds_of};

use crate::tree::{Expr, LOCAL_LIMIT, OUTPUT_LIMIT, Op, Stmt, Task};
use arrayvec::ArrayVec;
use sift_base::Word;

/// What a task reads.
#[derive(Clone, Copy)]
struct Readings<'a> {
    ins: &'a [Word],
    made: &'a [Word],
    last: &'a [Word],
}

impl Op {
    /// The word that the operator gives.
    fn apply(self, a: Word, b: Word) -> Word
        ensures { result ≡ operation self a b }
    {
        match self {
            Op::Add => a.add(b),
            Op::Sub => a.sub(b),
            Op::Mul => a.mul(b),
            Op::Div => a.div(b),
            Op::Rem => a.rem(b),
            Op::And => a.and(b),
            Op::Or => a.or(b),
            Op::Xor => a.xor(b),
            Op::Shl => a.shl(b),
            Op::Shr => a.shr(b),
            Op::Lt => a.lt(b),
            Op::Eq => a.eq(b),
        }
    }
}

/// The value of an expression, where these locals live.
fn value(e: &Expr, readings: &Readings, locals: &[Word]) -> Word
    requires names { let sensors = length readings.now.ins.now in
        let words = length readings.now.last.now in
        NamesWithin sensors words (length locals.now) (term_of e.now) }
    requires nows { NowsBelow (length readings.now.made.now) (term_of e.now) }
    ensures { result ≡ value_of (term_of e.now) (readings_of readings.now) locals.now }
{
    match e {
        Expr::Number(word) => *word,
        Expr::Local(l) => locals[*l as usize],
        Expr::Sense(x) => readings.ins[*x as usize],
        Expr::Now(w) => readings.made[*w as usize],
        Expr::Last(w) => readings.last[*w as usize],
        Expr::Minus(e) => Word::of(0).sub(value(e, readings, locals)),
        Expr::Binary(op, a, b) => {
            let a = value(a, readings, locals);
            op.apply(a, value(b, readings, locals))
        }
        Expr::Mid(a, b, c) => {
            let a = value(a, readings, locals);
            let b = value(b, readings, locals);
            Word::mid(a, b, value(c, readings, locals))
        }
    }
}

/// What statements change.
#[derive(Drop)]
struct State {
    locals: ArrayVec<Word, LOCAL_LIMIT>,
    outs: ArrayVec<Word, OUTPUT_LIMIT>,
}

impl State {
    /// No local lives, and so many output words are 0.
    fn new(outputs: u8) -> State
        requires { outputs ≤ OUTPUT_LIMIT }
        ensures { state_of result ≡ record { locals = []; outs = replicate outputs 0 } }
    {
        let mut outs = ArrayVec::new();
        for _output in 0..outputs {
            outs.push(Word::of(0));
        }
        State {
            locals: ArrayVec::new(),
            outs,
        }
    }

    /// Runs a statement.
    #[cycle(run)]
    fn run(&mut self, statement: &Stmt, readings: &Readings)
        requires sound { let locals = array_vec_len self.old.locals in
            IsSoundStatement (bounds_of readings.now self.old) locals (statement_of statement.now) }
        requires nows { let made = length readings.now.made.now in
            EachTermOf (NowsBelow made) (statement_of statement.now) }
        ensures { let readings = readings_of readings.now in
            state_of self.new ≡ after (statement_of statement.now) readings (state_of self.old) }
    {
        match statement {
            Stmt::Let(e) => {
                let word = value(e, readings, &self.locals);
                self.locals.push(word);
            }
            Stmt::Set(l, e) => {
                let word = value(e, readings, &self.locals);
                self.locals[*l as usize] = word;
            }
            Stmt::Output(j, e) => {
                let word = value(e, readings, &self.locals);
                self.outs[*j as usize] = word;
            }
            Stmt::If(e, first, second) => {
                let word = value(e, readings, &self.locals);
                if word.get() != 0 {
                    self.run_block(first, readings);
                } else if let Some(second) = second {
                    self.run_block(second, readings);
                }
            }
            Stmt::Repeat(rounds, body) => {
                for _round in 0..*rounds {
                    self.run_block(body, readings);
                }
            }
        }
    }

    /// Runs the statements in turn. The locals that they add end with the block.
    #[cycle(run)]
    fn run_block(&mut self, block: &[Stmt], readings: &Readings)
        requires sound { let locals = array_vec_len self.old.locals in
            IsSoundBlock (bounds_of readings.now self.old) locals (block_of block.now) }
        requires nows { let made = length readings.now.made.now in
            EachTerm (NowsBelow made) (block_of block.now) }
        ensures means { let run = after_all (block_of block.now) (readings_of readings.now) in
            state_of self.new ≡ scoped run (state_of self.old) }
        ensures locals { array_vec_len self.new.locals ≡ array_vec_len self.old.locals }
        ensures outs { array_vec_len self.new.outs ≡ array_vec_len self.old.outs }
    {
        let depth = self.locals.len();
        for statement in block {
            self.run(statement, readings);
        }
        self.locals.truncate(depth);
    }
}

/// The output words of a task, from the agreed words of the sensors, the words voted in this frame, and those voted in
/// the frame before.
pub fn eval(task: &Task, ins: &[Word], made: &[Word], last: &[Word]) -> ArrayVec<Word, OUTPUT_LIMIT>
    requires sound { IsSound (length ins.now) (length last.now) (tree_of task.now) }
    requires nows { AllNowsBelow (length made.now) (tree_of task.now) }
    ensures means { result.items ≡ meaning (tree_of task.now) ins.now made.now last.now }
    ensures outputs { array_vec_len result ≡ task.now.outputs }
{
    let mut state = State::new(task.outputs);
    state.run_block(&task.body, &Readings { ins, made, last });
    state.outs
}
