//! The words that a unit keeps in a frame.

ghost use Rattle.std.specs.Prelude.{◌≡◌, ◌<◌, ◌≤◌, ◌+◌, ◌++◌, drop, length, slice_index, take, IfOk};
ghost use Rattle.sift_code.specs.Ends.{Fits, RunsTo};
ghost use Rattle.sift_code.specs.Machine.{inputs};
ghost use Rattle.sift_pool.specs.Region.{IsLive, left_in, words_at};
ghost use Rattle.sift_unit_frame.specs.Carving.{Adds, Rewords};
ghost use Rattle.sift_unit_frame.specs.FrameWords.{first_words, with_agreed, with_voted, with_made, next_words, without_before};

use arrayvec::ArrayVec;
use sift_base::{NoMemory, Word};
use sift_pool::{Mark, Pool, Span};
use sift_registers::{FILE_WORDS, Registers, run_registers};
use std::alloc::Global;
use std::marker::Model;

/// The words of a frame in one pool, in which a unit also runs the code of its tasks.
///
/// Four spans are carved once and for all, and then the pool is marked: by sensor the agreed words,
/// by output word those of the frame before and the voted words, and the span in which code runs. A
/// fifth has the words that the unit makes itself, as long as it is in its configuration; at each
/// frame's end it is released.
#[derive(Drop)]
pub struct WordFile {
    pool: Pool,
    agreed: Span,
    before: Span,
    voted: Span,
    work: Span,
    mark: Mark,
    made: Option<Span>,
    /// Whether words were voted in the frame before.
    follows: bool,
    inputs: Inputs,
}

/// Lists of words as runs of code take them: copies of those in the spans.
#[derive(Drop)]
struct Inputs {
    agreed: ArrayVec<Word, 8>,
    before: ArrayVec<Word, 64>,
    voted: ArrayVec<Word, 64>,
}

impl Model for WordFile {
    ghost use Rattle.sift_unit_frame.specs.FrameWords.{FrameWords};
    ghost use Rattle.sift_unit_frame.specs.Carving.{words_in, IsFile};

    ghost Value = { FrameWords };

    ghost view = { λ f. words_in f.pool f.agreed f.before f.voted f.made f.follows };

    ghost invariant = { λ f. IsFile f.pool f.agreed f.before f.voted f.work f.mark f.made f.follows
        f.inputs.agreed.items f.inputs.before.items f.inputs.voted.items };
}

impl WordFile {
    /// The words before the flight, with all memory for them and for the runs of tasks.
    pub(crate) fn make(alloc: Global, sensors: usize, starts: &[Word]) -> Result<WordFile, NoMemory>
        requires sensors { sensors ≤ 8 }
        requires starts { length starts.now ≤ 64 }
        ensures { IfOk result (λ file. file ≡ first_words sensors starts.now) }
    {
        let words = starts.len();
        let size = FILE_WORDS + sensors + 3 * words;
        let mut pool = Pool::make(alloc, size, 5).map_err(|_| NoMemory)?;
        let agreed = carve(&mut pool, sensors);
        let before = carve(&mut pool, words);
        let voted = carve(&mut pool, words);
        let work = carve(&mut pool, FILE_WORDS);
        // What is carved from here on is given back at each frame's end.
        let mark = pool.mark();
        let made = carve(&mut pool, words);
        store(&mut pool, &before, 0, starts);
        Ok(WordFile {
            inputs: Inputs {
                agreed: load(&pool, &agreed, sensors),
                before: load(&pool, &before, words),
                voted: load(&pool, &voted, words),
            },
            pool,
            agreed,
            before,
            voted,
            work,
            mark,
            made: Some(made),
            follows: true,
        })
    }

    /// The agreed words, by sensor.
    pub(crate) fn agreed(&self) -> ArrayVec<Word, 8>
        ensures { result.items ≡ self.now.agreed }
    {
        load(&self.pool, &self.agreed, self.inputs.agreed.len())
    }

    /// A word of the frame before.
    pub(crate) fn before(&self, word: u8) -> Word
        requires { word < length self.now.before }
        ensures { result ≡ slice_index self.now.before word }
    {
        self.inputs.before[usize::from(word)]
    }

    /// The voted words.
    pub(crate) fn voted(&self) -> ArrayVec<Word, 64>
        ensures { result.items ≡ self.now.voted }
    {
        load(&self.pool, &self.voted, self.inputs.voted.len())
    }

    /// A word that the unit made itself.
    pub(crate) fn made(&self, word: u8) -> Word
        requires { word < length self.now.made }
        ensures { result ≡ slice_index self.now.made word }
    {
        match &self.made {
            Some(made) => Word::of(self.pool.get(made, usize::from(word))),
            None => unreachable!(),
        }
    }

    /// Keeps the agreed word of a sensor.
    pub(crate) fn agree(&mut self, sensor: u8, word: Word)
        requires { sensor < length self.old.agreed }
        ensures { self.new ≡ with_agreed self.old sensor word }
    {
        self.pool.put(&self.agreed, usize::from(sensor), word.get());
        self.inputs.agreed[usize::from(sensor)] = word;
    }

    /// Keeps a voted word.
    pub(crate) fn vote(&mut self, at: u8, word: Word)
        requires { at < length self.old.voted }
        ensures { self.new ≡ with_voted self.old at word }
    {
        self.pool.put(&self.voted, usize::from(at), word.get());
        self.inputs.voted[usize::from(at)] = word;
    }

    /// Runs code on the agreed words, this frame's words and those of the frame before. It takes no
    /// memory.
    pub(crate) fn run(&mut self, code: &Registers) -> ArrayVec<Word, 8>
        requires { Fits (inputs self.old.agreed self.old.voted self.old.before) code.now.limits }
        ensures ran { RunsTo code.now (inputs self.old.agreed self.old.voted self.old.before) result.items }
        ensures count { length result.items ≡ code.now.limits.outputs }
        ensures same { self.new ≡ self.old }
    {
        let mut outs = ArrayVec::new();
        let Inputs {
            agreed,
            before,
            voted,
        } = &self.inputs;
        run_registers(
            code,
            &mut self.pool,
            &self.work,
            agreed,
            voted,
            before,
            &mut outs,
        );
        outs
    }

    /// Keeps words that the unit made itself, from a place on.
    pub(crate) fn keep_made(&mut self, at: usize, words: &[Word])
        requires { at + length words.now ≤ length self.old.made }
        ensures { self.new ≡ with_made self.old at words.now }
    {
        if let Some(made) = &self.made {
            store(&mut self.pool, made, at, words);
        }
    }

    /// Goes on to the next frame, after one in which words were voted: they are the words before now.
    /// Words are made in it only where the unit stays in its configuration.
    pub(crate) fn turn_over(&mut self, stays: bool)
        ensures { self.new ≡ next_words stays self.old }
    {
        // There is room for one span of made words: this frame's goes before the next frame's is carved.
        self.pool.release(self.mark);
        self.made = None;
        let words = self.inputs.voted.len();
        let voted = load(&self.pool, &self.voted, words);
        store(&mut self.pool, &self.before, 0, &voted);
        self.inputs.before = voted;
        self.follows = true;
        if !stays {
            return;
        }
        self.made = Some(carve(&mut self.pool, words));
    }

    /// Goes on to the next frame, after one in which no words were voted.
    pub(crate) fn rest(&mut self)
        ensures { self.new ≡ without_before self.old }
    {
        self.follows = false;
        self.inputs.before = ArrayVec::new();
    }
}

/// Carves a span, for which the pool has room.
fn carve(pool: &mut Pool, len: usize) -> Span
    requires room { length pool.old.spans < pool.old.room }
    requires words { len ≤ left_in pool.old }
    ensures { Adds pool.old pool.new len result }
{
    match pool.carve(len) {
        Ok(span) => span,
        Err(_) => unreachable!(),
    }
}

/// The words of a span, of which there are so many.
fn load<const N: usize>(pool: &Pool, span: &Span, count: usize) -> ArrayVec<Word, N>
    requires live { IsLive pool.now span.now }
    requires count { count ≡ span.now.len }
    requires few { count ≤ N }
    ensures { result.items ≡ words_at pool.now span.now.number }
{
    let mut words = ArrayVec::new();
    for i in 0..count {
        words.push(Word::of(pool.get(span, i)));
    }
    words
}

/// Stores words in a span, from a place on.
fn store(pool: &mut Pool, span: &Span, at: usize, words: &[Word])
    requires live { IsLive pool.old span.now }
    requires inside { at + length words.now ≤ span.now.len }
    ensures { Rewords pool.old pool.new span.now.number
        (take at (words_at pool.old span.now.number) ++ (words.now ++ drop (at + length words.now) (words_at pool.old span.now.number))) }
{
    write(pool.words_mut(span), at, words);
}

/// Writes words into a list from a place on.
fn write(list: &mut [u16], at: usize, words: &[Word])
    requires { at + length words.now ≤ length list.old }
    ensures { list.new ≡ take at list.old ++ (words.now ++ drop (at + length words.now) list.old) }
{
    for i in 0..words.len() {
        list[at + i] = words[i].get();
    }
}
