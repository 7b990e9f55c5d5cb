//! The ideal machine: its words, frame by frame.
ghost use Rattle.std.specs.Prelude.{◌≡◌, ℕ, ◌+◌, ◌≤◌, List, ◌++◌, length, map, slice_index};
ghost use Rattle.std.specs.List.{range_with_len};
ghost use Rattle.arrayvec.specs.ArrayVec.{array_vec_len};
ghost use Rattle.sift_lang.specs.Tree.{tree_of};
ghost use Rattle.sift_lang.specs.Meaning.{meaning};
ghost use Rattle.sift_lang.specs.Sound.{IsSound, AllNowsBelow};
ghost use Rattle.sift_program.specs.Program.{program_of, IsSoundProgram};
ghost use Rattle.sift_program.specs.Ideal.{ideal_frame, words_before, ideal_words, IdealFrameIsUnique};

use crate::program::{Program, WORD_LIMIT};
use arrayvec::ArrayVec;
use sift_base::Word;
use sift_lang::{Task, eval};
use std::marker::Model;

/// The ideal machine. A clause sees it as its words, in the order of their numbers.
#[derive(Drop)]
pub struct Ideal {
    words: ArrayVec<Word, WORD_LIMIT>,
}

impl Model for Ideal {
    ghost Value = { List ℕ };

    ghost view = { λ ideal. ideal.words.items };
}

impl Ideal {
    /// The machine before frame 0.
    pub fn start(program: &Program) -> Ideal
        requires { (sensors : ℕ) × IsSoundProgram sensors (program_of program.now) }
        ensures { result ≡ program.now.starts.items }
    {
        let mut words = ArrayVec::new();
        words.try_extend_from_slice(&program.starts).unwrap();
        Ideal { words }
    }

    /// Runs the next frame: each task that isn't shed once, over the agreed words of the sensors in that frame. A shed
    /// task, by its number in the list, holds its words of the frame before, and `now` reads these.
    pub fn frame(&mut self, program: &Program, agreed: &[Word], shed: &[u8])
        requires sound { IsSoundProgram (length agreed.now) (program_of program.now) }
        requires a_start_each { length program.now.starts.items ≡ length self.old }
        ensures ideal { self.new ≡ ideal_frame (program_of program.now) self.old agreed.now shed.now }
        // Where the frames before f ran over their agreed words and with their shed tasks, this one is frame f.
        ensures in_turn { (inputs sheds : ℕ → List ℕ) (f : ℕ)
            → self.old ≡ words_before (program_of program.now) inputs sheds f
            → agreed.now ≡ inputs f
            → shed.now ≡ sheds f
            → self.new ≡ ideal_words (program_of program.now) inputs sheds f }
        ensures as_many { length self.new ≡ length self.old }
    {
        let mut made = ArrayVec::new();
        for (number, task) in program.tasks.iter().enumerate() {
            if shed.contains(&(number as u8)) {
                hold(task, &mut made, &self.words);
            } else {
                run(task, agreed, &mut made, &self.words);
            }
        }
        self.words = made;
    }

    /// The words of the frame that ran last, or the start words before frame 0.
    pub fn outs(&self) -> &[Word]
        ensures { result.now ≡ self.now }
    {
        &self.words
    }
}

/// Adds the words of the task to those that the tasks before it made in this frame.
fn run(task: &Task, agreed: &[Word], made: &mut ArrayVec<Word, WORD_LIMIT>, last: &[Word])
    requires sound { IsSound (length agreed.now) (length last.now) (tree_of task.now) }
    requires nows { AllNowsBelow (array_vec_len made.old) (tree_of task.now) }
    requires room { array_vec_len made.old + task.now.outputs ≤ WORD_LIMIT }
    ensures { made.new.items ≡ made.old.items ++ meaning (tree_of task.now) agreed.now made.old.items last.now }
{
    let outs = eval(task, agreed, made, last);
    made.try_extend_from_slice(&outs).unwrap();
}

/// Adds the words that a shed task had in the frame before. They stand at the same places.
fn hold(task: &Task, made: &mut ArrayVec<Word, WORD_LIMIT>, last: &[Word])
    requires held { array_vec_len made.old + task.now.outputs ≤ length last.now }
    requires room { array_vec_len made.old + task.now.outputs ≤ WORD_LIMIT }
    ensures { made.new.items ≡ made.old.items ++ map (slice_index last.now) (range_with_len (array_vec_len made.old) task.now.outputs) }
{
    let first = made.len();
    let held = &last[first..first + task.outputs as usize];
    made.try_extend_from_slice(held).unwrap();
}

/// The words of a frame are the one list in which the words of each task are its meaning over that very list, or where
/// it is shed its words of the frame before. So they can be told without running the tasks in turn.
pub fn ideal_frame_is_unique()
    ensures { IdealFrameIsUnique }
{}
