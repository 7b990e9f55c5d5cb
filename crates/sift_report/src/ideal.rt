//! The outputs of the ideal machine of a mission, which runs the compiled code of its tasks.

ghost use Rattle.std.specs.Prelude.{◌≡◌, ◌++◌, ◌≤◌, ◌<◌, IfOk, OnOk, length, string_bytes, ℕ, ◌+◌, List, [], drop, take};
ghost use Rattle.sift_base.specs.Layout.{sensor_limit};
ghost use Rattle.sift_pool.specs.Region.{IsLive};
ghost use Rattle.sift_registers.specs.declared.file.TheConstants.{FILE_WORDS};
ghost use Rattle.sift_lang.specs.Meaning.{meaning};
ghost use Rattle.sift_program.specs.Ideal.{ideal_frame, ideal_words, words_before};
ghost use Rattle.sift_program.specs.Program.{task_at};
ghost use Rattle.sift_mission.specs.Parts.{data_of, flown_of};
ghost use Rattle.sift_report.specs.Ideal.{ideal_of, outputs_text, sensed_in};

use arrayvec::ArrayVec;
use sift_base::{NoMemory, Word};
use sift_line::push_list;
use sift_mission::{Mission, a_mission_flies};
use sift_pool::{Pool, Span};
use sift_program::WORD_LIMIT;
use sift_registers::{FILE_WORDS, run_registers};
use std::alloc::{AllocError, Global};
use std::marker::Model;

/// The ideal machine's outputs in each frame, over the mission's own sensor words, where no task is shed.
pub fn ideal_text(alloc: Global, mission: &Mission) -> Result<String, NoMemory>
    ensures { IfOk result (λ text. string_bytes text ≡ ideal_of (data_of mission.now)) }
{
    let mut text = String::new(alloc);
    let mut ideal = CompiledIdeal::start(alloc, mission)?;
    for f in 0..mission.frames() {
        ideal.frame(mission, &sensed_in(mission, f));
        push_outputs(&mut text, f, ideal.outs())?;
    }
    let frames = mission.frames();
    writeln!(text, "end frames={frames}")?;
    Ok(text)
}

/// The words of the mission's sensors in a frame.
fn sensed_in(mission: &Mission, f: u32) -> ArrayVec<Word, 8>
    requires { f < (flown_of mission.now).frames }
    ensures { result.items ≡ sensed_in (flown_of mission.now) f }
{
    let mut words = ArrayVec::new();
    for x in 0..mission.parts().layout.sensors {
        words.push(mission.sensed(x, f));
    }
    words
}

/// Appends the line of a frame with these outputs.
fn push_outputs(text: &mut String, f: u32, outs: &[Word]) -> Result<(), AllocError>
    ensures { OnOk result (string_bytes text.new ≡ string_bytes text.old ++ outputs_text f outs.now) }
{
    write!(text, "f={f} out=")?;
    push_list(text, outs)?;
    text.push('\n')
}

/// The ideal machine of a mission, where no task is shed. A clause sees it as its words, in the order of their numbers.
///
/// It gives what `sift_program::Ideal` gives, but runs checked code in place of trees, in a span of a pool of its own.
#[derive(Drop)]
pub(crate) struct CompiledIdeal {
    pool: Pool,
    work: Span,
    words: ArrayVec<Word, WORD_LIMIT>,
}

impl Model for CompiledIdeal {
    ghost Value = { List ℕ };

    ghost view = { λ ideal. ideal.words.items };

    ghost invariant = { λ ideal. IsLive ideal.pool ideal.work × (ideal.work.len ≡ FILE_WORDS) };
}

impl CompiledIdeal {
    /// The machine before frame 0, with all memory that it needs.
    pub(crate) fn start(alloc: Global, mission: &Mission) -> Result<CompiledIdeal, NoMemory>
        ensures starts { IfOk result (λ ideal. ideal ≡ (flown_of mission.now).starts) }
        ensures a_word_each { IfOk result (λ ideal. length ideal ≡ (flown_of mission.now).words) }
    {
        a_mission_flies(mission);
        let mut pool = Pool::make(alloc, FILE_WORDS, 1).map_err(|_| NoMemory)?;
        let work = pool.carve(FILE_WORDS).unwrap();
        let mut words = ArrayVec::new();
        words.try_extend_from_slice(mission.starts()).unwrap();
        Ok(CompiledIdeal { pool, work, words })
    }

    /// Runs the next frame: each task once, over the agreed words of the sensors in that frame. It takes no memory.
    pub(crate) fn frame(&mut self, mission: &Mission, agreed: &[Word])
        requires agreed { length agreed.now ≡ (flown_of mission.now).sensors }
        requires words { length self.old ≡ (flown_of mission.now).words }
        ensures ideal { self.new ≡ ideal_frame (data_of mission.now).program self.old agreed.now [] }
        // Where the frames before f ran over their agreed words, this one is frame f.
        ensures in_turn { (inputs : ℕ → List ℕ) (f : ℕ)
            → self.old ≡ words_before (data_of mission.now).program inputs (λ g. []) f
            → agreed.now ≡ inputs f
            → self.new ≡ ideal_words (data_of mission.now).program inputs (λ g. []) f }
        ensures as_many { length self.new ≡ length self.old }
    {
        // Code is run on as many words of this frame as there are. Those that aren't made yet are still the words of the
        // frame before, and no task reads them.
        a_mission_flies(mission);
        let mut made = ArrayVec::new();
        made.try_extend_from_slice(&self.words).unwrap();
        for t in 0..mission.tasks() {
            let outs = self.words_of(mission, t, agreed, &made);
            put(&mut made, mission.first_word(t), &outs);
        }
        self.words = made;
    }

    /// The words of a task, over those that this frame has so far. It runs the task's code.
    fn words_of(
        &mut self,
        mission: &Mission,
        task: usize,
        agreed: &[Word],
        made: &[Word],
    ) -> ArrayVec<Word, 8>
        requires task { task < (flown_of mission.now).tasks }
        requires agreed { length agreed.now ≡ (flown_of mission.now).sensors }
        requires made { length made.now ≡ (flown_of mission.now).words }
        requires words { length self.old ≡ (flown_of mission.now).words }
        ensures words { let tree = task_at (data_of mission.now).program.tasks task in
            result.items ≡ meaning tree agreed.now made.now self.old }
        ensures same { self.new ≡ self.old }
    {
        let mut outs = ArrayVec::new();
        run_registers(
            mission.code(task),
            &mut self.pool,
            &self.work,
            agreed,
            made,
            &self.words,
            &mut outs,
        );
        outs
    }

    /// The words of the frame that ran last, or the start words before frame 0.
    pub(crate) fn outs(&self) -> &[Word]
        ensures { result.now ≡ self.now }
    {
        &self.words
    }
}

/// Puts words in the place of others, from a place on.
fn put(list: &mut ArrayVec<Word, WORD_LIMIT>, at: usize, words: &[Word])
    requires { at + length words.now ≤ length list.old.items }
    ensures { let behind = drop (at + length words.now) list.old.items in
        list.new.items ≡ take at list.old.items ++ (words.now ++ behind) }
{
    list[at..at + words.len()].copy_from_slice(words);
}
