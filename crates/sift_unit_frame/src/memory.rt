//! What a unit remembers in a frame.

ghost use Rattle.std.specs.Prelude.{◌≡◌, ◌<◌, ℕ, IfOk, length, true};
ghost use Rattle.sift_base.specs.Units.{has};
ghost use Rattle.sift_mission.specs.Fits.{Fits};
ghost use Rattle.sift_mission.specs.Parts.{flown_of};
ghost use Rattle.sift_unit_frame.specs.FrameWords.{HasAllWords};
ghost use Rattle.sift_unit_frame.specs.Memory.{run as run_of, with_task_made};
ghost use Rattle.sift_unit_frame.specs.Conditions.{IsShaped, IsTaskOf};
ghost use Rattle.sift_unit_frame.specs.Memories.{memory_of, TurnsInShape, TakesBefore};

use crate::word_file::WordFile;
use sift_base::{NoMemory, SENSOR_LIMIT, UNIT_LIMIT, UnitId, UnitSet, Word};
use sift_conduct::Account;
use sift_config::Config;
use sift_mission::{Mission, a_mission_flies};
use sift_program::WORD_LIMIT;
use std::alloc::Global;

/// What a unit remembers of a frame: by sensor, by word and by unit.
#[derive(Drop)]
pub struct Memory {
    /// The units caught by their clocks.
    pub(crate) clock: UnitSet,
    /// The next offset.
    pub(crate) next_clk: i64,
    /// Each sensor's word, as its reader said it.
    pub(crate) direct: [Option<Word>; SENSOR_LIMIT],
    /// By sensor, the units caught by their relays.
    pub(crate) relay: [UnitSet; SENSOR_LIMIT],
    /// By word, the units caught in its poll.
    pub(crate) poll: [UnitSet; WORD_LIMIT],
    /// Each unit's report, as it said it.
    pub(crate) reports: [Option<Word>; UNIT_LIMIT],
    /// Each unit's report, as it was agreed.
    pub(crate) agreed: [Word; UNIT_LIMIT],
    /// The agreed words, the words before, the voted words and those that the unit made itself.
    pub(crate) words: WordFile,
}

impl Memory {
    /// A memory with room for all that is to be remembered of a mission's frames, and the words before
    /// frame 0. `NoMemory` comes where there is no memory for its words; no other call takes any.
    pub fn make(alloc: Global, mission: &Mission) -> Result<Memory, NoMemory>
        requires fits { Fits (flown_of mission.now) }
        ensures shape { IfOk result (λ b. (u : ℕ) → has (flown_of mission.now).units u ≡ true → IsShaped (flown_of mission.now) (flown_of mission.now).units u (memory_of b)) }
        ensures before { IfOk result (λ b. b.words.before ≡ (flown_of mission.now).starts) }
    {
        Ok(Memory {
            clock: UnitSet::empty(),
            next_clk: 0,
            direct: [None; SENSOR_LIMIT],
            relay: [UnitSet::empty(); SENSOR_LIMIT],
            poll: [UnitSet::empty(); WORD_LIMIT],
            reports: [None; UNIT_LIMIT],
            agreed: [Word::of(0); UNIT_LIMIT],
            words: WordFile::make(alloc, mission.sensors(), mission.starts())?,
        })
    }

    /// Runs a task, where the unit is to run it, on the agreed words, this frame's voted words and those
    /// of the frame before.
    #[inline(never)]
    pub fn run(&mut self, mission: &Mission, config: &Config, unit: UnitId, task: usize)
        requires task { IsTaskOf (flown_of mission.now) config.now task }
        requires shape { IsShaped (flown_of mission.now) config.now unit (memory_of self.old) }
        requires before { has config.now unit ≡ true → length self.old.words.before ≡ (flown_of mission.now).words }
        ensures made { memory_of self.new ≡ run_of (flown_of mission.now) config.now unit self.old.words.before task (memory_of self.old) }
        ensures before { self.new.words.before ≡ self.old.words.before }
    {
        if mission.runs(config, task, unit) {
            make_words(mission, task, &mut self.words);
        }
    }

    /// Goes over to the next frame, and keeps what is read there of the words of the frame that this
    /// account is of.
    pub fn turn_over(&mut self, config: &Config, unit: UnitId, account: &Account)
        ensures shape { TurnsInShape config.now unit account.now (memory_of self.old) (memory_of self.new) }
        ensures before { TakesBefore config.now unit account.now (memory_of self.old) self.new.words.before }
    {
        if config.has(unit) {
            self.words.turn_over(account.next_cfg.has(unit));
            return;
        }
        self.words.rest();
    }
}

/// Makes the words of a task of the agreed words, this frame's words and those before, by the task's checked code.
fn make_words(mission: &Mission, task: usize, words: &mut WordFile)
    requires task { task < (flown_of mission.now).tasks }
    requires all { HasAllWords (flown_of mission.now) words.old }
    ensures { words.new ≡ with_task_made (flown_of mission.now) task words.old }
{
    a_mission_flies(mission);
    let made = words.run(mission.code(task));
    words.keep_made(mission.first_word(task), &made);
}
