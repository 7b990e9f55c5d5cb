//! A mission, whose parts fit, and what boards ask of it: words, faults and clocks.

ghost use Rattle.std.specs.Prelude.{◌≡◌, ℕ, ◌+◌, ◌-◌, ◌<◌, ◌≤◌, ◌++◌, length, map, replicate, pos, ◌+ℤ◌, true};
ghost use Rattle.sift_base.specs.Shapes.{task_limit};
ghost use Rattle.sift_lang.specs.Tree.{tree_of};
ghost use Rattle.sift_program.specs.Program.{output_count, first_word, task_at};
ghost use Rattle.sift_mission.specs.ByWord.{by_word};
ghost use Rattle.sift_mission.specs.Crews.{AreCrewsOf};
ghost use Rattle.sift_mission.specs.Parts.{AreCompiled, data_of, flown_of};
ghost use Rattle.sift_mission.specs.Data.{IsConfigOf};
ghost use Rattle.sift_mission.specs.Flown.{runs_in, ticks_of};
ghost use Rattle.sift_base.specs.Units.{holds, has};
ghost use Rattle.sift_mission.specs.PartsFit.{PartsFit};
ghost use Rattle.sift_base.specs.Layout.{word_limit};
ghost use Rattle.sift_compile.specs.Tasks.{IsCodeOf};
ghost use Rattle.sift_clock.specs.Distance.{IsWithin, error_limit};

use crate::crews::{Crews, all_crews};
use crate::timetable::{Timetable, timetables};
use arrayvec::ArrayVec;
use sift_base::{Layout, Name, UnitId, UnitSet, Word};
use sift_config::Config;
use sift_lang::Task;
use sift_program::Program;
use sift_registers::Registers;
use sift_script::{GoodScript, working_units_say_their_words};
use sift_skew::ClockPlan;
use sift_table::GoodTable;
use std::marker::Model;

// ---- the parts

/// The parts of a mission, as a loader has them.
#[derive(Drop)]
pub struct MissionParts {
    /// How many units fly, 4 to 8.
    pub units: u8,
    /// How many frames are flown, 1 to 1,000.
    pub frames: u32,
    /// How many subframes a frame has, 12 to 64.
    pub period: u8,
    /// How many units, sensors and output words there are.
    pub layout: Layout,
    /// The name of each task.
    pub names: Vec<Name>,
    /// The tasks, and the words that stand for theirs before frame 0.
    pub program: Program,
    /// The code of each task.
    pub code: Vec<Registers>,
    /// The table for the configurations of each size, from four units on.
    pub tables: Vec<GoodTable>,
    /// The words of each sensor, 1 to 1,000, which come round and round.
    pub sensors: Vec<Vec<Word>>,
    /// The clocks.
    pub clock: ClockPlan,
    /// Which units fail, and how.
    pub script: GoodScript,
}

/// The most slots of a mission.
pub(crate) const SLOT_LIMIT: usize = 90;

// ---- the mission

/// A mission. A clause sees it as its parts, and they fit.
#[derive(Drop)]
pub struct Mission {
    parts: MissionParts,
    /// How many slots there are.
    slots: usize,
    /// The task of each word.
    tasks: ArrayVec<u8, 64>,
    /// By table, when slots are heard and said and tasks are run.
    pub(crate) times: [Timetable; 5],
    /// By the byte of a configuration's units, who runs which task, who says and hears which slot, and by which table.
    crews: [Crews; 256],
}

impl Model for Mission {
    ghost use Rattle.sift_mission.specs.contracts.mission.MissionParts.{the_row};
    ghost use Rattle.sift_mission.specs.declared.mission.MissionParts.{MissionParts};
    ghost use Rattle.sift_mission.specs.ByWord.{IsHeld};

    ghost Value = { MissionParts };

    ghost coded = { the_row.coded };

    ghost view = { λ mission. mission.parts };

    ghost invariant = { λ mission. IsHeld mission.parts mission.slots mission.tasks.items mission.times mission.crews };
}

impl Mission {
    /// The mission of parts that fit, with the code of their tasks. It takes no memory.
    pub fn of(parts: MissionParts) -> Mission
        requires fit { PartsFit (data_of parts) }
        requires compiled { AreCompiled parts }
        ensures { result ≡ parts }
    {
        let slots = parts.layout.count();
        let tasks = tasks_by_word(&parts.program.tasks);
        let times = timetables(&parts, &tasks);
        let crews = all_crews(&parts, &tasks);
        Mission {
            parts,
            slots,
            tasks,
            times,
            crews,
        }
    }

    /// The parts, for reading. They fit.
    pub fn parts(&self) -> &MissionParts
        ensures same { result.now ≡ self.now }
        ensures fit { PartsFit (data_of self.now) }
        ensures compiled { AreCompiled self.now }
    {
        &self.parts
    }

    /// How many slots there are, at most 90.
    pub fn slots(&self) -> usize
        ensures { result ≡ (flown_of self.now).slots }
    {
        self.slots
    }

    /// The units of a configuration that run a task.
    pub fn crew(&self, config: &Config, t: usize) -> UnitSet
        requires config { IsConfigOf (flown_of self.now) config.now }
        requires task { t < (flown_of self.now).tasks }
        ensures { (u : ℕ) → holds result u ≡ runs_in (data_of self.now) config.now t u }
    {
        self.crews_for(config).of_task(t)
    }

    /// Who runs which task, and who says and hears which slot, under a configuration.
    pub(crate) fn crews_for(&self, config: &Config) -> &Crews
        requires { IsConfigOf (flown_of self.now) config.now }
        ensures crews { AreCrewsOf (data_of self.now) config.now result.now }
        ensures few { (flown_of self.now).tasks ≤ task_limit }
        ensures low { result.now.table < 5 }
    {
        &self.crews[usize::from(config.units().bits())]
    }

    /// The task that puts out a word.
    pub fn task_of(&self, w: u8) -> usize
        requires { w < (flown_of self.now).words }
        ensures task { result ≡ (flown_of self.now).task w }
        ensures there { result < (flown_of self.now).tasks }
    {
        usize::from(self.tasks[usize::from(w)])
    }
}

/// The task of each word of these tasks, in the order of the words.
fn tasks_by_word(tasks: &[Task]) -> ArrayVec<u8, 64>
    requires few { length tasks.now ≤ 64 }
    requires room { output_count (map tree_of tasks.now) ≤ 64 }
    ensures { result.items ≡ by_word 0 (map tree_of tasks.now) }
{
    let mut by_word = ArrayVec::new();
    for (t, task) in tasks.iter().enumerate() {
        push_copies(&mut by_word, t as u8, task.outputs);
    }
    by_word
}

/// Adds so many copies of a number.
fn push_copies(list: &mut ArrayVec<u8, 64>, number: u8, count: u8)
    requires { length list.old.items + count ≤ 64 }
    ensures { list.new.items ≡ list.old.items ++ replicate count number }
{
    for _ in 0..count {
        list.push(number);
    }
}

// ---- its words

impl Mission {
    /// The word of a sensor in a frame: its words come round and round.
    pub fn sensed(&self, x: u8, f: u32) -> Word
        requires sensor { x < (flown_of self.now).sensors }
        requires frame { f < (flown_of self.now).frames }
        ensures { result ≡ (flown_of self.now).sensed x f }
    {
        let words = &self.parts().sensors[usize::from(x)];
        words[f as usize % words.len()]
    }

    /// The words that stand for the tasks' words before frame 0.
    pub fn starts(&self) -> &[Word]
        ensures words { result.now ≡ (flown_of self.now).starts }
        ensures few { length result.now ≤ word_limit }
    {
        &self.parts().program.starts
    }

    /// The code of a task.
    pub fn code(&self, t: usize) -> &Registers
        requires { t < (flown_of self.now).tasks }
        ensures { IsCodeOf (flown_of self.now).sensors (flown_of self.now).words (task_at (data_of self.now).program.tasks t) result.now }
    {
        &self.parts().code[t]
    }

    /// The number of a task's first word: so many words have the tasks before it.
    pub fn first_word(&self, t: usize) -> usize
        requires { t < (flown_of self.now).tasks }
        ensures { result ≡ first_word (data_of self.now).program.tasks t }
    {
        let mut first = 0;
        for task in &self.parts().program.tasks[..t] {
            first += usize::from(task.outputs);
        }
        first
    }

    /// How many words a task puts out, 1 to 8.
    pub fn outputs(&self, t: usize) -> u8
        requires { t < (flown_of self.now).tasks }
        ensures { result ≡ (task_at (data_of self.now).program.tasks t).outputs }
    {
        self.parts().program.tasks[t].outputs
    }
}

// ---- its faults

impl Mission {
    /// Whether a unit works in frame f.
    pub fn works(&self, u: UnitId, f: u32) -> bool
        ensures { result ≡ (flown_of self.now).works u f }
    {
        self.parts().script.works(u, f)
    }

    /// What a unit says to another in the slot of a number, in frame f, in place of its own word, where it says something else.
    pub fn override_of(&self, u: UnitId, f: u32, i: usize, to: UnitId) -> Option<Option<Word>>
        requires { i < (flown_of self.now).slots }
        ensures { result ≡ (flown_of self.now).override u f ((flown_of self.now).kind i) to }
    {
        // A unit that works says its own words, so only a faulty one's slot is looked up. Most words are said by units that work.
        working_units_say_their_words();
        if self.works(u, f) {
            return None;
        }
        self.parts().script.override_of(u, f, self.kind(i), to)
    }
}

// ---- its clocks, in whole ticks

impl Mission {
    /// How far from 0 a reading counts: the skew and the reading error.
    pub fn reading_limit(&self) -> i32
        ensures { result ≡ (flown_of self.now).skew +ℤ (flown_of self.now).error }
    {
        let clock = &self.parts().clock;
        clock.skew + clock.error
    }

    /// The offset of a unit's clock as the flight begins.
    pub fn offset(&self, u: UnitId) -> i64
        requires { has (flown_of self.now).units u ≡ true }
        ensures { result ≡ (flown_of self.now).offset u }
    {
        i64::from(ticks_at(&self.parts().clock.start, u))
    }

    /// The drift of a unit's clock in a frame.
    pub fn drift(&self, u: UnitId) -> i32
        requires { has (flown_of self.now).units u ≡ true }
        ensures { result ≡ (flown_of self.now).drift u }
    {
        ticks_at(&self.parts().clock.drift, u)
    }

    /// The error of a unit's reading of another's clock.
    pub fn error(&self, u: UnitId, p: UnitId) -> i32
        requires own { has (flown_of self.now).units u ≡ true }
        requires other { has (flown_of self.now).units p ≡ true }
        ensures error { result ≡ (flown_of self.now).errors u p }
        ensures small { IsWithin error_limit result (pos 0) }
    {
        ticks_at(&self.parts().clock.errors[usize::from(u.get())], p)
    }
}

/// The ticks of a unit, in a list by units.
fn ticks_at(ticks: &ArrayVec<i32, 8>, u: UnitId) -> i32
    requires { u < length ticks.now.items }
    ensures { result ≡ ticks_of ticks.now.items u }
{
    ticks[usize::from(u.get())]
}
