//! When each slot of a mission is said and heard under a configuration, who runs what, and what comes next.

ghost use Rattle.std.specs.Prelude.{◌≡◌, ◌≢◌, ℕ, ◌+◌, ◌-◌, ◌<◌, ◌≤◌, length, true};
ghost use Rattle.sift_base.specs.Layout.{IsLayout, slot_count, slot_kind};
ghost use Rattle.sift_base.specs.Units.{has, holds};
ghost use Rattle.sift_mission.specs.Data.{IsConfigOf};
ghost use Rattle.sift_mission.specs.Fits.{Fits};
ghost use Rattle.sift_mission.specs.Parts.{data_of, flown_of};
ghost use Rattle.sift_mission.specs.Flown.{runs_in};
ghost use Rattle.sift_mission.specs.Stops.{part_of, spot, IsDueIn, IsNothingBetween};

use crate::mission::Mission;
use sift_base::{Layout, Slot, UnitId, UnitSet};
use sift_config::Config;

/// What a unit does in a part of a subframe.
#[derive(Clone, Copy)]
pub enum Part {
    /// It hears what was said to it.
    Hearing,
    /// It runs its tasks.
    Running,
    /// It says its words.
    Saying,
}

impl Part {
    /// The part after this one, up to the last.
    pub fn next(self) -> Part
        ensures { part_of self < 2 → part_of result ≡ part_of self + 1 }
    {
        match self {
            Part::Hearing => Part::Running,
            _ => Part::Saying,
        }
    }
}

impl Mission {
    /// How many frames are flown, 1 to 1,000.
    pub fn frames(&self) -> u32
        ensures { result ≡ (flown_of self.now).frames }
    {
        self.parts().frames
    }

    /// How many subframes a frame has, 12 to 64.
    pub fn period(&self) -> u32
        ensures { result ≡ (flown_of self.now).period }
    {
        u32::from(self.parts().period)
    }

    /// How many tasks there are.
    pub fn tasks(&self) -> usize
        ensures count { result ≡ (flown_of self.now).tasks }
        ensures few { result ≤ (flown_of self.now).slots }
    {
        self.parts().program.tasks.len()
    }

    /// How many sensors there are.
    pub fn sensors(&self) -> usize
        ensures { result ≡ (flown_of self.now).sensors }
    {
        usize::from(self.parts().layout.sensors)
    }

    /// How many output words there are.
    pub fn words(&self) -> usize
        ensures { result ≡ (flown_of self.now).words }
    {
        usize::from(self.parts().layout.words)
    }

    /// All units, which are the first configuration.
    pub fn everyone(&self) -> Config
        ensures { result ≡ (flown_of self.now).units }
    {
        Config::all(self.parts().units)
    }

    /// The slot of a number.
    pub fn kind(&self, i: usize) -> Slot
        requires { i < (flown_of self.now).slots }
        ensures { result ≡ (flown_of self.now).kind i }
    {
        slot_of(&self.parts().layout, i)
    }

    /// The subframe in which a task is run.
    pub fn run_in(&self, config: &Config, t: usize) -> u32
        requires config { IsConfigOf (flown_of self.now) config.now }
        requires task { t < (flown_of self.now).tasks }
        ensures { result ≡ (flown_of self.now).run_in config.now t }
    {
        self.timetable(config).run.time(t)
    }

    /// The subframe in which the slot of a number is said.
    pub fn due(&self, config: &Config, i: usize) -> u32
        requires config { IsConfigOf (flown_of self.now) config.now }
        requires slot { i < (flown_of self.now).slots }
        ensures { result ≡ (flown_of self.now).due config.now ((flown_of self.now).kind i) }
    {
        self.timetable(config).said.time(i)
    }

    /// The subframe in which the slot of a number is heard.
    pub fn heard_in(&self, config: &Config, i: usize) -> u32
        requires config { IsConfigOf (flown_of self.now) config.now }
        requires slot { i < (flown_of self.now).slots }
        ensures { result ≡ (flown_of self.now).heard_in config.now ((flown_of self.now).kind i) }
    {
        self.timetable(config).heard.time(i)
    }

    /// Whether a unit runs a task: it is at one of the task's positions of the configuration.
    pub fn runs(&self, config: &Config, t: usize, u: UnitId) -> bool
        requires config { IsConfigOf (flown_of self.now) config.now }
        requires task { t < (flown_of self.now).tasks }
        ensures position { result ≡ runs_in (data_of self.now) config.now t u }
        ensures member { result ≡ true → has config.now u ≡ true }
        ensures words { (w : ℕ) → w < (flown_of self.now).words → (flown_of self.now).task w ≡ t → (flown_of self.now).executes config.now w u ≡ result }
    {
        self.crew(config, t).has(u)
    }

    /// Whether a unit runs the task of a word.
    pub fn executes(&self, config: &Config, w: u8, u: UnitId) -> bool
        requires config { IsConfigOf (flown_of self.now) config.now }
        requires word { w < (flown_of self.now).words }
        ensures { result ≡ (flown_of self.now).executes config.now w u }
    {
        self.runs(config, self.task_of(w), u)
    }

    /// The units that put out a word: those that run its task.
    pub fn executors(&self, config: &Config, w: u8) -> UnitSet
        requires config { IsConfigOf (flown_of self.now) config.now }
        requires word { w < (flown_of self.now).words }
        ensures { (u : ℕ) → holds result u ≡ (flown_of self.now).executes config.now w u }
    {
        self.crew(config, self.task_of(w))
    }

    /// The next slot, from one on, of which there is something to do in this part of a subframe, and the count of the slots
    /// where there is none.
    pub fn next_due(&self, config: &Config, subframe: u32, part: Part, from: usize) -> usize
        requires fits { Fits (flown_of self.now) }
        requires config { IsConfigOf (flown_of self.now) config.now }
        requires from { from ≤ (flown_of self.now).slots }
        ensures after { from ≤ result }
        ensures within { result ≤ (flown_of self.now).slots }
        ensures found { result < (flown_of self.now).slots → IsDueIn (flown_of self.now) config.now subframe part result }
        ensures idle { IsNothingBetween (flown_of self.now) config.now (spot subframe (part_of part) from 0) (spot subframe (part_of part) result 0) }
    {
        match part {
            Part::Hearing => self.next_heard(config, subframe, from),
            Part::Running => self.next_task(config, subframe, from),
            Part::Saying => self.next_said(config, subframe, from),
        }
    }

    /// The next slot, from one on, that is heard in a subframe, and the count of the slots where there is none.
    pub fn next_heard(&self, config: &Config, subframe: u32, from: usize) -> usize
        requires config { IsConfigOf (flown_of self.now) config.now }
        requires from { from ≤ (flown_of self.now).slots }
        ensures after { from ≤ result }
        ensures within { result ≤ (flown_of self.now).slots }
        ensures passed { (i : ℕ) → from ≤ i → i < result → (flown_of self.now).heard_in config.now ((flown_of self.now).kind i) ≢ subframe }
        ensures found { result < (flown_of self.now).slots → (flown_of self.now).heard_in config.now ((flown_of self.now).kind result) ≡ subframe }
    {
        self.timetable(config).heard.next(subframe, from)
    }

    /// The next slot, from one on, that is said in a subframe, and the count of the slots where there is none.
    pub fn next_said(&self, config: &Config, subframe: u32, from: usize) -> usize
        requires config { IsConfigOf (flown_of self.now) config.now }
        requires from { from ≤ (flown_of self.now).slots }
        ensures after { from ≤ result }
        ensures within { result ≤ (flown_of self.now).slots }
        ensures passed { (i : ℕ) → from ≤ i → i < result → (flown_of self.now).due config.now ((flown_of self.now).kind i) ≢ subframe }
        ensures found { result < (flown_of self.now).slots → (flown_of self.now).due config.now ((flown_of self.now).kind result) ≡ subframe }
    {
        self.timetable(config).said.next(subframe, from)
    }

    /// The next task, from one on, that is run in a subframe, and the count of the tasks where there is none.
    pub fn next_run(&self, config: &Config, subframe: u32, from: usize) -> usize
        requires config { IsConfigOf (flown_of self.now) config.now }
        requires from { from ≤ (flown_of self.now).tasks }
        ensures after { from ≤ result }
        ensures within { result ≤ (flown_of self.now).tasks }
        ensures passed { (t : ℕ) → from ≤ t → t < result → (flown_of self.now).run_in config.now t ≢ subframe }
        ensures found { result < (flown_of self.now).tasks → (flown_of self.now).run_in config.now result ≡ subframe }
    {
        self.timetable(config).run.next(subframe, from)
    }

    /// The next task, from a number on, that is run in a subframe, and the count of the slots where there is none.
    fn next_task(&self, config: &Config, subframe: u32, from: usize) -> usize
        requires config { IsConfigOf (flown_of self.now) config.now }
        requires from { from ≤ (flown_of self.now).slots }
        ensures after { from ≤ result }
        ensures within { result ≤ (flown_of self.now).slots }
        ensures passed { (t : ℕ) → t < (flown_of self.now).tasks → from ≤ t → t < result → (flown_of self.now).run_in config.now t ≢ subframe }
        ensures found { result < (flown_of self.now).slots → (result < (flown_of self.now).tasks) × ((flown_of self.now).run_in config.now result ≡ subframe) }
    {
        // A board counts slots and tasks by one number, so it may ask from behind the last task.
        let tasks = self.tasks();
        if from < tasks {
            let next = self.next_run(config, subframe, from);
            if next < tasks {
                return next;
            }
        }
        self.slots()
    }
}

/// The slot of a number in a layout.
pub(crate) fn slot_of(layout: &Layout, i: usize) -> Slot
    requires layout { IsLayout layout.now }
    requires there { i < slot_count layout.now }
    ensures { result ≡ slot_kind layout.now i }
{
    let sensors = usize::from(layout.sensors);
    let first = 1 + 2 * sensors;
    let report = first + usize::from(layout.words);
    if i >= first && i < report {
        Slot::Out((i - first) as u8)
    } else if i == 0 {
        Slot::Clock
    } else if i < 1 + sensors {
        Slot::Sense((i - 1) as u8)
    } else if i < first {
        Slot::RelaySense((i - (1 + sensors)) as u8)
    } else if i == report {
        Slot::Report
    } else {
        Slot::RelayReport(UnitId::of((i - (report + 1)) as u8).unwrap())
    }
}
