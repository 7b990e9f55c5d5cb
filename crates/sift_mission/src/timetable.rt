//! When the slots of a mission are heard and said and its tasks run, by the table of a size.

ghost use Rattle.std.specs.Prelude.{◌≡◌, ◌-◌, ◌<◌, ◌≤◌, length, slice_index};
ghost use Rattle.sift_base.specs.Layout.{slot_count, slot_kind};
ghost use Rattle.sift_table.specs.Schedule.{run_in};
ghost use Rattle.sift_table.specs.Timing.{due_in, heard_in};
ghost use Rattle.sift_mission.specs.ByWord.{KnowsTasks};
ghost use Rattle.sift_mission.specs.Parts.{data_of, flown_of};
ghost use Rattle.sift_mission.specs.Data.{shapes_in, IsConfigOf};
ghost use Rattle.sift_mission.specs.Flown.{table_for};
ghost use Rattle.sift_mission.specs.PartsFit.{PartsFit};
ghost use Rattle.sift_mission.specs.Timetable.{HasRowsFor, IsAgendaOf, IsLinked, IsNext, IsTimetableOf, AreTimetables};

use crate::mission::{Mission, MissionParts, SLOT_LIMIT};
use crate::schedule::slot_of;
use sift_base::Slot;
use sift_config::Config;
use sift_table::{AGREED_IN, END_LEAD, GoodTable, HEARING_DELAY, RELAY_LEAD, REPORT_LEAD};

impl Mission {
    /// When slots are heard and said and tasks are run under a configuration.
    pub(crate) fn timetable(&self, config: &Config) -> &Timetable
        requires { IsConfigOf (flown_of self.now) config.now }
        ensures { IsTimetableOf (data_of self.now) (table_for (data_of self.now) config.now) result.now }
    {
        &self.times[self.crews_for(config).table]
    }
}

/// When slots are heard and said and tasks are run.
#[derive(Clone, Copy)]
pub(crate) struct Timetable {
    /// By slot, when it is heard.
    pub heard: Agenda,
    /// By slot, when it is said.
    pub said: Agenda,
    /// By task, when it is run.
    pub run: Agenda,
}

impl Timetable {
    /// A timetable of nothing.
    fn blank() -> Timetable {
        Timetable {
            heard: Agenda::of([0; SLOT_LIMIT], 0),
            said: Agenda::of([0; SLOT_LIMIT], 0),
            run: Agenda::of([0; SLOT_LIMIT], 0),
        }
    }

    /// The timetable of a table.
    pub(crate) fn of(parts: &MissionParts, tasks: &[u8], table: &GoodTable) -> Timetable
        requires knows { KnowsTasks (data_of parts.now) tasks.now }
        requires table { HasRowsFor (data_of parts.now) table.now }
        ensures { IsTimetableOf (data_of parts.now) table.now result }
    {
        Timetable {
            heard: heard_times(parts, tasks, table),
            said: said_times(parts, tasks, table),
            run: run_times(parts, table),
        }
    }
}

/// The timetables of a mission's tables, in their order.
pub(crate) fn timetables(parts: &MissionParts, tasks: &[u8]) -> [Timetable; 5]
    requires knows { KnowsTasks (data_of parts.now) tasks.now }
    ensures { AreTimetables (data_of parts.now) result }
{
    let mut times = [Timetable::blank(); 5];
    for (i, table) in parts.tables.iter().enumerate() {
        times[i] = Timetable::of(parts, tasks, table);
    }
    times
}

/// When slots are heard.
fn heard_times(parts: &MissionParts, tasks: &[u8], table: &GoodTable) -> Agenda
    requires knows { KnowsTasks (data_of parts.now) tasks.now }
    requires table { HasRowsFor (data_of parts.now) table.now }
    ensures { IsAgendaOf (slot_count parts.now.layout) (λ i. heard_in table.now (shapes_in (data_of parts.now)) (slot_kind parts.now.layout i)) result }
{
    let mut times = [0; SLOT_LIMIT];
    let count = parts.layout.count();
    for i in 0..count {
        times[i] = heard_by(parts, tasks, table, i);
    }
    Agenda::of(times, count)
}

/// When slots are said.
fn said_times(parts: &MissionParts, tasks: &[u8], table: &GoodTable) -> Agenda
    requires knows { KnowsTasks (data_of parts.now) tasks.now }
    requires table { HasRowsFor (data_of parts.now) table.now }
    ensures { IsAgendaOf (slot_count parts.now.layout) (λ i. due_in table.now (shapes_in (data_of parts.now)) (slot_kind parts.now.layout i)) result }
{
    let mut times = [0; SLOT_LIMIT];
    let count = parts.layout.count();
    for i in 0..count {
        times[i] = said_by(parts, tasks, table, i);
    }
    Agenda::of(times, count)
}

/// When tasks are run.
fn run_times(parts: &MissionParts, table: &GoodTable) -> Agenda
    requires fit { PartsFit (data_of parts.now) }
    requires table { HasRowsFor (data_of parts.now) table.now }
    ensures { IsAgendaOf (length (data_of parts.now).program.tasks) (run_in table.now) result }
{
    let mut times = [0; SLOT_LIMIT];
    let count = parts.program.tasks.len();
    for t in 0..count {
        times[t] = table.run_of(t);
    }
    Agenda::of(times, count)
}

/// The subframe in which the slot of a number is heard.
fn heard_by(parts: &MissionParts, tasks: &[u8], table: &GoodTable, i: usize) -> u8
    requires knows { KnowsTasks (data_of parts.now) tasks.now }
    requires table { HasRowsFor (data_of parts.now) table.now }
    requires slot { i < slot_count parts.now.layout }
    ensures { result ≡ heard_in table.now (shapes_in (data_of parts.now)) (slot_kind parts.now.layout i) }
{
    match slot_of(&parts.layout, i) {
        Slot::Clock | Slot::Sense(_) => HEARING_DELAY,
        Slot::RelaySense(_) => AGREED_IN,
        Slot::Out(w) => table.poll_of(usize::from(tasks[usize::from(w)])),
        Slot::Report => parts.period - RELAY_LEAD,
        Slot::RelayReport(_) => parts.period - END_LEAD,
    }
}

/// The subframe in which the slot of a number is said.
fn said_by(parts: &MissionParts, tasks: &[u8], table: &GoodTable, i: usize) -> u8
    requires knows { KnowsTasks (data_of parts.now) tasks.now }
    requires table { HasRowsFor (data_of parts.now) table.now }
    requires slot { i < slot_count parts.now.layout }
    ensures { result ≡ due_in table.now (shapes_in (data_of parts.now)) (slot_kind parts.now.layout i) }
{
    match slot_of(&parts.layout, i) {
        Slot::Clock | Slot::Sense(_) => 0,
        Slot::RelaySense(_) => HEARING_DELAY,
        Slot::Out(w) => table.run_of(usize::from(tasks[usize::from(w)])),
        Slot::Report => parts.period - REPORT_LEAD,
        Slot::RelayReport(_) => parts.period - RELAY_LEAD,
    }
}

/// A time for each of some numbers, and links from each number to the next that has its
/// time.
#[derive(Clone, Copy)]
pub(crate) struct Agenda {
    count: usize,
    times: [u8; SLOT_LIMIT],
    /// Of each number the next with its time, or the count.
    next: [u8; SLOT_LIMIT],
    /// Of each time the first number that has it, or the count.
    first: [u8; 256],
}

impl Agenda {
    /// The agenda of these times, of which only so many count.
    pub(crate) fn of(times: [u8; SLOT_LIMIT], count: usize) -> Agenda
        requires { count ≤ 90 }
        ensures linked { IsLinked result }
        ensures count { result.count ≡ count }
        ensures times { result.times ≡ times }
    {
        let mut next = [count as u8; SLOT_LIMIT];
        let mut first = [count as u8; 256];
        // From the last number to the first: `first` then has, of each time, the next number behind that has it.
        for i in (0..count).rev() {
            let time = usize::from(times[i]);
            next[i] = first[time];
            first[time] = i as u8;
        }
        Agenda {
            count,
            times,
            next,
            first,
        }
    }

    /// The time of a number.
    pub(crate) fn time(&self, i: usize) -> u32
        requires { i < 90 }
        ensures { result ≡ slice_index self.now.times i }
    {
        u32::from(self.times[i])
    }

    /// Of the numbers from one on the first that has a time, and the count of them where none has.
    pub(crate) fn next(&self, time: u32, from: usize) -> usize
        requires linked { IsLinked self.now }
        requires from { from ≤ self.now.count }
        ensures { IsNext self.now.count self.now.times time from result }
    {
        if from == 0 && time < 256 {
            return usize::from(self.first[time as usize]);
        }
        // A board asks from behind what it has just done, so the link from there leads on.
        if from > 0 && u32::from(self.times[from - 1]) == time {
            return usize::from(self.next[from - 1]);
        }
        self.search(time, from)
    }

    /// The same, by a look at each of them.
    fn search(&self, time: u32, from: usize) -> usize
        requires linked { IsLinked self.now }
        requires from { from ≤ self.now.count }
        ensures { IsNext self.now.count self.now.times time from result }
    {
        for i in from..self.count {
            if u32::from(self.times[i]) == time {
                return i;
            }
        }
        self.count
    }
}
