//! A table whose first rows stand.

ghost use Rattle.std.specs.Prelude.{◌≡◌, ℕ, ◌+◌, ◌<◌, ◌≤◌, ◌↔◌, [], length, take, min, IfOk, IfNone, IfSome, IsTrue, OnOk};
ghost use Rattle.std.specs.List.{All};
ghost use Rattle.sift_table.specs.Rules.{report_lead};
ghost use Rattle.sift_table.specs.Schedule.{hearing_delay, polled_in};
ghost use Rattle.sift_planner.specs.Drafts.{IsKept, drafted, rows_in, with_row};
ghost use Rattle.sift_planner.specs.Earliest.{IsInTime, IsLeastOpen, IsOpen, free_positions};
ghost use Rattle.sift_planner.specs.Plans.{IsPlanned, IsWithinLimits, executors_of, wanted};

use sift_base::NoMemory;
use sift_table::{AGREED_IN, HEARING_DELAY, REPORT_LEAD, Table};
use std::alloc::{AllocError, Global};

/// The most subframes of a frame.
const LONGEST_PERIOD: usize = 64;

/// A table whose first rows stand, and which positions they use.
#[derive(Drop)]
pub(crate) struct Draft {
    pub(crate) table: Table,
    /// How many positions execute each task.
    executors: u8,
    /// By subframe, how many positions are used in it. Each row takes the first that are free, so they are its first.
    used: [u8; LONGEST_PERIOD],
}

impl Draft {
    /// A table without rows, which sheds nothing.
    pub(crate) fn new(alloc: Global, size: u8, period: u8, copies: u8) -> Draft
        requires { IsWithinLimits (wanted size period copies) }
        ensures kept { IsKept result }
        ensures executors { result.executors ≡ executors_of (wanted size period copies) }
        ensures size { (drafted result).size ≡ size }
        ensures period { (drafted result).period ≡ period }
        ensures empty { rows_in result ≡ 0 }
        ensures none_shed { (drafted result).shed ≡ [] }
    {
        Draft {
            table: Table {
                size,
                period,
                run: Vec::new(alloc),
                poll: Vec::new(alloc),
                at: Vec::new(alloc),
                shed: Vec::new(alloc),
            },
            executors: copies.min(size),
            used: [0; LONGEST_PERIOD],
        }
    }

    /// The first subframe that is open for the next task, which reads these tasks of the same frame.
    pub(crate) fn first_open(&self, needs: &[u8]) -> Option<u8>
        requires kept { IsKept self.now }
        requires needs { All (λ needed. needed < rows_in self.now) needs.now }
        ensures least { IfSome result
            (IsLeastOpen (drafted self.now) self.now.executors needs.now (rows_in self.now)) }
        ensures shut { IfNone result ((subframe : ℕ) →
            ¬ IsOpen (drafted self.now) self.now.executors needs.now (rows_in self.now) subframe) }
    {
        // From this subframe on a task would be polled after the reports are made.
        let end = self.table.period - REPORT_LEAD - HEARING_DELAY + 1;
        for subframe in AGREED_IN..end {
            if self.is_open(needs, subframe) {
                return Some(subframe);
            }
        }
        None
    }

    /// Whether a subframe is open for the next task, which reads these tasks of the same frame.
    fn is_open(&self, needs: &[u8], subframe: u8) -> bool
        requires kept { IsKept self.now }
        requires needs { All (λ needed. needed < rows_in self.now) needs.now }
        requires in_time { IsInTime (drafted self.now) subframe }
        ensures { IsTrue result
            ↔ IsOpen (drafted self.now) self.now.executors needs.now (rows_in self.now) subframe }
    {
        self.has_room(subframe) && self.are_polled(needs, subframe)
    }

    /// Whether enough positions are free in a subframe.
    fn has_room(&self, subframe: u8) -> bool
        requires kept { IsKept self.now }
        requires by_reports { subframe + hearing_delay + report_lead ≤ (drafted self.now).period }
        ensures { IsTrue result ↔ (self.now.executors
            ≤ length (free_positions (drafted self.now) (rows_in self.now) subframe)) }
    {
        self.used[usize::from(subframe)] + self.executors <= self.table.size
    }

    /// Whether these tasks have been polled by a subframe.
    fn are_polled(&self, needs: &[u8], subframe: u8) -> bool
        requires kept { IsKept self.now }
        requires needs { All (λ needed. needed < rows_in self.now) needs.now }
        ensures { IsTrue result ↔ All (λ needed. polled_in (drafted self.now) needed ≤ subframe) needs.now }
    {
        for &needed in needs {
            if self.table.poll[usize::from(needed)] > subframe {
                return false;
            }
        }
        true
    }

    /// Adds the row of a task that runs in this subframe.
    pub(crate) fn add_row(&mut self, alloc: Global, run: u8) -> Result<(), NoMemory>
        requires kept { IsKept self.old }
        requires by_reports { run + hearing_delay + report_lead ≤ (drafted self.old).period }
        requires room { self.old.executors ≤ length (free_positions (drafted self.old) (rows_in self.old) run) }
        ensures kept { OnOk result (IsKept self.new) }
        ensures executors { OnOk result (self.new.executors ≡ self.old.executors) }
        ensures row { OnOk result (drafted self.new ≡ with_row (drafted self.old) run (run + hearing_delay)
            (take self.old.executors (free_positions (drafted self.old) (rows_in self.old) run))) }
    {
        let positions = self.next_positions(alloc, run)?;
        self.table.run.push(run)?;
        self.table.poll.push(run + HEARING_DELAY)?;
        self.table.at.push(positions)?;
        self.used[usize::from(run)] += self.executors;
        Ok(())
    }

    /// The first free positions in a subframe, as many as execute a task.
    fn next_positions(&self, alloc: Global, subframe: u8) -> Result<Vec<u8>, AllocError>
        requires kept { IsKept self.now }
        requires by_reports { subframe + hearing_delay + report_lead ≤ (drafted self.now).period }
        requires room { self.now.executors
            ≤ length (free_positions (drafted self.now) (rows_in self.now) subframe) }
        ensures { IfOk result (λ positions. positions.items ≡ take self.now.executors
            (free_positions (drafted self.now) (rows_in self.now) subframe)) }
    {
        let first = self.used[usize::from(subframe)];
        (first..first + self.executors).collect(alloc)
    }
}
