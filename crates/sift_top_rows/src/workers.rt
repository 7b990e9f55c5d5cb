//! Two workers fly at once.

use crate::calling::{Failing, call};
use crate::stated::{COUNT, COUNT_REPORT, STORM, STORM_REPORT, silents};
use sift_base::UnitId;
use sift_threads::Probe;
use std::alloc::Global;
use std::process::Abort;
use std::sync::Wait;
use std::sync::atomic::AtomicBool;
use std::sync::atomic::Ordering::SeqCst;
use std::test::Fail;
use std::thread::Threads;

/// Holds the units 0 and 1 at their entry into one subframe, until both are there.
#[derive(Drop)]
struct Meeting {
    subframe: u64,
    first: AtomicBool,
    second: AtomicBool,
    missed: AtomicBool,
}

impl Meeting {
    /// How often a unit looks for the other.
    const LOOKS: u32 = 100_000_000;

    /// Neither is there.
    fn at_subframe(subframe: u64) -> Meeting {
        Meeting {
            subframe,
            first: AtomicBool::new(false),
            second: AtomicBool::new(false),
            missed: AtomicBool::new(false),
        }
    }

    /// A unit is there, and looks for the other.
    fn meet(&self, own: &AtomicBool, other: &AtomicBool) {
        own.store(true, SeqCst);
        for _ in 0..Meeting::LOOKS {
            if other.load(SeqCst) {
                return;
            }
        }
        self.missed.store(true, SeqCst);
    }
}

impl Probe for Meeting {
    fn at(&self, unit: UnitId, subframe: u64) {
        if subframe == self.subframe {
            match unit.get() {
                0 => self.meet(&self.first, &self.second),
                1 => self.meet(&self.second, &self.first),
                _ => {}
            }
        }
    }
}

/// Flies a mission by two workers: the units 0 and 1 meet at their entry into this subframe, and the report is the
/// mission's.
fn expect_meeting<H: Threads + Wait + Abort + Sync>(
    rt: &H,
    alloc: Global,
    (document, report): (&str, &str),
    subframe: u64,
) -> Result<(), Fail> {
    let meeting = Meeting::at_subframe(subframe);
    let rogues = silents(alloc)?;
    let words = ["run", "--workers", "2"];
    let (status, sink) = call(
        rt,
        alloc,
        &words,
        document.as_bytes(),
        Failing::NONE,
        rogues,
        &meeting,
    )?;
    assert_eq!(rt; status, 0);
    assert_eq!(rt; sink.bytes.as_slice(), report.as_bytes());
    assert!(rt; meeting.first.load(SeqCst));
    assert!(rt; meeting.second.load(SeqCst));
    assert!(rt; !meeting.missed.load(SeqCst));
    Ok(())
}

#[test]
fn two_workers_fly_at_once(rt: HostRuntime) -> Result<(), Fail> {
    expect_meeting(&rt, rt.alloc(), (COUNT, COUNT_REPORT), 1)
}

/// The last subframe of two frames of twelve. A worker that hands its units back early isn't there any more: then one
/// thread flies all of them.
#[test]
fn two_workers_fly_at_once_to_the_end(rt: HostRuntime) -> Result<(), Fail> {
    expect_meeting(&rt, rt.alloc(), (STORM, STORM_REPORT), 23)
}
