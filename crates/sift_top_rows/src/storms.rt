//! Rogues that count their calls, in flights of missions in which a unit turns stray, by the top call.

ghost use Rattle.std.specs.Prelude.{◌≡◌, IfOk, length, ⊤};
ghost use Rattle.sift_base.specs.Units.{unit_limit};

use crate::calling::{Failing, call};
use crate::stated::{STORM, STORM_REPORT, STRAY};
use sift_base::NoMemory;
use sift_io::BytesOut;
use sift_rogue::{Act, Rogue};
use sift_threads::NoProbe;
use std::alloc::Global;
use std::process::Abort;
use std::sync::Wait;
use std::sync::atomic::AtomicU64;
use std::sync::atomic::Ordering::SeqCst;
use std::test::Fail;
use std::thread::Threads;

/// The word 7 to unit 0 in the slot of the task's word, by the stamp that is due there, 5.
const SEVEN: Act = Act::Stray {
    to: 0,
    slot: 1,
    cell: 720_903,
};

/// How often a unit's rogue was called.
#[derive(Drop)]
struct Calls {
    start: AtomicU64,
    next: AtomicU64,
}

impl Calls {
    /// No call yet.
    fn none() -> Calls {
        Calls {
            start: AtomicU64::new(0),
            next: AtomicU64::new(0),
        }
    }

    /// The calls of `start`, and those of `next`.
    fn counts(&self) -> (u64, u64) {
        (self.start.load(SeqCst), self.next.load(SeqCst))
    }
}

/// A rogue that counts its calls, and answers always one act.
#[derive(Drop)]
struct Counting<'a> {
    calls: &'a Calls,
    act: Act,
}

impl Rogue for Counting<'_> {
    ghost allows = { λ before call after. ⊤ };

    fn start(&mut self, _number: u64) {
        self.calls.start.fetch_add(1, SeqCst);
    }

    fn next(&mut self) -> Act {
        self.calls.next.fetch_add(1, SeqCst);
        self.act
    }
}

/// A rogue for each unit that there may be, which counts by the calls at its unit's place.
fn rogues_by(alloc: Global, calls: &[Calls; 8], act: Act) -> Result<Vec<Counting<'_>>, NoMemory>
    ensures { IfOk result (λ rogues. length rogues.items ≡ unit_limit) }
{
    let [zero, one, two, three, four, five, six, seven] = calls;
    let rogues = [
        Counting { calls: zero, act },
        Counting { calls: one, act },
        Counting { calls: two, act },
        Counting { calls: three, act },
        Counting { calls: four, act },
        Counting { calls: five, act },
        Counting { calls: six, act },
        Counting { calls: seven, act },
    ];
    Ok(Vec::from_array(alloc, rogues)?)
}

/// No rogue was called yet.
fn no_calls() -> [Calls; 8] {
    [
        Calls::none(),
        Calls::none(),
        Calls::none(),
        Calls::none(),
        Calls::none(),
        Calls::none(),
        Calls::none(),
        Calls::none(),
    ]
}

/// The rogue of the stray unit was started once and asked as often as its storm has strays, and no other was called.
fn expect_one_storm(rt: &impl Abort, calls: &[Calls; 8], stray: usize, strays: u64) {
    for (unit, of_unit) in calls.iter().enumerate() {
        let want = if unit == stray { (1, strays) } else { (0, 0) };
        assert_eq!(rt; of_unit.counts(), want);
    }
}

/// The report of a mission, by the top call with so many workers and rogues that answer always this act.
fn report_of<H: Threads + Wait + Sync>(
    rt: &H,
    alloc: Global,
    (document, workers): (&str, &str),
    calls: &[Calls; 8],
    act: Act,
) -> Result<(u8, BytesOut), NoMemory> {
    let rogues = rogues_by(alloc, calls, act)?;
    let words = ["run", "--workers", workers];
    call(
        rt,
        alloc,
        &words,
        document.as_bytes(),
        Failing::NONE,
        rogues,
        &NoProbe,
    )
}

#[test]
fn only_the_rogue_of_the_storm_is_called(rt: HostRuntime) -> Result<(), Fail> {
    for workers in ["1", "2"] {
        let calls = no_calls();
        let (status, sink) = report_of(&rt, rt.alloc(), (STORM, workers), &calls, SEVEN)?;
        assert_eq!(rt; status, 0);
        assert_eq!(rt; sink.bytes.as_slice(), STORM_REPORT.as_bytes());
        expect_one_storm(&rt, &calls, 4, 1);
    }
    Ok(())
}

#[test]
fn a_rogue_is_asked_as_often_as_its_storm_has_strays(rt: HostRuntime) -> Result<(), Fail> {
    for workers in ["1", "2"] {
        let calls = no_calls();
        let (status, _) = report_of(&rt, rt.alloc(), (STRAY, workers), &calls, Act::Rest)?;
        assert_eq!(rt; status, 0);
        expect_one_storm(&rt, &calls, 5, 100_000);
    }
    Ok(())
}
