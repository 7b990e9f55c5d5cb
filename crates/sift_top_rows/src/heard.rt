//! Strays that are heard, by whatever workers.

ghost use Rattle.std.specs.Prelude.{◌≡◌, IfOk, length, ⊤};
ghost use Rattle.sift_base.specs.Units.{unit_limit};

use crate::calling::{Failing, call};
use crate::stated::{HEARD, HEARD_REPORT, HEARD_VOTES, silents};
use sift_base::{NoMemory, UnitId};
use sift_rogue::{Act, Rogue};
use sift_threads::{NoProbe, Probe};
use std::alloc::Global;
use std::process::Abort;
use std::sync::Wait;
use std::sync::atomic::Ordering::SeqCst;
use std::sync::atomic::{AtomicBool, AtomicU64};
use std::test::Fail;
use std::thread::Threads;

/// The cells with the one stamp that is asked for in the slot of the task's word, 5, and the word that is due, and the
/// word 7.
const DUE: u64 = 720_912;

const SEVEN: u64 = 720_903;

/// By whom the mission is flown.
const FLIERS: [[&str; 2]; 9] = [
    ["--order", "0"],
    ["--order", "1"],
    ["--order", "2"],
    ["--order", "3"],
    ["--order", "4"],
    ["--order", "5"],
    ["--workers", "1"],
    ["--workers", "2"],
    ["--workers", "8"],
];

/// How often the one rogue that is called was asked for an act, and whether a unit waited for it in vain.
#[derive(Drop)]
struct Calls {
    next: AtomicU64,
    missed: AtomicBool,
}

impl Calls {
    /// How many calls there are: the strays to the four other units, and one when these are stored.
    const ALL: u64 = 5;

    /// How often a unit looks for the last call.
    const LOOKS: u32 = 100_000_000;

    /// No call yet.
    fn none() -> Calls {
        Calls {
            next: AtomicU64::new(0),
            missed: AtomicBool::new(false),
        }
    }

    /// Waits for the last call.
    fn wait(&self) {
        for _ in 0..Calls::LOOKS {
            if self.next.load(SeqCst) >= Calls::ALL {
                return;
            }
        }
        self.missed.store(true, SeqCst);
    }
}

/// Holds unit 3 at its first entry until all strays are stored. So no unit is past subframe 2 before, and a task's word is
/// heard later. Units with numbers side by side are never one thread's, so unit 4 isn't held.
impl Probe for Calls {
    fn at(&self, unit: UnitId, subframe: u64) {
        if (unit.get(), subframe) == (3, 1) {
            self.wait();
        }
    }
}

/// A rogue that tells the units 0 and 1 the word that is due, and the units 2 and 3 another.
#[derive(Drop)]
struct TwoFaced<'a> {
    calls: &'a Calls,
}

impl Rogue for TwoFaced<'_> {
    ghost allows = { λ before call after. ⊤ };

    fn start(&mut self, _number: u64) {}

    fn next(&mut self) -> Act {
        match self.calls.next.fetch_add(1, SeqCst) {
            0 => stray(0, DUE),
            1 => stray(1, DUE),
            2 => stray(2, SEVEN),
            3 => stray(3, SEVEN),
            _ => Act::Rest,
        }
    }
}

/// A stray in the slot of the task's word.
fn stray(to: u8, cell: u64) -> Act {
    Act::Stray { to, slot: 1, cell }
}

/// Eight such rogues, of which the one of the stray unit is called.
fn rogues_by(alloc: Global, calls: &Calls) -> Result<Vec<TwoFaced<'_>>, NoMemory>
    ensures { IfOk result (λ rogues. length rogues.items ≡ unit_limit) }
{
    let rogues = [
        TwoFaced { calls },
        TwoFaced { calls },
        TwoFaced { calls },
        TwoFaced { calls },
        TwoFaced { calls },
        TwoFaced { calls },
        TwoFaced { calls },
        TwoFaced { calls },
    ];
    Ok(Vec::from_array(alloc, rogues)?)
}

/// Whoever flies the mission, the command writes this text.
fn expect_text<H: Threads + Wait + Abort + Sync>(
    rt: &H,
    alloc: Global,
    command: &str,
    text: &str,
) -> Result<(), Fail> {
    for [option, value] in FLIERS {
        let calls = Calls::none();
        let rogues = rogues_by(alloc, &calls)?;
        let words = [command, option, value];
        let (status, sink) = call(
            rt,
            alloc,
            &words,
            HEARD.as_bytes(),
            Failing::NONE,
            rogues,
            &calls,
        )?;
        assert_eq!(rt; status, 0);
        assert_eq!(rt; sink.bytes.as_slice(), text.as_bytes());
        assert!(rt; !calls.missed.load(SeqCst));
    }
    Ok(())
}

#[test]
fn a_stray_is_heard(rt: HostRuntime) -> Result<(), Fail> {
    expect_text(&rt, rt.alloc(), "votes", HEARD_VOTES)
}

#[test]
fn who_hears_the_word_that_is_due_catches_no_result(rt: HostRuntime) -> Result<(), Fail> {
    expect_text(&rt, rt.alloc(), "run", HEARD_REPORT)
}

#[test]
fn a_report_of_strays_that_are_heard_is_judged_yes(rt: HostRuntime) -> Result<(), Fail> {
    let alloc = rt.alloc();
    let mut input = String::from_str(alloc, HEARD)?;
    input.push_str("--- report ---\n")?;
    input.push_str(HEARD_REPORT)?;
    let rogues = silents(alloc)?;
    let (status, sink) = call(
        &rt,
        alloc,
        &["judge"],
        input.as_bytes(),
        Failing::NONE,
        rogues,
        &NoProbe,
    )?;
    assert_eq!(rt; status, 0);
    assert_eq!(rt; sink.bytes.as_slice(), b"yes\n".as_slice());
    Ok(())
}
