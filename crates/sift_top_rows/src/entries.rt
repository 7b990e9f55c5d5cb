//! What a probe is told.

use crate::calling::{Failing, call};
use crate::stated::{STORM, silents};
use sift_base::UnitId;
use sift_threads::Probe;
use std::alloc::Global;
use std::process::Abort;
use std::sync::Wait;
use std::sync::atomic::Ordering::SeqCst;
use std::sync::atomic::{AtomicBool, AtomicU64};
use std::test::Fail;
use std::thread::Threads;

/// How many entries of each unit it was told, and whether one of them didn't come in its turn: a unit's first entry is
/// into subframe 1, and each other one into the subframe behind.
#[derive(Drop)]
struct Told {
    entries: [AtomicU64; 8],
    out_of_turn: AtomicBool,
}

impl Told {
    /// Nothing was told yet.
    fn nothing() -> Told {
        Told {
            entries: [
                AtomicU64::new(0),
                AtomicU64::new(0),
                AtomicU64::new(0),
                AtomicU64::new(0),
                AtomicU64::new(0),
                AtomicU64::new(0),
                AtomicU64::new(0),
                AtomicU64::new(0),
            ],
            out_of_turn: AtomicBool::new(false),
        }
    }
}

impl Probe for Told {
    fn at(&self, unit: UnitId, subframe: u64) {
        let before = self.entries[usize::from(unit.get())].fetch_add(1, SeqCst);
        if before.wrapping_add(1) != subframe {
            self.out_of_turn.store(true, SeqCst);
        }
    }
}

/// Flies five units by so many workers, of which unit 4 turns before anything else: the probe is told so many entries of
/// each unit, in their order.
fn expect_entries<H: Threads + Wait + Abort + Sync>(
    rt: &H,
    alloc: Global,
    workers: &str,
    want: [u64; 8],
) -> Result<(), Fail> {
    let told = Told::nothing();
    let rogues = silents(alloc)?;
    let words = ["run", "--workers", workers];
    let (status, _) = call(
        rt,
        alloc,
        &words,
        STORM.as_bytes(),
        Failing::NONE,
        rogues,
        &told,
    )?;
    assert_eq!(rt; status, 0);
    for (entries, want) in told.entries.iter().zip(want) {
        assert_eq!(rt; entries.load(SeqCst), want);
    }
    assert!(rt; !told.out_of_turn.load(SeqCst));
    Ok(())
}

/// Two frames have twelve subframes each, and who enters the twenty-fourth has landed.
#[test]
fn the_probe_is_told_each_entry_once(rt: HostRuntime) -> Result<(), Fail> {
    let each = [24, 24, 24, 24, 0, 0, 0, 0];
    expect_entries(&rt, rt.alloc(), "2", each)?;
    expect_entries(&rt, rt.alloc(), "8", each)?;
    // One worker tells nothing.
    expect_entries(&rt, rt.alloc(), "1", [0; 8])
}
