//! The bell of an ether: who wakes threads that sleep while they wait for a unit.

use sift_base::UnitId;
use sift_ether::Ether;
use sift_workers::{Bell, Probe};
use std::sync::Wait;
use std::sync::atomic::{AtomicU64, Ordering};
use std::time::Duration;

/// How many milliseconds a thread sleeps at most, if nobody wakes it.
const LONGEST: u64 = 1;

/// The bell of an ether, which rings at each entry of a unit for those who sleep on its number, and hands the entry on
/// to a probe.
#[derive(Drop)]
pub(crate) struct EtherBell<'a, B> {
    ether: &'a Ether,
    probe: &'a B,
    /// How many threads sleep, or are about to.
    sleepers: AtomicU64,
}

impl<'a, B> EtherBell<'a, B> {
    pub(crate) fn of(ether: &'a Ether, probe: &'a B) -> EtherBell<'a, B> {
        EtherBell {
            ether,
            probe,
            sleepers: AtomicU64::new(0),
        }
    }
}

impl<B: Probe> Probe for EtherBell<'_, B> {
    fn at(&self, unit: UnitId, subframe: u64) {
        if self.sleepers.load(Ordering::SeqCst) > 0 {
            self.ether.wake(unit);
        }
        self.probe.at(unit, subframe);
    }
}

impl<B: Probe> Bell for EtherBell<'_, B> {
    /// It counts itself first. So a unit that enters after the sleeper has looked at its number once more, within the
    /// sleep, finds it counted and wakes it.
    fn sleep_while<H: Wait>(&self, rt: &H, unit: UnitId, seen: u64) {
        self.sleepers.fetch_add(1, Ordering::SeqCst);
        let most = Duration::from_millis(LONGEST);
        self.ether.sleep_while(rt, unit, seen, most);
        self.sleepers.fetch_sub(1, Ordering::SeqCst);
    }
}
