//! A flight of seats over an ether that is made by hand, to the landing.

ghost use Rattle.std.specs.Prelude.{◌≡◌, ◌≤◌, IfOk};
ghost use Rattle.sift_base.specs.Units.{unit_limit};
ghost use Rattle.sift_buffer.specs.Journals.{IsJournalOf};

use crate::stated::{COUNT, silents, stated};
use sift_base::{Layout, UnitId, Word};
use sift_buffer::Journal;
use sift_ether::Ether;
use sift_mission::Mission;
use sift_threads::{NoProbe, fly_seats};
use std::alloc::Global;
use std::process::Abort;
use std::sync::Wait;
use std::test::Fail;
use std::thread::Threads;

/// The layout of the mission that counts: four units, no sensor, one word.
const LAYOUT: Layout = Layout {
    units: 4,
    sensors: 0,
    words: 1,
};

/// The number of the word's slot, after that of the clock.
const SLOT: usize = 1;

/// The word that is due in its one frame: 3 * 5 + 1.
const DUE: u16 = 16;

/// The mission that counts.
fn counting(alloc: Global) -> Result<Mission, Fail>
    ensures layout { IfOk result (λ mission. mission.layout ≡ LAYOUT) }
    ensures frames { IfOk result (λ mission. mission.frames ≡ 1) }
{
    let mission = stated(alloc, COUNT)?;
    let parts = mission.parts();
    if parts.layout != LAYOUT || parts.frames != 1 {
        return Err(Fail::new("another mission than the document's"));
    }
    Ok(mission)
}

/// The unit said its word to each other unit, and heard theirs.
fn expect_words(rt: &impl Abort, journal: &Journal, unit: u8)
    requires { IsJournalOf journal.now LAYOUT unit 1 }
{
    let due = Some(Word::of(DUE));
    for number in 0..LAYOUT.units {
        if number != unit {
            let other = UnitId::numbered(number);
            let said = journal.said(0, SLOT, other);
            let heard = journal.heard(0, SLOT, other);
            assert_eq!(rt; said, due);
            assert_eq!(rt; heard, due);
        }
    }
}

/// So many workers fly the units over an ether, which lands with their words.
fn expect_landing<H: Threads + Wait + Abort + Sync>(
    rt: &H,
    alloc: Global,
    mission: &Mission,
    workers: u8,
) -> Result<(), Fail>
    requires workers { (1 ≤ workers) × (workers ≤ unit_limit) }
    requires layout { mission.now.layout ≡ LAYOUT }
    requires frames { mission.now.frames ≡ 1 }
{
    let parts = mission.parts();
    let (ether, tokens) = Ether::make(alloc, parts.layout, parts.frames)?;
    let rogues = silents(alloc)?;
    let flown = fly_seats(
        rt, alloc, mission, &ether, tokens, workers, rogues, &NoProbe,
    )?;
    let journals = ether.land(alloc, flown.tokens)?;
    for unit in 0..LAYOUT.units {
        expect_words(rt, &journals[usize::from(unit)], unit);
    }
    Ok(())
}

#[test]
fn an_ether_lands_with_the_words_that_were_said(rt: HostRuntime) -> Result<(), Fail> {
    let mission = counting(rt.alloc())?;
    for workers in [1, 2, 8] {
        expect_landing(&rt, rt.alloc(), &mission, workers)?;
    }
    Ok(())
}
