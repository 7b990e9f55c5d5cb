//! Runs of a laboratory, round by round, clock by clock.

ghost use Rattle.std.specs.Prelude.{◌≡◌, ◌<◌, map, ℕ, ◌*◌, ◌≤◌, [], length, IfOk, OnErr, vec_len, vec_capacity};
ghost use Rattle.sift_base.specs.Units.{others};
ghost use Rattle.sift_clocklab.specs.Laboratory.{laboratory_of, clocks_of, working_of, run_of};
ghost use Rattle.sift_clocklab.specs.Rounds.{offset_after, reading_of, ticks_ahead, offsets_after};
ghost use Rattle.sift_clocklab.specs.Conditions.{BothWork, IsReady};
ghost use Rattle.sift_clocklab.specs.Skew.{AreKept, IsClockRound, farthest, IsKept};
ghost use Rattle.std.specs.List.{All};
ghost use Rattle.sift_clocklab.specs.Showing.{Runs, ShowsInTurn, pairs_of};
ghost use Rattle.sift_clocklab.specs.Pages.{IsBlank, IsStarting};

use crate::lab::{Face, Lab, LabRun};
use arrayvec::ArrayVec;
use sift_base::NoMemory;
use sift_clock::{advance, correction};
use std::alloc::Global;

// ---- one round of a working clock

/// What the working clock `own` reads of another one that works: how far it is ahead, misread.
fn ahead(lab: &Lab, offsets: &[i64], own: u8, other: u8) -> i32
    requires ready { IsReady (laboratory_of lab.now) }
    requires kept { AreKept (laboratory_of lab.now) farthest offsets.now }
    requires working { BothWork (laboratory_of lab.now) own other }
    ensures { result ≡ ticks_ahead (laboratory_of lab.now) offsets.now own other }
{
    let difference = offsets[usize::from(other)] - offsets[usize::from(own)];
    (difference + i64::from(lab.noise_between(own, other))) as i32
}

/// What the working clock `own` reads of another.
fn reading(lab: &Lab, offsets: &[i64], shown: &[Option<i32>], own: u8, other: u8) -> Option<i32>
    requires round { IsClockRound (laboratory_of lab.now) offsets.now shown.now }
    requires own { own < working_of (laboratory_of lab.now) }
    requires other { other < lab.now.n }
    ensures { result ≡ reading_of (laboratory_of lab.now) offsets.now shown.now own other }
{
    let working = lab.working();
    if other < working {
        Some(ahead(lab, offsets, own, other))
    } else {
        shown[usize::from(own) * usize::from(lab.m) + usize::from(other - working)]
    }
}

/// What a working clock reads of all others, in their order.
fn readings(lab: &Lab, offsets: &[i64], shown: &[Option<i32>], own: u8) -> ArrayVec<Option<i32>, 32>
    requires round { IsClockRound (laboratory_of lab.now) offsets.now shown.now }
    requires own { own < working_of (laboratory_of lab.now) }
    ensures { result.items ≡ map (reading_of (laboratory_of lab.now) offsets.now shown.now own)
        (others own (clocks_of (laboratory_of lab.now))) }
{
    let mut readings = ArrayVec::new();
    for other in 0..lab.n {
        if other != own {
            readings.push(reading(lab, offsets, shown, own, other));
        }
    }
    readings
}

/// The offset of a working clock after a round.
fn offset_after(lab: &Lab, offsets: &[i64], shown: &[Option<i32>], own: u8) -> i64
    requires round { IsClockRound (laboratory_of lab.now) offsets.now shown.now }
    requires own { own < working_of (laboratory_of lab.now) }
    ensures { result ≡ offset_after (laboratory_of lab.now) offsets.now shown.now own }
{
    let mean = correction(&readings(lab, offsets, shown, own), lab.limit(), lab.n);
    let at = usize::from(own);
    advance(offsets[at], mean, lab.drift[at])
}

// ---- runs

/// Runs a laboratory: the working clocks correct one another round by round, while the faulty ones show
/// what the face says. All memory is taken before the face is called.
pub fn run_lab<F: Face>(alloc: Global, lab: &Lab, face: &mut F) -> Result<LabRun, NoMemory>
    requires { IsReady (laboratory_of lab.now) }
    ensures ran { IfOk result (λ run. Runs F.allows (laboratory_of lab.now) face.old (run_of run) face.new) }
    ensures kept { IfOk result (λ run. IsKept (laboratory_of lab.now) (run_of run).offsets) }
    ensures untouched { OnErr result (face.new ≡ face.old) }
{
    // All memory is taken before the first round, so where it is wanting no clock has shown anything.
    let mut run = starting_run(alloc, lab)?;
    let mut pages = blank_pages(alloc, lab)?;
    while let Some(page) = pages.pop() {
        let shown = show_round(lab, face, run.rounds() as u32, page.shown);
        let offsets = offsets_after(lab, run.latest(), &shown, page.offsets);
        run.shown.push_reserved(shown);
        run.offsets.push_reserved(offsets);
    }
    Ok(run)
}

/// Lists for one round, empty, with room for what it comes to.
#[derive(Drop)]
struct Page {
    offsets: Vec<i64>,
    shown: Vec<Option<i32>>,
}

/// A run before its first round, with room for all rounds.
fn starting_run(alloc: Global, lab: &Lab) -> Result<LabRun, NoMemory>
    requires { IsReady (laboratory_of lab.now) }
    ensures { IfOk result (IsStarting (laboratory_of lab.now)) }
{
    let rounds = lab.rounds as usize;
    let mut offsets = Vec::with_capacity(alloc, rounds + 1)?;
    offsets.push_reserved(lab.start.clone()?);
    let shown = Vec::with_capacity(alloc, rounds)?;
    Ok(LabRun { offsets, shown })
}

/// A page for each round.
fn blank_pages(alloc: Global, lab: &Lab) -> Result<Vec<Page>, NoMemory>
    requires { IsReady (laboratory_of lab.now) }
    ensures each { IfOk result (λ pages. vec_len pages ≡ lab.now.rounds) }
    ensures blank { IfOk result (λ pages. All (IsBlank (laboratory_of lab.now)) pages.items) }
{
    let mut pages = Vec::new(alloc);
    for _ in 0..lab.rounds {
        pages.push(Page::blank(alloc, lab)?)?;
    }
    Ok(pages)
}

impl Page {
    /// A page with room for a round.
    fn blank(alloc: Global, lab: &Lab) -> Result<Page, NoMemory>
        requires { IsReady (laboratory_of lab.now) }
        ensures { IfOk result (IsBlank (laboratory_of lab.now)) }
    {
        let working = usize::from(lab.working());
        Ok(Page {
            offsets: Vec::with_capacity(alloc, working)?,
            shown: Vec::with_capacity(alloc, working * usize::from(lab.m))?,
        })
    }
}

/// What the faulty clocks show in a round, in a list that has room for it.
fn show_round<F: Face>(
    lab: &Lab,
    face: &mut F,
    round: u32,
    empty: Vec<Option<i32>>,
) -> Vec<Option<i32>>
    requires ready { IsReady (laboratory_of lab.now) }
    requires empty { empty.items ≡ [] }
    requires room { working_of (laboratory_of lab.now) * lab.now.m ≤ vec_capacity empty }
    ensures shown { ShowsInTurn F.allows round face.old (pairs_of (laboratory_of lab.now)) result.items face.new }
    ensures each { length result.items ≡ working_of (laboratory_of lab.now) * lab.now.m }
{
    let mut shown = empty;
    for to in 0..lab.working() {
        for clock in lab.working()..lab.n {
            shown.push_reserved(face.show(round, clock, to));
        }
    }
    shown
}

/// The offsets of all working clocks after a round, in a list that has room for them.
fn offsets_after(lab: &Lab, offsets: &[i64], shown: &[Option<i32>], empty: Vec<i64>) -> Vec<i64>
    requires round { IsClockRound (laboratory_of lab.now) offsets.now shown.now }
    requires empty { empty.items ≡ [] }
    requires room { working_of (laboratory_of lab.now) ≤ vec_capacity empty }
    ensures { result.items ≡ offsets_after (laboratory_of lab.now) offsets.now shown.now }
{
    // In a list of their own: each clock reads the offsets that stood before the round.
    let mut after = empty;
    for own in 0..lab.working() {
        after.push_reserved(offset_after(lab, offsets, shown, own));
    }
    after
}
