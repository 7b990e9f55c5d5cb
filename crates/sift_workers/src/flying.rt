//! All workers.
ghost use Rattle.std.specs.Prelude.{◌≡◌, ℕ, ◌<◌, ◌≤◌, All, IfOk, length, vec_len, slice_index_or};
ghost use Rattle.std.specs.List.{AllZip};
ghost use Rattle.sift_workers.specs.Hands.{InHands};

use crate::dealing::{collect, deal};
use crate::driving::{drive, drive_home};
use crate::pilot::{Bell, Pilot};
use sift_base::NoMemory;
use std::alloc::{AllocError, Global};
use std::sync::Wait;
use std::sync::atomic::AtomicBool;
use std::thread::{self, Threads};

/// How many threads run so many workers: as many as there are processors, but two at least, or as many as there are
/// workers, if these are fewer. Where the processors can't be counted, it is two.
fn count_threads<H: Threads>(rt: &H, workers: u8) -> u8
    requires { 0 < workers }
    ensures some { 0 < result }
    ensures few { result ≤ workers }
    ensures two { 2 ≤ workers → 2 ≤ result }
{
    let processors = match thread::available_parallelism(rt) {
        Ok(count) => count.get(),
        Err(_) => 2,
    };
    match u8::try_from(processors) {
        Ok(count) => count.max(2).min(workers),
        Err(_) => workers,
    }
}

/// Each hand's flight, in a thread of its own where one can be had. Where one can't, its hand has this thread, before
/// those behind it begin; so the threads that wait for these have all of them stop.
fn drive_all<P: Pilot + Send, B: Bell + Sync, H: Threads + Wait + Sync>(
    rt: &H,
    hands: Vec<Vec<P>>,
    bell: &B,
) -> Result<Vec<Vec<P>>, AllocError>
    requires { All (λ hand. All P.drives hand.items) hands.items }
    ensures count { IfOk result (λ back. vec_len back ≡ vec_len hands) }
    ensures each { IfOk result (λ back. InHands (λ x y. P.comes x y × P.drives y) hands.items back.items) }
{
    let stop = AtomicBool::new(false);
    thread::map_vec(
        rt,
        hands,
        &|hand: Vec<P>| -> Vec<P>
            requires { All P.drives hand.items }
            ensures { AllZip (λ x y. P.comes x y × P.drives y) hand.items result.items }
        { drive(rt, hand, bell, &stop) },
    )
}

/// Flies all pilots in threads: that at place u is driven by worker `u mod workers`, and worker i by thread `i mod
/// threads` of as many threads as serve so many workers here. They come back in their order. Want of memory gives them
/// up; it comes before any has flown, or after all have.
fn fly_far<P: Pilot + Send, B: Bell + Sync, H: Threads + Wait + Sync>(
    rt: &H,
    alloc: Global,
    pilots: Vec<P>,
    workers: u8,
    bell: &B,
) -> Result<Vec<P>, NoMemory>
    requires some { 0 < workers }
    requires drives { All P.drives pilots.items }
    ensures { IfOk result (λ flown. AllZip (λ x y. P.comes x y × P.drives y) pilots.items flown.items) }
{
    let count = pilots.len();
    let flown = Vec::with_capacity(alloc, count)?;
    let threads = count_threads(rt, workers);
    let hands = deal(alloc, pilots, workers, threads)?;
    let back = drive_all(rt, hands, bell)?;
    Ok(collect(back, flown, count, workers, threads))
}

/// Flies all pilots home, by so many workers. Those that the threads leave under way, since one of them couldn't be
/// started, this thread drives by itself. They come back in their order.
pub fn fly_all<P: Pilot + Send, B: Bell + Sync, H: Threads + Wait + Sync>(
    rt: &H,
    alloc: Global,
    pilots: Vec<P>,
    workers: u8,
    bell: &B,
) -> Result<Vec<P>, NoMemory>
    requires some { 0 < workers }
    requires drives { All P.drives pilots.items }
    ensures { IfOk result (λ home. AllZip (λ x y. P.comes x y × P.is_home y) pilots.items home.items) }
{
    let flown = fly_far(rt, alloc, pilots, workers, bell)?;
    Ok(drive_home(rt, flown, bell))
}
