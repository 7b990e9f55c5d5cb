//! How a list is dealt to workers, and collected again.
ghost use Rattle.std.specs.Prelude.{◌≡◌, ℕ, ◌<◌, ◌≤◌, List, [], length, All, IfOk, vec_len, vec_capacity};
ghost use Rattle.sift_workers.specs.Hands.{thread_for, IsDealt};

use sift_base::NoMemory;
use std::alloc::Global;

/// So many empty hands.
fn empty_hands<P: Drop>(alloc: Global, count: u8) -> Result<Vec<Vec<P>>, NoMemory>
    ensures count { IfOk result (λ hands. vec_len hands ≡ count) }
    ensures empty { IfOk result (λ hands. All (λ hand. hand.items ≡ []) hands.items) }
{
    let mut hands = Vec::with_capacity(alloc, usize::from(count))?;
    for _ in 0..count {
        hands.push_reserved(Vec::new(alloc));
    }
    Ok(hands)
}

/// The thread that drives the pilot at a place: worker i has the places u with `u mod workers = i`, and thread t runs
/// the workers i with `i mod threads = t`.
fn thread_for(place: usize, workers: u8, threads: u8) -> usize
    requires { (0 < workers) × (0 < threads) }
    ensures thread { result ≡ thread_for workers threads place }
    ensures low { result < threads }
{
    place % usize::from(workers) % usize::from(threads)
}

/// Deals a list to so many hands, one for each thread: what stands at a place goes to the hand of its worker's thread.
pub(crate) fn deal<P: Drop>(
    alloc: Global,
    pilots: Vec<P>,
    workers: u8,
    threads: u8,
) -> Result<Vec<Vec<P>>, NoMemory>
    requires { (0 < workers) × (0 < threads) }
    ensures { IfOk result (λ hands. IsDealt workers threads 0 pilots.items hands.items) }
{
    let mut pilots = pilots;
    let mut hands = empty_hands(alloc, threads)?;
    while let Some(pilot) = pilots.pop() {
        let thread = thread_for(pilots.len(), workers, threads);
        hands[thread].push(pilot)?;
    }
    Ok(hands)
}

/// Collects what was dealt, in its order, in a list that has room for it. So it takes no memory.
pub(crate) fn collect<P: Drop>(
    hands: Vec<Vec<P>>,
    empty: Vec<P>,
    size: usize,
    workers: u8,
    threads: u8,
) -> Vec<P>
    requires some { (0 < workers) × (0 < threads) }
    requires empty { empty.items ≡ [] }
    requires room { size ≤ vec_capacity empty }
    requires dealt { (xs : List P) × (length xs ≡ size) × IsDealt workers threads 0 xs hands.items }
    ensures { (xs : List P) → length xs ≡ size → IsDealt workers threads 0 xs hands.items → result.items ≡ xs }
{
    let mut hands = hands;
    let mut all = empty;
    for place in 0..size {
        let thread = thread_for(place, workers, threads);
        match hands[thread].pop() {
            Some(pilot) => all.push_reserved(pilot),
            None => unreachable!(),
        }
    }
    all
}
