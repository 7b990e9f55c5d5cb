//! Laboratories that are drawn from a number.

ghost use Rattle.std.specs.Prelude.{◌≡◌, ◌<◌, ◌^◌, ◌-◌, ◌*◌, ◌+◌, ◌↔◌, IfOk, IsErrOf, map};
ghost use Rattle.std.specs.List.{range_with_len};
ghost use Rattle.sift_base.specs.Draw.{after};
ghost use Rattle.sift_clocklab.specs.Laboratory.{laboratory_of};
ghost use Rattle.sift_clocklab.specs.Conditions.{AreInRange, IsAdmitted, IsReady, IsRefused};
ghost use Rattle.sift_clocklab.specs.Draws.{drawn_face, drawn_lab, drift_drawn, noises_drawn, row_place, start_drawn};

use crate::lab::{Drawn, Lab, admits, spread};
use sift_base::{Draw, NoMemory};
use std::alloc::Global;

/// Why there is no laboratory.
#[derive(Clone, Copy)]
pub enum LabStop {
    /// Too few of the clocks work, or the skew has too little room for errors and drifts.
    NotAdmitted,
    /// An allocation failed.
    NoMemory,
}

impl From<NoMemory> for LabStop {
    ghost use Rattle.std.specs.Prelude.{◌≡◌};
    ghost use Rattle.sift_clocklab.specs.declared.drawn_lab.LabStop.TheVariants as stop;

    ghost from_gives = { λ _ e. e ≡ stop.NoMemory };

    fn from(_: NoMemory) -> Self {
        LabStop::NoMemory
    }
}

/// The laboratory of a number, and the faulty clocks that are drawn for it: `n` clocks, `m` of them
/// faulty, that are to keep this skew for so many rounds, while they misread one another by at most
/// `error` and drift by at most `rate` in a round.
pub fn drawn(
    alloc: Global,
    n: u8,
    m: u8,
    skew: i32,
    error: i32,
    rate: i32,
    rounds: u32,
    number: u64,
) -> Result<(Lab, Drawn), LabStop>
    requires { AreInRange n m skew error rate rounds }
    ensures lab { IfOk result (λ it. laboratory_of it.0 ≡ drawn_lab n m skew error rate rounds number) }
    ensures face { IfOk result (λ it. it.1 ≡ drawn_face n m skew error number) }
    ensures ready { IfOk result (λ it. IsReady (laboratory_of it.0)) }
    ensures not_admitted { IsErrOf result LabStop.NotAdmitted ↔ IsRefused n m skew error rate }
{
    if !admits(n, m, skew, error, rate) {
        return Err(LabStop::NotAdmitted);
    }
    Ok(make_drawn(alloc, n, m, skew, error, rate, rounds, number)?)
}

/// What is drawn for a laboratory that is admitted.
fn make_drawn(
    alloc: Global,
    n: u8,
    m: u8,
    skew: i32,
    error: i32,
    rate: i32,
    rounds: u32,
    number: u64,
) -> Result<(Lab, Drawn), NoMemory>
    requires in_range { AreInRange n m skew error rate rounds }
    requires admitted { IsAdmitted n m skew error rate }
    ensures lab { IfOk result (λ it. laboratory_of it.0 ≡ drawn_lab n m skew error rate rounds number) }
    ensures face { IfOk result (λ it. it.1 ≡ drawn_face n m skew error number) }
{
    let working = n - m;
    let (apart, misread, change) = (
        skew.unsigned_abs(),
        error.unsigned_abs(),
        rate.unsigned_abs(),
    );
    let mut draw = Draw::of(number);
    let (start, drift) = drawn_clocks(alloc, &mut draw, working, apart, change)?;
    let noise = drawn_noise(alloc, &mut draw, working, misread)?;
    let limit = (apart + misread) as u16;
    let lab = Lab {
        n,
        m,
        skew,
        error,
        rate,
        rounds,
        start,
        drift,
        noise,
    };
    Ok((lab, Drawn { draw, limit }))
}

/// The start and the drift of each working clock.
fn drawn_clocks(
    alloc: Global,
    draw: &mut Draw,
    working: u8,
    skew: u32,
    rate: u32,
) -> Result<(Vec<i64>, Vec<i32>), NoMemory>
    requires skew { skew < 2 ^ 30 }
    requires rate { rate < 2 ^ 30 }
    ensures start { IfOk result (λ it. it.0.items ≡ map (start_drawn skew draw.old) (range_with_len 0 working)) }
    ensures drift { IfOk result (λ it. it.1.items ≡ map (drift_drawn rate draw.old) (range_with_len 0 working)) }
    ensures next { IfOk result (λ _. draw.new ≡ after draw.old (2 * working)) }
{
    let mut start = Vec::new(alloc);
    let mut drift = Vec::new(alloc);
    for _ in 0..working {
        start.push(draw.draw(u64::from(skew) + 1) as i64)?;
        drift.push(spread(draw, rate))?;
    }
    Ok((start, drift))
}

/// By how much each working clock misreads each.
fn drawn_noise(
    alloc: Global,
    draw: &mut Draw,
    working: u8,
    error: u32,
) -> Result<Vec<Vec<i32>>, NoMemory>
    requires { error < 2 ^ 30 }
    ensures noise { IfOk result (λ rows. map (λ row. row.items) rows.items
        ≡ map (λ q. noises_drawn error working (after draw.old (q * (working - 1))) q) (range_with_len 0 working)) }
    ensures next { IfOk result (λ _. draw.new ≡ after draw.old (working * (working - 1))) }
{
    let mut rows = Vec::new(alloc);
    for own in 0..working {
        rows.push(drawn_row(alloc, draw, working, error, own)?)?;
    }
    Ok(rows)
}

/// By how much one working clock misreads each: itself not at all.
fn drawn_row(
    alloc: Global,
    draw: &mut Draw,
    working: u8,
    error: u32,
    own: u8,
) -> Result<Vec<i32>, NoMemory>
    requires error { error < 2 ^ 30 }
    requires own { own < working }
    ensures row { IfOk result (λ row. row.items ≡ noises_drawn error working draw.old own) }
    ensures next { IfOk result (λ _. draw.new ≡ after draw.old (working - 1)) }
{
    let mut row = Vec::new(alloc);
    for other in 0..working {
        // A clock reads itself without a draw, so a row takes one draw less than there are clocks.
        let noise = if other == own { 0 } else { spread(draw, error) };
        row.push(noise)?;
    }
    Ok(row)
}
