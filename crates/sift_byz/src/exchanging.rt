//! The exchange: a chart of what was heard for each length of path, and of the results, from the longest paths on.

ghost use Rattle.std.specs.Prelude.{◌≡◌, ℕ, suc, ◌+◌, ◌*◌, ◌^◌, ◌<◌, ◌≤◌, length, map, IfOk, not, ◌∷◌};
ghost use Rattle.sift_base.specs.Units.{has};
ghost use Rattle.sift_vote.specs.Majority.{agreed_of};
ghost use Rattle.sift_byz.specs.Charts.{AreRelayed, HasRelays, HasResults, ShowsHeard, ShowsResults, heard_at, path_in, places_at, relay_at};
ghost use Rattle.sift_byz.specs.Plan.{IsInRange, all_units, entry, first_lie, lie_of, byz_plan_of, vector, vectors_of};
ghost use Rattle.sift_byz.specs.Relaying.{outside};

use crate::reading::{ByzPlan, Lie};
use crate::vectors::Vectors;
use arrayvec::ArrayVec;
use sift_agree::agree;
use sift_base::{NoMemory, Word};
use std::alloc::Global;

/// The vectors of all units. `m` rounds of relaying follow the one in which each unit tells its value.
///
/// A unit's result for a path of `m + 1` units is what it heard, and for a shorter one the agreed word of what it heard and
/// of its results for the path with one unit added: the algorithm OM(m) of Lamport, Shostak and Pease, "The Byzantine
/// Generals Problem", ACM Transactions on Programming Languages and Systems 4(3), 1982, run for each unit's value.
pub fn exchange(alloc: Global, plan: &ByzPlan) -> Result<Vectors, NoMemory>
    requires { IsInRange (byz_plan_of plan.now) }
    ensures vectors { IfOk result (λ vectors. vectors ≡ vectors_of (byz_plan_of plan.now)) }
    ensures units { IfOk result (λ vectors. length vectors ≡ plan.now.units) }
{
    let results = results_of(alloc, plan)?;
    let mut rows = Vec::with_capacity(alloc, usize::from(plan.units))?;
    for q in 0..plan.units {
        rows.push_reserved(vector_of(plan, &results, q));
    }
    Ok(Vectors { rows })
}

/// The chart of the results for the paths of one unit, from which vectors are made.
fn results_of(alloc: Global, plan: &ByzPlan) -> Result<Vec<Option<Word>>, NoMemory>
    requires { IsInRange (byz_plan_of plan.now) }
    ensures { IfOk result (λ chart. HasResults (byz_plan_of plan.now) chart.items) }
{
    let own = own_values(alloc, plan)?;
    let heard = hear(alloc, plan, 0, &own)?;
    agree_on(alloc, plan, 1, usize::from(plan.m), heard)
}

// ---- what is heard

/// Each unit's own value, as what it heard by no path.
fn own_values(alloc: Global, plan: &ByzPlan) -> Result<Vec<Option<Word>>, NoMemory>
    requires { IsInRange (byz_plan_of plan.now) }
    ensures { IfOk result (λ chart. ShowsHeard (byz_plan_of plan.now) 0 chart.items) }
{
    let mut chart = Vec::with_capacity(alloc, usize::from(plan.units))?;
    for unit in 0..usize::from(plan.units) {
        chart.push_reserved(Some(plan.values[unit]));
    }
    Ok(chart)
}

/// The chart of what was heard by the paths of one unit more.
fn hear(
    alloc: Global,
    plan: &ByzPlan,
    count: usize,
    before: &[Option<Word>],
) -> Result<Vec<Option<Word>>, NoMemory>
    requires range { IsInRange (byz_plan_of plan.now) }
    requires short { count < 3 }
    requires heard { ShowsHeard (byz_plan_of plan.now) count before.now }
    ensures { IfOk result (λ chart. ShowsHeard (byz_plan_of plan.now) (suc count) chart.items) }
{
    let places = before.len() * usize::from(plan.units);
    let mut chart = Vec::with_capacity(alloc, places)?;
    for place in 0..places {
        chart.push_reserved(heard_at(plan, count, before, place));
    }
    Ok(chart)
}

/// What a unit heard by a path: what a lie tells it, or else what the path's last unit heard before.
fn heard_at(plan: &ByzPlan, count: usize, before: &[Option<Word>], place: usize) -> Option<Word>
    requires range { IsInRange (byz_plan_of plan.now) }
    requires short { count < 3 }
    requires within { place < length before.now * plan.now.units }
    ensures { result ≡ heard_at (byz_plan_of plan.now) count before.now place }
{
    let units = usize::from(plan.units);
    // A chart's path has its last unit first, and that of a lie is in the order in which its units told it.
    let mut written = path_in(units, count + 1, place / units);
    written.reverse();
    first_lie(&plan.lies, &written, (place % units) as u8).unwrap_or(before[place / units])
}

/// What the first lie by a path tells a unit, if there is one.
fn first_lie(lies: &[Lie], written: &[u8], to: u8) -> Option<Option<Word>>
    ensures { result ≡ first_lie (map lie_of lies.now) written.now to }
{
    for lie in lies {
        if lie.path.as_slice() == written && lie.to.contains(&to) {
            return Some(lie.value);
        }
    }
    None
}

/// The path of so many units in a row of a chart, its last unit first.
fn path_in(units: usize, count: usize, row: usize) -> ArrayVec<u8, 3>
    requires some { 0 < units }
    requires few { units ≤ 10 }
    requires short { count ≤ 3 }
    ensures { result.items ≡ path_in units count row }
{
    let mut path = ArrayVec::new();
    let mut rest = row;
    for _digit in 0..count {
        path.push((rest % units) as u8);
        rest /= units;
    }
    path
}

// ---- what is agreed on

/// The chart of the results, with so many rounds of relaying behind the paths by which this was heard.
fn agree_on(
    alloc: Global,
    plan: &ByzPlan,
    count: usize,
    rounds: usize,
    heard: Vec<Option<Word>>,
) -> Result<Vec<Option<Word>>, NoMemory>
    requires range { IsInRange (byz_plan_of plan.now) }
    requires short { count + rounds ≤ 3 }
    requires heard { ShowsHeard (byz_plan_of plan.now) count heard.items }
    ensures { IfOk result (λ chart. ShowsResults (byz_plan_of plan.now) count rounds chart.items) }
{
    // What came by the longest paths nobody relays, so there is nothing to agree on.
    if rounds == 0 {
        return Ok(heard);
    }
    let relayed = hear(alloc, plan, count, &heard)?;
    let longer = agree_on(alloc, plan, count + 1, rounds - 1, relayed)?;
    fold(alloc, plan, count, &heard, &longer)
}

/// The chart of the results, from what was heard and the results for the paths of one unit more.
fn fold(
    alloc: Global,
    plan: &ByzPlan,
    count: usize,
    heard: &[Option<Word>],
    longer: &[Option<Word>],
) -> Result<Vec<Option<Word>>, NoMemory>
    requires range { IsInRange (byz_plan_of plan.now) }
    requires relayed { AreRelayed (byz_plan_of plan.now) count heard.now longer.now }
    ensures { IfOk result (λ chart. (rounds : ℕ) → ShowsResults (byz_plan_of plan.now) (suc count) rounds longer.now
        → ShowsResults (byz_plan_of plan.now) count (suc rounds) chart.items) }
{
    let mut chart = Vec::with_capacity(alloc, heard.len())?;
    for place in 0..heard.len() {
        chart.push_reserved(Some(agreed_at(plan, count, heard, longer, place)));
    }
    Ok(chart)
}

/// What a unit takes for a path: the agreed word of what it heard and of its results for the longer paths.
fn agreed_at(
    plan: &ByzPlan,
    count: usize,
    heard: &[Option<Word>],
    longer: &[Option<Word>],
    place: usize,
) -> Word
    requires range { IsInRange (byz_plan_of plan.now) }
    requires relayed { AreRelayed (byz_plan_of plan.now) count heard.now longer.now }
    requires within { place < length heard.now }
    ensures { result ≡ agreed_of (places_at (byz_plan_of plan.now) count heard.now longer.now place) }
{
    let units = usize::from(plan.units);
    let row = place / units;
    let path = path_in(units, count, row);
    let relays = relays(plan, &path, row, (place % units) as u8, longer);
    agree(heard[place], &relays)
}

/// A unit's results for a path with each unit added that is neither that unit nor in the path.
fn relays(
    plan: &ByzPlan,
    path: &[u8],
    row: usize,
    to: u8,
    longer: &[Option<Word>],
) -> ArrayVec<Option<Word>, 10>
    requires range { IsInRange (byz_plan_of plan.now) }
    requires relayed { HasRelays (byz_plan_of plan.now) longer.now row to }
    ensures { result.items ≡ map (relay_at (byz_plan_of plan.now) longer.now row to) (outside (all_units (byz_plan_of plan.now)) (to ∷ path.now)) }
{
    let units = usize::from(plan.units);
    let mut relays = ArrayVec::new();
    for r in 0..plan.units {
        if is_outside(r, to, path) {
            relays.push(longer[(row * units + usize::from(r)) * units + usize::from(to)]);
        }
    }
    relays
}

/// Whether a unit is neither another unit nor in the path.
fn is_outside(unit: u8, other: u8, path: &[u8]) -> bool
    ensures { result ≡ not (has (other ∷ path.now) unit) }
{
    unit != other && !path.contains(&unit)
}

// ---- vectors

/// The vector of a unit.
fn vector_of(plan: &ByzPlan, results: &[Option<Word>], q: u8) -> ArrayVec<Word, 10>
    requires results { HasResults (byz_plan_of plan.now) results.now }
    requires unit { q < plan.now.units }
    ensures { result.items ≡ vector (byz_plan_of plan.now) q }
{
    let mut row = ArrayVec::new();
    for s in 0..plan.units {
        row.push(entry_of(plan, results, q, s));
    }
    row
}

/// The entry of a unit in the vector of another.
fn entry_of(plan: &ByzPlan, results: &[Option<Word>], q: u8, s: u8) -> Word
    requires results { HasResults (byz_plan_of plan.now) results.now }
    requires unit { q < plan.now.units }
    requires other { s < plan.now.units }
    ensures { result ≡ entry (byz_plan_of plan.now) q s }
{
    if s == q {
        return plan.values[usize::from(s)];
    }
    // Alone a result is agreed on as it is, and an absent one counts as 0.
    agree(
        results[usize::from(s) * usize::from(plan.units) + usize::from(q)],
        &[],
    )
}
