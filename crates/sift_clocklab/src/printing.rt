//! The text of a run.

ghost use Rattle.std.specs.Prelude.{◌≡◌, ◌<◌, ◌++◌, length, map, IfOk, OnOk, string_bytes};
ghost use Rattle.std.specs.List.{All, AllZip};
ghost use Rattle.sift_skew.specs.Figures.{IsHighest, IsSkew};
ghost use Rattle.sift_clocklab.specs.Laboratory.{laboratory_of, run_of};
ghost use Rattle.sift_clocklab.specs.Conditions.{IsReady};
ghost use Rattle.sift_clocklab.specs.Skew.{IsKept};
ghost use Rattle.sift_clocklab.specs.Text.{HasSkew, IsTextOf, last_line, round_line, round_lines};

use crate::lab::{Lab, LabRun};
use sift_base::NoMemory;
use sift_skew::skew;
use std::alloc::{AllocError, Global};

/// The text of a run: for each round, the start included, how far apart the working clocks were, and at
/// the end the largest of these skews beside the one that they were to keep.
pub fn lab_text(alloc: Global, lab: &Lab, run: &LabRun) -> Result<String, NoMemory>
    requires ready { IsReady (laboratory_of lab.now) }
    requires kept { IsKept (laboratory_of lab.now) (run_of run.now).offsets }
    ensures { IfOk result (λ text. IsTextOf (laboratory_of lab.now) (run_of run.now).offsets (string_bytes text)) }
{
    let skews = skews_of(alloc, &run.offsets)?;
    let mut text = String::new(alloc);
    push_rounds(&mut text, &skews)?;
    push_last(&mut text, lab, largest(&skews))?;
    Ok(text)
}

/// The skew of each of these lists of offsets.
fn skews_of(alloc: Global, rows: &[Vec<i64>]) -> Result<Vec<i64>, NoMemory>
    requires { All HasSkew (map (λ row. row.items) rows.now) }
    ensures { IfOk result (λ skews. AllZip IsSkew (map (λ row. row.items) rows.now) skews.items) }
{
    let mut skews = Vec::new(alloc);
    for row in rows {
        if let Some(apart) = skew(row) {
            skews.push(apart)?;
        }
    }
    Ok(skews)
}

/// The largest of some skews.
fn largest(skews: &[i64]) -> i64
    requires { 0 < length skews.now }
    ensures { IsHighest skews.now result }
{
    skews.iter().copied().max().unwrap_or(0)
}

/// Appends a line for each round.
fn push_rounds(text: &mut String, skews: &[i64]) -> Result<(), AllocError>
    ensures { OnOk result (string_bytes text.new ≡ string_bytes text.old ++ round_lines 0 skews.now) }
{
    for (round, apart) in skews.iter().enumerate() {
        push_round(text, round, *apart)?;
    }
    Ok(())
}

/// Appends the line of a round.
fn push_round(text: &mut String, round: usize, apart: i64) -> Result<(), AllocError>
    ensures { OnOk result (string_bytes text.new ≡ string_bytes text.old ++ round_line round apart) }
{
    writeln!(text, "round={round} skew={apart}")
}

/// Appends the last line.
fn push_last(text: &mut String, lab: &Lab, most: i64) -> Result<(), AllocError>
    ensures { OnOk result (string_bytes text.new
        ≡ string_bytes text.old ++ last_line lab.now.n lab.now.m most lab.now.skew) }
{
    let (n, m, bound) = (lab.n, lab.m, lab.skew);
    writeln!(text, "clocks n={n} m={m} most={most} bound={bound}")
}
