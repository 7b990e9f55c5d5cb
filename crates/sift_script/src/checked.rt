//! Scripts that were checked, and what holds of each.

ghost use Rattle.std.specs.Prelude.{◌≡◌, ◌<◌, length, IfOk, IfErr, IfSome, IfNone};
ghost use Rattle.sift_base.specs.Layout.{IsLayout};
ghost use Rattle.sift_base.specs.Requirement.{AreMet, IsFirstUnmet};
ghost use Rattle.sift_base.specs.Shapes.{shapes_of, AreShapes};
ghost use Rattle.sift_script.specs.Script.{script_for};
ghost use Rattle.sift_script.specs.Faults.{override_of, works, storm_of};
ghost use Rattle.sift_script.specs.Rules.{IsGood, IsFirstBroken, entry_rules};
ghost use Rattle.sift_script.specs.Parts.{script_of};
ghost use Rattle.sift_script.specs.Laws.{OneUnitIsSteady, FaultsAreForGood, WorkingUnitsSayTheirWords, WorkingUnitsHaveNotTurned, StormsComeInTheMission, OneBrokenRule, SlotsAreComparedWhole, WordsAreNumberedAlike, ScriptsAreAnswered};

use crate::rules;
use crate::script::{Parts, Plan, Script, StormEntry, first_words, items_of};
use arrayvec::ArrayVec;
use sift_base::{Layout, Shapes, Slot, UnitId, Word};
use std::marker::Model;

/// Why a script is refused: the number of the first rule that it breaks, and the first entry at which it does.
#[derive(Clone, Copy)]
pub struct Broken {
    /// 1 to 6.
    pub rule: u8,
    /// The number of the entry.
    pub entry: u16,
}

/// A script that meets all rules. A clause sees it as its faults, with the layout, the numbers of the tasks'
/// output words and the number of frames for which it was checked.
#[derive(Drop)]
pub struct GoodScript {
    parts: Parts,
    /// The numbers of the tasks' first output words, and of the word behind them all.
    first_words: ArrayVec<u16, 25>,
}

impl Model for GoodScript {
    ghost use Rattle.sift_script.specs.Script.{FaultScript};
    ghost use Rattle.sift_script.specs.Parts.{script_of, AreFirstWords};
    ghost use Rattle.sift_script.specs.Rules.{IsGood};

    ghost Value = { FaultScript };

    ghost view = { λ good. script_of good.parts };

    ghost invariant = { λ good. IsGood (script_of good.parts)
        × AreFirstWords good.parts.outputs.items good.first_words.items };
}

impl GoodScript {
    /// Whether a unit works in frame f.
    pub fn works(&self, u: UnitId, f: u32) -> bool
        ensures { result ≡ works self.now.faults u f }
    {
        !self.parts.is_faulty(u, f)
    }

    /// What a unit says to another in a slot of frame f in place of its own word, where it says something else.
    pub fn override_of(&self, u: UnitId, f: u32, slot: Slot, to: UnitId) -> Option<Option<Word>>
        ensures { result ≡ override_of self.now u f slot to }
    {
        let entry = self.parts.entry_of(u)?;
        if f < entry.from {
            return None;
        }
        let items = items_of(&entry.plan);
        self.parts
            .replacement(&self.first_words, items, f, slot, to)
    }

    /// The storm of a unit, where it has one.
    pub fn storm_of(&self, u: UnitId) -> Option<StormEntry>
        ensures { result ≡ storm_of self.now.faults u }
    {
        let entry = self.parts.entry_of(u)?;
        match entry.plan {
            Plan::Storm { number, strays } => Some(StormEntry {
                from: entry.from,
                number,
                strays,
            }),
            Plan::Say(_) => None,
        }
    }
}

/// Checks a script for a mission of this layout, with tasks of these shapes and so many frames. It takes no memory.
///
/// It is accepted exactly where it meets all rules. Else the first entry at which it breaks a rule is answered, with
/// the first rule that it breaks there, and the script is given up.
pub fn check(
    script: Script,
    layout: &Layout,
    shapes: &Shapes,
    frames: u32,
) -> Result<GoodScript, Broken>
    requires layout { IsLayout layout.now }
    requires shapes { AreShapes (shapes_of shapes.now) }
    ensures same { IfOk result (λ good.
        good ≡ script_for script layout.now (shapes_of shapes.now) frames) }
    ensures good { IfOk result IsGood }
    ensures broken { IfErr result (λ broken.
        let checked = script_for script layout.now (shapes_of shapes.now) frames in
        IsFirstBroken checked broken.rule broken.entry) }
{
    let parts = Parts::of(script, *layout, shapes, frames);
    for at in 0..parts.script.entries.len() {
        if let Some(rule) = broken_rule(&parts, at) {
            return Err(Broken {
                rule,
                entry: at as u16,
            });
        }
    }
    let first_words = first_words(&parts.outputs);
    Ok(GoodScript { parts, first_words })
}

/// The first rule that an entry breaks.
fn broken_rule(parts: &Parts, at: usize) -> Option<u8>
    requires { at < length (script_of parts.now).faults }
    ensures broken { IfSome result (IsFirstUnmet (entry_rules (script_of parts.now) at)) }
    ensures met { IfNone result (AreMet (entry_rules (script_of parts.now) at)) }
{
    if !rules::has_unit(parts, at) {
        return Some(1);
    }
    if !rules::has_new_unit(parts, at) {
        return Some(2);
    }
    if !rules::fails_in_mission(parts, at) {
        return Some(3);
    }
    if !rules::leaves_a_unit(parts, at) {
        return Some(4);
    }
    if !rules::has_places(parts, at) {
        return Some(5);
    }
    if !rules::has_receivers(parts, at) {
        return Some(6);
    }
    None
}

// ---- laws

/// A good script leaves a unit that never fails.
pub fn one_unit_is_steady()
    ensures { OneUnitIsSteady }
{}

/// A unit that has failed stays faulty.
pub fn faults_are_for_good()
    ensures { FaultsAreForGood }
{}

/// Nothing is replaced of what a working unit says.
pub fn working_units_say_their_words()
    ensures { WorkingUnitsSayTheirWords }
{}

/// Only a faulty unit turns stray.
pub fn working_units_have_not_turned()
    ensures { WorkingUnitsHaveNotTurned }
{}

/// A good script has no storm that comes after the mission's end.
pub fn storms_come_in_the_mission()
    ensures { StormsComeInTheMission }
{}

/// An item is about the one slot that it stands for.
pub fn slots_are_compared_whole()
    ensures { SlotsAreComparedWhole }
{}

/// The word that an item speaks of has the number that it has in a mission of these tasks.
pub fn words_are_numbered_alike()
    ensures { WordsAreNumberedAlike }
{}

/// A script is refused in at most one way, and never if it meets all rules.
pub fn one_broken_rule()
    ensures { OneBrokenRule }
{}

/// A script that doesn't meet all rules has a first broken one: no script is left without an answer.
pub fn scripts_are_answered()
    ensures { ScriptsAreAnswered }
{}
