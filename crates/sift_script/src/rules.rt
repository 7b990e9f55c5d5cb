//! The rules of an entry, one test a rule.

ghost use Rattle.std.specs.Prelude.{◌≡◌, ◌<◌, ◌≤◌, ◌↔◌, length, map, IfSome, IsTrue};
ghost use Rattle.std.specs.List.{All};
ghost use Rattle.sift_base.specs.Units.{has};
ghost use Rattle.sift_script.specs.Script.{change_of};
ghost use Rattle.sift_script.specs.Rules.{HasUnit, HasNewUnit, FailsInMission, LeavesAUnit, HasPlaceBy, IsThere, HasPlaces, AreReceivers, HasReceivers};
ghost use Rattle.sift_script.specs.Parts.{script_of};

use crate::script::{Entry, Item, Parts, SlotKind, items_of};
use sift_base::is_ascending;

/// Whether an entry's unit is one of the mission's.
pub fn has_unit(parts: &Parts, at: usize) -> bool
    requires { at < length (script_of parts.now).faults }
    ensures { IsTrue result ↔ HasUnit (script_of parts.now) at }
{
    parts.script.entries[at].unit < parts.layout.units
}

/// Whether one of some entries names a unit.
fn is_named(entries: &[Entry], unit: u8) -> bool
    ensures { result ≡ has (map (λ entry. entry.unit) entries.now) unit }
{
    entries.iter().any(|entry| entry.unit == unit)
}

/// Whether no earlier entry names an entry's unit.
pub fn has_new_unit(parts: &Parts, at: usize) -> bool
    requires { at < length (script_of parts.now).faults }
    ensures { IsTrue result ↔ HasNewUnit (script_of parts.now) at }
{
    let entries = &parts.script.entries;
    !is_named(&entries[..at], entries[at].unit)
}

/// Whether an entry's unit fails in a frame of the mission.
pub fn fails_in_mission(parts: &Parts, at: usize) -> bool
    requires { at < length (script_of parts.now).faults }
    ensures { IsTrue result ↔ FailsInMission (script_of parts.now) at }
{
    parts.script.entries[at].from < parts.frames
}

/// Whether some unit is named neither by an entry nor by an earlier one.
pub fn leaves_a_unit(parts: &Parts, at: usize) -> bool
    requires { at < length (script_of parts.now).faults }
    ensures { IsTrue result ↔ LeavesAUnit (script_of parts.now) at }
{
    let entries = &parts.script.entries[..at + 1];
    for unit in 0..parts.layout.units {
        if !is_named(entries, unit) {
            return true;
        }
    }
    false
}

/// Whether the sensor, task and word, or unit of an item is one of the mission's.
fn has_place(parts: &Parts, item: &Item) -> bool
    ensures { IsTrue result
        ↔ HasPlaceBy (script_of parts.now) item.now.kind item.now.index item.now.word }
{
    match item.kind {
        SlotKind::Clock | SlotKind::Report => true,
        SlotKind::Sense | SlotKind::Relay => item.index < parts.layout.sensors,
        SlotKind::Out => match parts.outputs.get(usize::from(item.index)) {
            Some(outputs) => item.word < *outputs,
            None => false,
        },
        SlotKind::RelayReport => item.index < parts.layout.units,
    }
}

/// Whether the frame of an item, if it names one, is one of the mission's in which the unit is faulty.
fn has_frame(frames: u32, from: u32, item: &Item) -> bool
    ensures { IsTrue result ↔ IfSome item.now.frame (λ f. (from ≤ f) × (f < frames)) }
{
    match item.frame {
        Some(frame) => from <= frame && frame < frames,
        None => true,
    }
}

/// Whether what an item is about is there.
fn is_there(parts: &Parts, from: u32, item: &Item) -> bool
    ensures { IsTrue result ↔ IsThere (script_of parts.now) from (change_of item.now) }
{
    has_place(parts, item) && has_frame(parts.frames, from, item)
}

/// Whether what each of some items is about is there.
fn are_there(parts: &Parts, from: u32, items: &[Item]) -> bool
    ensures { IsTrue result ↔ All (IsThere (script_of parts.now) from) (map change_of items.now) }
{
    for item in items {
        if !is_there(parts, from, item) {
            return false;
        }
    }
    true
}

/// Whether what each item of an entry is about is there.
pub fn has_places(parts: &Parts, at: usize) -> bool
    requires { at < length (script_of parts.now).faults }
    ensures { IsTrue result ↔ HasPlaces (script_of parts.now) at }
{
    let entry = &parts.script.entries[at];
    are_there(parts, entry.from, items_of(&entry.plan))
}

/// Whether these are receivers of what a unit says among so many.
fn are_receivers(units: u8, unit: u8, to: &[u8]) -> bool
    ensures { IsTrue result ↔ AreReceivers units unit to.now }
{
    !to.is_empty()
        && is_ascending(to)
        && to.iter().all(|receiver| *receiver < units)
        && !to.contains(&unit)
}

/// Whether each of some items is for receivers of what a unit says among so many.
fn have_receivers(units: u8, unit: u8, items: &[Item]) -> bool
    ensures { IsTrue result
        ↔ All (λ change. AreReceivers units unit change.to) (map change_of items.now) }
{
    for item in items {
        if !are_receivers(units, unit, &item.to) {
            return false;
        }
    }
    true
}

/// Whether each item of an entry is for receivers of what its unit says.
pub fn has_receivers(parts: &Parts, at: usize) -> bool
    requires { at < length (script_of parts.now).faults }
    ensures { IsTrue result ↔ HasReceivers (script_of parts.now) at }
{
    let entry = &parts.script.entries[at];
    have_receivers(parts.layout.units, entry.unit, items_of(&entry.plan))
}
