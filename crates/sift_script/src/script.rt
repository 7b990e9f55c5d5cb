//! Fault scripts as they are written, and what a script is for: the mission's layout, its tasks' output words and its
//! frames.

ghost use Rattle.std.specs.Prelude.{◌≡◌, map, ℕ, List, ◌≤◌, length, not, sum, take};
ghost use Rattle.sift_script.specs.Script.{change_of, failing_of, script_for, fault_of};
ghost use Rattle.sift_script.specs.Faults.{changes_in, slot_by, is_same_slot, fits, replacement_by, fault_of_unit, works};
ghost use Rattle.std.specs.Option.{option_map};
ghost use Rattle.sift_base.specs.Shapes.{shapes_of, AreShapes};
ghost use Rattle.sift_script.specs.Parts.{script_of, AreFirstWords};

use arrayvec::ArrayVec;
use sift_base::{Layout, Shapes, Slot, UnitId, Word};

// ---- scripts

/// Which units fail, and how: an entry for each of them.
#[derive(Drop)]
pub struct Script {
    /// In the order in which they are written.
    pub entries: Vec<Entry>,
}

/// The fault of a unit.
#[derive(Drop)]
pub struct Entry {
    /// The number of the unit.
    pub unit: u8,
    /// The first frame in which the unit is faulty. It stays so.
    pub from: u32,
    /// How it fails.
    pub plan: Plan,
}

/// How a unit fails.
#[derive(Drop)]
pub enum Plan {
    /// It goes on, and what it says is replaced where one of these items fits.
    Say(Vec<Item>),
    /// It turns stray: it says nothing more, and stores what it likes in its own cells.
    Storm {
        /// The number from which the strays are drawn.
        number: u64,
        /// How many strays there are.
        strays: u32,
    },
}

/// The storm of a unit, as its entry says it.
#[derive(Clone, Copy)]
pub struct StormEntry {
    /// The first frame in which the unit is stray.
    pub from: u32,
    /// The number from which the strays are drawn.
    pub number: u64,
    /// How many strays there are.
    pub strays: u32,
}

/// What a faulty unit says to some receivers in a slot, in place of its own word.
#[derive(Drop)]
pub struct Item {
    /// The kind of the slot.
    pub kind: SlotKind,
    /// The sensor, the task or the unit of the slot, and 0 where the kind has none.
    pub index: u8,
    /// The word of the task, and 0 where the kind has none.
    pub word: u8,
    /// The receivers, in ascending order.
    pub to: Vec<u8>,
    /// The frame, or none for every frame from the entry's first one on.
    pub frame: Option<u32>,
    /// The word that is said, or none for absence.
    pub value: Option<Word>,
}

/// The kind of a slot that an item speaks of.
#[derive(Clone, Copy)]
pub enum SlotKind {
    /// The unit's clock.
    Clock,
    /// A sensor's word, as its reader says it.
    Sense,
    /// A sensor's word, as it is relayed.
    Relay,
    /// An output word of a task.
    Out,
    /// The unit's report.
    Report,
    /// The report of a unit, as it is relayed.
    RelayReport,
}

/// The items of a plan: none of a storm.
pub(crate) fn items_of(plan: &Plan) -> &[Item]
    ensures { map change_of result.now ≡ changes_in (failing_of plan.now) }
{
    match plan {
        Plan::Say(items) => items,
        Plan::Storm { .. } => &[],
    }
}

// ---- what a script is for

/// A script with what it is for.
#[derive(Drop)]
pub struct Parts {
    /// The script.
    pub script: Script,
    /// How many units, sensors and words the mission has.
    pub layout: Layout,
    /// How many output words each task has.
    pub outputs: ArrayVec<u8, 24>,
    /// How many frames the mission has.
    pub frames: u32,
}

impl Parts {
    /// A script for a mission of this layout, with tasks of these shapes and so many frames.
    pub fn of(script: Script, layout: Layout, shapes: &Shapes, frames: u32) -> Parts
        requires { AreShapes (shapes_of shapes.now) }
        ensures { script_of result ≡ script_for script layout (shapes_of shapes.now) frames }
    {
        let mut outputs = ArrayVec::new();
        for task in &shapes.tasks {
            outputs.push(task.outputs);
        }
        Parts {
            script,
            layout,
            outputs,
            frames,
        }
    }

    /// Whether a unit is faulty in frame f.
    pub fn is_faulty(&self, u: UnitId, f: u32) -> bool
        ensures { not result ≡ works (script_of self.now).faults u f }
    {
        let unit = u.get();
        self.script
            .entries
            .iter()
            .any(|entry| entry.unit == unit && entry.from <= f)
    }

    /// The entry of a unit, where it has one.
    pub fn entry_of(&self, u: UnitId) -> Option<&Entry>
        ensures { option_map (λ entry. fault_of entry.now) result
            ≡ fault_of_unit (script_of self.now).faults u }
    {
        let unit = u.get();
        self.script.entries.iter().find(|entry| entry.unit == unit)
    }

    /// Whether an item is about a slot, where the tasks' words begin at these numbers.
    fn is_about(&self, firsts: &[u16], item: &Item, slot: Slot) -> bool
        requires { AreFirstWords (script_of self.now).outputs firsts.now }
        ensures { let about = slot_by (script_of self.now).outputs item.now.kind item.now.index item.now.word in
            result ≡ is_same_slot about slot }
    {
        match slot {
            Slot::Clock => item.kind == SlotKind::Clock,
            Slot::Sense(x) => item.kind == SlotKind::Sense && item.index == x,
            Slot::RelaySense(x) => item.kind == SlotKind::Relay && item.index == x,
            Slot::Out(w) => {
                item.kind == SlotKind::Out
                    && usize::from(first_word(firsts, item.index)) + usize::from(item.word)
                        == usize::from(w)
            }
            Slot::Report => item.kind == SlotKind::Report,
            Slot::RelayReport(u) => item.kind == SlotKind::RelayReport && item.index == u.get(),
        }
    }

    /// Whether an item is about what is said to a receiver in a slot of frame f.
    fn fits(&self, firsts: &[u16], item: &Item, f: u32, slot: Slot, to: UnitId) -> bool
        requires { AreFirstWords (script_of self.now).outputs firsts.now }
        ensures { result ≡ fits (script_of self.now).outputs f slot to (change_of item.now) }
    {
        self.is_about(firsts, item, slot)
            && item.to.contains(&to.get())
            && item.frame.is_none_or(|frame| frame == f)
    }

    /// What the first of these items that fits says to a receiver in a slot of frame f, if one fits.
    pub fn replacement(
        &self,
        firsts: &[u16],
        items: &[Item],
        f: u32,
        slot: Slot,
        to: UnitId,
    ) -> Option<Option<Word>>
        requires { AreFirstWords (script_of self.now).outputs firsts.now }
        ensures { let changes = map change_of items.now in
            result ≡ replacement_by (script_of self.now).outputs f slot to changes }
    {
        items
            .iter()
            .find(|item| self.fits(firsts, item, f, slot, to))
            .map(|item| item.value)
    }
}

/// The numbers of the tasks' first output words, where the tasks have so many each, and of the word behind them all.
pub(crate) fn first_words(counts: &[u8]) -> ArrayVec<u16, 25>
    requires { length counts.now ≤ 24 }
    ensures { AreFirstWords counts.now result.items }
{
    let mut firsts = ArrayVec::new();
    let mut first = 0;
    firsts.push(first);
    for count in counts {
        first += u16::from(*count);
        firsts.push(first);
    }
    firsts
}

/// The number of a task's first output word, and of one behind all where there is no such task.
fn first_word(firsts: &[u16], task: u8) -> u16
    requires { (counts : List ℕ) × AreFirstWords counts firsts.now }
    ensures { (counts : List ℕ) → AreFirstWords counts firsts.now → result ≡ sum (take task counts) }
{
    firsts[usize::from(task).min(firsts.len() - 1)]
}
