//! Slots, the places for words that units say to each other in a frame; the layout that numbers them; and the shapes of
//! tasks.

ghost use Rattle.std.specs.Prelude.{◌≡◌, ◌<◌};
ghost use Rattle.sift_base.specs.Units.{unit_limit};
ghost use Rattle.sift_base.specs.Layout.{sensor_limit, IsLayout, IsSlot, slot_count, slot_number, NumbersHaveTheirSlots, SlotNumbersAreBelow, SlotNumbersDiffer};

use crate::units::{UNIT_LIMIT, UnitId};

/// The most sensors of a mission.
pub const SENSOR_LIMIT: usize = 8;

/// The limits that the code holds are those of a mission.
pub fn limits_are_those_of_layouts()
    ensures units { UNIT_LIMIT ≡ unit_limit }
    ensures sensors { SENSOR_LIMIT ≡ sensor_limit }
{}

// ---- slots

/// What a word that a unit says is about.
#[derive(Clone, Copy)]
pub enum Slot {
    /// The sender's clock.
    Clock,
    /// The word of this sensor, as its reader has it.
    Sense(u8),
    /// The word of this sensor, as the sender heard it from the reader.
    RelaySense(u8),
    /// This output word. The words of all tasks are numbered in the order of the tasks.
    Out(u8),
    /// The units that the sender caught.
    Report,
    /// The report of this unit, as the sender heard it.
    RelayReport(UnitId),
}

// ---- the layout of a mission's slots

/// How many units, sensors and output words a mission has.
#[derive(Clone, Copy, PartialEq, Eq)]
pub struct Layout {
    /// 4 to 8.
    pub units: u8,
    /// At most 8.
    pub sensors: u8,
    /// Of all tasks together, at most 64.
    pub words: u8,
}

impl Layout {
    /// How many slots there are, at most 90.
    pub fn count(&self) -> usize
        requires { IsLayout self.now }
        ensures { result ≡ slot_count self.now }
    {
        2 + 2 * usize::from(self.sensors) + usize::from(self.words) + usize::from(self.units)
    }

    /// The number of a slot, below the count.
    pub fn number(&self, slot: Slot) -> usize
        requires layout { IsLayout self.now }
        requires there { IsSlot self.now slot }
        ensures number { result ≡ slot_number self.now slot }
        ensures below { result < slot_count self.now }
    {
        let sensors = usize::from(self.sensors);
        let words = usize::from(self.words);
        match slot {
            Slot::Clock => 0,
            Slot::Sense(x) => 1 + usize::from(x),
            Slot::RelaySense(x) => 1 + sensors + usize::from(x),
            Slot::Out(w) => 1 + 2 * sensors + usize::from(w),
            Slot::Report => 1 + 2 * sensors + words,
            Slot::RelayReport(u) => 2 + 2 * sensors + words + usize::from(u.get()),
        }
    }
}

/// The numbers of a layout's slots are below their count.
pub fn slot_numbers_are_below()
    ensures { SlotNumbersAreBelow }
{}

/// Different slots of a layout have different numbers.
pub fn slot_numbers_differ()
    ensures { SlotNumbersDiffer }
{}

/// Each number below the count has its slot.
pub fn numbers_have_their_slots()
    ensures { NumbersHaveTheirSlots }
{}

// ---- the shapes of tasks, as far as schedules and fault scripts need them

/// The shape of a task.
#[derive(Drop)]
pub struct TaskShape {
    /// How many output words it has, 1 to 8.
    pub outputs: u8,
    /// The tasks whose words of the same frame it reads, all of them earlier.
    pub needs: Vec<u8>,
}

/// The shapes of a mission's tasks, in their order.
#[derive(Drop)]
pub struct Shapes {
    /// How many sensors the mission has, at most 8.
    pub sensors: u8,
    /// At most 24, with at most 64 output words in all.
    pub tasks: Vec<TaskShape>,
}
