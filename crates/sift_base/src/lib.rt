//! The values that every layer shares: words of the computer's memory, units and sets of them, slots and their
//! numbers, the shapes of tasks, draws, names, want of memory, and why a call has no value.
//!
//! Word arithmetic has its meaning here and nowhere else.
#![tactic(auto)]

mod draw;
mod name;
mod slots;
mod stop;
mod units;
mod word;

pub use draw::Draw;
pub use name::{NAME_LIMIT, Name, is_name, is_name_byte};
pub use slots::{
    Layout, SENSOR_LIMIT, Shapes, Slot, TaskShape, limits_are_those_of_layouts,
    numbers_have_their_slots, slot_numbers_are_below, slot_numbers_differ,
};
pub use stop::{NoMemory, Stop};
pub use units::{UNIT_LIMIT, UnitId, UnitSet, is_ascending, members_are_the_set};
pub use word::Word;
