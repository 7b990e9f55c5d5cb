//! One unit, one frame: what the unit notes of the words that it heard, what its tasks make, and what
//! it says and accounts for by that.
#![tactic(auto)]

mod memory;
mod noted;
mod tidings;
mod word_file;

pub use memory::Memory;
