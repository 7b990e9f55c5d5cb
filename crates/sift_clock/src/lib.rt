//! Clocks that correct one another: readings of other clocks, and the correction of the own one.
//!
//! An offset is how far a clock is ahead, in whole ticks. Units tell each other its lowest 16 bits.
#![tactic(auto)]

mod correcting;

pub use correcting::{advance, clock_word, correction, correction_is_the_floor, reading, too_far};
