//! Rogues: who says what a unit stores once it has turned stray, and what of it is stored.
#![tactic(auto)]

mod rogue;
mod storm;

pub use rogue::{Act, Rogue, Shot, next_shot};
pub use storm::{Fixed, Silent, Storm, drawn_storms_are_the_draws, storms_add_up};
