//! Workers. They drive the pilots that were dealt to them, on as many threads as there are processors, and all come
//! back in their order. What a pilot flies, no worker knows.
#![tactic(auto)]

mod dealing;
mod driving;
mod flying;
mod pilot;

pub use flying::fly_all;
pub use pilot::{Bell, NoProbe, Pilot, Probe, Went};
