//! What units share: cells and progress numbers, what every order of loads and stores keeps of
//! them, and ports, by which a unit reaches them: among these the plain memory of all units.
#![tactic(auto)]

mod acts;
mod cell;
mod grid;
mod journal;
mod laws;
mod port;
mod rack;
mod rack_port;

pub use acts::Acts;
pub use cell::{pack, take};
pub use grid::Grid;
pub use journal::Journal;
pub use laws::{
    conditions_tell_cores_apart, events_keep_the_core_lawful, fresh_is_lawful, packing_is_taken,
};
pub use port::{Entering, Look, Port, find_behind};
pub use rack::Rack;
