//! A laboratory for clocks: n of them, m of which are faulty, correct one another round by round.
//!
//! The algorithm is interactive convergence (Lamport and Melliar-Smith 1985). Whatever the faulty clocks
//! show, the working ones stay together.
#![tactic(auto)]

mod drawn_lab;
mod lab;
mod printing;
mod running;

pub use drawn_lab::{LabStop, drawn};
pub use lab::{
    Drawn, Face, Lab, LabRun, admits, drawn_runs_are_kept, drawn_runs_are_of_the_draws,
    margin_leaves_room, most_is_within_the_bound, no_fault_leaves_room, offsets_are_kept,
    one_text_of_a_run,
};
pub use printing::lab_text;
pub use running::run_lab;
pub use sift_clock::correction as correct;
