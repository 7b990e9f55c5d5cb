//! Programs of tasks, and the ideal machine, which runs a program with no copies, votes or faults.
//!
//! What the ideal machine computes is what a flight must compute.
#![tactic(auto)]

mod ideal;
mod program;

pub use ideal::{Ideal, ideal_frame_is_unique};
pub use program::{
    Program, TASK_LIMIT, WORD_LIMIT, limits_are_the_missions, shapes_of, sound_programs_have_shapes,
};
