//! The top call by whatever tells of flights, and what flies missions by one worker: no thread is
//! started and nobody is waited for, so that neither needs a handle.
#![tactic(auto)]

mod fleet;
mod flying;
mod rogues;
mod top;

pub use fleet::Fleet;
pub use flying::{tell_alone, tell_over_buses};
pub use rogues::{storms, storms_give_what_they_draw, strays_are_given};
pub use top::{sift_alone, sift_by};
