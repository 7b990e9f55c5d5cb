//! What every command shares: the reply that it owes to its input, and the call that reads, replies and writes.
//!
//! It has no word of missions, and doesn't change when a command comes.
#![tactic(auto)]

mod call;
mod reply;

pub use call::answer;
pub use reply::{
    Asked, Begun, Job, NO_MEMORY_STATUS, NoWork, Reply, Work, gives_one_owes_one,
    statuses_are_explained,
};
