//! The commands of the program: the list of their rows, what they leave to be flown, and what holds of all of them. Who flies
//! their missions is any `Flier`.
#![tactic(auto)]

mod law;
mod list;
mod order;

pub use law::{
    commands_are_kept, commands_have_own_statuses, missions_are_answered, one_command,
    statuses_are_known, the_caught_are_written, the_headline_is_written,
};
pub use list::Command;
pub use order::Order;
