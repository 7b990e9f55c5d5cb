//! The shared words of all units as one table of atomic words, on which threads step at once. Each
//! unit has a token, by which it takes its seat there.
#![tactic(auto)]

mod ether;
mod land;
mod laws;
mod make;
mod port;
mod rule;
mod seat;
mod steps;

pub use ether::Ether;
pub use laws::{
    stories_have_one_order, the_rule_is_the_lawful_core, tokens_come_back, tokens_may_be_sent,
};
pub use rule::{Chronicle, Deed};
pub use seat::{EtherSeat, Token};
