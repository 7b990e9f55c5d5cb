//! Agreement on what one unit says: each unit takes what it heard, and what the others relay of it.
//!
//! With at most one faulty unit, all working units then take the same word.
#![tactic(auto)]

mod agreeing;

pub use agreeing::{agree, faulty_unit_is_agreed_on, relay_catches, working_unit_is_agreed_on};
