//! Interactive consistency: units tell one another their values, and relay what they heard, until all loyal units have one
//! vector of values, whatever up to two traitors say.
#![tactic(auto)]

mod exchanging;
mod lies;
mod reading;
mod vectors;

pub use exchanging::exchange;
pub use reading::{ByzPlan, Lie, read_byz};
pub use vectors::{
    Vectors, any_unit_is_agreed_on, byz_plans_are_accepted, loyal_unit_is_believed,
    loyal_values_are_kept, one_byz_plan, one_refusal, one_traitor_is_as_in_flights,
    premises_are_met, rows, stated_byz_plans_are_lawful, three_are_too_few, vectors_are_equal,
    vectors_hold_the_entries, vectors_text,
};
