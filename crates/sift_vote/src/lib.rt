//! Votes over the words that several units put out for the same thing.
//!
//! A word that stands in more than half of all places is the result, whatever the other places hold.
#![tactic(auto)]

mod voting;

pub use voting::{
    agreed_word_is_found, agreement_is_unique, differing, majority, majority_is_found,
    majority_is_unique, unanimity_is_agreed,
};
