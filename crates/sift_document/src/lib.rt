//! What all documents have in common: values, tables and arrays of entries, and rules, each with its number and the places
//! at which it is broken.
//!
//! A document is a table of `toml`. A rule that is broken is told with the first place at which it is (`BrokenRule`).
#![tactic(auto)]

mod entries;
mod value;

pub use entries::{BrokenRule, broken, entries_between, tables_in};
pub use value::{
    digit_lists, digit_to, digits, entries_at, has_only_keys, integer_between, member_of,
    natural_at, number_at, numbers_to, optional_between, table_of, word_array, word_value,
};
