//! A region of 16-bit words, taken from memory once, and spans that are carved from it.
//!
//! Only `Pool::make` takes memory. Spans are carved one after another, and the last are released first.
#![tactic(auto)]

mod pool;

pub use pool::{Full, Mark, NoMemory, Pool, Span};
