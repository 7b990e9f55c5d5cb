//! What one unit does in a frame, as equations: its account, the words that it says and hears, with which stamps and
//! when. Flights are stated over it, and a board guarantees it.
#![tactic(auto)]

mod account;

pub use account::Account;
