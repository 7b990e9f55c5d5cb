//! The program over memory: words and an input in, a status and a text out. One worker flies, who waits
//! for nobody, so that the call needs no handle.
#![tactic(auto)]

mod calling;
mod law;
mod room;
mod words;

pub use calling::{Answer, answer_in};
pub use law::calls_tell_what_the_program_writes;
pub use words::words_of;
