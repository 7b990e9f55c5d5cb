//! Where bytes come from and where they go: sources, sinks, and whole reads and writes over them.
//!
//! A source or a sink counts its faults, and each failure has a fault of that count as its cause.
#![tactic(auto)]

mod flow;
mod heard;
mod memory;
mod standard;
mod whole;

pub use flow::{Got, Put, Sink, Source, rose_is_one_more_at_least};
pub use heard::Heard;
pub use memory::{BytesIn, BytesOut, SureIn, SureOut};
pub use standard::{StdIn, StdOut};
pub use whole::{ReadStop, WriteStop, read_all, write_all};
