//! `sift_reread`: reads a report of either version back, line by line, and prints it again.
//!
//! It reads standard input. A report is written again, with status 0. Of any other text the number of the first line
//! that is none of a report is written, with status 1. Where there is neither to write, or it can't be written, the status is
//! 2. `answer::answer` has the contract, and `Ending::exit_code` that of the status; `main` hands on the real input and output.
#![tactic(auto)]

mod answer;
mod ending;
mod law;
mod reread;

use sift_io::{StdIn, StdOut};
use std::process::ExitCode;

/// Hands the real input and output to `answer::answer`, whose contract says how the program ends, and ends so.
fn main(rt: HostRuntime) -> ExitCode {
    let mut source = StdIn::new(rt.stdin());
    let mut sink = StdOut::new(rt.stdout());
    answer::answer(rt.alloc(), &mut source, &mut sink).exit_code()
}
