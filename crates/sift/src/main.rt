//! `sift`: a simulator of SIFT, the fault-tolerant computer for aircraft control.
//!
//! It reads a mission, flies it, and reports what every unit did. The top call is `sift_run::sift`, whose contract says
//! what each exit status means; `sift_run::exit_code` ends the program with it, and `main` hands on the real words,
//! input and output, and the handle by which workers run in threads. The rogues are `Storm`s.
#![tactic(auto)]

use sift_alone::storms;
use sift_base::NoMemory;
use sift_io::{StdIn, StdOut};
use sift_run::exit_code;
use sift_threads::NoProbe;
use std::alloc::Global;
use std::env;
use std::io::ErrorKind;
use std::process::ExitCode;
use std::rt::Env;

/// Hands the real words, input and output to `exit_code`, whose contract says how the program ends.
fn main(rt: HostRuntime) -> ExitCode {
    let alloc = rt.alloc();
    let words = command_words(&rt);
    let mut source = StdIn::new(rt.stdin());
    let mut sink = StdOut::new(rt.stdout());
    let rogues = storms(alloc);
    exit_code(&rt, alloc, words, &mut source, &mut sink, rogues, &NoProbe)
}

/// The words after the program's name. Where one of them isn't UTF-8 there are none, and no words are no command line.
fn command_words<R: Env + AllocGlobal>(rt: &R) -> Result<Vec<String>, NoMemory> {
    let mut words = Vec::new(rt.alloc());
    match env::args(rt) {
        Ok(args) => {
            for word in args.skip(1) {
                words.push(word)?;
            }
        }
        Err(error) if error.kind() == ErrorKind::InvalidData => {}
        Err(_) => return Err(NoMemory),
    }
    Ok(words)
}
