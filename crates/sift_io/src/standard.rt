//! The readers and writers of std as sources and sinks; the real input and output are one of each.
//!
//! All is proved for every reader and writer, by std's contracts of them. Of the handles of the real input and output
//! std tells no bytes, so that they hand on those of the system is trusted.

ghost use Rattle.std.specs.Prelude.{◌≡◌, ◌≢◌, ◌<◌, ◌≤◌, length, unwrap_or};
ghost use Rattle.sift_io.specs.Flow.{Rose};
ghost use Rattle.sift_io.specs.Heard.{IsEnough, IsToldBy};
ghost use Rattle.sift_io.specs.Reading.{FitsRoom, GivesNext, ends_after_read, faults_after_read};
ghost use Rattle.sift_io.specs.Writing.{AddsFront, FitsPiece, TakesNothing, faults_after_write};

use crate::heard::{read_once, write_once};
use crate::{Got, Heard, Put, Sink, Source};
use std::io::{Read, Stdin, Stdout, Write};

/// The standard input, or another reader of std. It tells the bytes that the reader tells: of the standard input none.
#[derive(Drop)]
pub struct StdIn<R = Stdin> {
    /// What is read.
    pub input: R,
    /// How often reading has failed. It stays at its last value.
    pub faults: u64,
    /// How often reading met the end. It stays at its last value.
    pub ends: u64,
    /// What the reader answered to the last read.
    pub heard: Heard<Got>,
}

impl<R> StdIn<R> {
    /// A reader before its first read. `main` has the standard input as `rt.stdin()`.
    pub fn new(input: R) -> StdIn<R>
        ensures input { result.input ≡ input }
        ensures fresh { (result.faults ≡ 0) × (result.ends ≡ 0) }
    {
        StdIn {
            input,
            faults: 0,
            ends: 0,
            heard: Heard::nothing(),
        }
    }
}

impl<R: Read> Source for StdIn<R> {
    ghost inflow = { λ source. record {
      left = R.remaining source.input;
      faults = source.faults;
      ends = source.ends;
    } };

    fn read(&mut self, buf: &mut [u8]) -> Got
        requires { 0 < length buf.old }
        ensures within { FitsRoom result (length buf.old) }
        ensures bytes { GivesNext result (R.remaining self.old.input) (R.remaining self.new.input) buf.new }
        ensures later { self.old.faults ≤ self.new.faults }
        ensures cause { result ≡ Got.Failed → Rose self.old.faults self.new.faults }
        ensures calm { result ≢ Got.Failed → self.new.faults ≡ self.old.faults }
        ensures ends { self.new.ends ≡ ends_after_read result self.old.ends }
        ensures counted { self.new.faults ≡ faults_after_read result self.old.faults }
        ensures told { IsToldBy Got.Failed self.new.heard result }
    {
        self.heard = read_some(&mut self.input, buf);
        let got = self.heard.told_or(Got::Failed);
        if got == Got::Failed {
            self.faults = self.faults.saturating_add(1);
        }
        self.ends = got.ends_after(self.ends);
        got
    }
}

/// Reads what is at hand, again where a signal interrupts it.
fn read_some<R: Read>(input: &mut R, buf: &mut [u8]) -> Heard<Got>
    requires { 0 < length buf.old }
    ensures enough { IsEnough result.told result.interruptions }
    ensures within { FitsRoom (unwrap_or result.told Got.Failed) (length buf.old) }
    ensures bytes { GivesNext (unwrap_or result.told Got.Failed) (R.remaining input.old) (R.remaining input.new) buf.new }
{
    let mut heard = Heard::nothing();
    while heard.is_open() {
        heard = read_once(heard, input, buf);
    }
    heard
}

/// The standard output, or another writer of std. It tells the bytes that the writer tells: of the standard output none.
#[derive(Drop)]
pub struct StdOut<W = Stdout> {
    /// What is written to.
    pub output: W,
    /// How often writing has failed. It stays at its last value.
    pub faults: u64,
    /// What the writer answered to the last write.
    pub heard: Heard<Put>,
}

impl<W> StdOut<W> {
    /// A writer before its first write. `main` has the standard output as `rt.stdout()`.
    pub fn new(output: W) -> StdOut<W>
        ensures output { result.output ≡ output }
        ensures fresh { result.faults ≡ 0 }
    {
        StdOut {
            output,
            faults: 0,
            heard: Heard::nothing(),
        }
    }
}

impl<W: Write> Sink for StdOut<W> {
    ghost outflow = { λ sink. record { written = W.contents sink.output; faults = sink.faults } };

    fn write(&mut self, bytes: &[u8]) -> Put
        ensures within { FitsPiece result (length bytes.now) }
        ensures bytes { AddsFront result
            (W.contents self.old.output) (W.contents self.new.output) bytes.now }
        ensures later { self.old.faults ≤ self.new.faults }
        ensures cause { TakesNothing result (length bytes.now)
            → Rose self.old.faults self.new.faults }
        ensures calm { ¬ TakesNothing result (length bytes.now)
            → self.new.faults ≡ self.old.faults }
        ensures counted { self.new.faults ≡ faults_after_write result self.old.faults }
        ensures told { IsToldBy Put.Failed self.new.heard result }
    {
        self.heard = write_some(&mut self.output, bytes);
        let put = self.heard.told_or(Put::Failed);
        if put == Put::Failed {
            self.faults = self.faults.saturating_add(1);
        }
        put
    }
}

/// Writes what the writer takes, again where a signal interrupts it.
fn write_some<W: Write>(output: &mut W, bytes: &[u8]) -> Heard<Put>
    ensures enough { IsEnough result.told result.interruptions }
    ensures within { FitsPiece (unwrap_or result.told Put.Failed) (length bytes.now) }
    ensures bytes { AddsFront (unwrap_or result.told Put.Failed) (W.contents output.old) (W.contents output.new) bytes.now }
    ensures some { 0 < length bytes.now → unwrap_or result.told Put.Failed ≢ Put.Took 0 }
{
    let mut heard = Heard::nothing();
    while heard.is_open() {
        heard = write_once(heard, output, bytes);
    }
    heard
}
