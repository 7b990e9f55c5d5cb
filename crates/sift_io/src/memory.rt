//! Sources and sinks in memory: those that fail at listed calls, and those that never fail.

ghost use Rattle.std.specs.Prelude.{◌≡◌, ◌≢◌, ◌+◌, ◌<◌, ◌≤◌, ◌↔◌, Some, drop, length, IsTrue, Contains, []};
ghost use Rattle.sift_io.specs.Reading.{FitsRoom, GivesMost, GivesNext, given_count};

use crate::{Got, Put, Sink, Source};
use std::alloc::Global;

// ---- what they share

/// Gives the bytes from a place on, at most `step` of them, at the front of the buffer.
pub fn give_next(bytes: &[u8], at: usize, step: usize, buf: &mut [u8]) -> Got
    requires place { at ≤ length bytes.now }
    requires moves { 1 ≤ step }
    requires room { 0 < length buf.old }
    ensures within { FitsRoom result (length buf.old) }
    ensures most { GivesMost result step (length buf.old) (drop at bytes.now) }
    ensures bytes { GivesNext result
        (Some (drop at bytes.now))
        (Some (drop (at + given_count result) bytes.now))
        buf.new }
    ensures sure { result ≢ Got.Failed }
{
    let next = &bytes[at..];
    let n = step.min(buf.len().min(next.len()));
    if n == 0 {
        return Got::End;
    }
    buf[..n].copy_from_slice(&next[..n]);
    Got::Taken(n)
}

/// Whether the list has the number of this call.
pub fn is_listed(fails: &[u64], call: u64) -> bool
    ensures { IsTrue result ↔ Contains fails.now call }
{
    fails.contains(&call)
}

// ---- a source that fails

/// A source in memory that gives little at a time and fails at the calls that it is told to.
/// Its step is at least 1, and its place within the bytes.
#[derive(Drop)]
pub struct BytesIn {
    /// All the bytes, those that were read already among them.
    pub bytes: Vec<u8>,
    /// How many of the bytes were read already.
    pub at: usize,
    /// The most bytes that one call gives.
    pub step: usize,
    /// How many calls there were. It stays at its last value.
    pub calls: u64,
    /// The numbers of the calls that fail. The first call has the number 1.
    pub fails: Vec<u64>,
    /// How many calls failed. It stays at its last value.
    pub faults: u64,
    /// How many calls met the end. It stays at its last value.
    pub ends: u64,
    pub ghost within: { at ≤ length bytes.items },
    pub ghost moves: { 1 ≤ step },
}

impl BytesIn {
    /// A source of these bytes that no call has read yet.
    pub fn new(bytes: Vec<u8>, step: usize, fails: Vec<u64>) -> BytesIn
        requires { 1 ≤ step }
        ensures bytes { result.bytes.items ≡ bytes.items }
        ensures script { (result.step ≡ step) × (result.fails.items ≡ fails.items) }
        ensures fresh { (result.at ≡ 0) × (result.calls ≡ 0) × (result.faults ≡ 0) × (result.ends ≡ 0) }
    {
        BytesIn {
            bytes,
            at: 0,
            step,
            calls: 0,
            fails,
            faults: 0,
            ends: 0,
        }
    }
}

impl Source for BytesIn {
    ghost use Rattle.std.specs.Prelude.{◌≢◌, ◌<◌, ◌↔◌};
    ghost use Rattle.sift_io.specs.BytesIn.{IsRead, ReadFailsNow, inflow_of};
    ghost use Rattle.sift_io.specs.Flow.{Rose};
    ghost use Rattle.sift_io.specs.Reading.{FitsRoom, GivesNext, ends_after_read};

    ghost inflow = { inflow_of };

    fn read(&mut self, buf: &mut [u8]) -> Got
        requires { 0 < length buf.old }
        ensures within { FitsRoom result (length buf.old) }
        ensures bytes { GivesNext result (inflow_of self.old).left (inflow_of self.new).left buf.new }
        ensures later { self.old.faults ≤ self.new.faults }
        ensures cause { result ≡ Got.Failed → Rose self.old.faults self.new.faults }
        ensures calm { result ≢ Got.Failed → self.new.faults ≡ self.old.faults }
        ensures ends { self.new.ends ≡ ends_after_read result self.old.ends }
        ensures listed { result ≡ Got.Failed ↔ ReadFailsNow self.new }
        ensures exact { IsRead result self.old self.new (length buf.old) }
    {
        self.calls = self.calls.saturating_add(1);
        if is_listed(&self.fails, self.calls) {
            self.faults = self.faults.saturating_add(1);
            return Got::Failed;
        }
        let got = give_next(&self.bytes, self.at, self.step, buf);
        self.at += got.count();
        self.ends = got.ends_after(self.ends);
        got
    }
}

// ---- a sink that fails

/// A sink in memory that takes little at a time and fails at the calls that it is told to.
/// Beside those it fails only for want of memory. Its step is at least 1.
#[derive(Drop)]
pub struct BytesOut {
    /// The bytes that were written.
    pub bytes: Vec<u8>,
    /// The most bytes that one call takes.
    pub step: usize,
    /// How many calls there were. It stays at its last value.
    pub calls: u64,
    /// The numbers of the calls that fail. The first call has the number 1.
    pub fails: Vec<u64>,
    /// How many calls failed, those for want of memory among them. It stays at its last value.
    pub faults: u64,
    pub ghost moves: { 1 ≤ step },
}

impl BytesOut {
    /// A sink that nothing was written to yet.
    pub fn new(alloc: Global, step: usize, fails: Vec<u64>) -> BytesOut
        requires { 1 ≤ step }
        ensures script { (result.step ≡ step) × (result.fails.items ≡ fails.items) }
        ensures fresh { (result.bytes.items ≡ []) × (result.calls ≡ 0) × (result.faults ≡ 0) }
    {
        BytesOut {
            bytes: Vec::new(alloc),
            step,
            calls: 0,
            fails,
            faults: 0,
        }
    }
}

impl Sink for BytesOut {
    ghost use Rattle.std.specs.Prelude.{◌⊎◌, ◌<◌, length, min};
    ghost use Rattle.sift_io.specs.BytesOut.{IsWrite, WriteFailsNow, outflow_of};
    ghost use Rattle.sift_io.specs.Flow.{Rose};
    ghost use Rattle.sift_io.specs.Writing.{AddsFront, FitsPiece, TakesNothing};

    ghost outflow = { outflow_of };

    fn write(&mut self, bytes: &[u8]) -> Put
        ensures within { FitsPiece result (length bytes.now) }
        ensures bytes { AddsFront result
            (outflow_of self.old).written (outflow_of self.new).written bytes.now }
        ensures later { self.old.faults ≤ self.new.faults }
        ensures cause { TakesNothing result (length bytes.now)
            → Rose self.old.faults self.new.faults }
        ensures calm { ¬ TakesNothing result (length bytes.now)
            → self.new.faults ≡ self.old.faults }
        ensures listed { WriteFailsNow self.new → result ≡ Put.Failed }
        // At other calls it fails only where it is to take a byte: there may be no memory for it.
        ensures unlisted { result ≡ Put.Failed
            → WriteFailsNow self.new ⊎ 0 < min self.old.step (length bytes.now) }
        ensures exact { IsWrite result self.old self.new (length bytes.now) }
    {
        self.calls = self.calls.saturating_add(1);
        let n = self.step.min(bytes.len());
        if is_listed(&self.fails, self.calls)
            || self.bytes.extend_from_slice(&bytes[..n]).is_err()
        {
            self.faults = self.faults.saturating_add(1);
            return Put::Failed;
        }
        Put::Took(n)
    }
}

// ---- those that never fail

/// A source in memory that never fails. Its step is at least 1, and its place within the bytes.
#[derive(Drop)]
pub struct SureIn {
    /// All the bytes, those that were read already among them.
    pub bytes: Vec<u8>,
    /// How many of the bytes were read already.
    pub at: usize,
    /// The most bytes that one call gives.
    pub step: usize,
    /// How many calls met the end. It stays at its last value.
    pub ends: u64,
    pub ghost within: { at ≤ length bytes.items },
    pub ghost moves: { 1 ≤ step },
}

impl SureIn {
    /// A source of these bytes that no call has read yet.
    pub fn new(bytes: Vec<u8>, step: usize) -> SureIn
        requires { 1 ≤ step }
        ensures bytes { result.bytes.items ≡ bytes.items }
        ensures fresh { (result.at ≡ 0) × (result.step ≡ step) × (result.ends ≡ 0) }
    {
        SureIn {
            bytes,
            at: 0,
            step,
            ends: 0,
        }
    }
}

impl Source for SureIn {
    ghost use Rattle.std.specs.Prelude.{◌≢◌, ◌<◌};
    ghost use Rattle.sift_io.specs.Sure.{IsSureRead, sure_inflow};
    ghost use Rattle.sift_io.specs.Reading.{FitsRoom, GivesNext, ends_after_read};

    ghost inflow = { sure_inflow };

    fn read(&mut self, buf: &mut [u8]) -> Got
        requires { 0 < length buf.old }
        ensures within { FitsRoom result (length buf.old) }
        ensures bytes { GivesNext result (sure_inflow self.old).left (sure_inflow self.new).left buf.new }
        ensures sure { result ≢ Got.Failed }
        ensures ends { self.new.ends ≡ ends_after_read result self.old.ends }
        ensures exact { IsSureRead result self.old self.new (length buf.old) }
    {
        let got = give_next(&self.bytes, self.at, self.step, buf);
        self.at += got.count();
        self.ends = got.ends_after(self.ends);
        got
    }
}

/// A sink that never fails, and keeps nothing of what it takes. Its step is at least 1.
#[derive(Drop)]
pub struct SureOut {
    /// The most bytes that one call takes.
    pub step: usize,
    pub ghost moves: { 1 ≤ step },
}

impl SureOut {
    /// A sink that takes so many bytes a call.
    pub fn new(step: usize) -> SureOut
        requires { 1 ≤ step }
        ensures { result.step ≡ step }
    {
        SureOut { step }
    }
}

impl Sink for SureOut {
    ghost use Rattle.std.specs.Prelude.{None, min};

    ghost outflow = { λ _. record { written = None; faults = 0 } };

    fn write(&mut self, bytes: &[u8]) -> Put
        ensures sure { result ≡ Put.Took (min self.old.step (length bytes.now)) }
        ensures step { self.new.step ≡ self.old.step }
    {
        Put::Took(self.step.min(bytes.len()))
    }
}
