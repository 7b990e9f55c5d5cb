//! The whole call: what the words ask for is read, done and written.

ghost use Rattle.std.specs.Prelude.{◌≡◌, ◌≢◌, ◌⊎◌, IfErr, IfOk, None, map, string_bytes};
ghost use Rattle.sift_reply.specs.Begun.{MayCome};
ghost use Rattle.sift_reply.specs.Duty.{SharesNoStatus, Owes, ReadsWithin};
ghost use Rattle.sift_reply.specs.Reply.{IsBroken, IsGiven, no_memory_status};
ghost use Rattle.sift_reply.specs.Laws.{ShareNoStatus};
ghost use Rattle.sift_reply.specs.Promise.{AskForNoInput, IsAnswered, IsCertain, IsOwed, MayWant};

use crate::reply::{Asked, Begun, Job, NO_MEMORY_STATUS, Reply, SINK_FAULT_STATUS, Work};
use sift_base::NoMemory;
use sift_io::{ReadStop, Sink, Source, WriteStop, read_all, write_all};
use std::alloc::Global;

/// Does what the words ask for, by these means: reads the source where the job does, does what the job leaves to be done,
/// writes the reply to the sink, and answers its status. The whole reply is made before any of it is written.
///
/// A reply is owed to what was read, `certain` speaks of a source that tells its bytes. No job may give a status that
/// is shared.
pub fn answer<
    M: Drop,
    W: Work,
    C: Asked<M, W>,
    S: Source,
    K: Sink,
    D: Fn(W) -> Result<String, NoMemory>,
>(alloc: Global, means: M, words: &[String], source: &mut S, sink: &mut K, do_work: &D) -> u8
    requires own { ShareNoStatus (record { asks = C.asks means; duty = C.duty means }) }
    requires callable { (work : W) → D.pre do_work.now work }
    requires done { (work : W) (came : _) → D.post do_work.now work came → IfOk came (λ text. W.gives work (string_bytes text)) }
    ensures answered { IsAnswered (record { asks = C.asks means; duty = C.duty means }) (map string_bytes words.now)
        (record { before = S.inflow source.old; after = S.inflow source.new })
        (record { before = K.outflow sink.old; after = K.outflow sink.new }) result }
    ensures certain { IsCertain (record { asks = C.asks means; duty = C.duty means }) (map string_bytes words.now)
        (record { before = S.inflow source.old; after = S.inflow source.new })
        (record { before = K.outflow sink.old; after = K.outflow sink.new }) result }

    // Only a job that reads it reads the source, and want of memory writes nothing.
    ensures unread { AskForNoInput (record { asks = C.asks means; duty = C.duty means }) (map string_bytes words.now) → source.new ≡ source.old }
    ensures unwritten { result ≡ no_memory_status → sink.new ≡ sink.old }
{
    match owed::<M, W, C, S, D>(alloc, means, words, source, do_work) {
        Ok(reply) => give(sink, &reply),
        Err(NoMemory) => NO_MEMORY_STATUS,
    }
}

/// A reply that is owed to what is read.
fn owed<M: Drop, W: Work, C: Asked<M, W>, S: Source, D: Fn(W) -> Result<String, NoMemory>>(
    alloc: Global,
    means: M,
    words: &[String],
    source: &mut S,
    do_work: &D,
) -> Result<Reply, NoMemory>
    requires own { ShareNoStatus (record { asks = C.asks means; duty = C.duty means }) }
    requires callable { (work : W) → D.pre do_work.now work }
    requires done { (work : W) (came : _) → D.post do_work.now work came → IfOk came (λ text. W.gives work (string_bytes text)) }
    ensures owed { IfOk result (IsOwed (record { asks = C.asks means; duty = C.duty means }) (map string_bytes words.now)
        (λ duty. Owes duty (record { before = S.inflow source.old; after = S.inflow source.new }))) }
    ensures wanting { IfErr result (λ _. MayWant (record { asks = C.asks means; duty = C.duty means }) (map string_bytes words.now)
        (record { before = S.inflow source.old; after = S.inflow source.new })) }
    ensures other { IfOk result (λ reply. reply.status ≢ no_memory_status) }
    ensures unread { AskForNoInput (record { asks = C.asks means; duty = C.duty means }) (map string_bytes words.now) → source.new ≡ source.old }
{
    match C::from_words(words) {
        Some(job) => owed_by(alloc, means, job, source, do_work),
        None => Ok(Reply::usage()),
    }
}

/// A reply that a job owes to what is read: it reads the source where it has a limit.
fn owed_by<M: Drop, W: Work, J: Job<M, W>, S: Source, D: Fn(W) -> Result<String, NoMemory>>(
    alloc: Global,
    means: M,
    job: J,
    source: &mut S,
    do_work: &D,
) -> Result<Reply, NoMemory>
    requires own { SharesNoStatus (J.duty means job) }
    requires callable { (work : W) → D.pre do_work.now work }
    requires done { (work : W) (came : _) → D.post do_work.now work came → IfOk came (λ text. W.gives work (string_bytes text)) }
    ensures owed { IfOk result (Owes (J.duty means job) (record { before = S.inflow source.old; after = S.inflow source.new })) }
    ensures wanting { IfErr result (λ _. ReadsWithin (J.duty means job).limit
        (record { before = S.inflow source.old; after = S.inflow source.new })) }
    ensures other { IfOk result (λ reply. reply.status ≢ no_memory_status) }
    ensures unread { (J.duty means job).limit ≡ None → source.new ≡ source.old }
{
    let Some(limit) = job.limit() else {
        return given_by(alloc, means, job, &[], do_work);
    };
    match read_all(alloc, source, limit as usize) {
        Ok(bytes) => given_by(alloc, means, job, &bytes, do_work),
        Err(ReadStop::TooLong) => Ok(Reply::too_long()),
        Err(ReadStop::Failed) => Ok(Reply::read_fault()),
        Err(ReadStop::NoMemory) => Err(NoMemory),
    }
}

/// A reply that a job gives to these bytes, when all is done that it leaves.
fn given_by<M: Drop, W: Work, J: Job<M, W>, D: Fn(W) -> Result<String, NoMemory>>(
    alloc: Global,
    means: M,
    job: J,
    bytes: &[u8],
    do_work: &D,
) -> Result<Reply, NoMemory>
    requires callable { (work : W) → D.pre do_work.now work }
    requires done { (work : W) (came : _) → D.post do_work.now work came → IfOk came (λ text. W.gives work (string_bytes text)) }
    ensures { IfOk result ((J.duty means job).gives bytes.now) }
{
    let begun = job.begin(alloc, means, bytes)?;
    finished(begun, do_work)
}

/// The reply of a job that has come so far, when all is done that it leaves.
fn finished<W: Work, D: Fn(W) -> Result<String, NoMemory>>(
    begun: Begun<W>,
    do_work: &D,
) -> Result<Reply, NoMemory>
    requires callable { (work : W) → D.pre do_work.now work }
    requires done { (work : W) (came : _) → D.post do_work.now work came → IfOk came (λ text. W.gives work (string_bytes text)) }
    ensures { IfOk result (MayCome W.gives begun) }
{
    match begun {
        Begun::Replied(reply) => Ok(reply),
        Begun::Left(work) => Ok(Reply::done(text_of(work, do_work)?)),
    }
}

/// The text that comes of some work.
fn text_of<W: Work, D: Fn(W) -> Result<String, NoMemory>>(
    work: W,
    do_work: &D,
) -> Result<String, NoMemory>
    requires callable { D.pre do_work.now work }
    requires done { (came : _) → D.post do_work.now work came → IfOk came (λ text. W.gives work (string_bytes text)) }
    ensures { IfOk result (λ text. W.gives work (string_bytes text)) }
{
    do_work(work)
}

/// Writes a reply, and answers its status, or that of a sink that failed.
fn give<K: Sink>(sink: &mut K, reply: &Reply) -> u8
    ensures { IsGiven (record { before = K.outflow sink.old; after = K.outflow sink.new }) reply.now result
        ⊎ IsBroken (record { before = K.outflow sink.old; after = K.outflow sink.new }) reply.now result }
{
    match write_all(sink, reply.text.as_bytes()) {
        Ok(()) => reply.status,
        Err(WriteStop::Failed) => SINK_FAULT_STATUS,
    }
}
