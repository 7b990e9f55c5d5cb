//! The mission that the bytes of an input state, or why they state none, and the commands about it.

ghost use Rattle.std.specs.Prelude.{◌≡◌, Ok, Err, IfOk, IfErr};
ghost use Rattle.sift_load.specs.Loads.{mission_in, reply_to, IsDocument, States, StatesNone, LoadsThen};
ghost use Rattle.sift_base.specs.Stop.{IfRefused};
ghost use Rattle.sift_mission.specs.Parts.{data_of};
ghost use Rattle.toml.specs.Data.{Members};
ghost use Rattle.toml.specs.Errors.{IsMemory};
ghost use Rattle.toml.specs.View.{table_view};
ghost use Rattle.sift_mission.specs.Data.{MissionData};
ghost use Rattle.sift_reply.specs.Begun.{ComesTo};
ghost use Rattle.sift_load.specs.Laws.{OneMissionIsStated, OneReplyIsGiven, StatedMissionsAreUnrefused, StatusesAreOwn};
ghost use Rattle.sift_reply.specs.Reply as spec;

use sift_base::{NoMemory, Stop};
use sift_mission::Mission;
use sift_reply::{Begun, Reply, Work};
use sift_scenario::{Refused, mission_of, missions_are_accepted, one_mission, one_refusal};
use std::alloc::Global;
use toml::Table;

// ---- why bytes state no mission

/// Why bytes state no mission.
#[derive(Clone, Copy)]
pub enum NoMission {
    /// They are no TOML document.
    NotADocument,
    /// The document is refused, for this reason.
    Refused(Refused),
}

impl NoMission {
    /// The reply to them: the statuses 3 to 7, each with its line. Bytes that are no document are told so whatever memory there is.
    pub fn reply(self, alloc: Global) -> Result<Reply, NoMemory>
        ensures told { IfOk result (λ reply. reply ≡ reply_to self) }
        ensures sure { self ≡ NoMission.NotADocument → result ≡ Ok (reply_to self) }
    {
        match self {
            NoMission::NotADocument => Ok(Reply::fixed(3, "not a document\n")),
            NoMission::Refused(Refused::Scenario { rule, place }) => no_scenario(
                alloc, rule, place,
            ),
            NoMission::Refused(Refused::Task { task, kind, at }) => no_task(alloc, task, kind, at),
            NoMission::Refused(Refused::Table { size, row, rule }) => {
                no_table(alloc, size, row, rule)
            }
            NoMission::Refused(Refused::Script { entry, rule }) => no_script(alloc, entry, rule),
        }
    }
}

fn no_scenario(alloc: Global, rule: u32, place: u32) -> Result<Reply, NoMemory>
    ensures { IfOk result (λ reply. reply ≡ reply_to (NoMission.Refused (Refused.Scenario rule place))) }
{
    let mut line = String::new(alloc);
    write!(line, "scenario rule {rule} at {place}\n")?;
    Ok(Reply::made(4, line))
}

fn no_task(alloc: Global, task: u32, kind: u32, at: u32) -> Result<Reply, NoMemory>
    ensures { IfOk result (λ reply. reply ≡ reply_to (NoMission.Refused (Refused.Task task kind at))) }
{
    let mut line = String::new(alloc);
    write!(line, "task {task} kind {kind} at {at}\n")?;
    Ok(Reply::made(5, line))
}

fn no_table(alloc: Global, size: u32, row: u32, rule: u32) -> Result<Reply, NoMemory>
    ensures { IfOk result (λ reply. reply ≡ reply_to (NoMission.Refused (Refused.Table size row rule))) }
{
    let mut line = String::new(alloc);
    write!(line, "table {size} row {row} rule {rule}\n")?;
    Ok(Reply::made(6, line))
}

fn no_script(alloc: Global, entry: u32, rule: u32) -> Result<Reply, NoMemory>
    ensures { IfOk result (λ reply. reply ≡ reply_to (NoMission.Refused (Refused.Script entry rule))) }
{
    let mut line = String::new(alloc);
    write!(line, "script entry {entry} rule {rule}\n")?;
    Ok(Reply::made(7, line))
}

// ---- the document, and its mission

/// The document that the bytes are.
pub fn read_document(alloc: Global, bytes: &[u8]) -> Result<Table, Stop<NoMission>>
    ensures document { IfOk result (λ document. IsDocument bytes.now (table_view document)) }
    ensures refused { IfErr result (IfRefused (λ why. (why ≡ NoMission.NotADocument) × ((document : Members) → ¬ IsDocument bytes.now document))) }
{
    document_of(toml::table_from_slice(alloc, bytes))
}

/// The document that the reader answered, or that the bytes are none. Memory was wanting where the reader says so, and nowhere else.
fn document_of(read: Result<Table, toml::de::Error>) -> Result<Table, Stop<NoMission>>
    ensures document { IfOk read (λ document. result ≡ Ok document) }
    ensures wanting { IfErr read (λ error. IsMemory error → result ≡ Err Stop.NoMemory) }
    ensures refused { IfErr read (λ error. ¬ IsMemory error → result ≡ Err (Stop.Refused NoMission.NotADocument)) }
{
    match read {
        Ok(document) => Ok(document),
        Err(error) if error.is_memory() => Err(Stop::NoMemory),
        Err(_) => Err(Stop::Refused(NoMission::NotADocument)),
    }
}

/// The mission that the bytes state. What refuses them is tested in the order of the statuses 3 to 7.
pub fn load(alloc: Global, bytes: &[u8]) -> Result<Mission, Stop<NoMission>>
    ensures stated { IfOk result (λ mission. States bytes.now (data_of mission)) }
    ensures refused { IfErr result (IfRefused (StatesNone bytes.now)) }
{
    let document = read_document(alloc, bytes)?;
    mission_in(mission_of(alloc, &document))
}

/// The mission that reading a document answered, or its refusal as the reason why its bytes state none. Memory was wanting where the answer
/// says so, and nowhere else.
fn mission_in(read: Result<Mission, Stop<Refused>>) -> Result<Mission, Stop<NoMission>>
    ensures { result ≡ mission_in read }
{
    match read {
        Ok(mission) => Ok(mission),
        Err(Stop::Refused(reason)) => Err(Stop::Refused(NoMission::Refused(reason))),
        Err(Stop::NoMemory) => Err(Stop::NoMemory),
    }
}

// ---- commands about it

/// The most bytes of a document.
pub const DOCUMENT_LIMIT: u32 = 1_048_576;

/// Something to be done for the mission that an input states, by means of this type. What it leaves to be done is of that type.
pub trait MissionJob<M, W: Work>: Copy {
    /// The replies that it may give for a mission by such means.
    ghost gives_for: { M → Self → MissionData → spec.Reply → Type 0 };

    /// A reply for this mission, or what is left to be done for one.
    fn begin_for(self, alloc: Global, means: M, mission: Mission) -> Result<Begun<W>, NoMemory>
        ensures { IfOk result (ComesTo W.gives (gives_for means self (data_of mission))) };
}

/// A reply to these bytes, or what is left to be done for one: the job begins for the mission that they state, or it is the
/// reply to bytes that state none.
pub fn begin_for_bytes<M: Drop, W: Work, J: MissionJob<M, W>>(
    alloc: Global,
    means: M,
    job: J,
    bytes: &[u8],
) -> Result<Begun<W>, NoMemory>
    ensures { IfOk result (ComesTo W.gives (LoadsThen (J.gives_for means job) bytes.now)) }
{
    match load(alloc, bytes) {
        Ok(mission) => job.begin_for(alloc, means, mission),
        Err(stop) => {
            let reply = reply_without(alloc, stop)?;
            Ok(Begun::Replied(reply))
        }
    }
}

/// The reply where there is no mission: to the reason why bytes state none. Want of memory is handed on.
fn reply_without(alloc: Global, stop: Stop<NoMission>) -> Result<Reply, NoMemory>
    ensures told { IfRefused (λ why. IfOk result (λ reply. reply ≡ reply_to why)) stop }
    ensures sure { stop ≡ Stop.Refused NoMission.NotADocument → result ≡ Ok (reply_to NoMission.NotADocument) }
    ensures wanting { stop ≡ Stop.NoMemory → result ≡ Err (record {}) }
{
    match stop {
        Stop::Refused(why) => why.reply(alloc),
        Stop::NoMemory => Err(NoMemory),
    }
}

// ---- laws

/// Bytes state at most one mission, and those that state one aren't refused.
pub fn bytes_state_one_mission()
    ensures one { OneMissionIsStated }
    ensures unrefused { StatedMissionsAreUnrefused }
{
    one_mission();
    missions_are_accepted();
}

/// A job that gives one reply at most for the mission that bytes state gives one to them.
pub fn loading_gives_one<M, W: Work, J: MissionJob<M, W>>()
    ensures { (means : M) (job : J) → OneReplyIsGiven (J.gives_for means job) }
{
    one_mission();
    missions_are_accepted();
    one_refusal();
}

/// The statuses of a job are those that it gives for missions, and those of bytes that state none.
pub fn loading_has_own_statuses<M, W: Work, J: MissionJob<M, W>>()
    ensures { (means : M) (job : J) → StatusesAreOwn (J.gives_for means job) }
{}
