//! The votes of a flight.

ghost use Rattle.std.specs.Prelude.{◌≡◌, ◌<◌, ◌++◌, IfOk, OnOk, length, true, string_bytes, ◌&&◌};
ghost use Rattle.sift_base.specs.Units.{has};
ghost use Rattle.sift_mission.specs.Parts.{data_of, flown_of};
ghost use Rattle.sift_flight.specs.Told.{IsWhole, told};
ghost use Rattle.sift_report.specs.Poll.{HasWordsFrom, TellsIn};
ghost use Rattle.sift_report.specs.Votes.{task_votes, unit_votes, votes_of};
ghost use Rattle.sift_program.specs.Program.{task_at};
ghost use Rattle.sift_flight.specs.Flight.{config_of};
ghost use Rattle.std.specs.List.{flat_map, range_with_len};

use crate::poll::{Output, push_vote};
use crate::report::push_end;
use sift_base::{NoMemory, UnitId};
use sift_flight::{Flight, account_at};
use sift_mission::Mission;
use std::alloc::{AllocError, Global};

/// The votes of a whole flight: for each output word of a unit that tells its account the words that it polled, and their majority; and
/// the last line of the report.
pub fn votes_text(alloc: Global, mission: &Mission, flight: &Flight) -> Result<String, NoMemory>
    requires { IsWhole (flown_of mission.now) mission.now.layout flight.now }
    ensures { IfOk result (λ text. string_bytes text
        ≡ votes_of (data_of mission.now) (told (flown_of mission.now) flight.now)) }
{
    let mut text = String::new(alloc);
    for f in 0..mission.frames() {
        push_frame_votes(&mut text, mission, flight, f)?;
    }
    push_end(&mut text, mission, flight)?;
    Ok(text)
}

/// Appends the votes of a frame.
fn push_frame_votes(
    text: &mut String,
    mission: &Mission,
    flight: &Flight,
    f: u32,
) -> Result<(), AllocError>
    requires whole { IsWhole (flown_of mission.now) mission.now.layout flight.now }
    requires frame { f < (flown_of mission.now).frames }
    ensures { OnOk result (string_bytes text.new ≡ string_bytes text.old
        ++ flat_map (unit_votes (data_of mission.now) (told (flown_of mission.now) flight.now) f) (flown_of mission.now).units) }
{
    let everyone = mission.everyone();
    for i in 0..everyone.len() {
        push_unit_votes(text, mission, flight, f, everyone.unit_at(i))?;
    }
    Ok(())
}

/// Appends the votes of a unit in a frame, where it tells its account.
fn push_unit_votes(
    text: &mut String,
    mission: &Mission,
    flight: &Flight,
    f: u32,
    u: UnitId,
) -> Result<(), AllocError>
    requires whole { IsWhole (flown_of mission.now) mission.now.layout flight.now }
    requires unit { has (flown_of mission.now).units u ≡ true }
    requires frame { f < (flown_of mission.now).frames }
    ensures { OnOk result (string_bytes text.new ≡ string_bytes text.old
        ++ unit_votes (data_of mission.now) (told (flown_of mission.now) flight.now) f u) }
{
    if !tells(mission, flight, f, u) {
        return Ok(());
    }
    let mut first = 0;
    for t in 0..mission.parts().program.tasks.len() {
        push_task_votes(text, mission, flight, f, u, t, first)?;
        first += mission.outputs(t);
    }
    Ok(())
}

/// Whether a unit tells its account: it works in the frame, and is in its own configuration.
fn tells(mission: &Mission, flight: &Flight, f: u32, u: UnitId) -> bool
    requires whole { IsWhole (flown_of mission.now) mission.now.layout flight.now }
    requires unit { has (flown_of mission.now).units u ≡ true }
    requires frame { f < (flown_of mission.now).frames }
    ensures { result ≡ ((flown_of mission.now).works u f && has (config_of (told (flown_of mission.now) flight.now) u f) u) }
{
    mission.works(u, f) && account_at(mission, flight, u, f).cfg.has(u)
}

/// Appends the votes of a task, whose first word has this number.
fn push_task_votes(
    text: &mut String,
    mission: &Mission,
    flight: &Flight,
    f: u32,
    u: UnitId,
    t: usize,
    first: u8,
) -> Result<(), AllocError>
    requires tells { TellsIn mission.now flight.now f u }
    requires words { HasWordsFrom (data_of mission.now) t first }
    ensures { OnOk result (string_bytes text.new ≡ string_bytes text.old
        ++ task_votes (data_of mission.now) (told (flown_of mission.now) flight.now) f u t) }
{
    for j in 0..mission.outputs(t) {
        let word = first + j;
        push_vote(text, mission, flight, f, u, Output { t, j, word })?;
    }
    Ok(())
}
