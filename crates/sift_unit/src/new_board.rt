//! A board before the flight. It stands apart from the board itself, since what it cites is defined by boards.

ghost use Rattle.std.specs.Prelude.{◌≡◌, IfOk, true};
ghost use Rattle.sift_base.specs.Units.{has};
ghost use Rattle.sift_mission.specs.Parts.{flown_of};
ghost use Rattle.sift_unit.specs.Boards.{IsNewBoard};

use crate::board::Board;
use sift_base::{NoMemory, UNIT_LIMIT, UnitId};
use sift_mission::{Mission, Part, a_mission_fits};
use sift_unit_frame::Memory;
use std::alloc::Global;

impl Board {
    /// The board of a unit of the mission before the flight, with the memory for all its accounts and
    /// for the runs of its tasks.
    pub fn make(alloc: Global, mission: &Mission, unit: UnitId) -> Result<Board, NoMemory>
        requires { has (flown_of mission.now).units unit ≡ true }
        ensures { IfOk result (λ board. IsNewBoard (flown_of mission.now) unit board) }
    {
        a_mission_fits(mission);
        let frames = mission.frames();
        let accounts = Vec::with_capacity(alloc, frames as usize)?;
        let memory = Memory::make(alloc, mission)?;
        Ok(Board {
            unit,
            frames,
            storm: storm_of(mission, unit),
            turned: false,
            frame: 0,
            subframe: 0,
            part: Part::Hearing,
            slot: 0,
            other: 0,
            cfg: mission.everyone(),
            clk: mission.offset(unit),
            places: [None; UNIT_LIMIT],
            memory,
            accounts,
        })
    }
}

/// The frame from which on a unit is stray, where it has a storm.
fn storm_of(mission: &Mission, unit: UnitId) -> Option<u32>
    ensures { result ≡ (flown_of mission.now).storm unit }
{
    let storm = mission.parts().script.storm_of(unit)?;
    Some(storm.from)
}
