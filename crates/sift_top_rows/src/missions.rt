//! What a board asks of a mission.

ghost use Rattle.std.specs.Prelude.{◌≡◌};
ghost use Rattle.sift_mission.specs.Data.{IsConfigOf};
ghost use Rattle.sift_mission.specs.Parts.{flown_of};

use crate::stated::eight_units;
use sift_config::Config;
use sift_mission::Mission;
use std::process::Abort;
use std::test::Fail;

/// The slots of the mission under its table for all units: the number, and the subframes in which the slot is said
/// and heard.
const SLOTS: [(usize, u32, u32); 9] = [
    (0, 0, 2), // the clock
    (1, 0, 2), // the sensor
    (2, 2, 4), // its relay
    (3, 4, 7), // word 0
    (4, 4, 9), // word 1
    (5, 14, 16), // the report
    (6, 16, 18), // the report of unit 0
    (9, 16, 18), // the report of unit 3
    (13, 16, 18), // the report of unit 7
];

/// What comes next, from the first slot and the first task on, in each of the first ten subframes: the slot that is
/// heard, the slot that is said, and the task that is run.
const NEXT: [(u32, usize, usize, usize); 10] = [
    (0, 14, 0, 2),
    (1, 14, 14, 2),
    (2, 0, 2, 2),
    (3, 14, 14, 2),
    (4, 2, 3, 0),
    (5, 14, 14, 2),
    (6, 14, 14, 2),
    (7, 3, 14, 2),
    (8, 14, 14, 2),
    (9, 4, 14, 2),
];

/// The units of a configuration of a mission with eight units are the mission's.
fn belongs(mission: &Mission, config: &Config)
    requires { mission.now.units ≡ 8 }
    ensures { IsConfigOf (flown_of mission.now) config.now }
{
    let _count = config.len();
}

fn expect_slots(rt: &impl Abort, mission: &Mission, config: &Config)
    requires { mission.now.units ≡ 8 }
{
    belongs(mission, config);
    for (i, due, heard) in SLOTS {
        assert!(rt; i < mission.slots());
        assert_eq!(rt; mission.due(config, i), due);
        assert_eq!(rt; mission.heard_in(config, i), heard);
    }
}

fn expect_next(rt: &impl Abort, mission: &Mission, config: &Config)
    requires { mission.now.units ≡ 8 }
{
    belongs(mission, config);
    for (subframe, heard, said, run) in NEXT {
        let next = [
            mission.next_heard(config, subframe, 0),
            mission.next_said(config, subframe, 0),
            mission.next_run(config, subframe, 0),
        ];
        assert_eq!(rt; next, [heard, said, run]);
    }
}

#[test]
fn a_mission_tells_its_times(rt: HostRuntime) -> Result<(), Fail> {
    let mission = eight_units(rt.alloc())?;
    let all = mission.everyone();
    expect_slots(&rt, &mission, &all);
    expect_next(&rt, &mission, &all);
    Ok(())
}
