//! The figures of a frame: the configuration at it, its margin, and the skew and slack of its clocks.

ghost use Rattle.std.specs.Prelude.{◌≡◌, ◌<◌, ◌≤◌, ◌↔◌, All, IsTrue, [], MatchOption, length, map};
ghost use Rattle.sift_mission.specs.Data.{IsConfigOf};
ghost use Rattle.sift_mission.specs.Parts.{flown_of};
ghost use Rattle.sift_skew.specs.Figures.{AreInRange};
ghost use Rattle.sift_flight.specs.Figures.{HasMarginAt, Works, config_at, working_at, is_sound_at, margin_at, IsSkewAt, IsSlackAt, next_offsets_at, offsets_at, skew_of, slack_of};
ghost use Rattle.sift_flight.specs.Told.{IsWhole, told};

use crate::flight::{Flight, account_at, lead_of};
use arrayvec::ArrayVec;
use sift_base::UnitId;
use sift_config::Config;
use sift_mission::Mission;
use sift_skew::{skew, slack};

/// The configuration at a frame: that of the lowest-numbered unit that works in it. After the last frame it is the one that this unit
/// found in the last frame.
pub fn config_at(mission: &Mission, flight: &Flight, f: u32) -> Config
    requires whole { IsWhole (flown_of mission.now) mission.now.layout flight.now }
    requires frame { f ≤ (flown_of mission.now).frames }
    ensures config { result ≡ config_at (flown_of mission.now) (told (flown_of mission.now) flight.now) f }
    ensures units { IsConfigOf (flown_of mission.now) result }
{
    if f < mission.parts().frames {
        account_at(mission, flight, lead_of(mission, f), f).cfg
    } else {
        account_at(mission, flight, lead_of(mission, f - 1), f - 1).next_cfg
    }
}

/// The working units of the configuration at a frame, ascending.
pub fn working_at(mission: &Mission, flight: &Flight, f: u32) -> ArrayVec<UnitId, 8>
    requires whole { IsWhole (flown_of mission.now) mission.now.layout flight.now }
    requires frame { f < (flown_of mission.now).frames }
    ensures working { result.items ≡ working_at (flown_of mission.now) (told (flown_of mission.now) flight.now) f }
    ensures work { All (λ u. Works (flown_of mission.now) u f) result.items }
{
    let config = config_at(mission, flight, f);
    let mut working = ArrayVec::new();
    for i in 0..config.len() {
        let unit = config.unit_at(i);
        if mission.works(unit, f) {
            working.push(unit);
        }
    }
    working
}

/// Whether at most one unit of the configuration at a frame is faulty, and at least four work.
pub fn is_sound_at(mission: &Mission, flight: &Flight, f: u32) -> bool
    requires whole { IsWhole (flown_of mission.now) mission.now.layout flight.now }
    requires frame { f < (flown_of mission.now).frames }
    ensures { result ≡ is_sound_at (flown_of mission.now) (told (flown_of mission.now) flight.now) f }
{
    let working = working_at(mission, flight, f).len();
    let faulty = config_at(mission, flight, f).len() - working;
    faulty <= 1 && working >= 4
}

/// Whether a frame has margin: in it and in each frame before, at most one unit of the configuration is faulty, and at least four work.
pub fn margin_at(mission: &Mission, flight: &Flight, f: u32) -> bool
    requires whole { IsWhole (flown_of mission.now) mission.now.layout flight.now }
    requires frame { f < (flown_of mission.now).frames }
    ensures told { result ≡ margin_at (flown_of mission.now) (told (flown_of mission.now) flight.now) f }
    ensures margin { IsTrue result ↔ HasMarginAt (flown_of mission.now) (told (flown_of mission.now) flight.now) f }
{
    for g in 0..f {
        if !is_sound_at(mission, flight, g) {
            return false;
        }
    }
    is_sound_at(mission, flight, f)
}

/// The skew of a frame: the largest difference of two working clocks of its configuration. There is none where no unit of it works.
pub fn skew_at(mission: &Mission, flight: &Flight, f: u32) -> Option<i64>
    requires whole { IsWhole (flown_of mission.now) mission.now.layout flight.now }
    requires frame { f < (flown_of mission.now).frames }
    ensures told { result ≡ skew_of (offsets_at (flown_of mission.now) (told (flown_of mission.now) flight.now) f) }
    ensures skew { MatchOption result (working_at (flown_of mission.now) (told (flown_of mission.now) flight.now) f ≡ [])
        (IsSkewAt (flown_of mission.now) (told (flown_of mission.now) flight.now) f) }
{
    let working = working_at(mission, flight, f);
    skew(&offsets_of(mission, flight, f, &working))
}

/// The slack of a frame: the least that is left of a subframe between two working clocks of its configuration, with their offsets
/// of this frame or the next. There is none where no unit of it works.
pub fn slack_at(mission: &Mission, flight: &Flight, f: u32) -> Option<i64>
    requires whole { IsWhole (flown_of mission.now) mission.now.layout flight.now }
    requires frame { f < (flown_of mission.now).frames }
    ensures told { result ≡ slack_of (flown_of mission.now).length (offsets_at (flown_of mission.now) (told (flown_of mission.now) flight.now) f)
        (next_offsets_at (flown_of mission.now) (told (flown_of mission.now) flight.now) f) }
    ensures slack { MatchOption result (working_at (flown_of mission.now) (told (flown_of mission.now) flight.now) f ≡ [])
        (IsSlackAt (flown_of mission.now) (told (flown_of mission.now) flight.now) f) }
{
    let working = working_at(mission, flight, f);
    let now = offsets_of(mission, flight, f, &working);
    let next = next_offsets_of(mission, flight, f, &working);
    slack(mission.parts().clock.length, &now, &next)
}

/// The offsets of units that work in a frame.
fn offsets_of(mission: &Mission, flight: &Flight, f: u32, units: &[UnitId]) -> ArrayVec<i64, 8>
    requires whole { IsWhole (flown_of mission.now) mission.now.layout flight.now }
    requires frame { f < (flown_of mission.now).frames }
    requires work { All (λ u. Works (flown_of mission.now) u f) units.now }
    requires few { length units.now ≤ 8 }
    ensures offsets { result.items ≡ map (λ u. ((told (flown_of mission.now) flight.now).account u f).clk) units.now }
    ensures in_range { AreInRange result.items }
{
    let mut offsets = ArrayVec::new();
    for unit in units {
        offsets.push(account_at(mission, flight, *unit, f).clk);
    }
    offsets
}

/// The offsets in force after a frame of units that work in it.
fn next_offsets_of(mission: &Mission, flight: &Flight, f: u32, units: &[UnitId]) -> ArrayVec<i64, 8>
    requires whole { IsWhole (flown_of mission.now) mission.now.layout flight.now }
    requires frame { f < (flown_of mission.now).frames }
    requires work { All (λ u. Works (flown_of mission.now) u f) units.now }
    requires few { length units.now ≤ 8 }
    ensures offsets { result.items ≡ map (λ u. ((told (flown_of mission.now) flight.now).account u f).next_clk) units.now }
    ensures in_range { AreInRange result.items }
{
    let mut offsets = ArrayVec::new();
    for unit in units {
        offsets.push(account_at(mission, flight, *unit, f).next_clk);
    }
    offsets
}
