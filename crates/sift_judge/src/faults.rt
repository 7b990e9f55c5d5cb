//! The faults of a frame: whom working units tell that they caught, and who is configured out.

ghost use Rattle.std.specs.Prelude.{◌≡◌, ◌<◌, ◌≤◌, ◌↔◌, ℕ, ◌&&◌, All, IsTrue, List, length, not, false, count_by, nat_lt};
ghost use Rattle.std.specs.List.{filter};
ghost use Rattle.sift_base.specs.Units.{has, holds};
ghost use Rattle.sift_mission.specs.Parts.{data_of};
ghost use Rattle.sift_report.specs.Headline.{TellsExactRemoval, TellsNoFalseAccusation};
ghost use Rattle.sift_report.specs.Told.{told_at, works_in};

use crate::form::caught_told;
use crate::working::{are_same_units, config_told, working_at, working_in};
use sift_base::{UnitId, UnitSet};
use sift_config::Config;
use sift_mission::{Mission, a_mission_fits};
use sift_report::ReportLine;

/// Whether no working unit tells that it caught a working unit, itself among them.
pub(crate) fn has_no_false_accusation(mission: &Mission, lines: &[ReportLine], f: u32) -> bool
    requires frame { f < (data_of mission.now).frames }
    ensures { IsTrue result ↔ TellsNoFalseAccusation (data_of mission.now) lines.now f }
{
    let working = working_at(mission, f);
    all_accuse_none(mission, lines, f, &working)
}

/// Whether none of these units tells that it caught one of them.
fn all_accuse_none(mission: &Mission, lines: &[ReportLine], f: u32, units: &[UnitId]) -> bool
    requires frame { f ≤ (data_of mission.now).frames }
    ensures { IsTrue result ↔ All (λ u. All (λ v. holds (told_at (data_of mission.now) lines.now f u).caught v ≡ false) units.now) units.now }
{
    for unit in units {
        if !has_none(caught_told(mission, lines, f, *unit), units) {
            return false;
        }
    }
    true
}

/// Whether a set has none of these units.
fn has_none(caught: UnitSet, units: &[UnitId]) -> bool
    ensures { IsTrue result ↔ All (λ v. holds caught v ≡ false) units.now }
{
    for unit in units {
        if caught.has(*unit) {
            return false;
        }
    }
    true
}

/// Whether the configuration told at the next frame is the one told at this without exactly the units that two working units tell
/// that they caught.
pub(crate) fn has_exact_removal(mission: &Mission, lines: &[ReportLine], f: u32) -> bool
    requires frame { f < (data_of mission.now).frames }
    ensures { IsTrue result ↔ TellsExactRemoval (data_of mission.now) lines.now f }
{
    // A mission fits, so there is a number behind each frame's.
    a_mission_fits(mission);
    let Some(config) = config_told(mission, lines, f) else {
        return true;
    };
    // Where none is told at the next frame, rule 2 is broken there.
    let Some(next) = config_told(mission, lines, f + 1) else {
        return true;
    };
    is_exact(mission, lines, f, &config, &next)
}

/// Whether the next configuration is this one without exactly the units that two working units tell that they caught.
fn is_exact(mission: &Mission, lines: &[ReportLine], f: u32, config: &Config, next: &Config) -> bool
    requires frame { f < (data_of mission.now).frames }
    ensures { IsTrue result ↔ (next.now ≡ filter (λ v. not (
        nat_lt 1 (count_by (λ u. works_in (data_of mission.now) u f && holds (told_at (data_of mission.now) lines.now f u).caught v)
        config.now))) config.now) }
{
    let caught = caught_by_two(mission, lines, f, config);
    are_same_units(next.units(), config.units().minus(caught))
}

/// The units of a configuration that two working units of it tell that they caught.
fn caught_by_two(mission: &Mission, lines: &[ReportLine], f: u32, config: &Config) -> UnitSet
    requires frame { f < (data_of mission.now).frames }
    ensures { (v : ℕ) → holds result v ≡ (has config.now v
        && nat_lt 1 (count_by (λ u. works_in (data_of mission.now) u f && holds (told_at (data_of mission.now) lines.now f u).caught v) config.now)) }
{
    let working = working_in(mission, config, f);
    let mut caught = UnitSet::empty();
    for i in 0..config.len() {
        let unit = config.unit_at(i);
        if count_accusers(mission, lines, f, &working, unit) > 1 {
            caught = caught.with(unit);
        }
    }
    caught
}

/// How many of these units tell that they caught a unit.
fn count_accusers(
    mission: &Mission,
    lines: &[ReportLine],
    f: u32,
    units: &[UnitId],
    v: UnitId,
) -> usize
    requires frame { f ≤ (data_of mission.now).frames }
    ensures { result ≡ length (filter (λ u. holds (told_at (data_of mission.now) lines.now f u).caught v) units.now) }
{
    let mut accusers = 0;
    for unit in units {
        if caught_told(mission, lines, f, *unit).has(v) {
            accusers += 1;
        }
    }
    accusers
}
