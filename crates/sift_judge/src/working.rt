//! Who works in a frame and who leads, the configuration that they tell, and the frame's margin.

ghost use Rattle.std.specs.Prelude.{◌≡◌, ◌<◌, ◌≤◌, ◌↔◌, IsTrue, ℕ, All, Some};
ghost use Rattle.std.specs.List.{filter};
ghost use Rattle.sift_base.specs.Units.{HasMargin, members};
ghost use Rattle.sift_config.specs.Config.{first_units};
ghost use Rattle.sift_mission.specs.Flown.{table_for};
ghost use Rattle.sift_mission.specs.Parts.{data_of};
ghost use Rattle.sift_report.specs.Told.{IsSoundTold, agreed_told, config_told, shed_told, lead_in, works_in, told_at, IsWorking, HasMarginTold};
ghost use Rattle.sift_report.specs.Headline.{TellsSameConfiguration, TellsTrueMargin};

use crate::form::{config_at, inputs_told, margin_at};
use arrayvec::ArrayVec;
use sift_base::{UnitId, UnitSet, Word};
use sift_config::Config;
use sift_mission::Mission;
use sift_report::ReportLine;

// ---- who works and who leads

/// The working units of a configuration, ascending.
pub(crate) fn working_in(mission: &Mission, config: &Config, f: u32) -> ArrayVec<UnitId, 8>
    ensures { result.items ≡ filter (λ u. works_in (data_of mission.now) u f) config.now }
{
    let mut working = ArrayVec::new();
    for i in 0..config.len() {
        let unit = config.unit_at(i);
        if mission.works(unit, f) {
            working.push(unit);
        }
    }
    working
}

/// The working units of the mission, ascending.
pub(crate) fn working_at(mission: &Mission, f: u32) -> ArrayVec<UnitId, 8>
    ensures { result.items ≡ filter (λ u. works_in (data_of mission.now) u f) (first_units (data_of mission.now).units) }
{
    working_in(mission, &mission.everyone(), f)
}

/// The lead unit of a frame: the lowest-numbered one that works in it.
fn lead_in(mission: &Mission, f: u32) -> UnitId
    ensures { result ≡ lead_in (data_of mission.now) f }
{
    match working_at(mission, f).first() {
        Some(unit) => *unit,
        // Some unit always works, so the first one stands here for nobody.
        None => mission.everyone().unit_at(0),
    }
}

/// The configuration told at a frame, where one is: the lead unit's, and after the last frame that of the last line.
pub(crate) fn config_told(mission: &Mission, lines: &[ReportLine], f: u32) -> Option<Config>
    requires frame { f ≤ (data_of mission.now).frames }
    ensures { result ≡ config_told (data_of mission.now) lines.now f }
{
    if f < mission.frames() {
        config_at(mission, lines, f, lead_in(mission, f).get())
    } else {
        config_at(mission, lines, f, 0)
    }
}

/// The agreed words told in a frame: the lead unit's.
pub(crate) fn agreed_told<'a>(mission: &Mission, lines: &'a [ReportLine], f: u32) -> &'a [Word]
    requires frame { f ≤ (data_of mission.now).frames }
    ensures { result.now ≡ agreed_told (data_of mission.now) lines.now f }
{
    inputs_told(mission, lines, f, lead_in(mission, f))
}

/// The tasks that are shed in a frame: those that the configuration told at it sheds, and none where none is told.
pub(crate) fn shed_told<'a>(mission: &'a Mission, lines: &[ReportLine], f: u32) -> &'a [u8]
    requires frame { f ≤ (data_of mission.now).frames }
    ensures { result.now ≡ shed_told (data_of mission.now) lines.now f }
{
    match config_told(mission, lines, f) {
        Some(config) => shed_by(mission, &config),
        None => &[],
    }
}

/// The tasks that a configuration sheds. One of more units than the mission has, as a line may tell it, has no table and sheds none.
fn shed_by<'a>(mission: &'a Mission, config: &Config) -> &'a [u8]
    ensures { result.now ≡ (table_for (data_of mission.now) config.now).shed }
{
    match mission.parts().tables.get(config.len() - 4) {
        Some(table) => table.shed(),
        None => &[],
    }
}

/// Whether at most one unit of a configuration is faulty in a frame, and at least four work.
pub(crate) fn has_margin(mission: &Mission, config: &Config, f: u32) -> bool
    ensures { IsTrue result ↔ HasMargin (λ u. works_in (data_of mission.now) u f) config.now }
{
    let working = working_in(mission, config, f).len();
    let faulty = config.len() - working;
    faulty <= 1 && working >= 4
}

/// Whether a configuration is told at a frame, and it has at most one faulty unit and at least four working ones.
pub(crate) fn is_sound_told(mission: &Mission, lines: &[ReportLine], f: u32) -> bool
    requires frame { f ≤ (data_of mission.now).frames }
    ensures { IsTrue result ↔ IsSoundTold (data_of mission.now) lines.now f }
{
    match config_told(mission, lines, f) {
        Some(config) => has_margin(mission, &config, f),
        None => false,
    }
}

// ---- the configuration

/// Whether the lead unit tells a configuration, in frame 0 all units, and, where it gives margin, each working unit tells the same.
pub(crate) fn has_same_configuration(mission: &Mission, lines: &[ReportLine], f: u32) -> bool
    requires frame { f < (data_of mission.now).frames }
    ensures { IsTrue result ↔ TellsSameConfiguration (data_of mission.now) lines.now f }
{
    match config_told(mission, lines, f) {
        Some(config) => {
            is_right_at_first(mission, f, &config) && is_shared(mission, lines, f, &config)
        }
        None => false,
    }
}

/// Whether a configuration is all units, where the frame is frame 0.
fn is_right_at_first(mission: &Mission, f: u32, config: &Config) -> bool
    ensures { IsTrue result ↔ (f ≡ 0 → config.now ≡ first_units (data_of mission.now).units) }
{
    f > 0 || is_same(config, &mission.everyone())
}

/// Whether each working unit tells a configuration, where it gives margin.
fn is_shared(mission: &Mission, lines: &[ReportLine], f: u32, config: &Config) -> bool
    requires frame { f < (data_of mission.now).frames }
    ensures { IsTrue result ↔ (HasMargin (λ u. works_in (data_of mission.now) u f) config.now
        → (u : ℕ) → IsWorking (data_of mission.now) u f → (told_at (data_of mission.now) lines.now f u).config ≡ Some config.now) }
{
    !has_margin(mission, config, f)
        || all_tell_config(mission, lines, f, &working_at(mission, f), config)
}

/// Whether each of these units tells a configuration.
fn all_tell_config(
    mission: &Mission,
    lines: &[ReportLine],
    f: u32,
    units: &[UnitId],
    config: &Config,
) -> bool
    requires frame { f ≤ (data_of mission.now).frames }
    ensures { IsTrue result ↔ All (λ u. (told_at (data_of mission.now) lines.now f u).config ≡ Some config.now) units.now }
{
    for unit in units {
        if !tells_config(mission, lines, f, *unit, config) {
            return false;
        }
    }
    true
}

/// Whether a unit tells a configuration.
fn tells_config(mission: &Mission, lines: &[ReportLine], f: u32, u: UnitId, config: &Config) -> bool
    requires frame { f ≤ (data_of mission.now).frames }
    ensures { IsTrue result ↔ ((told_at (data_of mission.now) lines.now f u).config ≡ Some config.now) }
{
    match config_at(mission, lines, f, u.get()) {
        Some(told) => is_same(&told, config),
        None => false,
    }
}

/// Whether two configurations have the same units.
fn is_same(config: &Config, other: &Config) -> bool
    ensures { IsTrue result ↔ (config.now ≡ other.now) }
{
    are_same_units(config.units(), other.units())
}

/// Whether two sets have the same units.
pub(crate) fn are_same_units(units: UnitSet, others: UnitSet) -> bool
    ensures { IsTrue result ↔ (members units ≡ members others) }
{
    units.bits() == others.bits()
}

// ---- the margin

/// Whether the line of a frame tells this margin, which it has by what is told, and so does the last line of the last frame.
pub(crate) fn has_true_margin(mission: &Mission, lines: &[ReportLine], f: u32, margin: bool) -> bool
    requires frame { f < (data_of mission.now).frames }
    requires margin { IsTrue margin ↔ HasMarginTold (data_of mission.now) lines.now f }
    ensures { IsTrue result ↔ TellsTrueMargin (data_of mission.now) lines.now f }
{
    margin_at(mission, lines, f, mission.parts().units) == margin
        && (f < mission.frames() - 1 || margin_at(mission, lines, mission.frames(), 0) == margin)
}
