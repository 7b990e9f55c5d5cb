//! The form of a report: which lines stand where, and what each tells.

ghost use Rattle.std.specs.Prelude.{◌≡◌, ◌≤◌, option_map, ◌<◌, ◌↔◌, ℕ, true, IfNone, IfSome, IsSomeAnd, IsTrue, Option, ℤ, Bool, List, length, ◌+◌, ◌*◌, Some};
ghost use Rattle.sift_mission.specs.Parts.{data_of};
ghost use Rattle.sift_report.specs.Told.{line_at, told_at, works_in};
ghost use Rattle.sift_judge.specs.Clocks.{clock_told};
ghost use Rattle.sift_base.specs.Units.{holds};
ghost use Rattle.sift_report.specs.Headline.{HasForm, IsUnitsLine};
ghost use Rattle.sift_line.specs.declared.line.ReportLine.TheVariants.{Frame as frame, Last as last};
ghost use Rattle.sift_judge.specs.Turns.{HasForms, IsFirstWithoutForm};

use sift_base::{UnitId, UnitSet, Word};
use sift_config::Config;
use sift_mission::Mission;
use sift_report::ReportLine;

// ---- what lines tell

/// Line i of a frame, where there is one: the lines of the units come in their order, and then that of the whole frame. After the
/// last frame only the last line is left.
fn line_at<'a>(mission: &Mission, lines: &'a [ReportLine], f: u32, i: u8) -> Option<&'a ReportLine>
    requires frame { f ≤ (data_of mission.now).frames }
    ensures { option_map (λ line. line.now) result ≡ line_at (data_of mission.now) lines.now f i }
{
    let width = usize::from(mission.parts().units) + 1;
    lines.get(f as usize * width + usize::from(i))
}

/// The configuration that line i of a frame tells, where it tells one.
pub(crate) fn config_at(mission: &Mission, lines: &[ReportLine], f: u32, i: u8) -> Option<Config>
    requires frame { f ≤ (data_of mission.now).frames }
    ensures { result ≡ (told_at (data_of mission.now) lines.now f i).config }
{
    match line_at(mission, lines, f, i)? {
        ReportLine::Unit { cfg, .. } | ReportLine::Last { cfg, .. } => Some(*cfg),
        _ => None,
    }
}

/// The agreed words that a unit tells.
pub(crate) fn inputs_told<'a>(
    mission: &Mission,
    lines: &'a [ReportLine],
    f: u32,
    u: UnitId,
) -> &'a [Word]
    requires frame { f ≤ (data_of mission.now).frames }
    ensures { result.now ≡ (told_at (data_of mission.now) lines.now f u).inputs }
{
    match line_at(mission, lines, f, u.get()) {
        Some(ReportLine::Unit { ins, .. }) => ins.as_slice(),
        _ => &[],
    }
}

/// The voted words that a unit tells.
pub(crate) fn outputs_told<'a>(
    mission: &Mission,
    lines: &'a [ReportLine],
    f: u32,
    u: UnitId,
) -> &'a [Word]
    requires frame { f ≤ (data_of mission.now).frames }
    ensures { result.now ≡ (told_at (data_of mission.now) lines.now f u).outputs }
{
    match line_at(mission, lines, f, u.get()) {
        Some(ReportLine::Unit { outs, .. }) => outs.as_slice(),
        _ => &[],
    }
}

/// The offset of its clock that a unit tells, in ticks.
pub(crate) fn clock_told(mission: &Mission, lines: &[ReportLine], f: u32, u: UnitId) -> i64
    requires frame { f ≤ (data_of mission.now).frames }
    ensures { result ≡ clock_told (data_of mission.now) lines.now f u }
{
    match line_at(mission, lines, f, u.get()) {
        Some(ReportLine::Unit { clk, .. }) => *clk,
        _ => 0,
    }
}

/// The units that a unit tells that it caught, in whatever way.
pub(crate) fn caught_told(mission: &Mission, lines: &[ReportLine], f: u32, u: UnitId) -> UnitSet
    requires frame { f ≤ (data_of mission.now).frames }
    ensures { result ≡ (told_at (data_of mission.now) lines.now f u).caught }
{
    match line_at(mission, lines, f, u.get()) {
        Some(ReportLine::Unit { bad, .. }) => bad.units(),
        _ => UnitSet::empty(),
    }
}

/// The skew and the slack that the line of a whole frame tells, in ticks.
pub(crate) fn figures_told(
    mission: &Mission,
    lines: &[ReportLine],
    f: u32,
) -> (Option<i64>, Option<i64>)
    requires frame { f ≤ (data_of mission.now).frames }
    ensures skew { result.0 ≡ (told_at (data_of mission.now) lines.now f (data_of mission.now).units).skew }
    ensures slack { result.1 ≡ (told_at (data_of mission.now) lines.now f (data_of mission.now).units).slack }
{
    match line_at(mission, lines, f, mission.parts().units) {
        Some(ReportLine::Frame { skew, slack, .. }) => (*skew, *slack),
        _ => (None, None),
    }
}

/// The margin that line i of a frame tells, or that it is lost where the line tells none.
pub(crate) fn margin_at(mission: &Mission, lines: &[ReportLine], f: u32, i: u8) -> bool
    requires frame { f ≤ (data_of mission.now).frames }
    ensures { result ≡ (told_at (data_of mission.now) lines.now f i).margin }
{
    match line_at(mission, lines, f, i) {
        Some(ReportLine::Frame { margin, .. } | ReportLine::Last { margin, .. }) => *margin,
        _ => false,
    }
}

// ---- which stand where

/// The first frame whose lines don't stand in their places, where there is one.
pub(crate) fn first_without_form(mission: &Mission, lines: &[ReportLine]) -> Option<u32>
    ensures found { IfSome result (λ f. IsFirstWithoutForm (data_of mission.now) lines.now f) }
    ensures none { IfNone result (HasForms (data_of mission.now) lines.now) }
{
    for f in 0..mission.frames() {
        if !has_form(mission, lines, f) {
            return Some(f);
        }
    }
    None
}

/// Whether the lines of a frame stand in their places.
fn has_form(mission: &Mission, lines: &[ReportLine], f: u32) -> bool
    requires frame { f < (data_of mission.now).frames }
    ensures { IsTrue result ↔ HasForm (data_of mission.now) lines.now f }
{
    has_units_lines(mission, lines, f)
        && (has_frames_line(mission, lines, f)
            && (f < mission.frames() - 1 || has_end(mission, lines)))
}

/// Whether each unit has its line in a frame.
fn has_units_lines(mission: &Mission, lines: &[ReportLine], f: u32) -> bool
    requires frame { f < (data_of mission.now).frames }
    ensures { IsTrue result ↔ ((u : ℕ) → u < (data_of mission.now).units
        → IsSomeAnd (line_at (data_of mission.now) lines.now f u) (IsUnitsLine (data_of mission.now) f u)) }
{
    let everyone = mission.everyone();
    for i in 0..everyone.len() {
        if !has_units_line(mission, lines, f, everyone.unit_at(i)) {
            return false;
        }
    }
    true
}

/// Whether a unit has its line in a frame.
fn has_units_line(mission: &Mission, lines: &[ReportLine], f: u32, u: UnitId) -> bool
    requires frame { f < (data_of mission.now).frames }
    ensures { IsTrue result ↔ IsSomeAnd (line_at (data_of mission.now) lines.now f u) (IsUnitsLine (data_of mission.now) f u) }
{
    match line_at(mission, lines, f, u.get()) {
        Some(line) => is_units_line(mission, f, u, line),
        None => false,
    }
}

/// Whether a line is one of a unit in a frame.
fn is_units_line(mission: &Mission, f: u32, u: UnitId, line: &ReportLine) -> bool
    ensures { IsTrue result ↔ IsUnitsLine (data_of mission.now) f u line.now }
{
    match line {
        ReportLine::Unit {
            f: g,
            u: v,
            cfg,
            ins,
            outs,
            bad,
            ..
        } => {
            is_of(mission, f, u, *g, *v, true)
                && is_full(mission, cfg.units(), bad.units(), ins.len(), outs.len())
        }
        ReportLine::Idle { f: g, u: v } => is_of(mission, f, u, *g, *v, true),
        ReportLine::Faulty { f: g, u: v } => is_of(mission, f, u, *g, *v, false),
        _ => false,
    }
}

/// Whether a line names this frame and this unit, which works there or doesn't.
fn is_of(mission: &Mission, f: u32, u: UnitId, g: u32, v: UnitId, works: bool) -> bool
    ensures { IsTrue result ↔ ((g ≡ f) × (v ≡ u) × (works_in (data_of mission.now) u f ≡ works)) }
{
    g == f && (v == u && mission.works(u, f) == works)
}

/// Whether a line tells of the mission's units alone, and has a word for each sensor and for each output.
fn is_full(
    mission: &Mission,
    config: UnitSet,
    caught: UnitSet,
    inputs: usize,
    outputs: usize,
) -> bool
    ensures { IsTrue result ↔ (((w : ℕ) → holds config w ≡ true → w < (data_of mission.now).units)
        × ((w : ℕ) → holds caught w ≡ true → w < (data_of mission.now).units)
        × (inputs ≡ (data_of mission.now).layout.sensors) × (outputs ≡ (data_of mission.now).layout.words)) }
{
    let layout = &mission.parts().layout;
    are_units_of(mission, config)
        && (are_units_of(mission, caught)
            && (inputs == usize::from(layout.sensors) && outputs == usize::from(layout.words)))
}

/// Whether each of these units is one of the mission.
fn are_units_of(mission: &Mission, units: UnitSet) -> bool
    ensures { IsTrue result ↔ ((w : ℕ) → holds units w ≡ true → w < (data_of mission.now).units) }
{
    units.minus(mission.everyone().units()).len() == 0
}

/// Whether the frame has its own line.
fn has_frames_line(mission: &Mission, lines: &[ReportLine], f: u32) -> bool
    requires frame { f < (data_of mission.now).frames }
    ensures { IsTrue result ↔ ((skew : Option ℤ) × (slack : Option ℤ) × (margin : Bool)
        × (line_at (data_of mission.now) lines.now f (data_of mission.now).units ≡ Some (frame f skew slack margin))) }
{
    let Some(line) = line_at(mission, lines, f, mission.parts().units) else {
        return false;
    };
    match line {
        ReportLine::Frame { f: g, .. } => *g == f,
        _ => false,
    }
}

/// Whether the last line stands behind the last frame, and nothing behind it.
fn has_end(mission: &Mission, lines: &[ReportLine]) -> bool
    ensures { IsTrue result ↔ (((cfg : List ℕ) × (margin : Bool)
        × (line_at (data_of mission.now) lines.now (data_of mission.now).frames 0 ≡ Some (last (data_of mission.now).frames cfg margin)))
        × (length lines.now ≡ (data_of mission.now).frames * ((data_of mission.now).units + 1) + 1)) }
{
    has_last_line(mission, lines) && lines.len() == line_count(mission)
}

/// Whether the last line stands behind the last frame.
fn has_last_line(mission: &Mission, lines: &[ReportLine]) -> bool
    ensures { IsTrue result ↔ ((cfg : List ℕ) × (margin : Bool)
        × (line_at (data_of mission.now) lines.now (data_of mission.now).frames 0 ≡ Some (last (data_of mission.now).frames cfg margin))) }
{
    let Some(line) = line_at(mission, lines, mission.frames(), 0) else {
        return false;
    };
    match line {
        ReportLine::Last { frames, .. } => *frames == mission.frames(),
        _ => false,
    }
}

/// How many lines a report of the mission has.
fn line_count(mission: &Mission) -> usize
    ensures { result ≡ (data_of mission.now).frames * ((data_of mission.now).units + 1) + 1 }
{
    let width = usize::from(mission.parts().units) + 1;
    mission.frames() as usize * width + 1
}
