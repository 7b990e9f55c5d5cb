//! The judge: rule by rule, frame by frame, the forms of all frames first.

ghost use Rattle.std.specs.Prelude.{◌≡◌, ◌+◌, ◌<◌, ◌↔◌, IfNone, IfSome, IsTrue, length, true};
ghost use Rattle.sift_mission.specs.Parts.{data_of};
ghost use Rattle.sift_program.specs.Ideal.{ideal_words};
ghost use Rattle.sift_report.specs.Headline.{FrameHeadline, TellsSameConfiguration};
ghost use Rattle.sift_report.specs.Told.{HadMarginTold, HasMarginTold, agreed_told, shed_told};
ghost use Rattle.sift_judge.specs.Turns.{HasForms, IsFirstInFrame, KeepsFrame, KnowsBefore, RunsBefore};
ghost use Rattle.sift_judge.specs.Verdict.{IsVerdict};
ghost use Rattle.sift_judge.specs.Laws.{IsYesWhereNothingBreaks, OneVerdict, SheetsAreJudgedYes};

use crate::faults::{has_exact_removal, has_no_false_accusation};
use crate::form::first_without_form;
use crate::words::{has_clock_skew, has_ideal_outputs, has_same_inputs};
use crate::working::{
    agreed_told, has_same_configuration, has_true_margin, is_sound_told, shed_told,
};
use sift_mission::Mission;
use sift_program::Ideal;
use sift_report::{ReportLine, the_headline_is_printed};

// ---- what it answers

/// Whether lines are a report that a mission may have.
#[derive(Clone, Copy)]
pub enum Verdict {
    /// They are: they have the headline of its reports.
    Yes,
    /// They aren't: in this frame they break the rule of this number, 1 to 8, and no rule before it.
    No { frame: u32, rule: u8 },
}

// ---- the judge

/// Judges the lines of a report of a mission, without a flight. It takes no memory.
pub fn judge(mission: &Mission, lines: &[ReportLine]) -> Verdict
    ensures { IsVerdict (data_of mission.now) lines.now result }
{
    // Each other rule reads lines at their places, so all forms are judged first.
    match first_without_form(mission, lines) {
        Some(frame) => Verdict::No { frame, rule: 1 },
        None => judge_frames(mission, lines),
    }
}

/// Judges lines that stand in their places, frame by frame.
fn judge_frames(mission: &Mission, lines: &[ReportLine]) -> Verdict
    requires forms { HasForms (data_of mission.now) lines.now }
    ensures { IsVerdict (data_of mission.now) lines.now result }
{
    let mut ideal = Ideal::start(&mission.parts().program);
    let mut had_margin = true;
    for frame in 0..mission.frames() {
        let has_margin = has_margin_told(mission, lines, frame, had_margin);
        if let Some(rule) = first_broken(
            mission, lines, frame, had_margin, has_margin, &mut ideal,
        ) {
            return Verdict::No { frame, rule };
        }
        had_margin = has_margin;
    }
    Verdict::Yes
}

/// Whether a frame has margin by what is told, given whether each frame before it had.
fn has_margin_told(mission: &Mission, lines: &[ReportLine], f: u32, had_margin: bool) -> bool
    requires frame { f < (data_of mission.now).frames }
    requires had { IsTrue had_margin ↔ HadMarginTold (data_of mission.now) lines.now f }
    ensures { IsTrue result ↔ HasMarginTold (data_of mission.now) lines.now f }
{
    had_margin && is_sound_told(mission, lines, f)
}

/// The number of the first rule behind the form that the lines break in a frame, where they break one. Where they don't, the ideal
/// machine has run a frame with margin.
fn first_broken(
    mission: &Mission,
    lines: &[ReportLine],
    f: u32,
    had_margin: bool,
    has_margin: bool,
    ideal: &mut Ideal,
) -> Option<u8>
    requires known { KnowsBefore (data_of mission.now) lines.now f has_margin ideal.old }
    requires had { IsTrue had_margin ↔ HadMarginTold (data_of mission.now) lines.now f }
    ensures found { IfSome result (IsFirstInFrame (data_of mission.now) lines.now f) }
    ensures none { IfNone result (KeepsFrame (data_of mission.now) lines.now f) }
    ensures runs { IfNone result (RunsBefore (data_of mission.now) lines.now (f + 1) has_margin ideal.new) }
{
    if !keeps_configuration(mission, lines, f, had_margin) {
        return Some(2);
    }
    if let Some(rule) = first_with_margin(mission, lines, f, has_margin, ideal) {
        return Some(rule);
    }
    if !has_true_margin(mission, lines, f, has_margin) {
        return Some(8);
    }
    None
}

/// Whether all working units tell one configuration in a frame, where each frame before had margin.
fn keeps_configuration(mission: &Mission, lines: &[ReportLine], f: u32, had_margin: bool) -> bool
    requires frame { f < (data_of mission.now).frames }
    requires had { IsTrue had_margin ↔ HadMarginTold (data_of mission.now) lines.now f }
    ensures { IsTrue result ↔ (HadMarginTold (data_of mission.now) lines.now f → TellsSameConfiguration (data_of mission.now) lines.now f) }
{
    !had_margin || has_same_configuration(mission, lines, f)
}

/// The number of the first rule that the lines break, of those that are asked of a frame with margin.
fn first_with_margin(
    mission: &Mission,
    lines: &[ReportLine],
    f: u32,
    has_margin: bool,
    ideal: &mut Ideal,
) -> Option<u8>
    requires known { KnowsBefore (data_of mission.now) lines.now f has_margin ideal.old }
    requires configuration { HadMarginTold (data_of mission.now) lines.now f → TellsSameConfiguration (data_of mission.now) lines.now f }
    ensures found { IfSome result (IsFirstInFrame (data_of mission.now) lines.now f) }
    ensures none { IfNone result (HasMarginTold (data_of mission.now) lines.now f → FrameHeadline (data_of mission.now) lines.now f) }
    ensures runs { IfNone result (RunsBefore (data_of mission.now) lines.now (f + 1) has_margin ideal.new) }
{
    if !has_margin {
        return None;
    }
    run_ideal(ideal, mission, lines, f);
    if !has_same_inputs(mission, lines, f) {
        return Some(3);
    }
    if !has_ideal_outputs(mission, lines, f, ideal.outs()) {
        return Some(4);
    }
    if !has_no_false_accusation(mission, lines, f) {
        return Some(5);
    }
    if !has_exact_removal(mission, lines, f) {
        return Some(6);
    }
    if !has_clock_skew(mission, lines, f) {
        return Some(7);
    }
    None
}

/// Runs the ideal machine for a frame with margin, over the agreed words and the configuration told in it.
fn run_ideal(ideal: &mut Ideal, mission: &Mission, lines: &[ReportLine], f: u32)
    requires known { KnowsBefore (data_of mission.now) lines.now f true ideal.old }
    ensures words { ideal.new ≡ ideal_words (data_of mission.now).program (agreed_told (data_of mission.now) lines.now) (shed_told (data_of mission.now) lines.now) f }
    ensures as_many { length ideal.new ≡ length (data_of mission.now).program.starts }
{
    ideal.frame(
        &mission.parts().program,
        agreed_told(mission, lines, f),
        shed_told(mission, lines, f),
    );
}

// ---- laws

/// Lines have one verdict at most.
pub fn lines_have_one_verdict()
    ensures { OneVerdict }
{}

/// The lines of the report of a round flight are judged yes.
pub fn sheets_are_judged_yes()
    ensures { SheetsAreJudgedYes }
{
    the_headline_is_printed();
}

/// Lines are judged yes exactly where they break no rule, since they have a verdict.
pub fn yes_is_where_nothing_breaks(mission: &Mission, lines: &[ReportLine])
    ensures { IsYesWhereNothingBreaks (data_of mission.now) lines.now }
{
    judge(mission, lines);
}
