//! Lines of a report, read back.

ghost use Rattle.std.specs.Prelude.{◌≡◌, ℕ, ℤ, ◌<◌, ◌^◌, List, ◌∷◌, ◌++◌, [], Bool, Option, IfSome, Some, codes, ◌==◌, length, map, IfNone};
ghost use Rattle.std.specs.Fmt.{decimal};
ghost use Rattle.arrayvec.specs.ArrayVec.{ArrayVec as Items};
ghost use Rattle.sift_base.specs.Units.{unit_limit};
ghost use Rattle.sift_line.specs.Bad.{version_of};
ghost use Rattle.sift_line.specs.Line.{HasVersion, IsLine, fields_of, line_text};
ghost use Rattle.sift_line.specs.Part.{unit_digit, blank};
ghost use Rattle.sift_line.specs.declared.catch.Bad.{Bad as Told};
ghost use Rattle.std.specs.List.{slice_split};
ghost use Rattle.sift_line.specs.OneSheet.{OneLineOfAText, OneSheetOfAText};
ghost use Rattle.sift_line.specs.Texts.{LinesAreTexts, LinesComeApart};
ghost use Rattle.sift_line.specs.Versions.{LinesTellTheirVersion};

use crate::catch::bad_field;
use crate::line::{ReportLine, Version};
use crate::part::field;
use arrayvec::ArrayVec;
use sift_base::UnitId;

// ---- the forms of lines, each read from its fields

/// The line of a unit that tells its account, from its fields.
pub fn read_unit_line(
    f: &str,
    u: &str,
    cfg: &str,
    clk: &str,
    ins: &str,
    outs: &str,
    bad: &str,
    version: Version,
) -> Option<ReportLine>
    ensures line { IfSome result IsLine }
    ensures version { IfSome result (HasVersion version) }
    ensures printed { IfSome result (λ line. fields_of line
        ≡ f.now ∷ u.now ∷ cfg.now ∷ clk.now ∷ ins.now ∷ outs.now ∷ bad.now ∷ []) }
    ensures exact { (n v : ℕ) (us : List ℕ) (ticks : ℤ) (agreed voted : Items ℕ) (caught : Told)
        → IsLine (ReportLine.Unit n v us ticks agreed voted caught) → version_of caught ≡ version
        → fields_of (ReportLine.Unit n v us ticks agreed voted caught)
        ≡ f.now ∷ u.now ∷ cfg.now ∷ clk.now ∷ ins.now ∷ outs.now ∷ bad.now ∷ []
        → result ≡ Some (ReportLine.Unit n v us ticks agreed voted caught) }
{
    let (f, u) = read_head(f, u)?;
    let cfg = field(cfg, "cfg=")?;
    let clk = field(clk, "clk=")?;
    let bad = bad_field(bad, "bad=", version)?;
    let ins = field(ins, "in=")?;
    let outs = field(outs, "out=")?;
    Some(ReportLine::Unit {
        f,
        u,
        cfg,
        clk,
        ins,
        outs,
        bad,
    })
}

/// The line of a unit that tells no account, from its fields: the last one is its state.
pub fn read_state_line(f: &str, u: &str, state: &str) -> Option<ReportLine>
    ensures line { IfSome result IsLine }
    ensures printed { IfSome result (λ line. fields_of line ≡ f.now ∷ u.now ∷ state.now ∷ []) }
    ensures exact { (line : ReportLine) → IsLine line → fields_of line ≡ f.now ∷ u.now ∷ state.now ∷ [] → result ≡ Some line }
{
    let (f, u) = read_head(f, u)?;
    match state {
        "faulty" => Some(ReportLine::Faulty { f, u }),
        "idle" => Some(ReportLine::Idle { f, u }),
        _ => None,
    }
}

/// The frame and the unit that a line of a unit begins with, from their fields.
fn read_head(f: &str, u: &str) -> Option<(u32, UnitId)>
    ensures part { IfSome result (λ head. (head.0 < 2 ^ 32) × (head.1 < unit_limit)) }
    ensures printed { IfSome result (λ head. (codes "f=" ++ decimal head.0 ≡ f.now) × (codes "u=" ++ unit_digit head.1 ∷ [] ≡ u.now)) }
    ensures exact { (n v : ℕ) → n < 2 ^ 32 → v < unit_limit → codes "f=" ++ decimal n ≡ f.now → codes "u=" ++ unit_digit v ∷ [] ≡ u.now
        → result ≡ Some (n, v) }
{
    let f = field(f, "f=")?;
    let u = field(u, "u=")?;
    Some((f, u))
}

/// A line of four fields: the last one, or that of a whole frame.
pub fn read_frame_or_last_line(
    first: &str,
    second: &str,
    third: &str,
    margin: &str,
) -> Option<ReportLine>
    ensures line { IfSome result IsLine }
    ensures printed { IfSome result (λ line. fields_of line ≡ first.now ∷ second.now ∷ third.now ∷ margin.now ∷ []) }
    ensures exact { (line : ReportLine) → IsLine line → fields_of line ≡ first.now ∷ second.now ∷ third.now ∷ margin.now ∷ []
        → result ≡ Some line }
{
    match first {
        "end" => read_last_line(second, third, margin),
        frame => read_frame_line(frame, second, third, margin),
    }
}

/// The line of a whole frame, from its fields.
fn read_frame_line(f: &str, skew: &str, slack: &str, margin: &str) -> Option<ReportLine>
    ensures line { IfSome result IsLine }
    ensures printed { IfSome result (λ line. fields_of line ≡ f.now ∷ skew.now ∷ slack.now ∷ margin.now ∷ []) }
    ensures exact { (n : ℕ) (most left : Option ℤ) (has : Bool) → IsLine (ReportLine.Frame n most left has)
        → fields_of (ReportLine.Frame n most left has) ≡ f.now ∷ skew.now ∷ slack.now ∷ margin.now ∷ []
        → result ≡ Some (ReportLine.Frame n most left has) }
{
    let f = field(f, "f=")?;
    let skew = field(skew, "skew=")?;
    let slack = field(slack, "slack=")?;
    let margin = field(margin, "margin=")?;
    Some(ReportLine::Frame {
        f,
        skew,
        slack,
        margin,
    })
}

/// The last line, from its fields behind the first.
fn read_last_line(frames: &str, cfg: &str, margin: &str) -> Option<ReportLine>
    ensures line { IfSome result IsLine }
    ensures printed { IfSome result (λ line. fields_of line ≡ codes "end" ∷ frames.now ∷ cfg.now ∷ margin.now ∷ []) }
    ensures exact { (n : ℕ) (us : List ℕ) (has : Bool) → IsLine (ReportLine.Last n us has)
        → fields_of (ReportLine.Last n us has) ≡ codes "end" ∷ frames.now ∷ cfg.now ∷ margin.now ∷ []
        → result ≡ Some (ReportLine.Last n us has) }
{
    let frames = field(frames, "frames=")?;
    let cfg = field(cfg, "cfg=")?;
    let margin = field(margin, "margin=")?;
    Some(ReportLine::Last {
        frames,
        cfg,
        margin,
    })
}

// ---- lines

/// The line that a report of this version prints so, without a line feed, where there is one. It takes no memory.
pub fn read_line(line: &str, version: Version) -> Option<ReportLine>
    ensures line { IfSome result IsLine }
    ensures version { IfSome result (HasVersion version) }
    ensures printed { IfSome result (λ read. line_text read ≡ line.now) }
    ensures exact { (l : ReportLine) → IsLine l → HasVersion version l → line_text l ≡ line.now → result ≡ Some l }
{
    let fields = split_fields(line)?;
    read_fields(&fields, version)
}

/// The fields of a line, where there are at most eight.
fn split_fields<'a>(line: &'a str) -> Option<ArrayVec<&'a str, 8>>
    ensures split { IfSome result (λ fields. map (λ f. f.now) fields.items ≡ slice_split (λ b. b == blank) line.now) }
    ensures too_many { IfNone result (8 < length (slice_split (λ b. b == blank) line.now)) }
{
    // No line has more than eight fields, so what has more is none.
    let mut fields = ArrayVec::new();
    for field in line.split(' ') {
        fields.try_push(field).ok()?;
    }
    Some(fields)
}

/// The line that has these fields, where there is one. How many there are, and a fixed word, tell its form.
fn read_fields(fields: &[&str], version: Version) -> Option<ReportLine>
    ensures line { IfSome result IsLine }
    ensures version { IfSome result (HasVersion version) }
    ensures printed { IfSome result (λ line. fields_of line ≡ map (λ f. f.now) fields.now) }
    ensures exact { (line : ReportLine) → IsLine line → HasVersion version line
        → fields_of line ≡ map (λ f. f.now) fields.now → result ≡ Some line }
{
    match *fields {
        [f, u, cfg, clk, ins, outs, bad] => {
            read_unit_line(f, u, cfg, clk, ins, outs, bad, version)
        }
        [f, u, state] => read_state_line(f, u, state),
        [first, second, third, margin] => read_frame_or_last_line(first, second, third, margin),
        _ => None,
    }
}

// ---- laws

/// The text of a line that names a unit is read in the line's own version alone.
pub fn lines_tell_their_version()
    ensures { LinesTellTheirVersion }
{}

/// The bytes of each line are a text: they are ASCII.
pub fn lines_are_texts()
    ensures { LinesAreTexts }
{}

/// Line feeds cut the lines out of a report: no line has one.
pub fn lines_come_apart()
    ensures { LinesComeApart }
{}

/// A text is that of one line of a version at most.
pub fn one_line_of_a_text()
    ensures { OneLineOfAText }
{}

/// A text is that of one list of lines of a version at most: whoever reads a report reads one sheet.
pub fn one_sheet_of_a_text()
    ensures { OneSheetOfAText }
{}
