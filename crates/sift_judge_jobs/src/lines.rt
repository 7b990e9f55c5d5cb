//! The lines of the report behind a document.

ghost use Rattle.std.specs.Prelude.{◌≡◌, ◌≤◌, ◌↔◌, List, ℕ, IfNone, IfSome, IsTrue, length, take, Some, ◌≢◌, ◌==◌, ◌<◌, ◌∷◌, [], IfErr, IfOk};
ghost use Rattle.sift_judge_jobs.specs.Divided.{AreDivided, AreUndivided, AreWholeLines, StandsBetween};
ghost use Rattle.sift_line.specs.Line.{line_text};
ghost use Rattle.sift_line.specs.declared.line.ReportLine.{ReportLine as Told};
ghost use Rattle.sift_judge_jobs.specs.Lines.{IsLineOf, AreAllRead, BeginsRefused, IsFirstRefused};
ghost use Rattle.std.specs.List.{position};
ghost use Rattle.sift_base.specs.Stop.{IfRefused};
ghost use Rattle.sift_line.specs.Texts.{line_feed, texts_of};

use sift_base::Stop;
use sift_report::{ReportLine, Version, lines_are_texts, read_line};
use std::alloc::Global;

// ---- an input, divided into a document and a report

/// The line that divides, with its line feed.
const DIVIDER: &[u8] = b"--- report ---\n";

/// The two parts of an input that a line divides.
#[derive(Clone, Copy)]
pub struct Divided<'a> {
    pub document: &'a [u8],
    pub report: &'a [u8],
}

/// The document and the report into which the first dividing line divides an input, where there
/// is one.
pub fn divide(bytes: &[u8]) -> Option<Divided<'_>>
    ensures divided { IfSome result (λ parts. AreDivided bytes.now parts.document.now parts.report.now) }
    ensures undivided { IfNone result (AreUndivided bytes.now) }
{
    for place in 0..bytes.len() {
        if let Some(report) = report_at(bytes, place) {
            let document = &bytes[..place];
            return Some(Divided { document, report });
        }
    }
    None
}

/// The report behind the divider that stands at a place as a line of its own, where it does.
fn report_at(bytes: &[u8], place: usize) -> Option<&[u8]>
    requires { place ≤ length bytes.now }
    ensures there { IfSome result (λ report. StandsBetween bytes.now (take place bytes.now) report.now) }
    ensures elsewhere { IfNone result ((document report : List ℕ) → length document ≡ place → ¬ StandsBetween bytes.now document report) }
{
    let (document, rest) = bytes.split_at(place);
    if !are_whole_lines(document) {
        return None;
    }
    rest.strip_prefix(DIVIDER)
}

/// Whether bytes are whole lines, so that the next one begins a line.
fn are_whole_lines(bytes: &[u8]) -> bool
    ensures { IsTrue result ↔ AreWholeLines bytes.now }
{
    matches!(bytes, [] | [.., b'\n'])
}

// ---- one line

/// The line of this version whose text the bytes are, where there is one. It takes no memory.
pub fn read_text(bytes: &[u8], version: Version) -> Option<ReportLine>
    ensures line { IfSome result (IsLineOf version) }
    ensures printed { IfSome result (λ line. line_text line ≡ bytes.now) }
    ensures exact { (line : Told) → IsLineOf version line → line_text line ≡ bytes.now → result ≡ Some line }
{
    lines_are_texts();
    let text = str::from_utf8(bytes).ok()?;
    read_line(text, version)
}

// ---- all lines

/// The lines of a report in this version, or the number, from 1 on, of the first that is refused.
pub fn read_lines(
    alloc: Global,
    report: &[u8],
    version: Version,
) -> Result<Vec<ReportLine>, Stop<usize>>
    ensures read { IfOk result (λ lines. AreAllRead version report.now lines.items) }
    ensures refused { IfErr result (IfRefused (IsFirstRefused version report.now)) }
{
    let mut lines = Vec::new(alloc);
    let mut rest = report;
    while !rest.is_empty() {
        let Some((line, later)) = first_line(rest, version) else {
            return Err(Stop::Refused(lines.len() + 1));
        };
        lines.push(line)?;
        rest = later;
    }
    Ok(lines)
}

/// The line that a report begins with, and the report behind it, where it begins with one.
fn first_line(report: &[u8], version: Version) -> Option<(ReportLine, &[u8])>
    requires { report.now ≢ [] }
    ensures line { IfSome result (λ begun. IsLineOf version begun.0) }
    ensures begun { IfSome result (λ begun. line_text begun.0 ∷ texts_of begun.1.now ≡ texts_of report.now) }
    ensures only { IfSome result (λ begun. (line : Told) → IsLineOf version line → line_text line ≡ line_text begun.0 → line ≡ begun.0) }
    ensures shorter { IfSome result (λ begun. length begun.1.now < length report.now) }
    ensures none { IfNone result (BeginsRefused version report.now) }
{
    let end = first_end(report)?;
    let line = read_text(&report[..end], version)?;
    Some((line, &report[end + 1..]))
}

/// Where the first line of a report ends, where a line feed ends it.
fn first_end(report: &[u8]) -> Option<usize>
    ensures { result ≡ position (λ byte. byte == line_feed) report.now }
{
    report.iter().position(|byte| *byte == b'\n')
}
