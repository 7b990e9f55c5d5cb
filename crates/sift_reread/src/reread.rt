//! A report, read back line by line and printed again.

ghost use Rattle.std.specs.Prelude.{◌≡◌, ◌++◌, IfErr, IfNone, IfOk, IfSome, string_bytes};
ghost use Rattle.sift_line.specs.Line.{printed};
ghost use Rattle.sift_reread.specs.Report.{BeginsWithNoLine, IsLineIn, IsReport, IsReportIn, IsStopped, IsStoppedIn};
ghost use Rattle.sift_reread.specs.declared.reread.Stop.TheVariants.{NoMemory};

use sift_line::{ReportLine, Version, push_line, read_line};
use std::alloc::{AllocError, Global};

/// Why a text is not printed again.
#[derive(Clone, Copy)]
pub enum Stop {
    /// The line of this number, from 1 on, is none of a report.
    NoLine(usize),
    /// There was no memory for the text.
    NoMemory,
}

impl From<AllocError> for Stop {
    ghost from_gives = { λ _ stop. stop ≡ NoMemory };

    fn from(_: AllocError) -> Self {
        Stop::NoMemory
    }
}

/// The report of either version, read line by line and printed again, or where it stops to be one: the later line of the
/// two at which it stops to be one of version 2 and one of version 1.
pub fn reread(alloc: Global, report: &str) -> Result<String, Stop>
    ensures same { IfOk result (λ text. string_bytes text ≡ report.now) }
    ensures read { IfOk result (λ text. IsReport (string_bytes text)) }
    ensures stopped { IfErr result (λ stop. IsStopped stop report.now) }
{
    match reread_in(alloc, report, Version::Two) {
        Err(Stop::NoLine(two)) => match reread_in(alloc, report, Version::One) {
            Err(Stop::NoLine(one)) => Err(Stop::NoLine(one.max(two))),
            reread => reread,
        },
        reread => reread,
    }
}

/// The report of this version, read line by line and printed again, or where it stops to be one. It has no more lines than
/// bytes.
fn reread_in(alloc: Global, report: &str, version: Version) -> Result<String, Stop>
    ensures same { IfOk result (λ text. string_bytes text ≡ report.now) }
    ensures read { IfOk result (λ text. IsReportIn version (string_bytes text)) }
    ensures stopped { IfErr result (λ stop. IsStoppedIn version stop report.now) }
{
    let mut text = String::new(alloc);
    let mut rest = report;
    for lines in 0..report.len() {
        if rest.is_empty() {
            break;
        }
        let Some((line, later)) = first_line(rest, version) else {
            return Err(Stop::NoLine(lines + 1));
        };
        push_line(&mut text, &line)?;
        rest = later;
    }
    Ok(text)
}

/// The line of this version that a text begins with, and the text behind it, where it begins with one.
fn first_line(text: &str, version: Version) -> Option<(ReportLine, &str)>
    ensures line { IfSome result (λ begun. IsLineIn version begun.0) }
    ensures begun { IfSome result (λ begun. printed begun.0 ++ begun.1.now ≡ text.now) }
    ensures none { IfNone result (BeginsWithNoLine version text.now) }
{
    let (line, later) = text.split_once('\n')?;
    Some((read_line(line, version)?, later))
}
