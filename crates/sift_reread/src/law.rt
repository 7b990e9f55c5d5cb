//! The laws of reports, and of what the program answers.

ghost use Rattle.sift_reread.specs.Laws.{EndingsAreExplained, ReportsAreTexts, ReportsStopNowhere, TextsStopOnce};

use sift_line::{lines_are_texts, lines_come_apart};

/// A report stops at no line to be one: it is never told that a line of it is none.
pub fn reports_stop_nowhere()
    ensures { ReportsStopNowhere }
{
    lines_come_apart();
}

/// A text stops at one line at most to be a report.
pub fn texts_stop_once()
    ensures { TextsStopOnce }
{
    lines_come_apart();
}

/// A report is UTF-8.
pub fn reports_are_texts()
    ensures { ReportsAreTexts }
{
    lines_are_texts();
}

/// A report is written again, of a text that stops to be one the number of that line is written, and bytes that are no text
/// or too many are said to be that; unless a side has a fault, or memory is wanting.
pub fn endings_are_explained()
    ensures { EndingsAreExplained }
{
    reports_stop_nowhere();
    texts_stop_once();
    reports_are_texts();
}
