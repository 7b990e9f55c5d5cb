//! The texts of a flight: its report, its votes, and the outputs of the ideal machine.
#![tactic(auto)]

mod ideal;
mod law;
mod poll;
mod report;
mod votes;

pub use ideal::ideal_text;
pub use law::{
    alike_flights_have_one_text, caught_is_printed, fault_is_within_the_headline,
    first_liar_is_caught, sheets_have_their_version, sheets_tell_their_flights,
    the_headline_is_printed,
};
pub use report::{frame_line, last_line, last_line_text, report_text, unit_line};
pub use sift_line::{
    Bad, ReportLine, Version, lines_are_texts, lines_come_apart, lines_tell_their_version,
    one_line_of_a_text, one_sheet_of_a_text, push_line, read_line,
};
pub use votes::votes_text;
