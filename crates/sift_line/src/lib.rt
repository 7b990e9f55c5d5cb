//! The lines of a report: what a line is, its text, and how it is read back.
#![tactic(auto)]

mod catch;
mod line;
mod number;
mod part;
mod print;
mod read;

pub use catch::Bad;
pub use line::{ReportLine, Version};
pub use number::{Item, push_list};
pub use print::{push_head, push_line, push_unit, push_word};
pub use read::{
    lines_are_texts, lines_come_apart, lines_tell_their_version, one_line_of_a_text,
    one_sheet_of_a_text, read_line,
};
