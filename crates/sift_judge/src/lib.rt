//! Reports judged: whether the lines of a report have the headline that each report of a mission has.
#![tactic(auto)]

mod faults;
mod form;
mod judging;
mod words;
mod working;

pub use judging::{
    Verdict, judge, lines_have_one_verdict, sheets_are_judged_yes, yes_is_where_nothing_breaks,
};
