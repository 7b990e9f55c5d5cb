//! The lines of a report, their versions, and what each field of a line holds, by its type.

ghost use Rattle.std.specs.Prelude.{◌<◌, ◌^◌, IfSome};
ghost use Rattle.std.specs.Int.{w64};
ghost use Rattle.std.specs.Int.RustNames.{FitsSigned};
ghost use Rattle.std.specs.List.{All};
ghost use Rattle.sift_line.specs.Bad.{IsBad};
ghost use Rattle.sift_line.specs.Line.{IsLine};

use crate::catch::Bad;
use arrayvec::ArrayVec;
use sift_base::{UnitId, Word};
use sift_config::Config;

// ---- versions

/// The version of a report: how its lines tell whom a unit caught. All else is told alike.
#[derive(Clone, Copy)]
pub enum Version {
    /// Version 1: the units that were caught.
    One,
    /// Version 2: these units, and the ways in which each was caught.
    Two,
}

// ---- lines

/// A line of a report.
#[derive(Drop)]
pub enum ReportLine {
    /// What a working unit of its own configuration tells of a frame.
    Unit {
        f: u32,
        u: UnitId,
        cfg: Config,
        clk: i64,
        ins: ArrayVec<Word, 8>,
        outs: ArrayVec<Word, 64>,
        bad: Bad,
    },
    /// The unit is faulty in the frame.
    Faulty {
        f: u32,
        u: UnitId,
    },
    /// The unit works in the frame, and is outside its own configuration.
    Idle {
        f: u32,
        u: UnitId,
    },
    /// What is told of a whole frame.
    Frame {
        f: u32,
        skew: Option<i64>,
        slack: Option<i64>,
        margin: bool,
    },
    /// The end of the report.
    Last {
        frames: u32,
        cfg: Config,
        margin: bool,
    },
}

// ---- what each field holds

impl ReportLine {
    /// Each field of a line holds what it can. Words and ticks are known to be in range where they are read, so all of them are
    /// read here. Of a line that was read back its readers tell this, part by part.
    pub fn holds_its_fields(&self)
        ensures { IsLine self.now }
    {
        match self {
            ReportLine::Unit {
                f,
                u,
                cfg,
                clk,
                ins,
                outs,
                bad,
            } => {
                let _numbers = (*f, *clk);
                u.get();
                cfg.len();
                are_words(ins);
                are_words(outs);
                are_units(bad);
            }
            ReportLine::Faulty { f, u } | ReportLine::Idle { f, u } => {
                let _number = *f;
                u.get();
            }
            ReportLine::Frame { f, skew, slack, .. } => {
                let _number = *f;
                are_ticks(*skew);
                are_ticks(*slack);
            }
            ReportLine::Last { frames, cfg, .. } => {
                let _number = *frames;
                cfg.len();
            }
        }
    }
}

/// Ticks are a number of 64 bits, where there are some.
fn are_ticks(ticks: Option<i64>)
    ensures { IfSome ticks (FitsSigned w64) }
{
    if let Some(number) = ticks {
        let _number = number;
    }
}

/// Each of these is a word.
fn are_words(words: &[Word])
    ensures { All (λ w. w < 2 ^ 16) words.now }
{
    match words {
        [] => {}
        [first, others @ ..] => {
            first.get();
            are_words(others);
        }
    }
}

/// Each unit that was caught is one.
fn are_units(bad: &Bad)
    ensures { IsBad bad.now }
{
    match bad {
        Bad::Plain(units) => {
            units.bits();
        }
        Bad::ByKind(caught) => {
            caught.poll.bits();
            caught.relay.bits();
            caught.clock.bits();
        }
    }
}
