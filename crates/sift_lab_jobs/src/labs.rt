//! The commands about laboratories: `byz` and `clocks`.

ghost use Rattle.std.specs.Prelude.{◌≡◌, IfOk};
ghost use Rattle.sift_lab_jobs.specs.Byz.{ByzGives, ByzGivesFor, broken_rule};
ghost use Rattle.toml.specs.View.{table_view};
ghost use Rattle.sift_lab_jobs.specs.Clocks.{ClocksGives};
ghost use Rattle.sift_lab_jobs.specs.Shown.{NoSkewIsOverTheBound, StatedByzPlansAgree};

use sift_base::{NoMemory, Stop};
use sift_byz::{
    byz_plans_are_accepted, exchange, loyal_values_are_kept, one_byz_plan, one_refusal, read_byz,
    stated_byz_plans_are_lawful, vectors_are_equal, vectors_text,
};
use sift_clocklab::{
    LabStop, drawn, drawn_runs_are_kept, drawn_runs_are_of_the_draws, lab_text,
    most_is_within_the_bound, one_text_of_a_run, run_lab,
};
use sift_document::BrokenRule;
use sift_load::{DOCUMENT_LIMIT, read_document};
use sift_options::{Flag, Numbers, Options, within};
use sift_reply::{Begun, Reply, Work};
use sift_row::Command;
use std::alloc::Global;
use std::marker::Model;
use toml::Table;

// ---- `byz`

/// `byz`: tells the vectors of the plan that the input states.
#[derive(Clone, Copy)]
pub struct ByzJob;

impl<M: Drop, W: Work> Command<M, W> for ByzJob {
    ghost use Rattle.sift_lab_jobs.specs.Byz.{byz_row};

    ghost row_of = { λ means. byz_row };

    fn word() -> &'static str {
        "byz"
    }

    fn flags() -> &'static [Flag] {
        &[]
    }

    fn of(_options: Options<'_>) -> Option<Self> {
        Some(ByzJob)
    }

    fn limit(self) -> Option<u32> {
        Some(DOCUMENT_LIMIT)
    }

    fn begin(self, alloc: Global, _means: M, bytes: &[u8]) -> Result<Begun<W>, NoMemory> {
        Ok(Begun::Replied(reply_to(alloc, bytes)?))
    }

    fn keeps_its_row() {
        one_byz_plan();
        byz_plans_are_accepted();
        one_refusal();
    }
}

/// The reply to these bytes.
fn reply_to(alloc: Global, bytes: &[u8]) -> Result<Reply, NoMemory>
    ensures { IfOk result (ByzGives bytes.now) }
{
    match read_document(alloc, bytes) {
        Ok(document) => reply_for(alloc, &document),
        Err(Stop::Refused(why)) => why.reply(alloc),
        Err(Stop::NoMemory) => Err(NoMemory),
    }
}

/// The reply for a document.
fn reply_for(alloc: Global, document: &Table) -> Result<Reply, NoMemory>
    ensures { IfOk result (ByzGivesFor (table_view document.now)) }
{
    match read_byz(alloc, document) {
        Ok(plan) => {
            let vectors = exchange(alloc, &plan)?;
            let text = vectors_text(alloc, &plan, &vectors)?;
            Ok(Reply::done(text))
        }
        Err(Stop::Refused(broken)) => broken_rule(alloc, broken),
        Err(Stop::NoMemory) => Err(NoMemory),
    }
}

/// The reply to a document that breaks a rule, at the entry of a lie.
fn broken_rule(alloc: Global, broken: BrokenRule) -> Result<Reply, NoMemory>
    ensures { IfOk result (λ reply. reply ≡ broken_rule broken) }
{
    let BrokenRule { number, place } = broken;
    let mut line = String::new(alloc);
    write!(line, "byz rule {number} at {place}\n")?;
    Ok(Reply::made(16, line))
}

// ---- `clocks`

/// `clocks`: runs the laboratory that is drawn from a number, with its faulty clocks, and tells how far apart the working
/// clocks are in each round. It reads nothing.
#[derive(Clone, Copy)]
pub struct ClocksJob {
    n: u8,
    m: u8,
    skew: u16,
    error: u16,
    rate: u16,
    rounds: u32,
    number: u64,
}

impl Model for ClocksJob {
    ghost use Rattle.std.specs.Prelude.{pos};
    ghost use Rattle.sift_clocklab.specs.Conditions.{AreInRange};
    ghost use Rattle.sift_lab_jobs.specs.Clocks.{LabNumbers};

    ghost Value = { LabNumbers };

    ghost view = { λ job. record { n = job.n; m = job.m; skew = job.skew; error = job.error; rate = job.rate; rounds = job.rounds; number = job.number } };

    ghost invariant = { λ job. AreInRange job.n job.m (pos job.skew) (pos job.error) (pos job.rate) job.rounds };

    ghost inverse = { λ lab. record { n = lab.n; m = lab.m; skew = lab.skew; error = lab.error; rate = lab.rate; rounds = lab.rounds; number = lab.number } };
}

/// How many clocks there are.
const N: Flag = Flag {
    name: "--n",
    numbers: Numbers::Any,
};

/// How many of them are faulty.
const M: Flag = Flag {
    name: "--m",
    numbers: Numbers::Any,
};

/// How far apart working clocks may be.
const SKEW: Flag = Flag {
    name: "--skew",
    numbers: Numbers::Any,
};

/// By how much a clock may be misread.
const ERROR: Flag = Flag {
    name: "--error",
    numbers: Numbers::Any,
};

/// By how much a clock may drift in a round.
const RATE: Flag = Flag {
    name: "--rate",
    numbers: Numbers::Any,
};

/// How many rounds they run.
const ROUNDS: Flag = Flag {
    name: "--rounds",
    numbers: Numbers::Any,
};

/// From which number all else is drawn.
const NUMBER: Flag = Flag {
    name: "--number",
    numbers: Numbers::Any,
};

impl ClocksJob {
    /// The reply: the text of the run that is drawn, or that its laboratory isn't admitted.
    fn reply(self, alloc: Global) -> Result<Reply, NoMemory>
        ensures { IfOk result (ClocksGives self) }
    {
        drawn_runs_are_of_the_draws();
        let (skew, error, rate) = (self.skew.into(), self.error.into(), self.rate.into());
        let (lab, mut face) = match drawn(
            alloc,
            self.n,
            self.m,
            skew,
            error,
            rate,
            self.rounds,
            self.number,
        ) {
            Ok(laboratory) => laboratory,
            Err(LabStop::NotAdmitted) => return Ok(Reply::fixed(17, "not admitted\n")),
            Err(LabStop::NoMemory) => return Err(NoMemory),
        };
        let run = run_lab(alloc, &lab, &mut face)?;
        let text = lab_text(alloc, &lab, &run)?;
        Ok(Reply::done(text))
    }
}

impl<T: Drop, W: Work> Command<T, W> for ClocksJob {
    ghost use Rattle.sift_lab_jobs.specs.Clocks.{clocks_row};

    ghost row_of = { λ means. clocks_row };

    fn word() -> &'static str {
        "clocks"
    }

    fn flags() -> &'static [Flag] {
        &[N, M, SKEW, ERROR, RATE, ROUNDS, NUMBER]
    }

    fn of(options: Options<'_>) -> Option<Self> {
        let n = within(options.number(N), 1, 32)? as u8;
        let m = within(options.number(M), 0, 10)? as u8;
        let skew = within(options.number(SKEW), 0, 8_000)? as u16;
        let error = within(options.number(ERROR), 0, 8_000)? as u16;
        let rate = within(options.number(RATE), 0, 8_000)? as u16;
        let rounds = within(options.number(ROUNDS), 1, 1_000)? as u32;
        let number = options.number(NUMBER)?;
        Some(ClocksJob {
            n,
            m,
            skew,
            error,
            rate,
            rounds,
            number,
        })
    }

    fn limit(self) -> Option<u32> {
        None
    }

    fn begin(self, alloc: Global, _means: T, _bytes: &[u8]) -> Result<Begun<W>, NoMemory> {
        Ok(Begun::Replied(self.reply(alloc)?))
    }

    fn keeps_its_row() {
        one_text_of_a_run();
    }
}

// ---- laws

/// Of each plan that an input states, `byz` tells one vector for all loyal units, and in it the value of each.
pub fn stated_byz_plans_agree()
    ensures { StatedByzPlansAgree }
{
    stated_byz_plans_are_lawful();
    vectors_are_equal();
    loyal_values_are_kept();
}

/// Of each laboratory that is admitted, `clocks` tells no skew over the one that its clocks are to keep.
pub fn no_skew_is_over_the_bound()
    ensures { NoSkewIsOverTheBound }
{
    drawn_runs_are_kept();
    most_is_within_the_bound();
}
