//! Laboratories, their runs, and which of them are admitted.

ghost use Rattle.sift_clocklab.specs.Showing.{Showing, showing};
ghost use Rattle.std.specs.Prelude.{◌≡◌, ◌<◌, ◌^◌};
ghost use Rattle.sift_base.specs.Draw.{next_number};
ghost use Rattle.sift_clocklab.specs.Draws.{AllowsDrawn, spread};
ghost use Rattle.std.specs.Bool.{MatchBool};
ghost use Rattle.sift_clocklab.specs.Conditions.{AreInRange, IsAdmitted, IsRefused};
ghost use Rattle.sift_clocklab.specs.DrawnRuns.{DrawnRunsAreKept, DrawnRunsAreOfTheDraws};
ghost use Rattle.sift_clocklab.specs.Margin.{MarginLeavesRoom, NoFaultLeavesRoom};
ghost use Rattle.sift_clocklab.specs.Skew.{OffsetsAreKept};
ghost use Rattle.sift_clocklab.specs.Text.{MostIsWithinTheBound, OneTextOfARun};

use sift_base::Draw;

// ---- what faulty clocks show

/// The faulty clocks of a laboratory, as the working ones see them.
pub trait Face {
    /// The steps that it allows: a showing leads from the face before it to the face after it. One that
    /// promises nothing allows every step.
    ghost allows: { Self → Showing → Self → Type 0 };

    /// What a faulty clock shows the working clock `to` in a round, of which the first is 0: how far it is
    /// ahead, in ticks, or nothing.
    fn show(&mut self, round: u32, clock: u8, to: u8) -> Option<i32>
        ensures { allows self.old (showing round clock to result) self.new };
}

// ---- what is drawn for them to show

/// Faulty clocks that show what is drawn.
#[derive(Clone, Copy)]
pub struct Drawn {
    pub(crate) draw: Draw,
    /// The farthest reading that isn't too far.
    pub(crate) limit: u16,
}

impl Face for Drawn {
    ghost allows = { AllowsDrawn };

    fn show(&mut self, _round: u32, _clock: u8, _to: u8) -> Option<i32> {
        if self.draw.draw(4) == 0 {
            return None;
        }
        // By a tick beyond the limit, so that readings are shown that are too far.
        Some(spread(&mut self.draw, u32::from(self.limit) + 1))
    }
}

/// A number from `-most` to `most`.
pub(crate) fn spread(draw: &mut Draw, most: u32) -> i32
    requires { most < 2 ^ 30 }
    ensures drawn { result ≡ spread most draw.new }
    ensures next { draw.new ≡ next_number draw.old }
{
    let up = draw.draw(2 * u64::from(most) + 1) as i64;
    (up - i64::from(most)) as i32
}

// ---- laboratories

/// A laboratory of clocks, in whole ticks. The first `n - m` clocks work, and the lists speak of them
/// alone; the last `m` are faulty.
#[derive(Drop)]
pub struct Lab {
    /// How many clocks there are.
    pub n: u8,
    /// How many of them are faulty.
    pub m: u8,
    /// The most that working clocks are to differ by.
    pub skew: i32,
    /// The most that a working clock misreads another by.
    pub error: i32,
    /// The most that a working clock drifts by in a round.
    pub rate: i32,
    /// How many rounds the clocks run.
    pub rounds: u32,
    /// The offset of each working clock at the start.
    pub start: Vec<i64>,
    /// The drift of each working clock in a round.
    pub drift: Vec<i32>,
    /// By how much each working clock misreads each working clock.
    pub noise: Vec<Vec<i32>>,
}

/// A run of a laboratory.
#[derive(Drop)]
pub struct LabRun {
    /// The offsets of the working clocks: at the start, and after each round.
    pub offsets: Vec<Vec<i64>>,
    /// What the faulty clocks showed in each round: for each working clock in turn, what each faulty one
    /// showed it.
    pub shown: Vec<Vec<Option<i32>>>,
}

impl Lab {
    ghost use Rattle.sift_clocklab.specs.Laboratory.{laboratory_of, noise_of, reading_limit, working_of};
    ghost use Rattle.sift_clocklab.specs.Conditions.{BothWork, IsReady};

    /// How many clocks work.
    pub fn working(&self) -> u8
        requires { IsReady (laboratory_of self.now) }
        ensures { result ≡ working_of (laboratory_of self.now) }
    {
        self.n - self.m
    }

    /// The farthest reading that isn't too far, in ticks.
    pub(crate) fn limit(&self) -> i32
        requires { IsReady (laboratory_of self.now) }
        ensures { result ≡ reading_limit (laboratory_of self.now) }
    {
        self.skew + self.error
    }

    /// By how much the working clock `own` misreads another one that works.
    pub(crate) fn noise_between(&self, own: u8, other: u8) -> i32
        requires ready { IsReady (laboratory_of self.now) }
        requires working { BothWork (laboratory_of self.now) own other }
        ensures { result ≡ noise_of (laboratory_of self.now) own other }
    {
        self.noise[usize::from(own)][usize::from(other)]
    }
}

impl LabRun {
    ghost use Rattle.std.specs.Prelude.{[], length, slice_index_or};
    ghost use Rattle.sift_clocklab.specs.Laboratory.{run_of};

    /// How many rounds were run.
    pub(crate) fn rounds(&self) -> usize
        ensures { result ≡ length (run_of self.now).shown }
    {
        self.shown.len()
    }

    /// The offsets after the latest round, or at the start.
    pub(crate) fn latest(&self) -> &[i64]
        requires { length (run_of self.now).shown < length (run_of self.now).offsets }
        ensures { result.now
            ≡ slice_index_or (run_of self.now).offsets (length (run_of self.now).shown) [] }
    {
        &self.offsets[self.rounds()]
    }
}

// ---- which are admitted

/// Whether `n` clocks with `m` faulty ones keep this skew, where they misread one another by `error` and
/// drift by `rate` in a round: whatever the faulty ones show, if so.
pub fn admits(n: u8, m: u8, skew: i32, error: i32, rate: i32) -> bool
    requires { AreInRange n m skew error rate 1 }
    ensures { MatchBool result (IsAdmitted n m skew error rate) (IsRefused n m skew error rate) }
{
    let clocks = i32::from(n);
    let beyond = clocks - 3 * i32::from(m);
    // Without a clock beyond three times the faulty ones no errors and drifts would still be let through.
    beyond >= 1 && 2 * clocks * (error + rate) <= skew * beyond
}

// ---- laws

/// Whatever faulty clocks show, two working ones differ by at most the skew in every round, and none goes
/// farther from 0 than the rounds let it.
pub fn offsets_are_kept()
    ensures { OffsetsAreKept }
{}

/// The laboratory of a number has one run with the faulty clocks that are drawn for it: that of the draws.
pub fn drawn_runs_are_of_the_draws()
    ensures { DrawnRunsAreOfTheDraws }
{}

/// Where its numbers are in their ranges and admitted, the run of the draws is kept.
pub fn drawn_runs_are_kept()
    ensures { DrawnRunsAreKept }
{}

/// A run has one text.
pub fn one_text_of_a_run()
    ensures { OneTextOfARun }
{}

/// The text of a run that is kept tells no skew beyond the bound.
pub fn most_is_within_the_bound()
    ensures { MostIsWithinTheBound }
{}

/// With margin the law of the computer's clocks is the law for m faulty clocks among n, m being how many
/// are faulty in fact.
pub fn margin_leaves_room()
    ensures { MarginLeavesRoom }
{}

/// So it is where no clock is faulty.
pub fn no_fault_leaves_room()
    ensures { NoFaultLeavesRoom }
{}
