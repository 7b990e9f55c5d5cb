//! The list of the commands, from the last to the first.

use crate::order::Order;
use sift_base::NoMemory;
use sift_bus_jobs::BusesJob;
use sift_jobs::{CheckJob, Flier, GenJob, IdealJob, PlanJob, RunJob, TrialJob, VotesJob};
use sift_judge_jobs::JudgeJob;
use sift_lab_jobs::{ByzJob, ClocksJob};
use sift_reply::{Asked, Begun, Job};
use sift_row::{Commands, NoCommand, Or};
use std::alloc::Global;

/// Those about laboratories.
type Labs = Or<ByzJob, Or<ClocksJob, NoCommand>>;

/// And those that came after the first six.
type Later = Or<PlanJob, Or<JudgeJob, Or<BusesJob, Labs>>>;

/// And those of a mission that is drawn.
type Drawn = Or<GenJob, Or<TrialJob, Later>>;

/// All of them, in the order of the rows in `specs/Command.antt`.
pub(crate) type Listed = Or<RunJob, Or<VotesJob, Or<IdealJob, Or<CheckJob, Drawn>>>>;

/// What the words ask for: one of those that are listed. Callers know it by its duty alone, so the list is looked through here
/// and nowhere above.
#[derive(Clone, Copy)]
pub struct Command {
    pub listed: Listed,
}

impl<F: Flier> Job<F, Order<F>> for Command {
    ghost use Rattle.sift_commands.specs.Command.{commands};

    ghost duty = { λ flier. (commands (F.flying flier)).duty };

    fn limit(self) -> Option<u32> {
        Commands::<F, Order<F>>::limit(self.listed)
    }

    fn begin(self, alloc: Global, flier: F, bytes: &[u8]) -> Result<Begun<Order<F>>, NoMemory> {
        self.listed.begin(alloc, flier, bytes)
    }
}

impl<F: Flier> Asked<F, Order<F>> for Command {
    ghost use Rattle.sift_commands.specs.Command.{commands};

    ghost asks = { λ flier. (commands (F.flying flier)).asks };

    fn from_words(words: &[String]) -> Option<Self> {
        match <Listed as Commands<F, Order<F>>>::from_words(words) {
            Some(listed) => Some(Command { listed }),
            None => None,
        }
    }
}
