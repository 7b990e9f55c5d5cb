//! The laws of the commands.

ghost use Rattle.sift_reply.specs.Laws.{AsksOne, ShareNoStatus};
ghost use Rattle.sift_report.specs.Caught.{ReportCaught};
ghost use Rattle.sift_report.specs.Headline.{ReportHeadline};
ghost use Rattle.sift_row.specs.Laws.{AreKept, CommandsHaveOwnStatuses, MissionsAreAnswered, MissionsEndWell, StatusesAreKnown};
ghost use Rattle.sift_commands.specs.Command.{commands, program};
ghost use Rattle.sift_commands.specs.Headline.{ReportIsWritten};

use crate::list::{Command, Listed};
use crate::order::Order;
use sift_jobs::{Flier, run_is_headlined, run_tells_caught};
use sift_reply::statuses_are_explained;
use sift_row::Commands;

/// Each row of the list is kept: the statuses of each command are its own, it gives one reply to an input, or to one without
/// storms where it flies it, whatever its workers are, and for a mission that is stated it gives what its row says.
pub fn commands_are_kept<F: Flier>()
    ensures { (flier : F) → AreKept (program (F.flying flier)) }
{
    <Listed as Commands<F, Order<F>>>::keep_their_rows();
}

/// Words ask for one command at most.
pub fn one_command<F: Flier>()
    ensures { (flier : F) → AsksOne (commands (F.flying flier)) }
{
    commands_are_kept::<F>();
}

/// The statuses of each command's replies are its own.
pub fn commands_have_own_statuses<F: Flier>()
    ensures own { (flier : F) → CommandsHaveOwnStatuses (program (F.flying flier)) }
    ensures apart { (flier : F) → ShareNoStatus (commands (F.flying flier)) }
{
    commands_are_kept::<F>();
}

/// The headline is a consequence of the promise.
pub fn the_headline_is_written<F: Flier>()
    ensures { (flier : F) → ReportIsWritten (F.flying flier) ReportHeadline }
{
    one_command::<F>();
    commands_have_own_statuses::<F>();
    statuses_are_explained::<F, Order<F>, Command>();
    run_is_headlined::<F>();
}

/// And so is what lies cost.
pub fn the_caught_are_written<F: Flier>()
    ensures { (flier : F) → ReportIsWritten (F.flying flier) ReportCaught }
{
    one_command::<F>();
    commands_have_own_statuses::<F>();
    statuses_are_explained::<F, Order<F>, Command>();
    run_tells_caught::<F>();
}

/// Which command may end with which status.
pub fn statuses_are_known<F: Flier>()
    ensures { (flier : F) → StatusesAreKnown (program (F.flying flier)) }
{
    one_command::<F>();
    commands_have_own_statuses::<F>();
    statuses_are_explained::<F, Order<F>, Command>();
}

/// An input that states a mission gets a reply that the command gives for it, or memory was wanting, where neither side fails; and
/// 0 or 10 from a command that does what was asked for each mission. No flight is asked of the caller.
pub fn missions_are_answered<F: Flier>()
    ensures answered { (flier : F) → MissionsAreAnswered (program (F.flying flier)) }
    ensures well { (flier : F) → MissionsEndWell (program (F.flying flier)) }
{
    one_command::<F>();
    commands_are_kept::<F>();
}
