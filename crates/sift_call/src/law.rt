//! The law that a call tells what the program writes.

ghost use Rattle.std.specs.Prelude.{◌≡◌};
ghost use Rattle.sift_alone.specs.Given.{resting_storms};
ghost use Rattle.sift_alone.specs.declared.fleet.Fleet.{Fleet as TheFleet};
ghost use Rattle.sift_call.specs.Laws.{CallsTellWhatTheProgramWrites};
ghost use Rattle.sift_rogue.specs.declared.storm.Storm.{Storm as TheStorm};

use sift_alone::Fleet;
use sift_commands::{Command, Order, commands_are_kept, one_command};
use sift_reply::gives_one_owes_one;
use sift_rogue::Storm;

/// A call tells just what the program writes, by however many workers and in whichever order it flies: where neither side
/// fails, memory is there, and an input that is flown states no storm. The program's fleet is one of storms that haven't begun.
pub fn calls_tell_what_the_program_writes()
    ensures { (fleet : TheFleet TheStorm) → fleet.rogues.items ≡ resting_storms → CallsTellWhatTheProgramWrites }
{
    one_command::<Fleet<Storm>>();
    commands_are_kept::<Fleet<Storm>>();
    gives_one_owes_one::<Fleet<Storm>, Order<Fleet<Storm>>, Command>();
}
