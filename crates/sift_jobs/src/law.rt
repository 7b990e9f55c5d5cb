//! What the report of `run` tells, and that there is what the commands tell of.

ghost use Rattle.sift_jobs.specs.Existence.{MissionsHaveFlights, TrialsAreThere, VotesAreThere};
ghost use Rattle.sift_jobs.specs.Run.{RunIsHeadlined, RunTellsCaught};
ghost use Rattle.sift_jobs.specs.StatedFault.{FaultIsStated};

use crate::order::Flier;
use sift_flight::each_mission_has_a_round_flight;
use sift_mission::fitting_parts_make_a_flight;
use sift_report::{caught_is_printed, fault_is_within_the_headline, the_headline_is_printed};
use sift_scenario::{one_mission, stated_missions_fit};
use sift_trial::drawn_trees_are_missions;

/// Where `run` ends with 0 its text is the report of a flight of the mission that the input states, and the headline holds
/// of its lines.
pub fn run_is_headlined<F: Flier>()
    ensures { (flier : F) → RunIsHeadlined (F.flying flier) }
{
    stated_missions_fit();
    the_headline_is_printed();
}

/// They tell each lie to a working unit, whom it costs its place, and nobody who says its own words.
pub fn run_tells_caught<F: Flier>()
    ensures { (flier : F) → RunTellsCaught (F.flying flier) }
{
    stated_missions_fit();
    caught_is_printed();
}

/// Each mission has a flight over any strays that the rogues may give, so `votes` and `trial` have a reply.
pub fn missions_have_flights<F: Flier>()
    ensures flights { (flier : F) → MissionsHaveFlights (F.flying flier).gives }
    ensures votes { (flier : F) → VotesAreThere (F.flying flier).gives }
    ensures trials { (flier : F) → TrialsAreThere (F.flying flier).gives }
{
    fitting_parts_make_a_flight();
    each_mission_has_a_round_flight();
    stated_missions_fit();
    drawn_trees_are_missions();
}

/// The document of two catchers states the mission in which a unit fails within the margin, so each flight of what it states
/// tells of that.
pub fn fault_is_stated()
    ensures { FaultIsStated }
{
    fault_is_within_the_headline();
    one_mission();
}
