//! Laws about missions, and about who speaks to whom.

ghost use Rattle.std.specs.Thread.{IsSync};
ghost use Rattle.sift_mission.specs.contracts.mission.Mission.{the_row};
ghost use Rattle.sift_mission.specs.Fits.{Fits};
ghost use Rattle.sift_mission.specs.Parts.{flown_of, data_of};
ghost use Rattle.sift_mission.specs.PartsFit.{PartsFit};
ghost use Rattle.sift_mission.specs.Premises.{IsFlyable, RunsProgram, PartsMakeItFit, PartsMakeItFlyable};
ghost use Rattle.sift_mission.specs.Slots.{NothingIsSaidToItself, StormsCome};

use crate::mission::Mission;
use sift_script::{
    faults_are_for_good, one_unit_is_steady, storms_come_in_the_mission,
    working_units_have_not_turned, working_units_say_their_words,
};
use sift_table::{
    slots_are_heard_in_time, tasks_have_three_executors, tasks_run_after_their_needs,
    words_have_their_task,
};

/// No unit says anything to itself.
pub fn a_unit_says_nothing_to_itself()
    ensures { NothingIsSaidToItself }
{}

/// A mission whose parts fit has the slots, times, tasks and executors that boards stand on.
pub fn fitting_parts_make_a_mission()
    ensures { PartsMakeItFit }
{
    slots_are_heard_in_time();
    tasks_run_after_their_needs();
    tasks_have_three_executors();
}

/// The parts of each mission fit, so it has them, too; and each storm of its script comes in one of its frames.
pub fn a_mission_fits(mission: &Mission)
    ensures parts { PartsFit (data_of mission.now) }
    ensures fits { Fits (flown_of mission.now) }
    ensures storms { StormsCome (flown_of mission.now) }
{
    fitting_parts_make_a_mission();
    storms_come_in_the_mission();
    // That they fit is known of a mission whose parts are read.
    let _parts = mission.parts();
}

/// Flights can stand on each mission, whose words are those of its program.
pub fn a_mission_flies(mission: &Mission)
    ensures flyable { IsFlyable (flown_of mission.now) }
    ensures program { RunsProgram (flown_of mission.now) (data_of mission.now).program }
{
    fitting_parts_make_a_flight();
    a_mission_fits(mission);
}

/// Its script of faults and its clocks are such as flights stand on, too.
pub fn fitting_parts_make_a_flight()
    ensures { PartsMakeItFlyable }
{
    fitting_parts_make_a_mission();
    one_unit_is_steady();
    faults_are_for_good();
    working_units_say_their_words();
    working_units_have_not_turned();
    words_have_their_task();
}

/// A mission may be lent to several threads.
pub fn missions_may_be_lent()
    ensures { IsSync the_row }
{}
