//! The mission of a number, and the laws of the texts that are drawn.

ghost use Rattle.std.specs.Prelude.{◌≡◌, IfOk};
ghost use Rattle.sift_gen.specs.Scenario.{tree_of};
ghost use Rattle.sift_scenario.specs.Mission.{IsMission};
ghost use Rattle.sift_mission.specs.Parts.{data_of};
ghost use Rattle.sift_trial.specs.Texts.{DrawnTasksAreBrief, DrawnTextsAreTasks};
ghost use Rattle.sift_trial.specs.Laws.{DrawnMissionsHaveNoStorms, DrawnTreesAreMissions};

use sift_base::{NoMemory, Stop};
use sift_gen::scenario_tree;
use sift_mission::Mission;
use sift_parse::printed_tree_is_task;
use sift_scenario::{Refused, mission_of};
use sift_table::plain_tables_are_good;
use std::alloc::Global;

/// The mission of the scenario with this number.
///
/// No number is refused, since the tree of each states a mission: what can be wanting is memory alone.
pub fn drawn_mission(alloc: Global, number: u64) -> Result<Mission, NoMemory>
    ensures { IfOk result (λ mission. IsMission (tree_of number) (data_of mission)) }
{
    let tree = scenario_tree(alloc, number)?;
    drawn_trees_are_missions();
    match mission_of(alloc, &tree) {
        Ok(mission) => Ok(mission),
        Err(why) => Err(wanting(why)),
    }
}

/// The want of memory for which there is no mission, where nothing is refused.
fn wanting(why: Stop<Refused>) -> NoMemory
    requires { why ≡ Stop.NoMemory }
{
    match why {
        Stop::NoMemory => NoMemory,
        Stop::Refused(_) => unreachable!(),
    }
}

// ---- laws

/// The text of each task that is drawn is a task, with the tree of its pattern.
pub fn drawn_texts_are_tasks()
    ensures { DrawnTextsAreTasks }
{
    printed_tree_is_task();
}

/// Its code is short, and ends after few steps.
pub fn drawn_tasks_are_brief()
    ensures { DrawnTasksAreBrief }
{}

/// The tree of every number states a mission: for each number that a trial may be asked for.
pub fn drawn_trees_are_missions()
    ensures { DrawnTreesAreMissions }
{
    drawn_texts_are_tasks();
    drawn_tasks_are_brief();
    plain_tables_are_good();
}

/// No unit of the mission of a number turns stray: its one fault is a wrong word.
pub fn drawn_missions_have_no_storms()
    ensures { DrawnMissionsHaveNoStorms }
{}
