//! The rogues of the program, which are storms, and the strays that rogues give.

ghost use Rattle.std.specs.Prelude.{◌≡◌, IfOk, length};
ghost use Rattle.sift_base.specs.Units.{unit_limit};
ghost use Rattle.sift_alone.specs.Given.{resting_storms, StormsGiveWhatTheyDraw};
ghost use Rattle.sift_alone.specs.Strays.{CalmMissionsAreFlown, CalmMissionsGetNone, ProgramsFlyEachMission, StormsGiveDraws};

use sift_base::{Draw, NoMemory};
use sift_flight::each_mission_has_a_round_flight;
use sift_mission::fitting_parts_make_a_flight;
use sift_rogue::{Rogue, Storm, drawn_storms_are_the_draws};
use std::alloc::Global;

/// A storm for each unit that there may be, none of which has begun.
pub fn storms(alloc: Global) -> Result<Vec<Storm>, NoMemory>
    ensures storms { IfOk result (λ storms. storms.items ≡ resting_storms) }
    ensures eight { IfOk result (λ storms. length storms.items ≡ unit_limit) }
{
    Ok(vec![in alloc;
        storm(),
        storm(),
        storm(),
        storm(),
        storm(),
        storm(),
        storm(),
        storm(),
    ]?)
}

/// A storm that hasn't begun.
fn storm() -> Storm
    ensures { result ≡ record { drawer = 0 } }
{
    Storm {
        drawer: Draw::of(0),
    }
}

/// Where the rogues are `Storm`s, each unit that turns stray stores what is drawn from its storm's number.
pub fn storms_give_what_they_draw()
    ensures { StormsGiveWhatTheyDraw }
{
    drawn_storms_are_the_draws();
}

/// There are strays that rogues give, and flights over them: to each mission storms may give what is drawn, and to one in
/// which no unit turns stray any rogues give none.
pub fn strays_are_given<R: Rogue>()
    ensures drawn { StormsGiveDraws }
    ensures calm { CalmMissionsGetNone R.allows }
    ensures flown { ProgramsFlyEachMission }
    ensures flown_calmly { CalmMissionsAreFlown R.allows }
{
    drawn_storms_are_the_draws();
    fitting_parts_make_a_flight();
    each_mission_has_a_round_flight();
}
