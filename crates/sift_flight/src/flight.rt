//! A flight, as whoever flew it hands it on, and the laws of flights: where round flights come from, that there is one and
//! at most one, that it is whole, and the headline.

ghost use Rattle.std.specs.Prelude.{◌≡◌, ◌<◌};
ghost use Rattle.sift_conduct.specs.Conduct.{account_of};
ghost use Rattle.sift_mission.specs.Parts.{flown_of};
ghost use Rattle.sift_flight.specs.Figures.{Works, lead_of, MarginIsTold, SkewIsTold, SlackIsTold};
ghost use Rattle.sift_flight.specs.Told.{IsAccountOf, IsWhole, told};
ghost use Rattle.sift_flight.specs.Whole.{RoundFlightsAreWhole, RoundFlightsHaveAccounts};
ghost use Rattle.sift_flight.specs.Alike.{RoundFlightsAreAlike};
ghost use Rattle.sift_flight.specs.Calms.{CalmMissionsFly};
ghost use Rattle.sift_flight.specs.Caught.{LiarsAreOut, OwnWordsCostNothing};
ghost use Rattle.sift_flight.specs.Existence.{AtMostOneHearsThem, EachMissionHasARoundFlight, EachStrayHearingHasARoundFlight};
ghost use Rattle.sift_flight.specs.Headline.{HeadlineHolds};
ghost use Rattle.sift_flight.specs.Homing.{FlightsThatComeHomeAreRound};
ghost use Rattle.sift_flight.specs.Landing.{LawfulCoresHearLawfully, UnitsHearByTheEquations, LandedFramesAreRound};
ghost use Rattle.sift_flight.specs.Flight.{AtMostOneIsRound};
ghost use Rattle.sift_flight.specs.LieRows.{LieRows};
ghost use Rattle.sift_flight.specs.Rows.{RowsHold};

use sift_base::UnitId;
use sift_buffer::Journal;
use sift_conduct::Account;
use sift_mission::{Mission, a_mission_flies, fitting_parts_make_a_flight};

/// A flight of a mission: one journal and one list of accounts for each unit, in the order of the units.
/// What it tells of words and accounts by slot, unit and frame is `told` in specs/Told.antt.
#[derive(Drop)]
pub struct Flight {
    /// The words that each unit said and heard.
    pub journals: Vec<Journal>,
    /// The accounts of the frames that each unit has flown, from frame 0 on.
    pub accounts: Vec<Vec<Account>>,
}

/// The account of a unit in a frame in which it works.
pub fn account_at<'a>(mission: &Mission, flight: &'a Flight, u: UnitId, f: u32) -> &'a Account
    requires whole { IsWhole (flown_of mission.now) mission.now.layout flight.now }
    requires works { Works (flown_of mission.now) u f }
    requires frame { f < (flown_of mission.now).frames }
    ensures told { account_of result.now ≡ (told (flown_of mission.now) flight.now).account u f }
    ensures account { IsAccountOf (flown_of mission.now) u (account_of result.now) }
{
    a_mission_flies(mission);
    &flight.accounts[usize::from(u.get())][f as usize]
}

/// The lead unit of a frame: the lowest-numbered one that works in it. Some unit does.
pub(crate) fn lead_of(mission: &Mission, f: u32) -> UnitId
    ensures lead { result ≡ lead_of (flown_of mission.now) f }
    ensures works { Works (flown_of mission.now) result f }
{
    a_mission_flies(mission);
    let everyone = mission.everyone();
    for i in 0..everyone.len() {
        let unit = everyone.unit_at(i);
        if mission.works(unit, f) {
            return unit;
        }
    }
    everyone.unit_at(0)
}

/// What is heard in a lawful core is heard lawfully.
pub fn lawful_cores_hear_lawfully()
    ensures { LawfulCoresHearLawfully }
{}

/// What units hear lawfully while their boards keep their conduct, they hear by the hearing equations,
/// strays included.
pub fn units_hear_by_the_equations()
    ensures { UnitsHearByTheEquations }
{}

/// The frames that each board has ended, or turned before, are frames of a round flight.
pub fn landed_frames_are_round()
    ensures { LandedFramesAreRound }
{}

/// What a flight that has come home from a lawful core tells is a round flight over the core's strays.
pub fn flights_that_come_home_are_round()
    ensures { FlightsThatComeHomeAreRound }
{}

/// Each mission that fits has a round flight over any strays.
pub fn each_mission_has_a_round_flight()
    ensures { EachMissionHasARoundFlight }
{}

/// Whatever units may hear of the strays of those that have turned, they hear it in a round flight.
pub fn each_stray_hearing_has_a_round_flight()
    ensures { EachStrayHearingHasARoundFlight }
{}

/// They hear it in one alone: two round flights in which the same is heard of strays are the same at each unit that hasn't turned.
pub fn at_most_one_flight_hears_them()
    ensures { AtMostOneHearsThem }
{}

/// A mission without storms has at most one round flight: two of them are the same in each account
/// and each place.
pub fn at_most_one_flight_is_round()
    ensures { AtMostOneIsRound }
{}

/// The accounts of a round flight of a mission that can be flown are those of its units.
pub fn round_flights_have_accounts()
    ensures { RoundFlightsHaveAccounts }
{}

/// A round flight of a mission whose parts fit is whole.
pub fn round_flights_are_whole()
    ensures { RoundFlightsAreWhole }
{
    fitting_parts_make_a_flight();
}

/// Two round flights of a mission without storms tell the same: of each unit in each frame, of each frame, and of the
/// configuration at each.
pub fn round_flights_are_alike()
    ensures { RoundFlightsAreAlike }
{}

/// The margin of a frame is told just where it has margin.
pub fn margin_is_told()
    ensures { MarginIsTold }
{}

/// The skew of offsets is told as it is.
pub fn skew_is_told()
    ensures { SkewIsTold }
{}

/// The slack of a frame's offsets is told as it is.
pub fn slack_is_told()
    ensures { SlackIsTold }
{}

/// In each frame with margin of a round flight: one configuration, the same inputs and reports, the
/// ideal machine's outputs, no false accusation, exact removal, and clocks within the skew.
pub fn headline_holds()
    ensures { HeadlineHolds }
{}

/// In each frame with margin of a round flight: a working unit that is lied to catches the liar, and
/// whoever lies to two of them is out of the next configuration.
pub fn liars_are_out()
    ensures { LiarsAreOut }
{}

/// Whoever says its own words in such a frame is caught by no working unit, whatever it reports of
/// others and whatever it said before.
pub fn own_words_cost_nothing()
    ensures { OwnWordsCostNothing }
{}

/// Two small missions meet all premises of these laws: they can be flown, their core and boards have
/// landed, and their frame has margin.
pub fn calm_missions_fly()
    ensures { CalmMissionsFly }
{}

/// Each definition of flights accepts one row and refuses another.
pub fn rows_hold()
    ensures { RowsHold }
{}

/// So does each definition of lies and of what they cost.
pub fn lie_rows_hold()
    ensures { LieRows }
{}
