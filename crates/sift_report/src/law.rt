//! The laws of the texts: flights that tell the same have one text of each kind, and the headline is printed.

ghost use Rattle.sift_report.specs.FirstLiar.{FirstLiarIsCaught};
ghost use Rattle.sift_report.specs.OneText.{AlikeFlightsHaveOneText};
ghost use Rattle.sift_report.specs.Printed.{CaughtIsPrinted, HeadlineIsPrinted, SheetsTellTheirFlights};
ghost use Rattle.sift_report.specs.TwoCatchers.{FaultIsWithinTheHeadline};
ghost use Rattle.sift_report.specs.Versions.{SheetsHaveTheirVersion};

use sift_flight::{
    calm_missions_fly, each_mission_has_a_round_flight, headline_holds, liars_are_out,
    margin_is_told, own_words_cost_nothing, round_flights_are_alike, round_flights_have_accounts,
    skew_is_told, slack_is_told,
};
use sift_mission::fitting_parts_make_a_flight;
use sift_table::plain_tables_are_good;

/// Flights that tell the same have one report, one text of votes and one last line.
pub fn alike_flights_have_one_text()
    ensures { AlikeFlightsHaveOneText }
{}

/// Each line of a sheet is one of the version that was asked for.
pub fn sheets_have_their_version()
    ensures { SheetsHaveTheirVersion }
{}

/// The lines of the report of a round flight have the headline: the form of a report, one configuration, the same words, the
/// ideal machine's outputs, no false accusation, exact removal, clocks within the skew, and true margins.
pub fn the_headline_is_printed()
    ensures { HeadlineIsPrinted }
{
    fitting_parts_make_a_flight();
    headline_holds();
    round_flights_have_accounts();
    margin_is_told();
    skew_is_told();
    slack_is_told();
}

/// They tell each lie to a working unit; whoever lies to two of them is out of the configuration told next; and they tell nobody
/// who says its own words.
pub fn caught_is_printed()
    ensures { CaughtIsPrinted }
{
    fitting_parts_make_a_flight();
    headline_holds();
    liars_are_out();
    own_words_cost_nothing();
    round_flights_have_accounts();
    margin_is_told();
    skew_is_told();
    slack_is_told();
}

/// What those lines tell of margins, configurations and agreed words is the flight's.
pub fn sheets_tell_their_flights()
    ensures { SheetsTellTheirFlights }
{
    fitting_parts_make_a_flight();
    headline_holds();
    round_flights_have_accounts();
    margin_is_told();
    skew_is_told();
    slack_is_told();
}

/// A mission with a faulty unit has a flight, and the one report of its flights, in which this unit is configured out within
/// the margin, has the headline; and other lines lack its items.
pub fn fault_is_within_the_headline()
    ensures { FaultIsWithinTheHeadline }
{
    plain_tables_are_good();
    calm_missions_fly();
    fitting_parts_make_a_flight();
    each_mission_has_a_round_flight();
    round_flights_are_alike();
    alike_flights_have_one_text();
    the_headline_is_printed();
    caught_is_printed();
}

/// The report of the first liar meets the premises of what lies cost, and tells all of it; other lines don't.
pub fn first_liar_is_caught()
    ensures { FirstLiarIsCaught }
{}
