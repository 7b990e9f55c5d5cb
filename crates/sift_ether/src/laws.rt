//! What holds whatever threads do, and in whatever order.
ghost use Rattle.std.specs.Prelude.{ℕ, List};
ghost use Rattle.std.specs.Thread.{IsSend};
ghost use Rattle.atomic_table.specs.Table.{State};
ghost use Rattle.sift_buffer.specs.declared.grid.Grid.{Grid as TheGrid};
ghost use Rattle.sift_ether.specs.Rule.{IsLawfulTable};
ghost use Rattle.sift_ether.specs.Seating.{TokensComeBack};
ghost use Rattle.sift_ether.specs.Stories.{StoriesHaveOneOrder};
ghost use Rattle.sift_ether.specs.TableSeats.{ranges_at};
ghost use Rattle.sift_ether.specs.contracts.seat.Token.{the_row};
ghost use Rattle.sift_ether.specs.declared.rule.Chronicle.{Chronicle as TheChronicle};

use crate::rule::{Chronicles, IsLawful};
use atomic_table::TableRule;
use sift_buffer::{Grid, events_keep_the_core_lawful, fresh_is_lawful};

/// Where the rule of an ether's table holds, its words, and the conduct of all units as their seats know
/// it, are a lawful core. `atomic_table` promises of each rule that it "holds between any two steps", of
/// whatever threads: so the core is lawful at every moment of a flight.
pub fn the_rule_is_the_lawful_core()
    ensures { (grid : TheGrid) (s : State ℕ (List TheChronicle)) → ⟦<IsLawful as TableRule<u8, Chronicles, Grid>>⟧.holds grid s → IsLawfulTable (ranges_at grid) s }
{
    fresh_is_lawful();
    events_keep_the_core_lawful();
}

/// A story has one order: units that know their parts of it, with the places of their deeds, know it whole. So
/// the rule binds each deed to its own step.
pub fn stories_have_one_order()
    ensures { StoriesHaveOneOrder }
{}

/// Whatever was done at a seat, the token that it gives back is of its ether and unit, and has what
/// the seat had.
pub fn tokens_come_back()
    ensures { TokensComeBack }
{}

/// A token may be sent to another thread.
pub fn tokens_may_be_sent()
    ensures { IsSend the_row }
{}
