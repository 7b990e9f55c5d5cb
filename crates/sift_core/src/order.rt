//! The order of steps: for each turn a unit is drawn.
ghost use Rattle.std.specs.Prelude.{◌≡◌, ◌<◌, ◌≤◌, ◌*◌, ℕ, IfSome, IfNone, true, false, length, slice_index};
ghost use Rattle.sift_base.specs.Draw.{drawn, next_number};
ghost use Rattle.sift_base.specs.Units.{has};
ghost use Rattle.sift_mission.specs.Parts.{data_of, flown_of};
ghost use Rattle.sift_core.specs.Machines.{IsFlying, layout_of};
ghost use Rattle.sift_core.specs.Courses.{course_of, lefts, rest};
ghost use Rattle.sift_core.specs.Storms.{CarriesOn, IsUnderWay};
ghost use Rattle.sift_core.specs.Turns.{end_in, AreAllDone, AreAllDown, IsFirstLeft, IsLeast, IsDrawn, Tries, TurnsAt, FliesInOrder};

use crate::machine::Machine;
use sift_base::{Draw, UnitId};
use sift_mission::Mission;
use sift_rogue::Rogue;

/// The progress of a unit that has landed.
fn end_of(mission: &Mission) -> u64
    ensures { result ≡ end_in (flown_of mission.now) }
{
    u64::from(mission.frames()) * u64::from(mission.period())
}

/// Draws a number below a number of units. Four and eight are told apart, since a computer divides by a number that it
/// doesn't know beforehand in many times the time.
fn drawn_below(drawer: &mut Draw, units: u8) -> u64
    requires { 0 < units }
    ensures next { drawer.new ≡ next_number drawer.old }
    ensures drawn { result ≡ drawn drawer.new units }
{
    match units {
        4 => drawer.draw(4),
        8 => drawer.draw(8),
        _ => drawer.draw(u64::from(units)),
    }
}

impl Machine {
    /// The unit of least progress among those that have neither landed nor turned, and the lowest-numbered of
    /// several.
    fn least(&self, mission: &Mission, end: u64) -> Option<UnitId>
        requires flies { IsFlying (flown_of mission.now) self.now }
        requires end { end ≡ end_in (flown_of mission.now) }
        ensures found { IfSome result (λ u. IsLeast (flown_of mission.now) self.now u) }
        ensures none { IfNone result (AreAllDown (flown_of mission.now) self.now) }
    {
        let mut least = None;
        let mut below = end;
        for number in 0..self.rack.layout().units {
            let unit = UnitId::numbered(number);
            let progress = self.rack.number_of(unit);
            if progress < below {
                least = Some(unit);
                below = progress;
            }
        }
        least
    }

    /// The lowest-numbered unit of whose rogue calls are left.
    fn first_left(&self, mission: &Mission) -> Option<UnitId>
        requires flies { IsFlying (flown_of mission.now) self.now }
        ensures found { IfSome result (λ u. IsFirstLeft (flown_of mission.now) (lefts (data_of mission.now) self.now) u) }
        ensures none { IfNone result ((u : ℕ) → has (flown_of mission.now).units u ≡ true → slice_index (lefts (data_of mission.now) self.now) u ≡ 0) }
    {
        for number in 0..self.rack.layout().units {
            let unit = UnitId::numbered(number);
            if !self.is_spent(mission, unit) {
                return Some(unit);
            }
        }
        None
    }

    /// Whether all units are done.
    fn are_all_done(&self, mission: &Mission, end: u64) -> bool
        requires flies { IsFlying (flown_of mission.now) self.now }
        requires end { end ≡ end_in (flown_of mission.now) }
        ensures done { result ≡ true → AreAllDone (flown_of mission.now) self.now (lefts (data_of mission.now) self.now) }
        ensures open { result ≡ false → ¬ AreAllDone (flown_of mission.now) self.now (lefts (data_of mission.now) self.now) }
    {
        for number in 0..self.rack.layout().units {
            let unit = UnitId::numbered(number);
            if self.rack.number_of(unit) < end {
                return false;
            }
            if !self.is_spent(mission, unit) {
                return false;
            }
        }
        true
    }

    /// Draws a unit.
    fn drawn_unit(&self, drawer: &mut Draw) -> UnitId
        ensures { IsDrawn (layout_of self.now).units drawer.old drawer.new result }
    {
        let number = drawn_below(drawer, self.rack.layout().units);
        UnitId::numbered(number as u8)
    }

    /// The turn of a unit, if it is not done. It answers whether the unit went on, and doesn't wait.
    fn goes_itself<R: Rogue>(
        &mut self,
        mission: &Mission,
        end: u64,
        rogues: &mut [R],
        u: UnitId,
    ) -> bool
        requires under_way { IsUnderWay (data_of mission.now) (course_of (data_of mission.now) self.old rogues.old) }
        requires end { end ≡ end_in (flown_of mission.now) }
        requires unit { has (flown_of mission.now).units u ≡ true }
        ensures under_way { IsUnderWay (data_of mission.now) (course_of (data_of mission.now) self.new rogues.new) }
        ensures layout { layout_of self.new ≡ layout_of self.old }
        ensures tried { Tries R.allows (data_of mission.now) u (course_of (data_of mission.now) self.old rogues.old) result (course_of (data_of mission.now) self.new rogues.new) }
        ensures storms { CarriesOn R.allows (data_of mission.now) (course_of (data_of mission.now) self.old rogues.old) (course_of (data_of mission.now) self.new rogues.new) }
    {
        if self.rack.number_of(u) < end {
            return self.step_on(mission, rogues, u);
        }
        if self.is_spent(mission, u) {
            return false;
        }
        self.spend_one(mission, rogues, u);
        true
    }

    /// The next turn: a unit is drawn and steps, or makes a call of its rogue. Where it is done or waits, the unit of
    /// least progress steps, and where all have landed or turned, the lowest-numbered of whose rogue calls are left
    /// makes one. It answers who went last, or nobody, where all units are done.
    pub fn turn<R: Rogue>(
        &mut self,
        mission: &Mission,
        drawer: &mut Draw,
        rogues: &mut [R],
    ) -> Option<UnitId>
        requires { IsUnderWay (data_of mission.now) (course_of (data_of mission.now) self.old rogues.old) }
        ensures under_way { IsUnderWay (data_of mission.now) (course_of (data_of mission.now) self.new rogues.new) }
        ensures layout { layout_of self.new ≡ layout_of self.old }
        ensures turn { TurnsAt R.allows (data_of mission.now) drawer.old (course_of (data_of mission.now) self.old rogues.old) result drawer.new (course_of (data_of mission.now) self.new rogues.new) }
        ensures storms { CarriesOn R.allows (data_of mission.now) (course_of (data_of mission.now) self.old rogues.old) (course_of (data_of mission.now) self.new rogues.new) }
        ensures nearer { IfSome result (λ u. rest (data_of mission.now) (course_of (data_of mission.now) self.new rogues.new) < rest (data_of mission.now) (course_of (data_of mission.now) self.old rogues.old)) }
    {
        self.turn_before(mission, end_of(mission), drawer, rogues)
    }

    /// The next turn of a flight that ends at this progress.
    fn turn_before<R: Rogue>(
        &mut self,
        mission: &Mission,
        end: u64,
        drawer: &mut Draw,
        rogues: &mut [R],
    ) -> Option<UnitId>
        requires under_way { IsUnderWay (data_of mission.now) (course_of (data_of mission.now) self.old rogues.old) }
        requires end { end ≡ end_in (flown_of mission.now) }
        ensures under_way { IsUnderWay (data_of mission.now) (course_of (data_of mission.now) self.new rogues.new) }
        ensures layout { layout_of self.new ≡ layout_of self.old }
        ensures turn { TurnsAt R.allows (data_of mission.now) drawer.old (course_of (data_of mission.now) self.old rogues.old) result drawer.new (course_of (data_of mission.now) self.new rogues.new) }
        ensures storms { CarriesOn R.allows (data_of mission.now) (course_of (data_of mission.now) self.old rogues.old) (course_of (data_of mission.now) self.new rogues.new) }
        ensures nearer { IfSome result (λ u. rest (data_of mission.now) (course_of (data_of mission.now) self.new rogues.new) < rest (data_of mission.now) (course_of (data_of mission.now) self.old rogues.old)) }
    {
        if self.are_all_done(mission, end) {
            return None;
        }
        let drawn = self.drawn_unit(drawer);
        if self.goes_itself(mission, end, rogues, drawn) {
            return Some(drawn);
        }
        if let Some(least) = self.least(mission, end) {
            self.step_on(mission, rogues, least);
            return Some(least);
        }
        if let Some(first) = self.first_left(mission) {
            self.spend_one(mission, rogues, first);
            return Some(first);
        }
        unreachable!()
    }

    /// Flies to the end, turn by turn, as the order number draws them.
    pub(crate) fn fly_on<R: Rogue>(&mut self, mission: &Mission, order: u64, rogues: &mut [R])
        requires { IsUnderWay (data_of mission.now) (course_of (data_of mission.now) self.old rogues.old) }
        ensures under_way { IsUnderWay (data_of mission.now) (course_of (data_of mission.now) self.new rogues.new) }
        ensures layout { layout_of self.new ≡ layout_of self.old }
        ensures order { FliesInOrder R.allows (data_of mission.now) order (course_of (data_of mission.now) self.old rogues.old) (course_of (data_of mission.now) self.new rogues.new) }
        ensures storms { CarriesOn R.allows (data_of mission.now) (course_of (data_of mission.now) self.old rogues.old) (course_of (data_of mission.now) self.new rogues.new) }
    {
        let mut drawer = Draw::of(order);
        let end = end_of(mission);
        while self
            .turn_before(mission, end, &mut drawer, rogues)
            .is_some()
        {}
    }
}
