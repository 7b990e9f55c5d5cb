//! All units of a mission at their seats, stepped one at a time in any order, and a mission flown to its end.
ghost use Rattle.std.specs.Prelude.{◌≡◌, ◌==◌, ◌<◌, ◌≤◌, ◌+◌, ℕ, List, [], ◌∷◌, Option, Some, IfOk, OnErr, IfSome, map, length, slice_index, option_map, option_to_list, vec_len, vec_capacity, true, false};
ghost use Rattle.std.specs.List.{All};
ghost use Rattle.sift_base.specs.Layout.{IsLayout};
ghost use Rattle.sift_base.specs.Units.{has, unit_limit};
ghost use Rattle.sift_buffer.specs.Conduct.{stray_to};
ghost use Rattle.sift_buffer.specs.Crews.{with_strays};
ghost use Rattle.sift_buffer.specs.Ledgers.{HasItsWords};
ghost use Rattle.sift_buffer.specs.Racks.{ranges_for};
ghost use Rattle.sift_buffer.specs.Ranges.{IsCell};
ghost use Rattle.sift_conduct.specs.Conduct.{account_of};
ghost use Rattle.sift_mission.specs.Data.{FlownMission, MissionData};
ghost use Rattle.sift_mission.specs.Parts.{data_of, flown_of};
ghost use Rattle.sift_rogue.specs.Storms.{Shoots, sifted, stray_of};
ghost use Rattle.sift_script.specs.declared.script.StormEntry.{StormEntry};
ghost use Rattle.sift_seat.specs.Storms.{storm_at};
ghost use Rattle.sift_unit.specs.Boards.{desk_of};
ghost use Rattle.sift_flight.specs.Flight.{IsRound, Strays, no_strays};
ghost use Rattle.sift_flight.specs.Told.{told, IsLogged};
ghost use Rattle.sift_core.specs.Courses.{AreAllLeft, BeginsStorm, IsCalled, Spends, course_of, lefts};
ghost use Rattle.sift_core.specs.Ended.{EndedFramesAreRound};
ghost use Rattle.sift_core.specs.Landing.{IsFlownInOrder, IsLandedFrom};
ghost use Rattle.sift_core.specs.Machines.{Flies, HasCallsAt, HasTurnedIn, IsButForCalls, IsFlying, IsNewMachine, StoresStray, layout_of, progress_at};
ghost use Rattle.sift_core.specs.Steps.{StepsUnit, Stores};
ghost use Rattle.sift_core.specs.Storms.{AreLeft, CarriesOn, IsRoundByRogues, IsUnderWay};
ghost use Rattle.sift_core.specs.Turns.{AreAllDown, IsAloft, IsDown, StepsItself, Waits};

use sift_base::{Layout, NoMemory, UnitId};
use sift_buffer::{Acts, Journal, Rack, events_keep_the_core_lawful, fresh_is_lawful};
use sift_conduct::Account;
use sift_flight::{
    Flight, flights_that_come_home_are_round, landed_frames_are_round, lawful_cores_hear_lawfully,
};
use sift_mission::{Mission, a_mission_fits};
use sift_rogue::{Rogue, Shot};
use sift_seat::Seat;
use sift_unit::{
    Stepped, boards_drive_beside_strays, boards_that_are_down_have_flown,
    boards_that_step_keep_to_their_conduct, new_boards_may_step,
};
use std::alloc::Global;

/// All units of a mission: their seats, and the words and acts over which they step.
#[derive(Drop)]
pub struct Machine {
    pub(crate) rack: Rack,
    pub(crate) seats: Vec<Seat>,
}

impl Machine {
    /// All units before their first step. It takes all memory of their flight.
    pub fn make(alloc: Global, mission: &Mission) -> Result<Machine, NoMemory>
        ensures flies { IfOk result (λ machine. Flies (flown_of mission.now) no_strays machine) }
        ensures new { IfOk result (λ machine. IsNewMachine (flown_of mission.now) mission.now.layout machine) }
        ensures layout { IfOk result (λ machine. layout_of machine ≡ mission.now.layout) }
        ensures calls { IfOk result (λ machine. AreAllLeft (data_of mission.now) (lefts (data_of mission.now) machine)) }
        ensures left { IfOk result (λ machine. AreLeft (data_of mission.now) machine (lefts (data_of mission.now) machine)) }
    {
        a_mission_fits(mission);
        fresh_is_lawful();
        new_boards_may_step();
        let parts = mission.parts();
        let rack = Rack::make(alloc, parts.layout, parts.frames)?;
        let seats = Seat::make_all(alloc, mission)?;
        Ok(Machine { rack, seats })
    }

    /// The next step of a unit. All else of the other units stays as it was.
    pub fn step(&mut self, mission: &Mission, u: UnitId) -> Stepped
        requires flies { IsFlying (flown_of mission.now) self.old }
        requires unit { has (flown_of mission.now).units u ≡ true }
        ensures flies { (w : Strays) → Flies (flown_of mission.now) w self.old → Flies (flown_of mission.now) w self.new }
        ensures stepped { StepsUnit (flown_of mission.now) u self.old result self.new }
        ensures calls { (d : MissionData) → lefts d self.new ≡ lefts d self.old }
    {
        events_keep_the_core_lawful();
        self.rack.choose(u);
        self.seats[usize::from(u.get())].step(mission, &mut self.rack)
    }

    /// Stores a number in the cell of a unit that has turned, for another unit in a slot. Nothing else changes.
    pub fn stray(&mut self, u: UnitId, to: UnitId, slot: usize, cell: u64)
        requires unit { u < (layout_of self.old).units }
        requires turned { HasTurnedIn self.old u }
        requires cell { IsCell (ranges_for self.old.rack) u to slot }
        ensures stored { StoresStray u (stray_to to slot cell) self.old self.new }
        ensures flies { (m : FlownMission) (w : Strays) → Flies m w self.old → Flies m (with_strays w u (stray_to to slot cell ∷ [])) self.new }
        ensures seats { self.new.seats ≡ self.old.seats }
    {
        events_keep_the_core_lawful();
        self.rack.store(u, to, slot, cell);
    }

    /// The progress number of a unit: the subframes that it has entered, and 2^64 - 1 once it has turned.
    pub fn progress(&self, u: UnitId) -> u64
        requires { u < (layout_of self.now).units }
        ensures { result ≡ progress_at self.now u }
    {
        self.rack.progress_of(u)
    }

    /// Whether no call of a unit's rogue is left.
    pub(crate) fn is_spent(&self, mission: &Mission, u: UnitId) -> bool
        requires flies { IsFlying (flown_of mission.now) self.now }
        requires unit { u < (layout_of self.now).units }
        ensures { result ≡ (slice_index (lefts (data_of mission.now) self.now) u == 0) }
    {
        self.seats[usize::from(u.get())].is_spent(mission, u)
    }

    /// The next step of a unit that has yet to land or turn. Where it turns, its storm begins. It answers whether the unit
    /// went on, and doesn't wait.
    pub(crate) fn step_on<R: Rogue>(
        &mut self,
        mission: &Mission,
        rogues: &mut [R],
        u: UnitId,
    ) -> bool
        requires under_way { IsUnderWay (data_of mission.now) (course_of (data_of mission.now) self.old rogues.old) }
        requires unit { has (flown_of mission.now).units u ≡ true }
        requires aloft { IsAloft (flown_of mission.now) self.old u }
        ensures under_way { IsUnderWay (data_of mission.now) (course_of (data_of mission.now) self.new rogues.new) }
        ensures layout { layout_of self.new ≡ layout_of self.old }
        ensures went { result ≡ true → StepsItself R.allows (data_of mission.now) u (course_of (data_of mission.now) self.old rogues.old) (course_of (data_of mission.now) self.new rogues.new) }
        ensures waited { result ≡ false → Waits R.allows (data_of mission.now) u (course_of (data_of mission.now) self.old rogues.old) (course_of (data_of mission.now) self.new rogues.new) }
        ensures storms { CarriesOn R.allows (data_of mission.now) (course_of (data_of mission.now) self.old rogues.old) (course_of (data_of mission.now) self.new rogues.new) }
    {
        match self.step(mission, u) {
            Stepped::Moved => true,
            Stepped::NotYet { .. } => false,
            Stepped::Turned => {
                self.begin(mission, rogues, u);
                true
            }
            Stepped::Landed => true,
        }
    }

    /// Begins the storm of a unit that has turned.
    fn begin<R: Rogue>(&mut self, mission: &Mission, rogues: &mut [R], u: UnitId)
        requires rogues { length rogues.old ≡ unit_limit }
        requires unit { u < length self.old.seats.items }
        requires storm { (storm : StormEntry) × (storm_at (data_of mission.now) u ≡ Some storm) × (slice_index (lefts (data_of mission.now) self.old) u ≡ storm.strays + 1) }
        ensures begun { BeginsStorm R.allows (data_of mission.now) u rogues.old (lefts (data_of mission.now) self.old) rogues.new (lefts (data_of mission.now) self.new) }
        ensures rest { IsButForCalls self.old self.new }
    {
        let place = usize::from(u.get());
        self.seats[place].begin(mission, u, &mut rogues[place]);
    }

    /// The next stray of a unit that has turned.
    pub(crate) fn spend_one<R: Rogue>(&mut self, mission: &Mission, rogues: &mut [R], u: UnitId)
        requires under_way { IsUnderWay (data_of mission.now) (course_of (data_of mission.now) self.old rogues.old) }
        requires unit { has (flown_of mission.now).units u ≡ true }
        requires down { IsDown (flown_of mission.now) self.old u }
        requires some { 0 < slice_index (lefts (data_of mission.now) self.old) u }
        ensures under_way { IsUnderWay (data_of mission.now) (course_of (data_of mission.now) self.new rogues.new) }
        ensures layout { layout_of self.new ≡ layout_of self.old }
        ensures spent { Spends R.allows u (course_of (data_of mission.now) self.old rogues.old) (course_of (data_of mission.now) self.new rogues.new) }
        ensures storms { CarriesOn R.allows (data_of mission.now) (course_of (data_of mission.now) self.old rogues.old) (course_of (data_of mission.now) self.new rogues.new) }
    {
        let shot = self.call_next(rogues, u);
        self.store_shot(u, shot);
    }

    /// Asks the rogue of a unit for its next act, and answers the stray to which it comes, if it comes to one.
    fn call_next<R: Rogue>(&mut self, rogues: &mut [R], u: UnitId) -> Option<Shot>
        requires rogues { length rogues.old ≡ unit_limit }
        requires unit { u < length self.old.seats.items }
        requires calls { HasCallsAt self.old u }
        ensures called { (d : MissionData) → IsCalled (λ x y. Shoots R.allows (sifted (layout_of self.old) u) x result y) u rogues.old (lefts d self.old) rogues.new (lefts d self.new) }
        ensures there { IfSome result (λ shot. IsCell (ranges_for self.old.rack) u shot.to shot.slot) }
        ensures rest { IsButForCalls self.old self.new }
    {
        let layout = self.rack.layout();
        let place = usize::from(u.get());
        self.seats[place].call_next(layout, u, &mut rogues[place])
    }

    /// Stores the stray to which an act of a unit came, if it came to one.
    fn store_shot(&mut self, u: UnitId, shot: Option<Shot>)
        requires unit { u < (layout_of self.old).units }
        requires turned { HasTurnedIn self.old u }
        requires there { IfSome shot (λ shot. IsCell (ranges_for self.old.rack) u shot.to shot.slot) }
        ensures stored { Stores u (option_map stray_of shot) self.old self.new }
        ensures flies { (m : FlownMission) (w : Strays) → Flies m w self.old → Flies m (with_strays w u (option_to_list (option_map stray_of shot))) self.new }
        ensures seats { self.new.seats ≡ self.old.seats }
    {
        if let Some(shot) = shot {
            self.stray(u, shot.to, shot.slot, shot.cell);
        }
    }

    /// The flight of units that have all landed or turned. The lists have room for all, so it takes no memory.
    fn land(self, mission: &Mission, journals: Vec<Journal>, accounts: Vec<Vec<Account>>) -> Flight
        requires flies { IsFlying (flown_of mission.now) self }
        requires down { AreAllDown (flown_of mission.now) self }
        requires no_journals { journals.items ≡ [] }
        requires no_accounts { accounts.items ≡ [] }
        requires room_for_journals { vec_len self.seats ≤ vec_capacity journals }
        requires room_for_accounts { vec_len self.seats ≤ vec_capacity accounts }
        ensures round { (w : Strays) → Flies (flown_of mission.now) w self → IsRound (flown_of mission.now) w (told (flown_of mission.now) result) }
        ensures logged { IsLogged (flown_of mission.now) (layout_of self) result }
        ensures landed { IsLandedFrom self result }
    {
        boards_that_are_down_have_flown();
        boards_drive_beside_strays();
        flights_that_come_home_are_round();
        Flight {
            journals: journals_of(self.rack.end(), journals),
            accounts: accounts_of(self.seats, accounts),
        }
    }
}

/// The journals of all acts, in a list that has room for them.
fn journals_of(acts: Vec<Acts>, empty: Vec<Journal>) -> Vec<Journal>
    requires empty { empty.items ≡ [] }
    requires room { vec_len acts ≤ vec_capacity empty }
    ensures journals { result.items ≡ map (λ ledger. ledger.pages) acts.items }
    ensures words { All HasItsWords acts.items }
{
    let mut journals = empty;
    for each in acts {
        journals.push_reserved(each.end());
    }
    journals
}

/// The accounts of all units, in a list that has room for them.
fn accounts_of(seats: Vec<Seat>, empty: Vec<Vec<Account>>) -> Vec<Vec<Account>>
    requires empty { empty.items ≡ [] }
    requires room { vec_len seats ≤ vec_capacity empty }
    ensures { map (λ accounts. map account_of accounts.items) result.items ≡ map (λ board. (desk_of board).accounts) (map (λ seat. seat.board) seats.items) }
{
    let mut accounts = empty;
    for seat in seats {
        accounts.push_reserved(seat.end());
    }
    accounts
}

/// Flies a mission to its end, on one thread. The order number draws who steps next.
///
/// The rogues are those of the units 0 to 7. That of a unit with a storm begins as the unit turns, and is then
/// asked for each of its strays, one in a turn. All memory is taken before the first step, and so before the first call of
/// a rogue.
pub fn fly<R: Rogue>(
    alloc: Global,
    mission: &Mission,
    order: u64,
    rogues: &mut [R],
) -> Result<Flight, NoMemory>
    requires { length rogues.old ≡ unit_limit }
    ensures round { IfOk result (λ flight. IsRoundByRogues R.allows (data_of mission.now) rogues.old flight rogues.new) }
    ensures logged { IfOk result (λ flight. IsLogged (flown_of mission.now) mission.now.layout flight) }
    ensures ordered { IfOk result (λ flight. IsFlownInOrder R.allows (data_of mission.now) order rogues.old flight rogues.new) }
    ensures untouched { OnErr result (rogues.new ≡ rogues.old) }
{
    let mut machine = Machine::make(alloc, mission)?;
    let units = machine.seats.len();
    let journals = Vec::with_capacity(alloc, units)?;
    let accounts = Vec::with_capacity(alloc, units)?;
    machine.fly_on(mission, order, rogues);
    Ok(machine.land(mission, journals, accounts))
}

/// In each frame that all units have ended or before which they have turned, whatever the order of their steps and
/// strays, each that has not turned has heard what was said to it, or what was strayed by who had turned, and has done
/// what its frame asks.
pub fn ended_frames_are_round()
    ensures { EndedFramesAreRound }
{
    boards_that_step_keep_to_their_conduct();
    boards_drive_beside_strays();
    lawful_cores_hear_lawfully();
    landed_frames_are_round();
}
