//! The walk of a board from one call on its port to the next.

ghost use Rattle.std.specs.Prelude.{◌≡◌, ◌⊎◌, ◌<◌, ◌≤◌, true, false, nat_eq};
ghost use Rattle.sift_base.specs.Units.{has};
ghost use Rattle.sift_mission.specs.Parts.{flown_of};
ghost use Rattle.sift_unit.specs.Desk.{is_call as at_call, is_end as at_end};
ghost use Rattle.sift_unit.specs.Passing.{Passes, Onward, Finds, left};
ghost use Rattle.sift_unit.specs.Conditions.{MayWalk, MayPass, IsAtSlot};
ghost use Rattle.sift_unit.specs.Boards.{desk_of, IsSameBoard};

use crate::board::Board;
use sift_mission::{Mission, Part};

impl Board {
    /// Whether the board is in the part of its subframe in which it says words.
    pub(crate) fn says(&self) -> bool
        ensures { result ≡ nat_eq (desk_of self.now).part 2 }
    {
        match self.part {
            Part::Saying => true,
            _ => false,
        }
    }

    /// Whether the board stands at its subframe's end.
    pub(crate) fn is_end(&self, mission: &Mission) -> bool
        ensures { result ≡ at_end (flown_of mission.now) (desk_of self.now) }
    {
        match self.part {
            Part::Saying => self.slot == mission.slots(),
            _ => false,
        }
    }

    /// Goes on to the next call of this subframe, or to its end.
    pub(crate) fn find_call(&mut self, mission: &Mission)
        requires walks { MayWalk (flown_of mission.now) (desk_of self.old) }
        requires frame { self.old.frame < (flown_of mission.now).frames }
        ensures passes { Passes (flown_of mission.now) (desk_of self.old) (desk_of self.new) }
        ensures nearer { left (desk_of self.new) ≤ left (desk_of self.old) }
        ensures same { IsSameBoard self.old self.new }
        ensures found { at_end (flown_of mission.now) (desk_of self.new) ≡ false → at_call (flown_of mission.now) (desk_of self.new) ≡ true }
    {
        while !self.finds_unit(mission) && !self.is_end(mission) {
            self.pass(mission);
        }
    }

    /// Goes on to the next unit with which there is a call in the slot, and past them all where there is none; whether
    /// there is one.
    fn finds_unit(&mut self, mission: &Mission) -> bool
        requires { MayWalk (flown_of mission.now) (desk_of self.old) }
        ensures finds { Finds (flown_of mission.now) (desk_of self.old) result (desk_of self.new) }
        ensures same { IsSameBoard self.old self.new }
    {
        if self.slot == mission.slots() {
            return false;
        }
        match self.part {
            Part::Hearing => self.finds_caller(mission),
            Part::Running => false,
            Part::Saying => self.finds_called(mission),
        }
    }

    /// Goes on to the next unit from which the slot is heard, if it is heard now; whether there is one.
    fn finds_caller(&mut self, mission: &Mission) -> bool
        requires walks { MayWalk (flown_of mission.now) (desk_of self.old) }
        requires at { IsAtSlot (flown_of mission.now) 0 (desk_of self.old) }
        ensures finds { Finds (flown_of mission.now) (desk_of self.old) result (desk_of self.new) }
        ensures same { IsSameBoard self.old self.new }
    {
        if self.subframe != mission.heard_in(&self.cfg, self.slot) {
            return false;
        }
        self.other = mission.next_caller(&self.cfg, self.slot, self.other, self.unit);
        self.other < 8
    }

    /// Goes on to the next unit to which the slot is said, if it is said now; whether there is one.
    fn finds_called(&mut self, mission: &Mission) -> bool
        requires walks { MayWalk (flown_of mission.now) (desk_of self.old) }
        requires at { IsAtSlot (flown_of mission.now) 2 (desk_of self.old) }
        ensures finds { Finds (flown_of mission.now) (desk_of self.old) result (desk_of self.new) }
        ensures same { IsSameBoard self.old self.new }
    {
        if self.subframe != mission.due(&self.cfg, self.slot) {
            return false;
        }
        self.other = mission.next_called(&self.cfg, self.slot, self.unit, self.other);
        self.other < 8
    }

    /// Goes on where nothing is to be said or heard. What isn't due is not looked at.
    #[inline(never)]
    fn pass(&mut self, mission: &Mission)
        requires may { MayPass (flown_of mission.now) (desk_of self.old) }
        requires inside { at_end (flown_of mission.now) (desk_of self.old) ≡ false }
        ensures onward { Onward (flown_of mission.now) (desk_of self.old) (desk_of self.new) }
        ensures same { IsSameBoard self.old self.new }
    {
        if !self.cfg.has(self.unit) {
            self.rest(mission);
            return;
        }
        if self.slot == mission.slots() {
            self.next_part(mission);
            return;
        }
        // Where `other` is past 0, the slot is heard or said now: there is nothing to jump over.
        if self.other == 0 {
            let due = mission.next_due(&self.cfg, self.subframe, self.part, self.slot);
            if due > self.slot {
                self.slot = due;
                return;
            }
        }
        match self.part {
            Part::Hearing => self.pass_hearing(mission),
            Part::Running => self.pass_running(mission),
            Part::Saying => {
                self.slot += 1;
                self.other = 0;
            }
        }
    }

    /// Goes to the subframe's end, since the unit is outside its configuration.
    fn rest(&mut self, mission: &Mission)
        requires walks { MayWalk (flown_of mission.now) (desk_of self.old) }
        requires out { has self.old.cfg self.old.unit ≡ false }
        requires inside { at_end (flown_of mission.now) (desk_of self.old) ≡ false }
        ensures onward { Onward (flown_of mission.now) (desk_of self.old) (desk_of self.new) }
        ensures same { IsSameBoard self.old self.new }
    {
        self.part = Part::Saying;
        self.slot = mission.slots();
        self.other = 0;
    }

    /// Goes on to the next part of the subframe.
    fn next_part(&mut self, mission: &Mission)
        requires walks { MayWalk (flown_of mission.now) (desk_of self.old) }
        requires end { (self.old.slot ≡ (flown_of mission.now).slots) ⊎ (((desk_of self.old).part ≡ 1) × ((flown_of mission.now).tasks ≤ self.old.slot)) }
        requires inside { (desk_of self.old).part < 2 }
        ensures onward { Onward (flown_of mission.now) (desk_of self.old) (desk_of self.new) }
        ensures same { IsSameBoard self.old self.new }
    {
        self.part = self.part.next();
        self.slot = 0;
        self.other = 0;
    }

    /// Goes past a slot. If it was heard, all of it was, and its words are noted.
    fn pass_hearing(&mut self, mission: &Mission)
        requires may { MayPass (flown_of mission.now) (desk_of self.old) }
        requires member { has self.old.cfg self.old.unit ≡ true }
        requires at { IsAtSlot (flown_of mission.now) 0 (desk_of self.old) }
        ensures onward { Onward (flown_of mission.now) (desk_of self.old) (desk_of self.new) }
        ensures same { IsSameBoard self.old self.new }
    {
        if self.subframe != mission.heard_in(&self.cfg, self.slot) {
            self.slot += 1;
            self.other = 0;
            return;
        }
        self.memory.note(
            mission,
            &self.cfg,
            self.unit,
            self.frame,
            &self.clk,
            self.slot,
            &self.places,
        );
        self.slot += 1;
        self.other = 0;
    }

    /// Goes past a task, which it runs if it is due.
    fn pass_running(&mut self, mission: &Mission)
        requires walks { MayWalk (flown_of mission.now) (desk_of self.old) }
        requires at { IsAtSlot (flown_of mission.now) 1 (desk_of self.old) }
        ensures onward { Onward (flown_of mission.now) (desk_of self.old) (desk_of self.new) }
        ensures same { IsSameBoard self.old self.new }
    {
        if self.slot >= mission.tasks() {
            self.next_part(mission);
            return;
        }
        if self.subframe != mission.run_in(&self.cfg, self.slot) {
            self.slot += 1;
            self.other = 0;
            return;
        }
        self.memory.run(mission, &self.cfg, self.unit, self.slot);
        self.slot += 1;
        self.other = 0;
    }
}
