//! The calls of a board on its port.

ghost use Rattle.std.specs.Prelude.{◌≡◌, ◌<◌, ◌+◌, ◌*◌, ℕ, [], true, false};
ghost use Rattle.sift_buffer.specs.Conditions.{MayTurn};
ghost use Rattle.sift_buffer.specs.Views.{Turns};
ghost use Rattle.sift_mission.specs.Parts.{flown_of};
ghost use Rattle.sift_unit_frame.specs.Conditions.{IsSlotOfFrame};
ghost use Rattle.sift_unit.specs.Desk.{is_hearing as at_hearing, is_saying as at_saying, is_end as at_end};
ghost use Rattle.sift_unit.specs.Stepping.{Steps, HasMoved};
ghost use Rattle.sift_unit.specs.Conditions.{IsInFlight, MayWalk, MayGoOn};
ghost use Rattle.sift_unit.specs.Boards.{desk_of, Drives, IsMarked, GoesOn, TurnsNext, BeginsNext};

use crate::board::{Board, Stepped};
use sift_base::UnitId;
use sift_buffer::{Entering, Port};
use sift_mission::{Mission, Part};
use sift_skew::offsets_change_little;

impl Board {
    /// Does the work up to the board's next call on the port, and makes that one call.
    ///
    /// A unit with a storm turns in place of entering its storm's first subframe, by the same gate; with a storm from
    /// frame 0 on it turns before anything else. A unit that has turned, or landed, does nothing more.
    pub fn step<T: Port>(&mut self, mission: &Mission, port: &mut T) -> Stepped
        requires { Drives (flown_of mission.now) self.old (T.view port.old) }
        ensures drives { Drives (flown_of mission.now) self.new (T.view port.new) }
        ensures steps { Steps (flown_of mission.now) (desk_of self.old) (T.view port.old) result (desk_of self.new) (T.view port.new) (T.stands port.new) }
        ensures follows { T.follows port.old [] port.new }
    {
        if self.storm == Some(self.frame) {
            // A unit whose storm comes later turned as its board came to this frame, so this is frame 0.
            if !self.turned {
                self.turn_at_once(port);
            }
            return Stepped::Turned;
        }
        if self.frame == mission.frames() {
            return Stepped::Landed;
        }
        self.find_call(mission);
        if self.is_end(mission) {
            return self.enter(mission, port);
        }
        if self.says() {
            self.say(mission, port);
            return Stepped::Moved;
        }
        self.hear(mission, port);
        Stepped::Moved
    }

    /// The stamp of the slot at which the board stands, and in which it says or hears a word.
    fn stamp(&self, mission: &Mission) -> u32
        requires slot { IsSlotOfFrame (flown_of mission.now) self.now.cfg self.now.frame self.now.slot }
        requires inside { (flown_of mission.now).due self.now.cfg ((flown_of mission.now).kind self.now.slot) < (flown_of mission.now).period }
        ensures { result ≡ self.now.frame * (flown_of mission.now).period + (flown_of mission.now).due self.now.cfg ((flown_of mission.now).kind self.now.slot) + 1 }
    {
        self.frame * mission.period() + mission.due(&self.cfg, self.slot) + 1
    }

    /// Hears the word at which the board stands.
    fn hear<T: Port>(&mut self, mission: &Mission, port: &mut T)
        requires flight { IsInFlight (flown_of mission.now) self.old (T.view port.old) }
        requires here { at_hearing (flown_of mission.now) (desk_of self.old) ≡ true }
        ensures drives { Drives (flown_of mission.now) self.new (T.view port.new) }
        ensures moved { HasMoved (flown_of mission.now) (desk_of self.old) (T.view port.old) (desk_of self.new) (T.view port.new) }
        ensures follows { T.follows port.old [] port.new }
    {
        let stamp = self.stamp(mission);
        if let Some(other) = UnitId::of(self.other) {
            let word = port.hear(other, self.slot, self.frame, stamp);
            self.places[usize::from(self.other)] = word;
            self.other += 1;
            return;
        }
        unreachable!()
    }

    /// Says the word at which the board stands.
    fn say<T: Port>(&mut self, mission: &Mission, port: &mut T)
        requires flight { IsInFlight (flown_of mission.now) self.old (T.view port.old) }
        requires here { at_saying (flown_of mission.now) (desk_of self.old) ≡ true }
        ensures drives { Drives (flown_of mission.now) self.new (T.view port.new) }
        ensures moved { HasMoved (flown_of mission.now) (desk_of self.old) (T.view port.old) (desk_of self.new) (T.view port.new) }
        ensures follows { T.follows port.old [] port.new }
    {
        let stamp = self.stamp(mission);
        if let Some(other) = UnitId::of(self.other) {
            let word = self.memory.word_to(
                mission, &self.cfg, self.unit, self.frame, &self.clk, self.slot, other,
            );
            port.say(other, self.slot, self.frame, stamp, word);
            self.other += 1;
            return;
        }
        unreachable!()
    }

    /// Tries to enter the next subframe, or to turn in its place.
    #[inline(never)]
    fn enter<T: Port>(&mut self, mission: &Mission, port: &mut T) -> Stepped
        requires flight { IsInFlight (flown_of mission.now) self.old (T.view port.old) }
        requires end { at_end (flown_of mission.now) (desk_of self.old) ≡ true }
        ensures drives { Drives (flown_of mission.now) self.new (T.view port.new) }
        ensures steps { Steps (flown_of mission.now) (desk_of self.old) (T.view port.old) result (desk_of self.new) (T.view port.new) (T.stands port.new) }
        ensures follows { T.follows port.old [] port.new }
    {
        if self.turns_next(mission) {
            return self.turn(mission, port);
        }
        match port.try_enter() {
            Entering::Entered => {
                self.go_on(mission);
                if self.frame == mission.frames() {
                    return Stepped::Landed;
                }
                Stepped::Moved
            }
            Entering::NotYet { unit, seen } => Stepped::NotYet { unit, seen },
        }
    }

    /// Whether the unit turns in place of entering the next subframe.
    fn turns_next(&self, mission: &Mission) -> bool
        requires walks { MayWalk (flown_of mission.now) (desk_of self.now) }
        requires frame { self.now.frame < self.now.frames }
        ensures turns { result ≡ true → TurnsNext (flown_of mission.now) self.now }
        ensures enters { result ≡ false → ¬ TurnsNext (flown_of mission.now) self.now }
    {
        self.subframe + 1 == mission.period() && self.storm == Some(self.frame + 1)
    }

    /// Tries to turn stray in place of entering the next frame, and then accounts for the frame that has ended.
    fn turn<T: Port>(&mut self, mission: &Mission, port: &mut T) -> Stepped
        requires drives { Drives (flown_of mission.now) self.old (T.view port.old) }
        requires end { at_end (flown_of mission.now) (desk_of self.old) ≡ true }
        requires next { TurnsNext (flown_of mission.now) self.old }
        ensures drives { Drives (flown_of mission.now) self.new (T.view port.new) }
        ensures steps { Steps (flown_of mission.now) (desk_of self.old) (T.view port.old) result (desk_of self.new) (T.view port.new) (T.stands port.new) }
        ensures follows { T.follows port.old [] port.new }
    {
        match port.turn() {
            Entering::Entered => {
                self.end_frame(mission);
                self.turned = true;
                Stepped::Turned
            }
            Entering::NotYet { unit, seen } => Stepped::NotYet { unit, seen },
        }
    }

    /// Turns stray before anything else: at progress 0 no unit is waited for.
    #[inline(never)]
    fn turn_at_once<T: Port>(&mut self, port: &mut T)
        requires may { MayTurn (T.view port.old).conduct }
        requires first { (T.view port.old).conduct.progress ≡ 0 }
        ensures turned { Turns (T.view port.old) (T.view port.new) }
        ensures marked { IsMarked self.old self.new }
        ensures follows { T.follows port.old [] port.new }
    {
        match port.turn() {
            Entering::Entered => self.turned = true,
            Entering::NotYet { .. } => unreachable!(),
        }
    }

    /// Begins the next subframe, and the next frame after the last subframe.
    fn go_on(&mut self, mission: &Mission)
        requires { MayGoOn (flown_of mission.now) self.old }
        ensures { GoesOn (flown_of mission.now) self.old self.new }
    {
        if self.subframe + 1 < mission.period() {
            self.subframe += 1;
            self.part = Part::Hearing;
            self.slot = 0;
            self.other = 0;
            return;
        }
        self.end_frame(mission);
    }

    /// Accounts for the frame, and begins the next.
    #[inline(never)]
    fn end_frame(&mut self, mission: &Mission)
        requires may { MayGoOn (flown_of mission.now) self.old }
        requires last { self.old.subframe + 1 ≡ (flown_of mission.now).period }
        ensures goes_on { GoesOn (flown_of mission.now) self.old self.new }
        ensures begins { BeginsNext self.old self.new }
    {
        offsets_change_little();
        let account = self
            .memory
            .account(mission, &self.cfg, self.unit, &self.clk);
        self.memory.turn_over(&self.cfg, self.unit, &account);
        self.cfg = account.next_cfg;
        self.clk = account.next_clk;
        self.accounts.push_reserved(account);
        self.frame += 1;
        self.subframe = 0;
        self.part = Part::Hearing;
        self.slot = 0;
        self.other = 0;
    }
}
