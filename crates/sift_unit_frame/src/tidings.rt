//! What a unit says of what it remembers, and how it accounts for the frame.

ghost use Rattle.std.specs.Prelude.{◌≡◌, ◌<◌, ◌≤◌, ◌&&◌, ℕ, length, map, nat_eq, slice_index, true, if◌then◌else◌};
ghost use Rattle.std.specs.List.{list_any, range_with_len};
ghost use Rattle.sift_base.specs.Units.{has, holds};
ghost use Rattle.sift_exec.specs.Conviction.{next_by};
ghost use Rattle.sift_mission.specs.Data.{IsConfigOf};
ghost use Rattle.sift_mission.specs.Fits.{Fits};
ghost use Rattle.sift_mission.specs.Parts.{flown_of};
ghost use Rattle.sift_mission.specs.Slots.{is_slot};
ghost use Rattle.sift_conduct.specs.Conduct.{account_of};
ghost use Rattle.sift_unit_frame.specs.Memory.{units_at};
ghost use Rattle.sift_unit_frame.specs.Tidings.{bad_now, busy_account, frame_account, idle_account, names_now, report_now, report_taken, word_now, word_to as word_for};
ghost use Rattle.sift_unit_frame.specs.Conditions.{IsShaped, IsSlotOfFrame};
ghost use Rattle.sift_unit_frame.specs.Memories.{memory_of};

use crate::memory::Memory;
use arrayvec::ArrayVec;
use sift_base::{Slot, UnitId, UnitSet, Word};
use sift_clock::clock_word;
use sift_conduct::Account;
use sift_config::Config;
use sift_exec::{Catches, Kind, Recorder, convict, next_config};
use sift_mission::Mission;

impl Memory {
    /// The word to say in a slot to a unit: the own word, or what the script puts in its place. There is
    /// none where nothing is to be said.
    pub fn word_to(
        &self,
        mission: &Mission,
        config: &Config,
        unit: UnitId,
        frame: u32,
        clk: &i64,
        slot: usize,
        to: UnitId,
    ) -> Option<Word>
        requires slot { IsSlotOfFrame (flown_of mission.now) config.now frame slot }
        requires member { has config.now unit ≡ true }
        requires shape { IsShaped (flown_of mission.now) config.now unit (memory_of self.now) }
        ensures { result ≡ word_for (flown_of mission.now) config.now unit frame clk.now (memory_of self.now) ((flown_of mission.now).kind slot) to }
    {
        if let Some(word) = mission.override_of(unit, frame, slot, to) {
            return word;
        }
        self.own_word(mission, config, frame, clk, mission.kind(slot))
    }

    /// The own word of a slot.
    fn own_word(
        &self,
        mission: &Mission,
        config: &Config,
        frame: u32,
        clk: &i64,
        slot: Slot,
    ) -> Option<Word>
        requires fits { Fits (flown_of mission.now) }
        requires slot { is_slot (flown_of mission.now) slot ≡ true }
        requires frame { frame < (flown_of mission.now).frames }
        requires made { length (memory_of self.now).made ≡ (flown_of mission.now).words }
        ensures { result ≡ word_now (flown_of mission.now) config.now frame clk.now (memory_of self.now) slot }
    {
        match slot {
            Slot::Clock => Some(clock_word(*clk)),
            Slot::Sense(x) => Some(mission.sensed(x, frame)),
            Slot::RelaySense(x) => self.direct[usize::from(x)],
            Slot::Out(w) => Some(self.words.made(w)),
            Slot::Report => Some(self.report(mission, config)),
            Slot::RelayReport(s) => self.reports[usize::from(s.get())],
        }
    }

    /// The own report: the byte of all that were caught.
    #[inline(never)]
    pub(crate) fn report(&self, mission: &Mission, config: &Config) -> Word
        requires fits { Fits (flown_of mission.now) }
        ensures { result ≡ report_now (flown_of mission.now) config.now (memory_of self.now) }
    {
        Word::of(u16::from(self.record(mission, config).mask().bits()))
    }

    /// All that were caught, by kind.
    pub(crate) fn catches(&self, mission: &Mission, config: &Config) -> Catches
        requires fits { Fits (flown_of mission.now) }
        ensures { result ≡ bad_now (flown_of mission.now) config.now (memory_of self.now) }
    {
        self.record(mission, config).catches()
    }

    /// The record of all that were caught.
    fn record(&self, mission: &Mission, config: &Config) -> Recorder
        requires fits { Fits (flown_of mission.now) }
        ensures { result ≡ bad_now (flown_of mission.now) config.now (memory_of self.now) }
    {
        let polled = union_of(&self.poll, mission.words());
        let relayed = union_of(&self.relay, mission.sensors());
        let mut recorder = Recorder::new();
        for position in 0..config.len() {
            let unit = config.unit_at(position);
            if polled.has(unit) {
                recorder.note(unit, Kind::Poll);
            }
            if relayed.has(unit) {
                recorder.note(unit, Kind::Relay);
            }
            if self.clock.has(unit) {
                recorder.note(unit, Kind::Clock);
            }
        }
        recorder
    }

    /// The account of a unit in a frame, of which all was noted and made. The offset of its clock, `clk`,
    /// is in ticks.
    pub fn account(&self, mission: &Mission, config: &Config, unit: UnitId, clk: &i64) -> Account
        requires fits { Fits (flown_of mission.now) }
        requires config { IsConfigOf (flown_of mission.now) config.now }
        requires shape { IsShaped (flown_of mission.now) config.now unit (memory_of self.now) }
        ensures { account_of result ≡ frame_account (flown_of mission.now) config.now unit clk.now (memory_of self.now) }
    {
        if config.has(unit) {
            return self.busy(mission, config, unit, clk);
        }
        idle(config, clk)
    }

    /// The account of a unit that is in its configuration.
    fn busy(&self, mission: &Mission, config: &Config, unit: UnitId, clk: &i64) -> Account
        requires fits { Fits (flown_of mission.now) }
        requires config { IsConfigOf (flown_of mission.now) config.now }
        requires shape { IsShaped (flown_of mission.now) config.now unit (memory_of self.now) }
        ensures { account_of result ≡ busy_account (flown_of mission.now) config.now unit clk.now (memory_of self.now) }
    {
        Account {
            cfg: *config,
            idle: false,
            clk: *clk,
            ins: self.words.agreed(),
            outs: self.words.voted(),
            bad: self.catches(mission, config),
            next_cfg: self.next_config(mission, config, unit),
            next_clk: self.next_clk,
        }
    }

    /// The configuration of the next frame, by the reports as the unit takes them.
    fn next_config(&self, mission: &Mission, config: &Config, unit: UnitId) -> Config
        requires fits { Fits (flown_of mission.now) }
        requires config { IsConfigOf (flown_of mission.now) config.now }
        ensures { result ≡ next_by (names_now (flown_of mission.now) config.now unit (memory_of self.now)) config.now }
    {
        let reports = self.reports_taken(mission, config, unit);
        next_config(config, convict(&reports, config))
    }

    /// Each unit's report as this unit takes it, its own as it is, the others' as agreed.
    fn reports_taken(&self, mission: &Mission, config: &Config, unit: UnitId) -> ArrayVec<Word, 8>
        requires fits { Fits (flown_of mission.now) }
        ensures { result.items ≡ map (report_taken (flown_of mission.now) config.now unit (memory_of self.now)) config.now }
    {
        let own = self.report(mission, config);
        let mut reports = ArrayVec::new();
        for position in 0..config.len() {
            reports.push(self.report_of(config.unit_at(position), unit, own));
        }
        reports
    }

    /// A unit's report as this unit takes it, where its own is given.
    fn report_of(&self, of: UnitId, unit: UnitId, own: Word) -> Word
        ensures { result ≡ (if nat_eq of unit then own else slice_index (memory_of self.now).agreed of) }
    {
        if of == unit {
            return own;
        }
        self.agreed[usize::from(of.get())]
    }
}

/// The members of the first sets.
fn union_of(sets: &[UnitSet], count: usize) -> UnitSet
    requires { count ≤ length sets.now }
    ensures { (v : ℕ) → holds result v ≡ list_any (λ i. holds (units_at sets.now i) v) (range_with_len 0 count) }
{
    let mut all = UnitSet::empty();
    for i in 0..count {
        all = all.union(sets[i]);
    }
    all
}

/// The account of a unit that is outside its configuration.
fn idle(config: &Config, clk: &i64) -> Account
    ensures { account_of result ≡ idle_account config.now clk.now }
{
    Account {
        cfg: *config,
        idle: true,
        clk: *clk,
        ins: ArrayVec::new(),
        outs: ArrayVec::new(),
        bad: Catches::none(),
        next_cfg: *config,
        next_clk: *clk,
    }
}
