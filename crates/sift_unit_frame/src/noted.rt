//! What a unit notes of a slot, all of which it has heard, and what it reads of the other clocks.

ghost use Rattle.std.specs.Prelude.{◌≡◌, ◌<◌, ◌≤◌, length, ◌&&◌, ℕ, ℤ, List, pos, Some, if◌then◌else◌, map, not, nat_eq, slice_index, true, unwrap_or, ◌+ℤ◌};
ghost use Rattle.std.specs.List.{filter};
ghost use Rattle.sift_base.specs.Units.{has, holds, others};
ghost use Rattle.sift_vote.specs.Majority.{differs as is_other};
ghost use Rattle.sift_clock.specs.Distance.{IsWithin};
ghost use Rattle.sift_skew.specs.Limits.{offset_limit};
ghost use Rattle.sift_mission.specs.Data.{FlownMission};
ghost use Rattle.sift_mission.specs.Fits.{Fits};
ghost use Rattle.sift_mission.specs.Parts.{flown_of};
ghost use Rattle.sift_unit_frame.specs.Memory.{place_at, polled_at, note as note_of, reading_at, offset_after};
ghost use Rattle.sift_unit_frame.specs.Conditions.{IsShaped, IsUnitOf, IsOutputOf, IsSensedIn, IsSlotOfFrame, MayNote};
ghost use Rattle.sift_unit_frame.specs.Memories.{memory_of};
ghost use Rattle.sift_base.specs.declared.slots.Slot.TheVariants.{Clock, RelaySense, Out, RelayReport};
ghost use Rattle.sift_clock.specs.Correction.{is_too_far};

use crate::memory::Memory;
use arrayvec::ArrayVec;
use sift_agree::{agree, relay_catches};
use sift_base::{Slot, UNIT_LIMIT, UnitId, UnitSet, Word};
use sift_clock::{advance, correction, reading, too_far};
use sift_config::Config;
use sift_mission::Mission;
use sift_skew::offsets_change_little;
use sift_vote::{differing, majority};

/// A poll of an output word, as a unit takes it.
#[derive(Clone, Copy)]
struct Poll<'a> {
    unit: UnitId,
    /// The word's number.
    word: u8,
    /// What was heard of it, by unit.
    places: &'a [Option<Word>; UNIT_LIMIT],
    ghost eight: { length places.now ≡ 8 },
}

impl Memory {
    /// Notes what was heard of a slot, by unit, once all of it was heard. The offset of the unit's clock,
    /// `clk`, is in ticks.
    #[inline(never)]
    pub fn note(
        &mut self,
        mission: &Mission,
        config: &Config,
        unit: UnitId,
        frame: u32,
        clk: &i64,
        slot: usize,
        places: &[Option<Word>; UNIT_LIMIT],
    )
        requires slot { IsSlotOfFrame (flown_of mission.now) config.now frame slot }
        requires near { IsWithin offset_limit clk.now (pos 0) }
        requires may { MayNote (flown_of mission.now) config.now unit (memory_of self.old) self.old.words.before }
        ensures noted { memory_of self.new ≡ note_of (flown_of mission.now) config.now unit frame clk.now self.old.words.before ((flown_of mission.now).kind slot) places.now (memory_of self.old) }
        ensures before { self.new.words.before ≡ self.old.words.before }
    {
        match mission.kind(slot) {
            Slot::Clock => self.note_clocks(mission, config, unit, clk, places),
            Slot::Sense(x) => {
                let reader = config.reader_of(x);
                self.direct[usize::from(x)] = places[usize::from(reader.get())];
            }
            Slot::RelaySense(x) => self.note_relays(mission, config, unit, frame, x, places),
            Slot::Out(w) => self.note_poll(mission, config, unit, w, places),
            Slot::Report => self.reports.copy_from_slice(places),
            Slot::RelayReport(s) => self.note_report(config, unit, s, places),
        }
    }

    /// Notes whose clock is too far away, and the next offset.
    fn note_clocks(
        &mut self,
        mission: &Mission,
        config: &Config,
        unit: UnitId,
        clk: &i64,
        places: &[Option<Word>; UNIT_LIMIT],
    )
        requires fits { Fits (flown_of mission.now) }
        requires unit { IsUnitOf (flown_of mission.now) config.now unit }
        requires near { IsWithin offset_limit clk.now (pos 0) }
        ensures noted { (f : ℕ) (last : List ℕ) → memory_of self.new ≡ note_of (flown_of mission.now) config.now unit f clk.now last Clock places.now (memory_of self.old) }
        ensures before { self.new.words.before ≡ self.old.words.before }
    {
        self.clock = far_clocks(mission, config, unit, clk, places);
        self.next_clk = next_offset(mission, config, unit, clk, places);
    }

    /// Notes a sensor's word, and who relayed another.
    fn note_relays(
        &mut self,
        mission: &Mission,
        config: &Config,
        unit: UnitId,
        frame: u32,
        sensor: u8,
        places: &[Option<Word>; UNIT_LIMIT],
    )
        requires fits { Fits (flown_of mission.now) }
        requires sensed { IsSensedIn (flown_of mission.now) sensor frame }
        requires shape { IsShaped (flown_of mission.now) config.now unit (memory_of self.old) }
        ensures noted { (clk : ℤ) (last : List ℕ) → memory_of self.new ≡ note_of (flown_of mission.now) config.now unit frame clk last (RelaySense sensor) places.now (memory_of self.old) }
        ensures before { self.new.words.before ≡ self.old.words.before }
    {
        let reader = config.reader_of(sensor);
        if reader == unit {
            let own = mission.sensed(sensor, frame);
            self.words.agree(sensor, own);
            self.relay[usize::from(sensor)] = liars(config, unit, own, places);
            return;
        }
        let relays = relays_of(places, config, reader, unit);
        let word = agree(self.direct_of(sensor), &relays);
        self.words.agree(sensor, word);
        self.relay[usize::from(sensor)] = UnitSet::empty();
    }

    /// The word of a sensor as its reader said it.
    fn direct_of(&self, sensor: u8) -> Option<Word>
        requires { sensor < 8 }
        ensures { result ≡ place_at (memory_of self.now).direct sensor }
    {
        self.direct[usize::from(sensor)]
    }

    /// Notes the voted word of a number, and who put out another.
    fn note_poll(
        &mut self,
        mission: &Mission,
        config: &Config,
        unit: UnitId,
        word: u8,
        places: &[Option<Word>; UNIT_LIMIT],
    )
        requires fits { Fits (flown_of mission.now) }
        requires word { IsOutputOf (flown_of mission.now) config.now word }
        requires may { MayNote (flown_of mission.now) config.now unit (memory_of self.old) self.old.words.before }
        ensures noted { (f : ℕ) (clk : ℤ) → memory_of self.new ≡ note_of (flown_of mission.now) config.now unit f clk self.old.words.before (Out word) places.now (memory_of self.old) }
        ensures before { self.new.words.before ≡ self.old.words.before }
    {
        let executors = members_in(config, mission.executors(config, word));
        let poll = Poll { unit, word, places };
        let ballots = self.ballots(&executors, &poll);
        let vote = majority(&ballots);
        let voted = self.voted(word, &ballots, &vote);
        let wrong = differing(&executors, &ballots, vote);
        self.words.vote(word, voted);
        self.poll[usize::from(word)] = wrong;
    }

    /// The word of a number after its poll: the vote, or 0 where there is none. Where there are no ballots, its task is shed,
    /// and it stays what it was in the frame before.
    fn voted(&self, word: u8, ballots: &[Option<Word>], vote: &Option<Word>) -> Word
        requires { word < length self.now.words.before }
        ensures { result ≡ (if nat_eq (length ballots.now) 0 then slice_index self.now.words.before word else unwrap_or vote.now 0) }
    {
        if ballots.is_empty() {
            return self.words.before(word);
        }
        vote.unwrap_or(Word::of(0))
    }

    /// The executors' words, in their order. There are none where the word's task is shed.
    fn ballots(&self, executors: &[UnitId], poll: &Poll<'_>) -> ArrayVec<Option<Word>, 8>
        requires word { poll.now.word < length (memory_of self.now).made }
        requires few { length executors.now ≤ 8 }
        ensures { result.items ≡ map (polled_at poll.now.unit (memory_of self.now) poll.now.places.now poll.now.word) executors.now }
    {
        let mut ballots = ArrayVec::new();
        for executor in executors {
            ballots.push(self.ballot(poll, *executor));
        }
        ballots
    }

    /// The word of an executor in a poll: the own one as it was made, another's as it was heard.
    fn ballot(&self, poll: &Poll<'_>, executor: UnitId) -> Option<Word>
        requires { poll.now.word < length (memory_of self.now).made }
        ensures { result ≡ polled_at poll.now.unit (memory_of self.now) poll.now.places.now poll.now.word executor }
    {
        if executor == poll.unit {
            return Some(self.words.made(poll.word));
        }
        poll.places[usize::from(executor.get())]
    }

    /// Notes the agreed report of a unit.
    fn note_report(
        &mut self,
        config: &Config,
        unit: UnitId,
        of: UnitId,
        places: &[Option<Word>; UNIT_LIMIT],
    )
        ensures noted { (m : FlownMission) (f : ℕ) (clk : ℤ) (last : List ℕ) → memory_of self.new ≡ note_of m config.now unit f clk last (RelayReport of) places.now (memory_of self.old) }
        ensures before { self.new.words.before ≡ self.old.words.before }
    {
        let relays = relays_of(places, config, of, unit);
        self.agreed[usize::from(of.get())] = agree(place_of(&self.reports, of), &relays);
    }
}

/// The place of a unit.
fn place_of(places: &[Option<Word>; UNIT_LIMIT], unit: UnitId) -> Option<Word>
    ensures { result ≡ place_at places.now unit }
{
    places[usize::from(unit.get())]
}

/// The places of these units, in their order.
fn places_of(units: &[UnitId], places: &[Option<Word>; UNIT_LIMIT]) -> ArrayVec<Option<Word>, 8>
    requires { length units.now ≤ 8 }
    ensures { result.items ≡ map (place_at places.now) units.now }
{
    let mut found = ArrayVec::new();
    for unit in units {
        found.push(place_of(places, *unit));
    }
    found
}

/// The units of a configuration that are members of a set, in their order.
fn members_in(config: &Config, set: UnitSet) -> ArrayVec<UnitId, 8>
    ensures { result.items ≡ filter (holds set) config.now }
{
    let mut found = ArrayVec::new();
    for position in 0..config.len() {
        let unit = config.unit_at(position);
        if set.has(unit) {
            found.push(unit);
        }
    }
    found
}

/// The other units that relayed another word than the own one, or none.
fn liars(config: &Config, unit: UnitId, own: Word, places: &[Option<Word>; UNIT_LIMIT]) -> UnitSet
    ensures { (v : ℕ) → holds result v ≡ (has config.now v && (not (nat_eq v unit) && is_other (place_at places.now v) (Some own))) }
{
    let others = members_in(config, config.units().without(unit));
    relay_catches(own, &others, &places_of(&others, places))
}

/// Whether it is a unit other than these two.
fn is_third(unit: UnitId, of: UnitId, own: UnitId) -> bool
    ensures { result ≡ (not (nat_eq unit of) && not (nat_eq unit own)) }
{
    unit != of && unit != own
}

/// The words of the units other than these two, in their order.
fn relays_of(
    places: &[Option<Word>; UNIT_LIMIT],
    config: &Config,
    of: UnitId,
    own: UnitId,
) -> ArrayVec<Option<Word>, 8>
    ensures { result.items ≡ map (place_at places.now) (filter (λ v. not (nat_eq v of) && not (nat_eq v own)) config.now) }
{
    let mut relays = ArrayVec::new();
    for position in 0..config.len() {
        let unit = config.unit_at(position);
        if is_third(unit, of, own) {
            relays.push(place_of(places, unit));
        }
    }
    relays
}

// ---- the other clocks

/// The next offset, by what was heard of the others' clocks.
fn next_offset(
    mission: &Mission,
    config: &Config,
    unit: UnitId,
    clk: &i64,
    places: &[Option<Word>; UNIT_LIMIT],
) -> i64
    requires fits { Fits (flown_of mission.now) }
    requires unit { IsUnitOf (flown_of mission.now) config.now unit }
    requires near { IsWithin offset_limit clk.now (pos 0) }
    ensures { result ≡ offset_after (flown_of mission.now) config.now unit clk.now places.now }
{
    offsets_change_little();
    let readings = readings_of(mission, config, unit, clk, places);
    let mean = correction(&readings, mission.reading_limit(), config.len() as u8);
    advance(*clk, mean, mission.drift(unit))
}

/// A unit's readings of the others' clocks, in their order.
fn readings_of(
    mission: &Mission,
    config: &Config,
    unit: UnitId,
    clk: &i64,
    places: &[Option<Word>; UNIT_LIMIT],
) -> ArrayVec<Option<i32>, 8>
    requires { IsUnitOf (flown_of mission.now) config.now unit }
    ensures { result.items ≡ map (reading_at (flown_of mission.now) unit clk.now places.now) (others unit config.now) }
{
    let mut readings = ArrayVec::new();
    for position in 0..config.len() {
        let other = config.unit_at(position);
        if other != unit {
            readings.push(reading_of(mission, unit, clk, places, other));
        }
    }
    readings
}

/// A unit's reading of another clock.
fn reading_of(
    mission: &Mission,
    unit: UnitId,
    clk: &i64,
    places: &[Option<Word>; UNIT_LIMIT],
    other: UnitId,
) -> Option<i32>
    requires own { has (flown_of mission.now).units unit ≡ true }
    requires other { has (flown_of mission.now).units other ≡ true }
    ensures { result ≡ reading_at (flown_of mission.now) unit clk.now places.now other }
{
    reading(place_of(places, other), *clk, mission.error(unit, other))
}

/// The other units whose clock is absent or too far away.
fn far_clocks(
    mission: &Mission,
    config: &Config,
    unit: UnitId,
    clk: &i64,
    places: &[Option<Word>; UNIT_LIMIT],
) -> UnitSet
    requires { IsUnitOf (flown_of mission.now) config.now unit }
    ensures { (v : ℕ) → holds result v ≡
        (has config.now v && (not (nat_eq v unit) && is_too_far ((flown_of mission.now).skew +ℤ (flown_of mission.now).error) (reading_at (flown_of mission.now) unit clk.now places.now v))) }
{
    let mut far = UnitSet::empty();
    for position in 0..config.len() {
        let other = config.unit_at(position);
        if is_far(mission, unit, clk, places, other) {
            far = far.with(other);
        }
    }
    far
}

/// Whether it is another unit, whose clock is absent or too far away.
fn is_far(
    mission: &Mission,
    unit: UnitId,
    clk: &i64,
    places: &[Option<Word>; UNIT_LIMIT],
    other: UnitId,
) -> bool
    requires own { has (flown_of mission.now).units unit ≡ true }
    requires other { has (flown_of mission.now).units other ≡ true }
    ensures { result ≡ (not (nat_eq other unit) && is_too_far ((flown_of mission.now).skew +ℤ (flown_of mission.now).error) (reading_at (flown_of mission.now) unit clk.now places.now other)) }
{
    let ticks = reading_of(mission, unit, clk, places, other);
    other != unit && too_far(ticks, mission.reading_limit())
}
