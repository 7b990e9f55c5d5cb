//! Who runs which task, and who says and who hears each slot, under each configuration.

ghost use Rattle.std.specs.Prelude.{◌≡◌, ◌<◌, ◌≤◌, length, slice_index_or, ◌&&◌, ℕ, nat_eq, not, true};
ghost use Rattle.sift_base.specs.Shapes.{task_limit};
ghost use Rattle.sift_base.specs.Units.{members, units_of, has, holds, unit_limit};
ghost use Rattle.sift_mission.specs.Data.{IsConfigOf};
ghost use Rattle.sift_mission.specs.ByWord.{KnowsTasks};
ghost use Rattle.sift_mission.specs.Crews.{AreAllCrews, AreCrewsBy, AreCrewsOf, IsCrewBy, AreAllRoles, AreReceiversOf, AreRolesOf, AreSendersOf};
ghost use Rattle.sift_mission.specs.Parts.{data_of, flown_of};
ghost use Rattle.sift_mission.specs.PartsFit.{PartsFit};
ghost use Rattle.sift_base.specs.Layout.{IsLayout, slot_count};
ghost use Rattle.sift_mission.specs.Flown.{table_for};
ghost use Rattle.sift_mission.specs.Slots.{calls, IsFirstFrom};

use crate::laws::a_mission_fits;
use crate::mission::{Mission, MissionParts, SLOT_LIMIT};
use crate::schedule::slot_of;
use sift_base::{Layout, Slot, UnitId, UnitSet};
use sift_config::Config;
use sift_program::TASK_LIMIT;
use sift_table::GoodTable;

// ---- who runs which task

/// By task, the units of one configuration that run it; by slot, who says and who hears it; and by which of the mission's
/// tables they do.
#[derive(Clone, Copy)]
pub(crate) struct Crews {
    pub by_task: [UnitSet; TASK_LIMIT],
    pub roles: [Roles; SLOT_LIMIT],
    pub table: usize,
}

impl Crews {
    /// No unit for any task.
    fn none() -> Crews
        ensures { length result.by_task ≡ task_limit }
    {
        Crews {
            by_task: [UnitSet::empty(); TASK_LIMIT],
            roles: [Roles::none(); SLOT_LIMIT],
            table: 0,
        }
    }

    /// The units that run a task.
    pub(crate) fn of_task(&self, t: usize) -> UnitSet
        requires { t < task_limit }
        ensures { result ≡ slice_index_or self.now.by_task t result }
    {
        self.by_task[t]
    }
}

/// By the byte of a configuration's units, its crews.
pub(crate) fn all_crews(parts: &MissionParts, tasks: &[u8]) -> [Crews; 256]
    requires knows { KnowsTasks (data_of parts.now) tasks.now }
    ensures { AreAllCrews (data_of parts.now) result }
{
    let mut rows = [Crews::none(); 256];
    for bits in 0..256 {
        rows[bits] = crews_of(parts, tasks, bits as u8);
    }
    rows
}

/// The crews of the configuration whose units' bits the byte has, where it is one.
fn crews_of(parts: &MissionParts, tasks: &[u8], bits: u8) -> Crews
    requires knows { KnowsTasks (data_of parts.now) tasks.now }
    ensures { let us = members (units_of bits) in
        IsConfigOf (flown_of parts.now) us → AreCrewsOf (data_of parts.now) us result }
{
    match Config::of_bits(bits) {
        Some(config) => crews_under(parts, tasks, &config),
        None => Crews::none(),
    }
}

/// The crews of a configuration, by the table of its size, where there is one.
fn crews_under(parts: &MissionParts, tasks: &[u8], config: &Config) -> Crews
    requires knows { KnowsTasks (data_of parts.now) tasks.now }
    ensures { IsConfigOf (flown_of parts.now) config.now → AreCrewsOf (data_of parts.now) config.now result }
{
    let place = config.len() - 4;
    if place < parts.tables.len() {
        let by_task = crews_by(&parts.tables[place], config, parts.program.tasks.len());
        return Crews {
            by_task,
            roles: all_roles(parts, tasks, config, &by_task),
            table: place,
        };
    }
    Crews::none()
}

/// The units of a configuration that run each of so many tasks, by a table.
fn crews_by(table: &GoodTable, config: &Config, tasks: usize) -> [UnitSet; TASK_LIMIT]
    requires rows { tasks ≤ length table.now.run }
    requires few { tasks ≤ task_limit }
    ensures { AreCrewsBy table.now config.now tasks result }
{
    let mut crews = [UnitSet::empty(); TASK_LIMIT];
    for t in 0..tasks {
        crews[t] = crew_by(table, config, t);
    }
    crews
}

/// The units of a configuration that run a task, by a table.
fn crew_by(table: &GoodTable, config: &Config, t: usize) -> UnitSet
    requires { t < length table.now.run }
    ensures { IsCrewBy table.now config.now t result }
{
    let mut crew = UnitSet::empty();
    for position in 0..config.len() {
        let unit = config.unit_at(position);
        if table.runs(t, position) {
            crew = crew.with(unit);
        }
    }
    crew
}

// ---- who says and who hears each slot

impl Mission {
    /// From a number on the first unit that says the slot of a number to a unit, and 8 where none does.
    pub fn next_caller(&self, config: &Config, i: usize, from: u8, to: UnitId) -> u8
        requires config { IsConfigOf (flown_of self.now) config.now }
        requires slot { i < (flown_of self.now).slots }
        requires from { from ≤ unit_limit }
        ensures { IsFirstFrom (λ p. calls (flown_of self.now) config.now ((flown_of self.now).kind i) p to) from result }
    {
        first_from(self.callers(config, i, to), from)
    }

    /// From a number on the first unit to which a unit says the slot of a number, and 8 where there is none.
    pub fn next_called(&self, config: &Config, i: usize, from: UnitId, to: u8) -> u8
        requires config { IsConfigOf (flown_of self.now) config.now }
        requires slot { i < (flown_of self.now).slots }
        requires to { to ≤ unit_limit }
        ensures { IsFirstFrom (calls (flown_of self.now) config.now ((flown_of self.now).kind i) from) to result }
    {
        first_from(self.called(config, i, from), to)
    }

    /// The units that say the slot of a number to a unit.
    fn callers(&self, config: &Config, i: usize, to: UnitId) -> UnitSet
        requires config { IsConfigOf (flown_of self.now) config.now }
        requires slot { i < (flown_of self.now).slots }
        ensures { (p : ℕ) → holds result p ≡ calls (flown_of self.now) config.now ((flown_of self.now).kind i) p to }
    {
        a_mission_fits(self);
        let roles = self.crews_for(config).roles[i];
        partners(to, roles.receivers, roles.senders)
    }

    /// The units to which a unit says the slot of a number.
    fn called(&self, config: &Config, i: usize, from: UnitId) -> UnitSet
        requires config { IsConfigOf (flown_of self.now) config.now }
        requires slot { i < (flown_of self.now).slots }
        ensures { (q : ℕ) → holds result q ≡ calls (flown_of self.now) config.now ((flown_of self.now).kind i) from q }
    {
        a_mission_fits(self);
        let roles = self.crews_for(config).roles[i];
        partners(from, roles.senders, roles.receivers)
    }
}

/// The units of a configuration that say a slot, and those that hear it.
#[derive(Clone, Copy)]
pub(crate) struct Roles {
    pub senders: UnitSet,
    pub receivers: UnitSet,
}

impl Roles {
    /// No unit says or hears the slot.
    pub fn none() -> Roles {
        Roles {
            senders: UnitSet::empty(),
            receivers: UnitSet::empty(),
        }
    }
}

/// By slot, who says and who hears it under a configuration, where these crews run the tasks.
pub(crate) fn all_roles(
    parts: &MissionParts,
    tasks: &[u8],
    config: &Config,
    crews: &[UnitSet; TASK_LIMIT],
) -> [Roles; SLOT_LIMIT]
    requires knows { KnowsTasks (data_of parts.now) tasks.now }
    requires crews { let d = data_of parts.now in AreCrewsBy (table_for d config.now) config.now (length d.program.tasks) crews.now }
    ensures { IsConfigOf (flown_of parts.now) config.now → AreAllRoles (data_of parts.now) config.now (slot_count parts.now.layout) result }
{
    let mut roles = [Roles::none(); SLOT_LIMIT];
    for slot in 0..parts.layout.count() {
        roles[slot] = roles_of(parts, tasks, config, crews, slot);
    }
    roles
}

/// Who says and who hears a slot.
fn roles_of(
    parts: &MissionParts,
    tasks: &[u8],
    config: &Config,
    crews: &[UnitSet; TASK_LIMIT],
    slot: usize,
) -> Roles
    requires knows { KnowsTasks (data_of parts.now) tasks.now }
    requires crews { let d = data_of parts.now in AreCrewsBy (table_for d config.now) config.now (length d.program.tasks) crews.now }
    requires slot { slot < slot_count parts.now.layout }
    ensures { IsConfigOf (flown_of parts.now) config.now → AreRolesOf (data_of parts.now) config.now slot result }
{
    Roles {
        senders: senders_of(parts, tasks, config, crews, slot),
        receivers: receivers_of(&parts.layout, config, slot),
    }
}

/// The units of a configuration that say a slot.
fn senders_of(
    parts: &MissionParts,
    tasks: &[u8],
    config: &Config,
    crews: &[UnitSet; TASK_LIMIT],
    slot: usize,
) -> UnitSet
    requires knows { KnowsTasks (data_of parts.now) tasks.now }
    requires crews { let d = data_of parts.now in AreCrewsBy (table_for d config.now) config.now (length d.program.tasks) crews.now }
    requires slot { slot < slot_count parts.now.layout }
    ensures { IsConfigOf (flown_of parts.now) config.now → AreSendersOf (data_of parts.now) config.now slot result }
{
    match slot_of(&parts.layout, slot) {
        Slot::Clock | Slot::Report => units_if(config, true),
        Slot::Sense(x) => UnitSet::empty().with(config.reader_of(x)),
        Slot::RelaySense(x) => units_if(config, true).without(config.reader_of(x)),
        Slot::Out(w) => crews[usize::from(tasks[usize::from(w)])],
        Slot::RelayReport(s) => units_if(config, config.has(s)).without(s),
    }
}

/// The units of a configuration that hear a slot.
fn receivers_of(layout: &Layout, config: &Config, slot: usize) -> UnitSet
    requires layout { IsLayout layout.now }
    requires slot { slot < slot_count layout.now }
    ensures { AreReceiversOf layout.now config.now slot result }
{
    match slot_of(layout, slot) {
        Slot::RelayReport(s) => units_if(config, true).without(s),
        _ => units_if(config, true),
    }
}

/// All units of a configuration, or none.
fn units_if(config: &Config, all: bool) -> UnitSet
    ensures { (u : ℕ) → holds result u ≡ (has config.now u && all) }
{
    if all {
        config.units()
    } else {
        UnitSet::empty()
    }
}

/// The partners of a unit of one side: all other units of the other side. A unit that isn't of its side has none.
fn partners(unit: UnitId, side: UnitSet, other: UnitSet) -> UnitSet
    ensures { (u : ℕ) → holds result u ≡ (holds side unit && (not (nat_eq u unit) && holds other u)) }
{
    if !side.has(unit) {
        return UnitSet::empty();
    }
    other.without(unit)
}

/// From a number on the first unit of a set, and 8 where there is none.
fn first_from(units: UnitSet, from: u8) -> u8
    requires { from ≤ unit_limit }
    ensures { IsFirstFrom (holds units) from result }
{
    let rest = u16::from(units.bits()) >> from;
    if rest == 0 {
        return 8;
    }
    from + rest.trailing_zeros() as u8
}
