//! Catches, read just as they are printed: by their ways, and as the units that a line names.

ghost use Rattle.std.specs.Prelude.{◌≡◌, ◌++◌, ◌↔◌, IfSome, IsTrue, OnOk, Some, string_bytes};
ghost use Rattle.sift_exec.specs.declared.catches.Kinds.{Kinds as TheKinds};
ghost use Rattle.sift_line.specs.Apart.{catch_above};
ghost use Rattle.sift_line.specs.Bad.{AreTold, IsBad, IsCatch, IsSomeKind, IsToldBy, catch_text, catches_in, caught_text, kinds_text, bad_in, units_in, version_of};
ghost use Rattle.sift_line.specs.declared.catch.Bad.TheVariants.{ByKind};
ghost use Rattle.sift_line.specs.declared.catch.Bad.{Bad as Told};

use crate::line::Version;
use crate::number::{Item, read_digit, read_list};
use crate::part::{ListPart, Part, field};
use crate::print::{members_of, push_unit};
use arrayvec::ArrayVec;
use sift_base::{UnitId, UnitSet};
use sift_exec::{Catches, Kind, Kinds};
use std::alloc::AllocError;

// ---- catches by their ways

/// A unit that was caught, and the ways in which.
#[derive(Clone, Copy, Default, PartialEq, Eq)]
pub struct Catch {
    pub unit: UnitId,
    pub kinds: Kinds,
}

impl Part for Catch {
    ghost text_of = { catch_text };

    ghost IsPart = { IsCatch };

    fn read(text: &str) -> Option<Catch> {
        let [digit, letters @ ..] = text.as_bytes() else {
            return None;
        };
        Some(Catch {
            unit: read_digit(*digit)?,
            kinds: read_kinds(letters)?,
        })
    }
}

impl ListPart for Catch {
    ghost apart = { catch_above };
}

impl Item for Catch {
    ghost item_text = { catch_text };

    fn push(self, text: &mut String) -> Result<(), AllocError> {
        push_unit(text, self.unit)?;
        text.push_str(if self.kinds.poll { "p" } else { "" })?;
        text.push_str(if self.kinds.relay { "r" } else { "" })?;
        text.push_str(if self.kinds.clock { "c" } else { "" })
    }
}

impl Part for Catches {
    ghost text_of = { λ caught. caught_text (ByKind caught) };

    ghost IsPart = { λ caught. IsBad (ByKind caught) };

    fn read(text: &str) -> Option<Catches> {
        let listed: ArrayVec<Catch, 8> = read_list(text)?;
        let caught = caught_by(&listed);
        // Told again it has to be the same list: so no unit stands twice, or before one of a lower number.
        if are_catches_in(&listed, &caught) {
            Some(caught)
        } else {
            None
        }
    }
}

/// The ways that have these letters, where there are some.
fn read_kinds(letters: &[u8]) -> Option<Kinds>
    ensures part { IfSome result IsSomeKind }
    ensures printed { IfSome result (λ kinds. kinds_text kinds ≡ letters.now) }
    ensures exact { (kinds : TheKinds) → IsSomeKind kinds → kinds_text kinds ≡ letters.now → result ≡ Some kinds }
{
    let (poll, relay, clock) = match letters {
        b"p" => (true, false, false),
        b"r" => (false, true, false),
        b"c" => (false, false, true),
        b"pr" => (true, true, false),
        b"pc" => (true, false, true),
        b"rc" => (false, true, true),
        b"prc" => (true, true, true),
        _ => return None,
    };
    Some(Kinds { poll, relay, clock })
}

/// The units that were caught, in ascending order, and the ways in which.
pub fn catches_in(caught: &Catches) -> ArrayVec<Catch, 8>
    ensures { result.items ≡ catches_in caught.now }
{
    let mut list = ArrayVec::new();
    let units = members_of(caught.everyone());
    for unit in units.as_slice() {
        list.push(Catch {
            unit: *unit,
            kinds: caught.kinds_of(*unit),
        });
    }
    list
}

/// Whether a list is that of these catches: each unit that was caught once, in ascending order, with all its ways.
fn are_catches_in(list: &[Catch], caught: &Catches) -> bool
    ensures { IsTrue result ↔ (list.now ≡ catches_in caught.now) }
{
    list == catches_in(caught).as_slice()
}

/// The units that a list tells in each way.
fn caught_by(list: &[Catch]) -> Catches
    ensures { IsToldBy list.now result }
{
    Catches {
        poll: units_by(list, Kind::Poll),
        relay: units_by(list, Kind::Relay),
        clock: units_by(list, Kind::Clock),
    }
}

/// The units that a list tells to be caught in this way.
fn units_by(list: &[Catch], kind: Kind) -> UnitSet
    ensures { AreTold list.now kind result }
{
    let mut units = UnitSet::empty();
    for catch in list {
        if catch.kinds.has(kind) {
            units = units.with(catch.unit);
        }
    }
    units
}

// ---- the units that were caught

/// The units that a unit caught, as a line tells them.
#[derive(Clone, Copy)]
pub enum Bad {
    /// In version 1: the units.
    Plain(UnitSet),
    /// In version 2: the units, by the ways in which they were caught.
    ByKind(Catches),
}

impl Bad {
    /// What a report of this version tells of catches: version 1 forgets the ways.
    pub fn of(version: Version, caught: Catches) -> Bad
        ensures { result ≡ bad_in version caught }
    {
        match version {
            Version::One => Bad::Plain(caught.everyone()),
            Version::Two => Bad::ByKind(caught),
        }
    }

    /// The units, in whatever way they were caught.
    pub fn units(&self) -> UnitSet
        ensures { result ≡ units_in self.now }
    {
        match self {
            Bad::Plain(units) => *units,
            Bad::ByKind(caught) => caught.everyone(),
        }
    }
}

/// The caught units behind a label in a report of this version, where there are some.
pub fn bad_field(text: &str, label: &str, version: Version) -> Option<Bad>
    ensures part { IfSome result IsBad }
    ensures version { IfSome result (λ bad. version_of bad ≡ version) }
    ensures printed { IfSome result (λ bad. label.now ++ caught_text bad ≡ text.now) }
    ensures exact { (bad : Told) → IsBad bad → version_of bad ≡ version → label.now ++ caught_text bad ≡ text.now → result ≡ Some bad }
{
    match version {
        Version::One => Some(Bad::Plain(field(text, label)?)),
        Version::Two => Some(Bad::ByKind(field(text, label)?)),
    }
}
