//! A configuration, as the set of its units.

ghost use Rattle.std.specs.Prelude.{◌≡◌, ℕ, ◌<◌, ◌≤◌, List, length, false, slice_get, slice_index, Some, IfSome, IfNone, true};
ghost use Rattle.std.specs.FinSet as set;
ghost use Rattle.sift_base.specs.Units.{AreUnits, members, units_of, unit_limit, has, holds};
ghost use Rattle.sift_base.specs.Layout.{least_units};
ghost use Rattle.sift_base.specs.laws.ReadBack.{set-members};
ghost use Rattle.sift_config.specs.Config.{IsConfig, first_units, reader_of, remaining};

use sift_base::{UnitId, UnitSet};
use std::marker::Model;

/// The units that work on the tasks at a time. A clause sees their numbers as an ascending list, of four to eight.
#[derive(Clone, Copy)]
pub struct Config {
    units: UnitSet,
}

impl Model for Config {
    ghost Value = { List ℕ };

    ghost view = { λ config. members config.units };

    ghost invariant = { λ config. AreUnits config.units × IsConfig (members config.units) };

    ghost inverse = { λ us. record { units = set.from_list us } };

    ghost inverse_ok = { λ inside is i. record { units = set-members inside.units is.0 i } };
}

impl Config {
    /// All units of a computer that has `n` of them, 4 to 8.
    pub fn all(n: u8) -> Config
        requires { (least_units ≤ n) × (n ≤ unit_limit) }
        ensures { result ≡ first_units n }
    {
        Config {
            units: UnitSet::of_bits(u8::MAX >> (8 - n)),
        }
    }

    /// How many units there are, 4 to 8.
    pub fn len(&self) -> usize
        ensures length { result ≡ length self.now }
        ensures config { IsConfig self.now }
    {
        usize::from(self.units.len())
    }

    /// The units as a set.
    pub fn units(&self) -> UnitSet
        ensures members { members result ≡ self.now }
        ensures set { (u : ℕ) → holds result u ≡ has self.now u }
    {
        self.units
    }

    /// The units whose bits the byte has, where they are enough.
    pub fn of_bits(bits: u8) -> Option<Config>
        ensures found { IfSome result (λ config. config ≡ members (units_of bits)) }
        ensures none { IfNone result (length (members (units_of bits)) < least_units) }
    {
        let units = UnitSet::of_bits(bits);
        if units.len() >= 4 {
            return Some(Config { units });
        }
        None
    }

    /// Whether the unit is a member.
    pub fn has(&self, u: UnitId) -> bool
        ensures { result ≡ has self.now u }
    {
        self.units.has(u)
    }

    /// The unit at a position, from 0, in the order of the numbers.
    pub fn unit_at(&self, i: usize) -> UnitId
        requires { i < length self.now }
        ensures { slice_get self.now i ≡ Some result }
    {
        if self.is_unbroken() {
            if let Some(unit) = UnitId::of(i as u8) {
                return unit;
            }
        }
        let mut rest = self.units;
        for _ in 0..i {
            rest = rest.without(rest.first());
        }
        rest.first()
    }

    /// Whether these are the units of the lowest numbers, so that each stands at its number.
    fn is_unbroken(&self) -> bool
        ensures first { result ≡ true → self.now ≡ first_units (length self.now) }
        ensures few { length self.now ≤ unit_limit }
    {
        self.units.bits() == u8::MAX >> (8 - self.units.len())
    }

    /// The position of a unit, where it is a member.
    pub fn position_of(&self, u: UnitId) -> Option<usize>
        ensures found { IfSome result (λ i. slice_get self.now i ≡ Some u) }
        ensures none { IfNone result (has self.now u ≡ false) }
    {
        let mut rest = self.units;
        for position in 0..self.len() {
            let member = rest.first();
            if member == u {
                return Some(position);
            }
            rest = rest.without(member);
        }
        None
    }

    /// The unit that reads a sensor: the sensors are dealt out to the units in turn.
    pub fn reader_of(&self, x: u8) -> UnitId
        ensures { result ≡ reader_of self.now x }
    {
        self.unit_at(usize::from(x) % self.len())
    }

    /// The configuration without some units, where four remain.
    pub fn without(&self, gone: UnitSet) -> Option<Config>
        ensures found { IfSome result (λ config. config ≡ remaining self.now gone) }
        ensures none { IfNone result (length (remaining self.now gone) < least_units) }
    {
        let units = self.units.minus(gone);
        if units.len() < 4 {
            return None;
        }
        Some(Config { units })
    }
}
