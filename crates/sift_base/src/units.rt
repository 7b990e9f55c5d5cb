//! Units, each of which is one processor of the computer, sets of them, and lists in ascending order.

ghost use Rattle.std.specs.Prelude.{◌≡◌, ℕ, ◌<◌, ◌≤◌, IfSome, IfNone, ◌^◌, length, slice_get, Some, ◌↔◌, IsTrue};
ghost use Rattle.sift_base.specs.Units.{unit_limit, Units, holds, members, units_of, bits_of, AreUnits, MembersAreTheSet, IsAscending};
ghost use Rattle.std.specs.Coded.{coded_ℕ};
ghost use Rattle.sift_base.specs.laws.ReadBack.{bits_of-units_of};
ghost use Rattle.std.specs.FinSet as set;

use std::marker::Model;

/// The most units of a computer.
pub const UNIT_LIMIT: usize = 8;

// ---- a unit

/// The number of a unit, from 0 to 7.
#[derive(Clone, Copy, Debug, Default, PartialEq, Eq)]
pub struct UnitId {
    number: u8,
}

impl Model for UnitId {
    ghost Value = { ℕ };

    ghost view = { λ unit. unit.number };

    ghost invariant = { λ unit. unit.number < unit_limit };

    ghost inverse = { λ number. record { number = number } };
}

impl UnitId {
    /// The unit of this number, where there may be one.
    pub fn of(n: u8) -> Option<UnitId>
        ensures found { IfSome result (λ unit. (unit ≡ n) × (n < unit_limit)) }
        ensures none { IfNone result (unit_limit ≤ n) }
    {
        if n < 8 {
            Some(UnitId { number: n })
        } else {
            None
        }
    }

    /// The unit of a number that is known to be below 8. Where that isn't known, `of` asks.
    pub fn numbered(n: u8) -> UnitId
        requires { n < unit_limit }
        ensures { result ≡ n }
    {
        UnitId { number: n }
    }

    /// The number of the unit.
    pub fn get(self) -> u8
        ensures number { result ≡ self }
        ensures small { result < unit_limit }
    {
        self.number
    }
}

// ---- a set of units, as the bits of a byte

/// A set of units. A clause sees it as a set of numbers below 8.
#[derive(Clone, Copy)]
pub struct UnitSet {
    bits: u8,
}

impl Model for UnitSet {
    ghost Value = { Units };

    ghost coded = { set.code coded_ℕ };

    ghost view = { λ units. units_of units.bits };

    ghost invariant = { λ units. units.bits < 2 ^ 8 };

    ghost inverse = { λ units. record { bits = bits_of units } };

    ghost inverse_ok = { λ inside fits i. record { bits = bits_of-units_of inside.bits fits i } };
}

impl UnitSet {
    /// The set without members.
    pub fn empty() -> UnitSet
        ensures { result ≡ set.empty }
    {
        UnitSet { bits: 0 }
    }

    /// The set of the units whose bits the byte has: bit u stands for unit u.
    pub fn of_bits(bits: u8) -> UnitSet
        ensures { result ≡ units_of bits }
    {
        UnitSet { bits }
    }

    /// The byte in which bit u stands for unit u.
    pub fn bits(self) -> u8
        ensures byte { result ≡ bits_of self }
        ensures back { units_of result ≡ self }
        ensures units { AreUnits self }
    {
        self.bits
    }

    /// Whether the unit is a member.
    pub fn has(self, u: UnitId) -> bool
        ensures { result ≡ holds self u }
    {
        (self.bits >> u.get()) & 1 == 1
    }

    /// The set with the unit.
    pub fn with(self, u: UnitId) -> UnitSet
        ensures { result ≡ set.insert self u }
    {
        UnitSet {
            bits: self.bits | (1 << u.get()),
        }
    }

    /// The set without the unit.
    pub fn without(self, u: UnitId) -> UnitSet
        ensures { result ≡ set.remove self u }
    {
        UnitSet {
            bits: self.bits & !(1 << u.get()),
        }
    }

    /// The units that are members of some of the two sets.
    pub fn union(self, b: UnitSet) -> UnitSet
        ensures { result ≡ set.union self b }
    {
        UnitSet {
            bits: self.bits | b.bits,
        }
    }

    /// The members that aren't in the other set.
    pub fn minus(self, b: UnitSet) -> UnitSet
        ensures { result ≡ set.difference self b }
    {
        UnitSet {
            bits: self.bits & !b.bits,
        }
    }

    /// The member with the least number.
    pub fn first(self) -> UnitId
        requires { 0 < length (members self) }
        ensures { slice_get (members self) 0 ≡ Some result }
    {
        UnitId::numbered(self.bits.trailing_zeros() as u8)
    }

    /// How many units are members.
    pub fn len(self) -> u8
        ensures { result ≡ set.len self }
    {
        self.bits.count_ones() as u8
    }
}

/// The list of a set's members, which texts print, is the set.
pub fn members_are_the_set()
    ensures { MembersAreTheSet }
{}

// ---- ascending lists, as configurations and lists of receivers are

/// Whether each number is below all that follow it.
pub fn is_ascending(numbers: &[u8]) -> bool
    ensures { IsTrue result ↔ IsAscending numbers.now }
{
    numbers.is_sorted_by(|one, next| one < next)
}
