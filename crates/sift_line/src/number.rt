//! Numbers, words, units and lists, printed and read just as they are printed.

ghost use Rattle.std.specs.Prelude.{◌≡◌, ℕ, ℤ, ◌^◌, ◌<◌, ◌↔◌, IsTrue, IfSome, Some, false, List, ◌++◌, IsSomeAnd, Bool, Option, ◌≤◌, length, map, OnOk, string_bytes, ◌∷◌, []};
ghost use Rattle.std.specs.Fmt.{decimal, signed_decimal, digit_glyph};
ghost use Rattle.std.specs.Int.{w64};
ghost use Rattle.std.specs.Int.RustNames.{FitsSigned};
ghost use Rattle.sift_line.specs.Number.{IsPlain, IsSigned};
ghost use Rattle.sift_line.specs.Part.{word_text, margin_text, text_or_dash, list_text, AscendFrom, unit_digit, units_text};
ghost use Rattle.std.specs.List.{All};
ghost use Rattle.arrayvec.specs.ArrayVec.{ArrayVec as Items};
ghost use Rattle.sift_base.specs.Units.{Units, AreUnits, members, unit_limit};
ghost use Rattle.sift_config.specs.Config.{IsConfig};

use crate::part::ListPart;
use arrayvec::ArrayVec;
use sift_base::{UnitId, UnitSet, Word};
use sift_config::Config;
use std::alloc::AllocError;

// ---- numbers

/// The number that is printed so, where there is one.
pub fn read_number(text: &str) -> Option<u32>
    ensures part { IfSome result (λ n. n < 2 ^ 32) }
    ensures printed { IfSome result (λ n. decimal n ≡ text.now) }
    ensures exact { (n : ℕ) → n < 2 ^ 32 → decimal n ≡ text.now → result ≡ Some n }
{
    // `parse` takes a `+` and zeros in front too, and no line has them.
    if is_plain(text) {
        text.parse().ok()
    } else {
        None
    }
}

/// The signed number that is printed so, where there is one.
pub fn read_signed(text: &str) -> Option<i64>
    ensures part { IfSome result (FitsSigned w64) }
    ensures printed { IfSome result (λ z. signed_decimal z ≡ text.now) }
    ensures exact { (z : ℤ) → FitsSigned w64 z → signed_decimal z ≡ text.now → result ≡ Some z }
{
    if is_signed(text) {
        text.parse().ok()
    } else {
        None
    }
}

/// Whether the text begins as a number without a sign does: it is one digit, or its first digit isn't 0.
fn is_plain(text: &str) -> bool
    ensures { IsTrue result ↔ IsPlain text.now }
{
    matches!(text.as_bytes(), [b'0'] | [b'1'..=b'9', ..])
}

/// Whether the text begins as a number with or without a sign does.
fn is_signed(text: &str) -> bool
    ensures { IsTrue result ↔ IsSigned text.now }
{
    matches!(text.as_bytes(), [b'-', b'1'..=b'9', ..]) || is_plain(text)
}

// ---- words

/// The word that is printed so, where there is one.
pub fn read_word(text: &str) -> Option<Word>
    ensures part { IfSome result (λ w. w < 2 ^ 16) }
    ensures printed { IfSome result (λ w. word_text w ≡ text.now) }
    ensures exact { (w : ℕ) → w < 2 ^ 16 → word_text w ≡ text.now → result ≡ Some w }
{
    let [first, second, third, fourth] = text.as_bytes() else {
        return None;
    };
    let high = hex_value(*first)? * 16 + hex_value(*second)?;
    let low = hex_value(*third)? * 16 + hex_value(*fourth)?;
    Some(Word::of(high * 256 + low))
}

/// The value of a hexadecimal digit that is printed so, where there is one.
fn hex_value(byte: u8) -> Option<u16>
    ensures below { IfSome result (λ value. value < 16) }
    ensures printed { IfSome result (λ value. digit_glyph false value ≡ byte) }
    ensures exact { (value : ℕ) → value < 16 → digit_glyph false value ≡ byte → result ≡ Some value }
{
    match byte {
        b'0'..=b'9' => Some(u16::from(byte - b'0')),
        b'a'..=b'f' => Some(u16::from(byte - b'a') + 10),
        _ => None,
    }
}

// ---- what stands behind a label, ticks, and margins

/// What stands behind a label.
pub fn labelled<'a>(field: &'a str, label: &str) -> Option<&'a str>
    ensures printed { IfSome result (λ rest. label.now ++ rest.now ≡ field.now) }
    ensures exact { (rest : List ℕ) → label.now ++ rest ≡ field.now → IsSomeAnd result (λ r. r.now ≡ rest) }
{
    field.strip_prefix(label)
}

/// The ticks that are printed so, where there are some.
pub fn read_ticks(text: &str) -> Option<Option<i64>>
    ensures part { IfSome result (λ ticks. IfSome ticks (FitsSigned w64)) }
    ensures printed { IfSome result (λ ticks. text_or_dash signed_decimal ticks ≡ text.now) }
    ensures exact { (ticks : Option ℤ) → IfSome ticks (FitsSigned w64) → text_or_dash signed_decimal ticks ≡ text.now → result ≡ Some ticks }
{
    if text == "-" {
        return Some(None);
    }
    Some(Some(read_signed(text)?))
}

/// The margin that is printed so, where there is one.
pub fn read_margin(text: &str) -> Option<bool>
    ensures printed { IfSome result (λ margin. margin_text margin ≡ text.now) }
    ensures exact { (margin : Bool) → margin_text margin ≡ text.now → result ≡ Some margin }
{
    match text {
        "ok" => Some(true),
        "lost" => Some(false),
        _ => None,
    }
}

// ---- lists

/// What stands in a list that is printed.
pub trait Item: Copy {
    /// The text that it is printed as.
    ghost item_text: { Self → List ℕ };

    /// Appends it.
    fn push(self, text: &mut String) -> Result<(), AllocError>
        ensures { OnOk result (string_bytes text.new ≡ string_bytes text.old ++ item_text self) };
}

/// Appends items with commas between them, or `-` where there is none.
pub fn push_list<T: Item>(text: &mut String, items: &[T]) -> Result<(), AllocError>
    ensures { OnOk result (string_bytes text.new ≡ string_bytes text.old ++ list_text (map T.item_text items.now)) }
{
    let Some((first, others)) = items.split_first() else {
        return text.push('-');
    };
    first.push(text)?;
    for item in others {
        text.push(',')?;
        item.push(text)?;
    }
    Ok(())
}

/// The list that is printed so, of at most `N` parts, where there is one.
pub fn read_list<T: ListPart, const N: usize>(text: &str) -> Option<ArrayVec<T, N>>
    ensures part { IfSome result (λ list. All T.IsPart list.items × (length list.items ≤ N)) }
    ensures printed { IfSome result (λ list. list_text (map T.text_of list.items) ≡ text.now) }
    ensures exact { (list : Items T) → All T.IsPart list.items → length list.items ≤ N
        → list_text (map T.text_of list.items) ≡ text.now → result ≡ Some list }
{
    let mut list = ArrayVec::new();
    if text == "-" {
        return Some(list);
    }
    for part in text.split(',') {
        let item = T::read(part)?;
        list.try_push(item).ok()?;
    }
    Some(list)
}

// ---- units, sets of them and configurations

/// The unit that is printed so, where there is one.
pub fn read_unit(text: &str) -> Option<UnitId>
    ensures part { IfSome result (λ u. u < unit_limit) }
    ensures printed { IfSome result (λ u. unit_digit u ∷ [] ≡ text.now) }
    ensures exact { (u : ℕ) → u < unit_limit → unit_digit u ∷ [] ≡ text.now → result ≡ Some u }
{
    match text.as_bytes() {
        [digit] => read_digit(*digit),
        _ => None,
    }
}

/// The unit that has this digit, where there is one.
pub fn read_digit(digit: u8) -> Option<UnitId>
    ensures part { IfSome result (λ u. u < unit_limit) }
    ensures printed { IfSome result (λ u. unit_digit u ≡ digit) }
    ensures exact { (u : ℕ) → u < unit_limit → unit_digit u ≡ digit → result ≡ Some u }
{
    UnitId::of(digit.checked_sub(b'0')?)
}

/// The ascending units that are printed so, where there are some.
fn read_units(text: &str) -> Option<ArrayVec<UnitId, 8>>
    ensures ascend { IfSome result (λ units. AscendFrom 0 units.items) }
    ensures printed { IfSome result (λ units. units_text units.items ≡ text.now) }
    ensures exact { (units : Items ℕ) → AscendFrom 0 units.items → units_text units.items ≡ text.now → result ≡ Some units }
{
    let mut units = ArrayVec::new();
    if text == "-" {
        return Some(units);
    }
    // No unit at all is printed as `-`.
    if text.is_empty() {
        return None;
    }
    let mut least = 0;
    for &digit in text.as_bytes() {
        let unit = read_digit(digit)?;
        if unit.get() < least {
            return None;
        }
        units.push(unit);
        least = unit.get() + 1;
    }
    Some(units)
}

/// The set of units that is printed so, where there is one.
pub fn read_set(text: &str) -> Option<UnitSet>
    ensures units { IfSome result AreUnits }
    ensures printed { IfSome result (λ units. units_text (members units) ≡ text.now) }
    ensures exact { (units : Units) → AreUnits units → units_text (members units) ≡ text.now → result ≡ Some units }
{
    let units = read_units(text)?;
    Some(set_of(&units))
}

/// The set of ascending units.
fn set_of(units: &[UnitId]) -> UnitSet
    requires { AscendFrom 0 units.now }
    ensures members { members result ≡ units.now }
    ensures units { AreUnits result }
{
    let mut set = UnitSet::empty();
    for unit in units {
        set = set.with(*unit);
    }
    set
}

/// The configuration that is printed so, where there is one.
pub fn read_config(text: &str) -> Option<Config>
    ensures part { IfSome result IsConfig }
    ensures printed { IfSome result (λ cfg. units_text cfg ≡ text.now) }
    ensures exact { (cfg : List ℕ) → IsConfig cfg → units_text cfg ≡ text.now → result ≡ Some cfg }
{
    let units = read_set(text)?;
    // What is left of all units without the others: a configuration just where four stand.
    Config::all(8).without(UnitSet::of_bits(u8::MAX).minus(units))
}
