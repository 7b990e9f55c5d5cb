//! Readers of single values and tables.

ghost use Rattle.std.specs.Prelude.{◌≡◌, ◌≤◌, ◌↔◌, ℕ, IfOk, IfSome, IfNone, IsTrue, Some, map, option_map, unwrap_or};
ghost use Rattle.std.specs.List.{Contains};
ghost use Rattle.toml.specs.Data.{get_member};
ghost use Rattle.toml.specs.View.{table_view, view};
ghost use Rattle.sift_document.specs.Document.{HasOnlyKeys, IsTableOf, array_of, digit_to, digits_to, each_read, entries_of, integer_between, members_of, natural, read_at, read_or, word_array, word_value};

use arrayvec::ArrayVec;
use sift_base::{NoMemory, Word};
use std::alloc::Global;
use toml::{Table, Value};

/// The value at a key.
pub fn member_of<'a>(table: &'a Table, key: &str) -> Option<&'a Value>
    ensures { option_map (λ value. view value.now) result ≡ get_member key.now (table_view table.now) }
{
    table.get(key)
}

/// Whether each key of a table is one of these.
pub fn has_only_keys(table: &Table, known: &[&str]) -> bool
    ensures { IsTrue result ↔ HasOnlyKeys (map (λ key. key.now) known.now) (table_view table.now) }
{
    for key in table.keys() {
        if !is_among(key.as_str(), known) {
            return false;
        }
    }
    true
}

/// Whether the text is one of these.
fn is_among(text: &str, texts: &[&str]) -> bool
    ensures { IsTrue result ↔ Contains (map (λ other. other.now) texts.now) text.now }
{
    for other in texts {
        if *other == text {
            return true;
        }
    }
    false
}

/// The table of a value that is one with no other keys than these.
pub fn table_of<'a>(value: &'a Value, known: &[&str]) -> Option<&'a Table>
    ensures found { IfSome result (λ table. table_view table.now ≡ members_of (view value.now)) }
    ensures none { IfNone result (¬ IsTableOf (map (λ key. key.now) known.now) (view value.now)) }
    ensures known { IfSome result (λ _. IsTableOf (map (λ key. key.now) known.now) (view value.now)) }
{
    let table = value.as_table()?;
    if has_only_keys(table, known) {
        Some(table)
    } else {
        None
    }
}

/// The entries of the array at a key, and none where no array is.
pub fn entries_at<'a>(table: &'a Table, key: &str) -> &'a [Value]
    ensures { map (λ entry. view entry) result.now ≡ entries_of (get_member key.now (table_view table.now)) }
{
    match member_of(table, key) {
        Some(value) => entries_in(value),
        None => &[],
    }
}

/// The entries of an array, and none of another value.
fn entries_in(value: &Value) -> &[Value]
    ensures { map (λ entry. view entry) result.now ≡ entries_of (Some (view value.now)) }
{
    match value.as_array() {
        Some(array) => array.as_slice(),
        None => &[],
    }
}

/// The number of an integer from `low` to `high`.
pub fn integer_between(value: &Value, low: u32, high: u32) -> Option<u32>
    ensures { result ≡ integer_between low high (view value.now) }
{
    let number = u32::try_from(value.as_integer()?).ok()?;
    if low <= number && number <= high {
        Some(number)
    } else {
        None
    }
}

/// The number at a key that is there and is an integer from `low` to `high`.
pub fn number_at(table: &Table, key: &str, low: u32, high: u32) -> Option<u32>
    ensures { result ≡ read_at (integer_between low high) key.now (table_view table.now) }
{
    integer_between(member_of(table, key)?, low, high)
}

/// The number of an integer of at least 0.
fn natural(value: &Value) -> Option<u64>
    ensures { result ≡ natural (view value.now) }
{
    u64::try_from(value.as_integer()?).ok()
}

/// The number at a key that is there and is an integer of at least 0.
pub fn natural_at(table: &Table, key: &str) -> Option<u64>
    ensures { result ≡ read_at natural key.now (table_view table.now) }
{
    natural(member_of(table, key)?)
}

/// The number at a key, if it is there: `None` where what is there is no integer from `low` to `high`.
pub fn optional_between(table: &Table, key: &str, low: u32, high: u32) -> Option<Option<u32>>
    ensures { (unstated : ℕ) → option_map (λ stated. unwrap_or stated unstated) result
        ≡ read_or unstated (integer_between low high) key.now (table_view table.now) }
{
    match member_of(table, key) {
        Some(value) => match integer_between(value, low, high) {
            Some(number) => Some(Some(number)),
            None => None,
        },
        None => Some(None),
    }
}

/// The word of a word value.
pub fn word_value(value: &Value) -> Option<Word>
    ensures { result ≡ word_value (view value.now) }
{
    let number = value.as_integer()?;
    if number < -32_768 || number > 65_535 {
        return None;
    }
    Some(Word::of(number.rem_euclid(65_536) as u16))
}

/// The words of an array of `low` to `high` word values.
pub fn word_array<const N: usize>(
    value: &Value,
    low: usize,
    high: usize,
) -> Option<ArrayVec<Word, N>>
    requires { high ≤ N }
    ensures { option_map (λ words. words.items) result ≡ word_array low high (view value.now) }
{
    let entries = value.as_array()?.as_slice();
    if entries.len() < low || high < entries.len() {
        return None;
    }
    let mut words = ArrayVec::new();
    for entry in entries {
        words.push(word_value(entry)?);
    }
    Some(words)
}

/// The numbers of an array of integers from 0 to `high`.
pub fn numbers_to(alloc: Global, value: &Value, high: u8) -> Result<Option<Vec<u8>>, NoMemory>
    ensures { IfOk result (λ found.
        option_map (λ list. list.items) found ≡ array_of (integer_between 0 high) (view value.now)) }
{
    let Some(array) = value.as_array() else {
        return Ok(None);
    };
    let mut list = Vec::new(alloc);
    for entry in array.as_slice() {
        match integer_between(entry, 0, u32::from(high)) {
            Some(number) => list.push(number as u8)?,
            None => return Ok(None),
        }
    }
    Ok(Some(list))
}

/// The numbers of an array of strings of digits from `0` to `last`.
pub fn digit_lists(alloc: Global, value: &Value, last: u8) -> Result<Option<Vec<Vec<u8>>>, NoMemory>
    requires { last ≤ 9 }
    ensures { IfOk result (λ found.
        option_map (λ lists. map (λ list. list.items) lists.items) found ≡ array_of (digits_to last) (view value.now)) }
{
    let Some(array) = value.as_array() else {
        return Ok(None);
    };
    let mut lists = Vec::new(alloc);
    for entry in array.as_slice() {
        match digits(alloc, entry, last)? {
            Some(list) => lists.push(list)?,
            None => return Ok(None),
        }
    }
    Ok(Some(lists))
}

/// The numbers of a string of digits from `0` to `last`.
pub fn digits(alloc: Global, value: &Value, last: u8) -> Result<Option<Vec<u8>>, NoMemory>
    requires { last ≤ 9 }
    ensures { IfOk result (λ found.
        option_map (λ list. list.items) found ≡ digits_to last (view value.now)) }
{
    match value.as_str() {
        Some(text) => digits_in(alloc, text, last),
        None => Ok(None),
    }
}

/// The numbers of the digits of a text, from `0` to `last`.
fn digits_in(alloc: Global, text: &str, last: u8) -> Result<Option<Vec<u8>>, NoMemory>
    requires { last ≤ 9 }
    ensures { IfOk result (λ found. option_map (λ list. list.items) found ≡ each_read (digit_to last) text.now) }
{
    let mut list = Vec::new(alloc);
    for byte in text.as_bytes() {
        match digit_to(*byte, last) {
            Some(digit) => list.push(digit)?,
            None => return Ok(None),
        }
    }
    Ok(Some(list))
}

/// The number of a digit from `0` to `last`.
pub fn digit_to(byte: u8, last: u8) -> Option<u8>
    requires { last ≤ 9 }
    ensures { result ≡ digit_to last byte }
{
    if byte < b'0' || b'0' + last < byte {
        return None;
    }
    Some(byte - b'0')
}
