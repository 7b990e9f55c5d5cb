//! Items of faults: what a faulty unit says in place of its own words, and how it turns stray.

ghost use Rattle.std.specs.Prelude.{◌≡◌, option_map, codes, IfOk, option_and_then, true};
ghost use Rattle.toml.specs.View.{view, table_view};
ghost use Rattle.sift_script.specs.Script.{failing_of, change_of};
ghost use Rattle.sift_sections.specs.Storm.{storm_in};
ghost use Rattle.toml.specs.Data.{as_str};
ghost use Rattle.sift_document.specs.Document.{read_at};
ghost use Rattle.sift_sections.specs.Item.{change_in, frame_of, has_index, has_word, kind_named, number_where, receivers_of, said_of};

use sift_base::{NoMemory, Word};
use sift_document::{digits, integer_between, member_of, natural_at, number_at, word_value};
use sift_script::{Item, Plan, SlotKind};
use std::alloc::Global;
use toml::{Table, Value};

// ---- how a faulty unit turns stray

/// The storm that a value states, where it states one.
pub(crate) fn storm_in(value: &Value) -> Option<Plan>
    ensures { option_map failing_of result ≡ storm_in (view value.now) }
{
    let storm = value.as_table()?;
    match (
        natural_at(storm, "number"),
        number_at(storm, "strays", 0, 1_000_000),
    ) {
        (Some(number), Some(strays)) => Some(Plan::Storm { number, strays }),
        _ => None,
    }
}

// ---- what it says in place of its own words

/// The item that a table states, where it states one.
pub(crate) fn item_of(alloc: Global, table: &Table) -> Result<Option<Item>, NoMemory>
    ensures { IfOk result (λ found. option_map change_of found ≡ change_in (table_view table.now)) }
{
    let Some(kind) = kind_of(table) else {
        return Ok(None);
    };
    let index = number_where(has_index(kind), table, "index");
    let word = number_where(has_word(kind), table, "word");
    let to = receivers_of(alloc, table)?;
    match (index, word, to, frame_of(table), said_of(table)) {
        (Some(index), Some(word), Some(to), Some(frame), Some(value)) => Ok(Some(Item {
            kind,
            index,
            word,
            to,
            frame,
            value,
        })),
        _ => Ok(None),
    }
}

/// The kind of slot that a table is about.
fn kind_of(table: &Table) -> Option<SlotKind>
    ensures { result ≡ option_and_then kind_named (read_at as_str (codes "slot") (table_view table.now)) }
{
    kind_named(member_of(table, "slot")?.as_str()?)
}

/// The kind of slot of a name.
fn kind_named(name: &str) -> Option<SlotKind>
    ensures { result ≡ kind_named name.now }
{
    match name {
        "clock" => Some(SlotKind::Clock),
        "sense" => Some(SlotKind::Sense),
        "relay" => Some(SlotKind::Relay),
        "out" => Some(SlotKind::Out),
        "report" => Some(SlotKind::Report),
        "relay-report" => Some(SlotKind::RelayReport),
        _ => None,
    }
}

/// Whether slots of a kind have an index.
fn has_index(kind: SlotKind) -> bool
    ensures { result ≡ has_index kind }
{
    match kind {
        SlotKind::Clock | SlotKind::Report => false,
        SlotKind::Sense | SlotKind::Relay | SlotKind::Out | SlotKind::RelayReport => true,
    }
}

/// Whether slots of a kind have a word.
fn has_word(kind: SlotKind) -> bool
    ensures { result ≡ has_word kind }
{
    match kind {
        SlotKind::Out => true,
        _ => false,
    }
}

/// The number at a key, which is there just where it is wanted.
fn number_where(wanted: bool, table: &Table, key: &str) -> Option<u8>
    ensures { result ≡ number_where wanted key.now (table_view table.now) }
{
    if wanted {
        return index_at(table, key);
    }
    match member_of(table, key) {
        Some(_) => None,
        None => Some(0),
    }
}

/// The number at a key that is there and is an integer from 0 to 63.
fn index_at(table: &Table, key: &str) -> Option<u8>
    ensures { result ≡ number_where true key.now (table_view table.now) }
{
    match number_at(table, key, 0, 63) {
        Some(number) => Some(number as u8),
        None => None,
    }
}

/// The receivers.
fn receivers_of(alloc: Global, table: &Table) -> Result<Option<Vec<u8>>, NoMemory>
    ensures { IfOk result (λ found.
        option_map (λ list. list.items) found ≡ receivers_of (table_view table.now)) }
{
    match member_of(table, "to") {
        Some(value) => digits(alloc, value, 7),
        None => Ok(None),
    }
}

/// The frame, if one is stated: `None` where what is there is no frame's number.
fn frame_of(table: &Table) -> Option<Option<u32>>
    ensures { result ≡ frame_of (table_view table.now) }
{
    match member_of(table, "frame") {
        Some(value) => match integer_between(value, 0, 999) {
            Some(frame) => Some(Some(frame)),
            None => None,
        },
        None => Some(None),
    }
}

/// The word that is said, if one is stated: `None` where what is there is no word value.
fn said_of(table: &Table) -> Option<Option<Word>>
    ensures { result ≡ said_of (table_view table.now) }
{
    match member_of(table, "value") {
        Some(value) => match word_value(value) {
            Some(word) => Some(Some(word)),
            None => None,
        },
        None => Some(None),
    }
}
