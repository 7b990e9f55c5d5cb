//! Journals. Rows of cells are proved, in proofs/Cells.antt.

ghost use Rattle.sift_buffer.specs.Journals.{IsJournalOf};

use crate::fixture::unit;
use sift_base::{Layout, Word};
use sift_buffer::Journal;
use std::mem::size_of;
use std::process::Abort;
use std::test::Fail;

/// Four units, a sensor and an output word: nine slots.
const LAYOUT: Layout = Layout {
    units: 4,
    sensors: 1,
    words: 1,
};

/// A journal gives this word, or absence.
fn expect(rt: &impl Abort, read: Option<Word>, want: Option<Word>) {
    assert_eq!(rt; read, want);
}

/// The words that were noted are at their places, and at no other.
fn expect_noted(rt: &impl Abort, journal: &Journal)
    requires { IsJournalOf journal.now LAYOUT 0 2 }
{
    let one = unit(1);
    let three = unit(3);
    expect(rt, journal.said(1, 8, three), Some(Word::of(7)));
    expect(rt, journal.heard(1, 8, three), Some(Word::of(9)));
    expect(rt, journal.said(0, 8, three), None);
    expect(rt, journal.said(1, 7, three), None);
    expect(rt, journal.said(1, 8, one), None);
    expect(rt, journal.heard(0, 8, three), None);
    expect(rt, journal.heard(1, 0, one), None);
}

#[test]
fn a_journal_gives_what_was_noted_last(rt: HostRuntime) -> Result<(), Fail> {
    let three = unit(3);
    let mut journal = Journal::make(rt.alloc(), LAYOUT, unit(0), 2)?;
    expect(&rt, journal.said(1, 8, three), None);
    journal.note_said(1, 8, three, Some(Word::of(7)));
    journal.note_heard(1, 8, three, Some(Word::of(9)));
    expect_noted(&rt, &journal);
    journal.note_said(1, 8, three, None);
    expect(&rt, journal.said(1, 8, three), None);
    Ok(())
}

/// What a place of a journal takes of memory.
const PLACE: usize = size_of::<Option<Word>>();

#[test]
fn a_place_of_a_journal_takes_four_bytes(rt: HostRuntime) {
    assert!(rt; PLACE <= 4);
}
