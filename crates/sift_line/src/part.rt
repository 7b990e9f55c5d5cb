//! The parts of a line: each type that stands in one, with its text, and how it is read.

ghost use Rattle.std.specs.Prelude.{◌≡◌, ℕ, ℤ, ◌^◌, ◌<◌, ◌≤◌, List, [], ◌∷◌, ◌++◌, length, map, IfSome, Some, ⊤};
ghost use Rattle.std.specs.Fmt.{decimal, signed_decimal};
ghost use Rattle.std.specs.Int.{w64};
ghost use Rattle.std.specs.Int.RustNames.{FitsSigned};
ghost use Rattle.std.specs.List.{All};
ghost use Rattle.sift_base.specs.Units.{AreUnits, members, unit_limit};
ghost use Rattle.sift_config.specs.Config.{IsConfig};
ghost use Rattle.sift_line.specs.Apart.{word_above};
ghost use Rattle.sift_line.specs.Part.{IsAbove, dash, list_text, margin_text, text_or_dash, unit_digit, units_text, word_text};

use crate::number::{
    labelled, read_config, read_list, read_margin, read_number, read_set, read_signed, read_ticks,
    read_unit, read_word,
};
use arrayvec::ArrayVec;
use sift_base::{UnitId, UnitSet, Word};
use sift_config::Config;

/// A part of a line.
pub trait Part: Sized {
    /// The text that it is printed as.
    ghost text_of: { Self → List ℕ };

    /// It is one of the values of its type.
    ghost IsPart: { Self → Type 0 };

    /// The part that is printed so, where there is one.
    fn read(text: &str) -> Option<Self>
        ensures part { IfSome result IsPart }
        ensures printed { IfSome result (λ part. text_of part ≡ text.now) }
        ensures exact { (part : Self) → IsPart part → text_of part ≡ text.now → result ≡ Some part };
}

/// A part of a list.
pub trait ListPart: Part + Default + Drop {
    /// It has no comma, and isn't a dash.
    ghost apart: { (part : Self) → IsAbove dash (Self.text_of part) };
}

/// The part behind a label, where there is one.
pub fn field<T: Part>(field: &str, label: &str) -> Option<T>
    ensures part { IfSome result T.IsPart }
    ensures printed { IfSome result (λ part. label.now ++ T.text_of part ≡ field.now) }
    ensures exact { (part : T) → T.IsPart part → label.now ++ T.text_of part ≡ field.now → result ≡ Some part }
{
    T::read(labelled(field, label)?)
}

impl Part for u32 {
    ghost text_of = { decimal };

    ghost IsPart = { λ n. n < 2 ^ 32 };

    fn read(text: &str) -> Option<u32> {
        read_number(text)
    }
}

impl Part for i64 {
    ghost text_of = { signed_decimal };

    ghost IsPart = { λ z. FitsSigned w64 z };

    fn read(text: &str) -> Option<i64> {
        read_signed(text)
    }
}

impl Part for Option<i64> {
    ghost text_of = { text_or_dash signed_decimal };

    ghost IsPart = { λ ticks. IfSome ticks (FitsSigned w64) };

    fn read(text: &str) -> Option<Option<i64>> {
        read_ticks(text)
    }
}

impl Part for bool {
    ghost text_of = { margin_text };

    ghost IsPart = { λ margin. ⊤ };

    fn read(text: &str) -> Option<bool> {
        read_margin(text)
    }
}

impl Part for UnitId {
    ghost text_of = { λ u. unit_digit u ∷ [] };

    ghost IsPart = { λ u. u < unit_limit };

    fn read(text: &str) -> Option<UnitId> {
        read_unit(text)
    }
}

impl Part for UnitSet {
    ghost text_of = { λ units. units_text (members units) };

    ghost IsPart = { AreUnits };

    fn read(text: &str) -> Option<UnitSet> {
        read_set(text)
    }
}

impl Part for Config {
    ghost text_of = { units_text };

    ghost IsPart = { IsConfig };

    fn read(text: &str) -> Option<Config> {
        read_config(text)
    }
}

impl Part for Word {
    ghost text_of = { word_text };

    ghost IsPart = { λ w. w < 2 ^ 16 };

    fn read(text: &str) -> Option<Word> {
        read_word(text)
    }
}

impl ListPart for Word {
    ghost apart = { word_above };
}

impl<T: ListPart, const N: usize> Part for ArrayVec<T, N> {
    ghost text_of = { λ list. list_text (map T.text_of list.items) };

    ghost IsPart = { λ list. All T.IsPart list.items × (length list.items ≤ N) };

    fn read(text: &str) -> Option<ArrayVec<T, N>> {
        read_list(text)
    }
}
