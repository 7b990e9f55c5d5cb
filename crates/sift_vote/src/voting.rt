//! The majority of places, the units whose places differ from it, and the laws of both.

ghost use Rattle.std.specs.Prelude.{◌≡◌, ℕ, IfSome, IfNone, length};
ghost use Rattle.sift_vote.specs.Majority.{votes_for, IsMajority, HasNoMajority, differs, has_differing, MajorityIsFound, AgreedWordIsFound, MajorityIsUnique, AgreementIsUnique, UnanimityIsAgreed};
ghost use Rattle.sift_base.specs.Units.{holds};

use sift_base::{UnitId, UnitSet, Word};

/// The word that stands in more than half of all places. An absent place counts as a place, and
/// votes for no word.
pub fn majority(places: &[Option<Word>]) -> Option<Word>
    ensures found { IfSome result (IsMajority places.now) }
    ensures none { IfNone result (HasNoMajority places.now) }
    ensures exact { (w : ℕ) → IsMajority places.now w → result ≡ Some w }
{
    for place in places {
        if let Some(word) = *place {
            if votes_for(places, word) > places.len() / 2 {
                return Some(word);
            }
        }
    }
    None
}

// How many of the places hold this word.
fn votes_for(places: &[Option<Word>], word: Word) -> usize
    ensures { result ≡ votes_for places.now word }
{
    places.iter().filter(|place| **place == Some(word)).count()
}

/// The units whose place is absent, or differs from a vote that is there. Each unit has the place beside it in the
/// other list.
pub fn differing(units: &[UnitId], places: &[Option<Word>], vote: Option<Word>) -> UnitSet
    requires { length places.now ≡ length units.now }
    ensures { (u : ℕ) → holds result u ≡ has_differing units.now places.now vote u }
{
    let mut caught = UnitSet::empty();
    for (position, unit) in units.iter().enumerate() {
        if differs(&places[position], &vote) {
            caught = caught.with(*unit);
        }
    }
    caught
}

/// Whether the place is absent, or differs from a vote that is there.
fn differs(place: &Option<Word>, vote: &Option<Word>) -> bool
    ensures { result ≡ differs place.now vote.now }
{
    match (*place, *vote) {
        (None, _) => true,
        (Some(_), None) => false,
        (Some(word), Some(winner)) => word != winner,
    }
}

// ---- laws

/// The search finds just the majority.
pub fn majority_is_found()
    ensures { MajorityIsFound }
{}

/// The search leads to just the agreed word.
pub fn agreed_word_is_found()
    ensures { AgreedWordIsFound }
{}

/// No two words both stand in more than half of the places.
pub fn majority_is_unique()
    ensures { MajorityIsUnique }
{}

/// Any places have exactly one agreed word.
pub fn agreement_is_unique()
    ensures { AgreementIsUnique }
{}

/// Places that all hold one word, and are some, agree on that word.
pub fn unanimity_is_agreed()
    ensures { UnanimityIsAgreed }
{}
