//! The word that a unit takes for another's, the units that relay another word than they were told, and the laws of
//! agreement with one fault.

ghost use Rattle.std.specs.Prelude.{◌≡◌, ◌↔◌, ℕ, ◌∷◌, IsTrue, IfSome, IfNone, Some, length};
ghost use Rattle.sift_vote.specs.Majority.{IsMajority, IsAgreed, agreed_of, has_differing};
ghost use Rattle.sift_agree.specs.Agreement.{HoldsNoMajority, FaultyUnitIsAgreedOn, WorkingUnitIsAgreedOn};
ghost use Rattle.sift_base.specs.Units.{holds};

use sift_base::{UnitId, UnitSet, Word};
use sift_vote::differing;

/// The majority of the word that was heard directly and the relays of it, or 0 where there is none.
/// An absent word counts as a place.
pub fn agree(direct: Option<Word>, relays: &[Option<Word>]) -> Word
    ensures agreed { IsAgreed (direct ∷ relays.now) result }
    ensures exact { result ≡ agreed_of (direct ∷ relays.now) }
{
    if let Some(word) = winner(&direct, &direct, relays) {
        return word;
    }
    for relay in relays {
        if let Some(word) = winner(relay, &direct, relays) {
            return word;
        }
    }
    Word::of(0)
}

/// The word of this place, where it is the majority of all places.
fn winner(place: &Option<Word>, direct: &Option<Word>, relays: &[Option<Word>]) -> Option<Word>
    ensures won { IfSome result (IsMajority (direct.now ∷ relays.now)) }
    ensures lost { IfNone result (HoldsNoMajority (direct.now ∷ relays.now) place.now) }
{
    match *place {
        Some(word) if is_majority(word, direct, relays) => Some(word),
        _ => None,
    }
}

/// Whether the word stands in more than half of all places, absent places counted.
fn is_majority(word: Word, direct: &Option<Word>, relays: &[Option<Word>]) -> bool
    ensures { IsTrue result ↔ IsMajority (direct.now ∷ relays.now) word }
{
    let relayed = relays.iter().filter(|relay| **relay == Some(word)).count();
    let votes = usize::from(*direct == Some(word)) + relayed;
    2 * votes > 1 + relays.len()
}

/// The units whose relay of the own word is absent, or is another word. Each unit has its relay
/// beside it in the other list.
pub fn relay_catches(own: Word, units: &[UnitId], relays: &[Option<Word>]) -> UnitSet
    requires { length relays.now ≡ length units.now }
    ensures { (u : ℕ) → holds result u ≡ has_differing units.now relays.now (Some own) u }
{
    differing(units, relays, Some(own))
}

// ---- laws

/// All working units agree on one word of a faulty unit, whatever it says to each of them.
pub fn faulty_unit_is_agreed_on()
    ensures { FaultyUnitIsAgreedOn }
{}

/// All other working units agree on the word that a working unit said to them.
pub fn working_unit_is_agreed_on()
    ensures { WorkingUnitIsAgreedOn }
{}
