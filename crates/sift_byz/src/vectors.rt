//! The vectors that the units make, their text, and the laws of oral messages.

ghost use Rattle.std.specs.Prelude.{◌≡◌, ◌<◌, [], get_or, length, codes, ◌++◌, if◌then◌else◌, IfOk, OnOk, string_bytes};
ghost use Rattle.sift_byz.specs.Plan.{entry_in, byz_plan_of, stands_last, tells_some, vectors_of};
ghost use Rattle.sift_byz.specs.Text.{line_text, text_of, words_text};
ghost use Rattle.sift_byz.specs.Laws.{AnyUnitIsAgreedOn, LoyalUnitIsBelieved, LoyalValuesAreKept, OneTraitorIsAsInFlights, VectorsAreEqual, VectorsHoldTheEntries};
ghost use Rattle.sift_byz.specs.Lawful.{OneByzPlan, OneRefusal, ByzPlansAreAccepted, StatedByzPlansAreLawful};
ghost use Rattle.sift_byz.specs.Rows.{PremisesAreMet, Rows, ThreeAreTooFew};

use crate::reading::{ByzPlan, Lie};
use arrayvec::ArrayVec;
use sift_base::{NoMemory, Word};
use sift_line::push_list;
use std::alloc::{AllocError, Global};
use std::marker::Model;

/// A vector for each unit: the value that it takes for each unit's. A clause sees the list of the vectors.
#[derive(Drop)]
pub struct Vectors {
    pub(crate) rows: Vec<ArrayVec<Word, 10>>,
}

impl Model for Vectors {
    ghost use Rattle.std.specs.Prelude.{ℕ, List, map};
    ghost use Rattle.sift_byz.specs.Plan.{IsSquare};

    ghost Value = { List (List ℕ) };

    ghost view = { λ vectors. map (λ row. row.items) vectors.rows.items };

    ghost invariant = { λ vectors. IsSquare (map (λ row. row.items) vectors.rows.items) };
}

impl Vectors {
    /// The entry of unit `s` in the vector of unit `q`.
    pub fn get(&self, q: u8, s: u8) -> Word
        requires unit { q < length self.now }
        requires other { s < length self.now }
        ensures { result ≡ entry_in self.now q s }
    {
        self.row(q)[usize::from(s)]
    }

    /// The vector of unit `q`.
    pub(crate) fn row(&self, q: u8) -> &[Word]
        requires { q < length self.now }
        ensures vector { result.now ≡ get_or self.now q [] }
        ensures long { length result.now ≡ length self.now }
    {
        &self.rows[usize::from(q)]
    }
}

// ---- the text of vectors

/// The text of a plan's vectors.
///
/// It has a line for each unit: `u=U liar` for a traitor, and for each other unit `u=U vector=LIST`, where the words stand in the
/// order of the units, each as four hexadecimal digits, with commas between them.
pub fn vectors_text(alloc: Global, plan: &ByzPlan, vectors: &Vectors) -> Result<String, NoMemory>
    requires { vectors.now ≡ vectors_of (byz_plan_of plan.now) }
    ensures { IfOk result (λ text. string_bytes text ≡ text_of (byz_plan_of plan.now)) }
{
    let mut text = String::new(alloc);
    for unit in 0..plan.units {
        push_line(&mut text, plan, unit, vectors.row(unit))?;
    }
    Ok(text)
}

/// Appends the line of a unit.
fn push_line(text: &mut String, plan: &ByzPlan, unit: u8, vector: &[Word]) -> Result<(), AllocError>
    ensures { OnOk result (string_bytes text.new ≡ string_bytes text.old ++ line_text (byz_plan_of plan.now) unit vector.now) }
{
    write!(text, "u={unit}")?;
    push_told(text, plan, unit, vector)?;
    text.push('\n')
}

/// Appends what is said of a unit.
fn push_told(text: &mut String, plan: &ByzPlan, unit: u8, vector: &[Word]) -> Result<(), AllocError>
    ensures { OnOk result (string_bytes text.new ≡ string_bytes text.old
        ++ (if tells_some (byz_plan_of plan.now).lies unit then codes " liar" else codes " vector=" ++ words_text vector.now)) }
{
    if is_traitor(plan, unit) {
        text.push_str(" liar")
    } else {
        text.push_str(" vector=")?;
        push_words(text, vector)
    }
}

/// Whether a unit stands last in the path of a lie.
fn is_traitor(plan: &ByzPlan, unit: u8) -> bool
    ensures { result ≡ tells_some (byz_plan_of plan.now).lies unit }
{
    for lie in &plan.lies {
        if tells(lie, unit) {
            return true;
        }
    }
    false
}

/// Whether a unit stands last in the path of this lie.
fn tells(lie: &Lie, unit: u8) -> bool
    ensures { result ≡ stands_last unit lie.now.path.items }
{
    match lie.path.as_slice() {
        [.., last] => *last == unit,
        [] => false,
    }
}

/// Appends words, with commas between them.
fn push_words(text: &mut String, words: &[Word]) -> Result<(), AllocError>
    ensures { OnOk result (string_bytes text.new ≡ string_bytes text.old ++ words_text words.now) }
{
    if words.is_empty() {
        return Ok(());
    }
    push_list(text, words)
}

// ---- laws

/// A document states at most one plan.
pub fn one_byz_plan()
    ensures { OneByzPlan }
{}

/// A document that states a plan is refused by no rule.
pub fn byz_plans_are_accepted()
    ensures { ByzPlansAreAccepted }
{}

/// A document is refused in one way: by one rule, at one place.
pub fn one_refusal()
    ensures { OneRefusal }
{}

/// A plan that a document states is within the limits, and its traitors are few.
pub fn stated_byz_plans_are_lawful()
    ensures { StatedByzPlansAreLawful }
{}

/// What a loyal unit holds is the result of each other loyal unit.
pub fn loyal_unit_is_believed()
    ensures { LoyalUnitIsBelieved }
{}

/// Two loyal units have one result for what any unit tells.
pub fn any_unit_is_agreed_on()
    ensures { AnyUnitIsAgreedOn }
{}

/// All loyal units have one vector.
pub fn vectors_are_equal()
    ensures { VectorsAreEqual }
{}

/// In it the entry of each loyal unit is its value.
pub fn loyal_values_are_kept()
    ensures { LoyalValuesAreKept }
{}

/// Where one unit at most may lie, units agree as those of a flight do.
pub fn one_traitor_is_as_in_flights()
    ensures { OneTraitorIsAsInFlights }
{}

/// The vectors hold each unit's entry of each unit.
pub fn vectors_hold_the_entries()
    ensures { VectorsHoldTheEntries }
{}

/// The vectors of plans that were worked out by hand.
pub fn rows()
    ensures { Rows }
{}

/// The laws speak of some plans.
pub fn premises_are_met()
    ensures { PremisesAreMet }
{}

/// Three units are too few for one traitor.
pub fn three_are_too_few()
    ensures { ThreeAreTooFew }
{}
