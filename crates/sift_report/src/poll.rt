//! The poll of one output word by one unit.

ghost use Rattle.std.specs.Prelude.{◌≡◌, ◌≢◌, ◌+◌, ◌<◌, ◌≤◌, ◌++◌, ◌∷◌, All, OnOk, codes, length, map, slice_get, Some, true, string_bytes, slice_index};
ghost use Rattle.std.specs.Fmt.{decimal};
ghost use Rattle.sift_base.specs.Units.{has, IsAscending, others};
ghost use Rattle.sift_vote.specs.Majority.{majority_of};
ghost use Rattle.sift_program.specs.Program.{first_word, task_at};
ghost use Rattle.sift_mission.specs.Data.{IsConfigOf};
ghost use Rattle.sift_mission.specs.Parts.{data_of, flown_of};
ghost use Rattle.sift_mission.specs.Slots.{executors};
ghost use Rattle.sift_flight.specs.Flight.{config_of};
ghost use Rattle.sift_flight.specs.Told.{told};
ghost use Rattle.sift_report.specs.Poll.{IsOutput, TellsIn, poll_of, polled_text, polls_of};
ghost use Rattle.sift_report.specs.Votes.{place_of, vote_text};
ghost use Rattle.sift_line.specs.Part.{text_or_dash, unit_digit, word_text};

use arrayvec::ArrayVec;
use sift_base::{Slot, UnitId, Word};
use sift_config::Config;
use sift_flight::{Flight, account_at};
use sift_line::{Item, push_head, push_list, push_unit, push_word};
use sift_mission::Mission;
use sift_vote::majority;
use std::alloc::AllocError;

/// An output of a task, and its number among all words.
#[derive(Clone, Copy)]
pub struct Output {
    /// The task.
    pub t: usize,
    /// The number among the task's words.
    pub j: u8,
    /// The number among all words.
    pub word: u8,
}

/// An executor of a word, and its word as a unit has it.
#[derive(Clone, Copy, Default)]
pub struct Poll {
    /// The executor.
    pub unit: UnitId,
    /// Its word, where it isn't absent.
    pub word: Option<Word>,
}

/// Appends the vote of an output word by a unit that tells its account.
pub fn push_vote(
    text: &mut String,
    mission: &Mission,
    flight: &Flight,
    f: u32,
    u: UnitId,
    output: Output,
) -> Result<(), AllocError>
    requires tells { TellsIn mission.now flight.now f u }
    requires output { IsOutput (data_of mission.now) output }
    ensures { OnOk result (string_bytes text.new ≡ string_bytes text.old
        ++ vote_text (data_of mission.now) (told (flown_of mission.now) flight.now) f u (record { t = output.t; j = output.j })) }
{
    let name = mission.parts().names[output.t].as_str();
    let polls = polls_of(mission, flight, f, u, output.word);
    let vote = vote_of(&polls);
    push_head(text, f, u)?;
    push_output(text, name, output.j)?;
    push_list(text, &polls)?;
    push_result(text, vote)?;
    text.push_str("\n")?;
    Ok(())
}

/// Appends the name of a task, the number of an output among its words, and the label of its polls.
fn push_output(text: &mut String, name: &str, j: u8) -> Result<(), AllocError>
    ensures { OnOk result (string_bytes text.new
        ≡ string_bytes text.old ++ (codes "t=" ++ (name.now ++ (codes "." ++ (decimal j ++ codes " words="))))) }
{
    text.push_str("t=")?;
    text.push_str(name)?;
    write!(text, ".{j} words=")
}

/// Appends the majority.
fn push_result(text: &mut String, vote: Option<Word>) -> Result<(), AllocError>
    ensures { OnOk result (string_bytes text.new ≡ string_bytes text.old ++ (codes " vote=" ++ text_or_dash word_text vote)) }
{
    text.push_str(" vote=")?;
    push_place(text, vote)
}

/// The majority of polls.
fn vote_of(polls: &[Poll]) -> Option<Word>
    requires { length polls.now ≤ 8 }
    ensures { result ≡ majority_of (map (λ poll. poll.word) polls.now) }
{
    majority(&places_of(polls))
}

/// The words of a word's executors, as a unit has them.
fn polls_of(mission: &Mission, flight: &Flight, f: u32, u: UnitId, word: u8) -> ArrayVec<Poll, 8>
    requires tells { TellsIn mission.now flight.now f u }
    requires word { word < (flown_of mission.now).words }
    ensures { result.items ≡ polls_of (flown_of mission.now) (told (flown_of mission.now) flight.now) f u word }
{
    let config = account_at(mission, flight, u, f).cfg;
    let mut polls = ArrayVec::new();
    for i in 0..config.len() {
        let unit = config.unit_at(i);
        if mission.executes(&config, word, unit) {
            polls.push(Poll {
                unit,
                word: place_of(mission, flight, f, u, word, unit),
            });
        }
    }
    polls
}

/// The word of a unit of its configuration, as a unit has it: its own as it said it to the lowest other unit, any other as it heard it.
fn place_of(
    mission: &Mission,
    flight: &Flight,
    f: u32,
    u: UnitId,
    word: u8,
    from: UnitId,
) -> Option<Word>
    requires tells { TellsIn mission.now flight.now f u }
    requires word { word < (flown_of mission.now).words }
    requires from { has (flown_of mission.now).units from ≡ true }
    ensures { result ≡ place_of (told (flown_of mission.now) flight.now) f u word from }
{
    let slot = mission.parts().layout.number(Slot::Out(word));
    let journal = &flight.journals[usize::from(u.get())];
    if from == u {
        let config = account_at(mission, flight, u, f).cfg;
        journal.said(f, slot, lowest_other(&config, u))
    } else {
        journal.heard(f, slot, from)
    }
}

/// The lowest other unit of a configuration.
fn lowest_other(config: &Config, u: UnitId) -> UnitId
    requires enough { 2 ≤ length config.now }
    requires ascending { IsAscending config.now }
    ensures lowest { result ≡ slice_index (others u config.now) 0 }
    ensures other { result ≢ u }
    ensures there { has config.now result ≡ true }
{
    let lowest = config.unit_at(0);
    if lowest == u {
        config.unit_at(1)
    } else {
        lowest
    }
}

/// The words alone.
fn places_of(polls: &[Poll]) -> ArrayVec<Option<Word>, 8>
    requires { length polls.now ≤ 8 }
    ensures { result.items ≡ map (λ poll. poll.word) polls.now }
{
    let mut places = ArrayVec::new();
    for poll in polls {
        places.push(poll.word);
    }
    places
}

impl Item for Poll {
    ghost item_text = { λ poll. unit_digit poll.unit ∷ codes ":" ++ text_or_dash word_text poll.word };

    fn push(self, text: &mut String) -> Result<(), AllocError> {
        push_unit(text, self.unit)?;
        text.push(':')?;
        push_place(text, self.word)
    }
}

/// Appends a word, or `-` where there is none.
fn push_place(text: &mut String, place: Option<Word>) -> Result<(), AllocError>
    ensures { OnOk result (string_bytes text.new ≡ string_bytes text.old ++ text_or_dash word_text place) }
{
    match place {
        Some(word) => push_word(text, word),
        None => text.push('-'),
    }
}
