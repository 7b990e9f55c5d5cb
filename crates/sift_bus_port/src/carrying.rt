//! A port with three buses before it as a port.
ghost use Rattle.std.specs.Prelude.{◌≡◌, ◌<◌, ◌==◌, ◌&&◌, ℕ, false, map, not, slice_index_or};
ghost use Rattle.sift_bus_port.specs.Buses.{bus_count, OneBusMayLie, is_same, three_of};
ghost use Rattle.sift_bus_port.specs.Following.{itself, further};
ghost use Rattle.sift_bus_port.specs.Links.{GoesOn, HasHeardNothing, IsBlank, first_link, link_of};
ghost use Rattle.sift_bus_port.specs.Logs.{log_of};

use crate::bus::Bus;
use crate::log::BusLog;
use crate::port::BusPort;
use sift_base::{UnitId, Word};
use sift_buffer::{Look, Port};
use sift_vote::{majority, majority_is_found};

impl<T: Port, B: Bus> BusPort<T, B> {
    /// A port of a unit that has heard nothing yet, with three buses before it, of which this one
    /// is faulty.
    pub fn over(port: T, unit: UnitId, faulty: u8, bus: B, log: BusLog) -> BusPort<T, B>
        requires faulty { faulty < bus_count }
        requires unit { (T.view port).unit ≡ unit }
        requires unheard { HasHeardNothing (T.view port).conduct.heard }
        requires blank { IsBlank (log_of log) }
        ensures port { result.port ≡ port }
        ensures link { link_of T.view result ≡ first_link unit faulty bus (log_of log) }
    {
        BusPort {
            port,
            unit,
            faulty,
            bus,
            log,
        }
    }

    /// The port inside, the faulty bus, and the log.
    pub fn end(self) -> (T, B, BusLog)
        ensures port { result.0 ≡ self.port }
        ensures bus { result.1 ≡ self.bus }
        ensures log { result.2 ≡ self.log }
    {
        let BusPort {
            port,
            unit: _,
            faulty: _,
            bus,
            log,
        } = self;
        (port, bus, log)
    }
}

impl<T: Port, B: Bus> Look for BusPort<T, B> {
    ghost view = { λ p. T.view p.port };

    ghost follows = { λ p strays q. T.follows p.port strays q.port × GoesOn B.allows (link_of T.view p) (link_of T.view q) };

    ghost stands = { λ p unit number. T.stands p.port unit number };

    ghost makes = { λ p steps q. T.makes p.port steps q.port };

    ghost follows_itself = { λ p. (T.follows_itself p.port, itself B.allows (link_of T.view p)) };

    ghost follows_on = { λ p q s earlier later a b. (T.follows_on p.port q.port s.port earlier later a.0 b.0, further B.allows _ _ _ a.1 b.1) };

    ghost makes_none = { λ p. T.makes_none p.port };

    ghost makes_more = { λ p q s m n a b. T.makes_more p.port q.port s.port m n a b };

    fn units(&self) -> u8 {
        self.port.units()
    }

    fn unit(&self) -> UnitId {
        self.port.unit()
    }

    fn progress(&self) -> u64 {
        self.port.progress()
    }

    fn look(&mut self, other: UnitId) -> u64 {
        self.port.look(other)
    }
}

impl<T: Port, B: Bus> Port for BusPort<T, B> {
    fn say(&mut self, to: UnitId, slot: usize, f: u32, stamp: u32, word: Option<Word>) {
        self.port.say(to, slot, f, stamp, word);
    }

    fn hear(&mut self, from: UnitId, slot: usize, f: u32, stamp: u32) -> Option<Word> {
        let heard = self.port.hear(from, slot, f, stamp);
        let given = heard;
        let carried = self.bus.carry(f, from, self.unit, slot, given);
        let noted = carried;
        let (word, wrong) = vote_of_three(heard, self.faulty, carried);
        self.log.note(f, slot, from, noted, wrong);
        word
    }

    fn enter(&mut self) {
        self.port.enter();
    }

    fn leave(&mut self) {
        self.port.leave();
    }

    fn stray(&mut self, to: UnitId, slot: usize, cell: u64) {
        self.port.stray(to, slot, cell);
    }
}

/// Whichever of three buses is faulty, and whatever it carries in place of a word or of absence,
/// the majority of the three is the word, or absence.
pub fn one_bus_may_lie()
    ensures { OneBusMayLie }
{
    majority_is_found();
}

/// What a unit takes of a word that came over three buses: the majority, and which buses gave
/// another word than this.
pub(crate) fn vote_of_three(
    word: Option<Word>,
    faulty: u8,
    carried: Option<Word>,
) -> (Option<Word>, [bool; 3])
    requires { faulty < bus_count }
    ensures majority { result.0 ≡ word }
    ensures wrong { (bus : ℕ) → slice_index_or result.1 bus false ≡ (bus == faulty && not (is_same carried word)) }
{
    let buses = three_of(word, faulty, carried);
    let taken = majority(&buses);
    let wrong = wrong_of(&buses, &taken);
    (taken, wrong)
}

/// What three buses give of a word: the faulty one what it carried, and the two true ones the word.
fn three_of(word: Option<Word>, faulty: u8, carried: Option<Word>) -> [Option<Word>; 3]
    requires { faulty < bus_count }
    ensures { result ≡ three_of word faulty carried }
{
    let mut buses = [word; 3];
    buses[usize::from(faulty)] = carried;
    buses
}

/// Which of three buses give another word than this.
fn wrong_of(buses: &[Option<Word>; 3], word: &Option<Word>) -> [bool; 3]
    ensures { result ≡ map (λ given. not (is_same given word.now)) buses.now }
{
    [buses[0] != *word, buses[1] != *word, buses[2] != *word]
}
