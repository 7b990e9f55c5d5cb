//! A unit takes its seat, is a port there, and leaves it.
ghost use Rattle.sift_ether.specs.Tokens.{IsTokenOf};
ghost use Rattle.sift_ether.specs.Seating.{IsSeatOf, IsTokenBack};
ghost use Rattle.sift_ether.specs.Seats.{view_of, Follows, Makes, Stands};
ghost use Rattle.sift_ether.specs.Following.{itself, further, no_step, more_steps};

use crate::ether::Ether;
use crate::seat::{EtherSeat, Token};
use crate::steps::{Call, Reach};
use sift_base::{UnitId, Word};
use sift_buffer::{Look, Port, pack, take};
use std::marker::Brand;

impl Ether {
    /// The token's unit at its seat. This makes no step.
    pub fn seat(&self, token: Token) -> EtherSeat<'_>
        requires { IsTokenOf self.now token }
        ensures { IsSeatOf self.now token result }
    {
        let Token { seat, unit, acts } = token;
        EtherSeat {
            reach: Reach::of(&self.table.shared, seat),
            grid: self.grid,
            unit,
            acts,
        }
    }
}

impl EtherSeat<'_> {
    /// The unit's token, with all that the unit did at the seat. This makes no step.
    pub fn end(self) -> Token
        ensures { IsTokenBack self.entry result }
    {
        let EtherSeat {
            reach,
            grid: _,
            unit,
            acts,
        } = self;
        Token {
            seat: reach.end(),
            unit,
            acts,
        }
    }
}

impl Look for EtherSeat<'_> {
    ghost view = { view_of };

    ghost follows = { Follows };

    ghost stands = { Stands };

    ghost makes = { Makes };

    ghost follows_itself = { itself };

    ghost follows_on = { further };

    ghost makes_none = { no_step };

    ghost makes_more = { more_steps };

    fn units(&self) -> u8 {
        self.grid.layout.units
    }

    fn unit(&self) -> UnitId {
        self.unit
    }

    fn progress(&self) -> u64 {
        self.acts.progress()
    }

    fn look(&mut self, other: UnitId) -> u64 {
        let word = usize::from(other.get());
        let number = self.reach.load::<Brand>(word, Call::Look { other });
        self.acts.note_seen(other, number);
        number
    }
}

impl Port for EtherSeat<'_> {
    fn say(&mut self, to: UnitId, slot: usize, f: u32, stamp: u32, word: Option<Word>) {
        let stored = word;
        let told = word;
        let own = self.grid.place(self.unit, to, slot);
        let cell = pack(stamp, stored);
        let call = Call::Say {
            f,
            slot,
            to,
            stamp,
            word: told,
        };
        self.reach.store::<Brand>(own, cell, call);
        self.acts.note_said(f, slot, to, stamp, word);
    }

    fn hear(&mut self, from: UnitId, slot: usize, f: u32, stamp: u32) -> Option<Word> {
        let place = self.grid.place(from, self.unit, slot);
        let call = Call::Hear {
            f,
            slot,
            from,
            stamp,
        };
        let cell = self.reach.load::<Brand>(place, call);
        let word = take(cell, stamp);
        let heard = word;
        self.acts.note_heard(f, slot, from, stamp, heard);
        word
    }

    fn enter(&mut self) {
        let next = self.acts.progress() + 1;
        let own = usize::from(self.unit.get());
        self.reach.store::<Brand>(own, next, Call::Enter);
        self.acts.note_entered();
    }

    fn leave(&mut self) {
        self.acts.note_turned();
        let own = usize::from(self.unit.get());
        let number = self.acts.progress();
        self.reach.store::<Brand>(own, number, Call::Turn);
    }

    fn stray(&mut self, to: UnitId, slot: usize, cell: u64) {
        let place = self.grid.place(self.unit, to, slot);
        self.reach
            .store::<Brand>(place, cell, Call::Stray { to, slot });
    }
}
