//! Rogues: one that draws its acts, one whose acts are fixed, and one that rests; and what holds of every storm, and of one that is drawn.
ghost use Rattle.sift_rogue.specs.DrawnStorms.{DrawnStormsAreTheDraws};
ghost use Rattle.sift_rogue.specs.Rogues.{AllowsDrawn, AllowsFixed, AllowsRest};
ghost use Rattle.sift_rogue.specs.Storms.{StormsAddUp};

use crate::rogue::{Act, Rogue};
use sift_base::Draw;

/// As many units as a mission may have: a receiver that isn't there is drawn too, and dropped.
const UNITS: u64 = 8;

/// As many slots as a layout may have.
const SLOTS: u64 = 90;

/// How many stamps are drawn from, and how many words there are.
const NUMBERS: u64 = 1 << 16;

/// What one stamp, and the mark of presence, count in a cell (`sift_buffer::pack`).
const STAMP: u64 = 1 << 17;

const PRESENT: u64 = 1 << 16;

/// A rogue that draws the receiver, slot and cell of each stray, from the number with which it is started.
#[derive(Drop)]
pub struct Storm {
    pub drawer: Draw,
}

impl Rogue for Storm {
    ghost allows = { AllowsDrawn };

    fn start(&mut self, number: u64) {
        self.drawer = Draw::of(number);
    }

    fn next(&mut self) -> Act {
        let to = self.drawer.draw(UNITS) as u8;
        let slot = self.drawer.draw(SLOTS) as u16;
        let stamp = self.drawer.draw(NUMBERS);
        let presence = self.drawer.draw(2);
        let word = self.drawer.draw(NUMBERS);
        let cell = stamp * STAMP + presence * PRESENT + word;
        Act::Stray { to, slot, cell }
    }
}

/// A rogue that gives these acts in their order, from the one at `at` on, and then rests.
#[derive(Drop)]
pub struct Fixed {
    pub acts: Vec<Act>,
    pub at: usize,
}

impl Rogue for Fixed {
    ghost allows = { AllowsFixed };

    fn start(&mut self, _number: u64) {}

    fn next(&mut self) -> Act {
        if self.at < self.acts.len() {
            let act = self.acts[self.at];
            self.at += 1;
            return act;
        }
        Act::Rest
    }
}

/// A rogue that always rests.
#[derive(Drop)]
pub struct Silent;

impl Rogue for Silent {
    ghost allows = { λ before call after. AllowsRest call };

    fn start(&mut self, _number: u64) {}

    fn next(&mut self) -> Act {
        Act::Rest
    }
}

/// A storm begins with `start`, and a storm with one call of `next` more is a storm: so it is known call by call.
pub fn storms_add_up<R: Rogue>(_rogue: &R)
    ensures { StormsAddUp R.allows }
{}

/// A storm that is drawn comes to the strays that are drawn from its number, and there is one from each number of as many
/// calls as anyone likes.
pub fn drawn_storms_are_the_draws()
    ensures { DrawnStormsAreTheDraws }
{}
