//! Rogues, their acts, and what is stored of these.
ghost use Rattle.std.specs.Prelude.{◌≡◌, ℕ, option_map, IfSome};
ghost use Rattle.sift_base.specs.Layout.{IsLayout};
ghost use Rattle.sift_buffer.specs.Ranges.{IsCell};
ghost use Rattle.sift_buffer.specs.Tables.{ranges_of};
ghost use Rattle.sift_rogue.specs.Storms.{Call, Started, Answered, Shoots, sifted, stray_of};

use sift_base::{Layout, UnitId};

/// What a unit that has turned is to do next.
#[derive(Clone, Copy, Debug, PartialEq, Eq)]
pub enum Act {
    /// To store a number in its cell for a receiver in a slot, where these are there.
    Stray { to: u8, slot: u16, cell: u64 },
    /// To do nothing.
    Rest,
}

/// A stray that is to be stored: the receiver is another unit, and the slot is there.
#[derive(Clone, Copy)]
pub struct Shot {
    pub to: UnitId,
    pub slot: usize,
    pub cell: u64,
}

/// Who says what a unit that has turned stores. A storm is one `start` and then `next`, as often as its entry says.
///
/// Contracts see of a rogue the steps that it allows, and nothing else: each call is proved to be one of them. One that
/// promises nothing allows every step, `λ before call after. ⊤`. Then any body is proved, one that keeps a state, that
/// answers by chance or by what it saw before; and nothing is known of its acts. So every body is lawful, and need not be
/// trusted: whatever it answers is stored in cells of its own unit or dropped, and no list of events with strays leads to
/// an unlawful core.
pub trait Rogue: Drop {
    /// The steps that it allows: from the rogue before, by a call with its number or its answer, to the rogue after.
    ghost allows: { Self → Call → Self → Type 0 };

    /// Begins the storm with this number.
    fn start(&mut self, number: u64)
        ensures { allows self.old (Started number) self.new };

    /// The next act of the storm.
    fn next(&mut self) -> Act
        ensures { allows self.old (Answered result) self.new };
}

/// What is to be stored of an act of a unit: nothing where it rests, and an act is dropped whose receiver is not another
/// unit or whose slot is not in the layout.
fn sift(act: Act, own: UnitId, layout: Layout) -> Option<Shot>
    requires { IsLayout layout }
    ensures sifted { option_map stray_of result ≡ sifted layout own act }
    ensures there { IfSome result (λ shot. (frames : ℕ) → IsCell (ranges_of layout frames) own shot.to shot.slot) }
{
    if let Act::Stray { to, slot, cell } = act {
        if to < layout.units && to != own.get() && usize::from(slot) < layout.count() {
            if let Some(to) = UnitId::of(to) {
                return Some(Shot {
                    to,
                    slot: usize::from(slot),
                    cell,
                });
            }
        }
    }
    None
}

/// Calls the rogue of a unit for its next act, and answers what is to be stored of it. Where it answers a shot, a port's
/// `stray` takes it, for any number of frames.
pub fn next_shot<R: Rogue>(rogue: &mut R, own: UnitId, layout: Layout) -> Option<Shot>
    requires { IsLayout layout }
    ensures shot { Shoots R.allows (sifted layout own) rogue.old result rogue.new }
    ensures there { IfSome result (λ shot. (frames : ℕ) → IsCell (ranges_of layout frames) own shot.to shot.slot) }
{
    sift(rogue.next(), own, layout)
}
