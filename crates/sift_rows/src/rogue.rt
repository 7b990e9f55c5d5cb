//! Rogues, and what is stored of their acts. Rows of storms are proved, in proofs/Drawn.antt.
ghost use Rattle.std.specs.Prelude.{⊤};

use crate::fixture::unit;
use sift_base::Layout;
use sift_rogue::{Act, Fixed, Rogue, Silent, next_shot};
use std::test::Fail;

/// Five units, no sensor and two output words: nine slots.
const LAYOUT: Layout = Layout {
    units: 5,
    sensors: 0,
    words: 2,
};

#[test]
fn what_no_other_unit_can_get_is_dropped(rt: HostRuntime) -> Result<(), Fail> {
    let rows = [
        (stray(0, 8, 5), Some((0, 8, 5))), // to the first unit, in the last slot
        (stray(4, 0, u64::MAX), Some((4, 0, u64::MAX))), // all bits, to the last unit
        (stray(0, 9, 5), None), // a slot past the layout
        (stray(5, 0, 5), None), // a unit that isn't there
        (stray(1, 0, 5), None), // to the unit itself
        (stray(255, 65_535, 5), None), // neither unit nor slot
        (Act::Rest, None),
    ];
    let mut acts = Vec::new(rt.alloc());
    for (act, _) in rows {
        acts.push(act)?;
    }
    let mut fixed = Fixed { acts, at: 0 };
    fixed.start(9);
    for (_, want) in rows {
        let shot = next_shot(&mut fixed, unit(1), LAYOUT);
        let got = shot.map(|shot| (shot.to.get(), shot.slot, shot.cell));
        assert_eq!(rt; got, want);
    }
    let behind = fixed.next();
    assert_eq!(rt; behind, Act::Rest);
    Ok(())
}

/// The act that stores a number.
fn stray(to: u8, slot: u16, cell: u64) -> Act {
    Act::Stray { to, slot, cell }
}

/// A rogue that promises nothing: it answers by its number, and by how often it was asked.
#[derive(Drop)]
struct Wild {
    number: u64,
}

impl Rogue for Wild {
    ghost allows = { λ before call after. ⊤ };

    fn start(&mut self, number: u64) {
        self.number = number;
    }

    fn next(&mut self) -> Act {
        self.number = self.number.wrapping_mul(3);
        stray(2, 1, self.number)
    }
}

#[test]
fn rogues_that_promise_nothing_are_called_as_others(rt: HostRuntime) {
    let mut wild = Wild { number: 0 };
    wild.start(7);
    for want in [21, 63] {
        let shot = next_shot(&mut wild, unit(0), LAYOUT);
        let got = shot.map(|shot| (shot.to.get(), shot.slot, shot.cell));
        assert_eq!(rt; got, Some((2, 1, want)));
    }
    let mut silent = Silent;
    silent.start(7);
    let shot = next_shot(&mut silent, unit(0), LAYOUT);
    assert!(rt; shot.is_none());
}
