//! Pilots that count down, dealt to workers and collected.
ghost use Rattle.std.proofs.Common.{◌≡◌, refl, ◌∙◌};
ghost use Rattle.std.specs.Prelude.{⊤};

use sift_base::{NoMemory, UnitId};
use sift_workers::{Bell, Pilot, Probe, Went, fly_all};
use std::sync::Wait;
use std::test::Fail;

/// Counts down to 0, and waits at every other step.
#[derive(Drop)]
struct Countdown {
    number: u8,
    left: u8,
    waits: bool,
}

impl Pilot for Countdown {
    ghost drives = { λ _. ⊤ };

    ghost comes = { λ x y. y.number ≡ x.number };

    ghost is_home = { λ x. x.left ≡ 0 };

    ghost comes_itself = { λ x. refl };

    ghost comes_on = { λ x y z first second. second ∙ first };

    fn go<B: Probe>(&mut self, probe: &B) -> Went {
        if self.left == 0 {
            return Went::Home;
        }
        self.waits = !self.waits;
        let Some(unit) = UnitId::of(self.number) else {
            return Went::Moved;
        };
        if self.waits {
            let seen = u64::from(self.left);
            return Went::Waits { unit, seen };
        }
        self.left -= 1;
        probe.at(unit, u64::from(self.left));
        Went::Moved
    }
}

/// A bell that doesn't ring, and by which nobody sleeps.
struct Still;

impl Probe for Still {
    fn at(&self, _unit: UnitId, _subframe: u64) {}
}

impl Bell for Still {
    fn sleep_while<H: Wait>(&self, _rt: &H, _unit: UnitId, _seen: u64) {}
}

#[test]
fn pilots_come_back_in_their_order(rt: HostRuntime) -> Result<(), Fail> {
    for workers in [1, 2, 3, 8] {
        let mut pilots = Vec::with_capacity(rt.alloc(), 5)?;
        for number in 0..5 {
            pilots.push(Countdown {
                number,
                left: 10 * number,
                waits: false,
            })?;
        }
        let home = fly_all(&rt, rt.alloc(), pilots, workers, &Still)?;
        let count = home.len();
        assert!(rt; count == 5);
        for place in 0..5 {
            let pilot = &home[usize::from(place)];
            let end = (pilot.number, pilot.left);
            assert_eq!(rt; end, (place, 0));
        }
    }
    Ok(())
}
