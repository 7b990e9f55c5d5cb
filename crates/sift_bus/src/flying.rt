//! Units at their seats, stepped on one thread.
ghost use Rattle.std.specs.Prelude.{◌≡◌, ◌≤◌, ◌*◌, [], All, IfSome, IfNone, IsTrue};
ghost use Rattle.std.specs.List.{AllZip};
ghost use Rattle.sift_mission.specs.Parts.{flown_of};
ghost use Rattle.sift_unit.specs.Boards.{Drives};
ghost use Rattle.sift_bus.specs.Turns.{IsNext};

use sift_buffer::Port;
use sift_mission::Mission;
use sift_seat::Seat;

/// A unit at its seat, with its port. No storm is flown here, so it has no rogue.
#[derive(Drop)]
pub(crate) struct Flyer<P> {
    pub(crate) seat: Seat,
    pub(crate) port: P,
}

/// The lowest-numbered of those flyers whose progress is least, where it is below an end.
fn next_of<P: Port>(flyers: &[Flyer<P>], end: u64) -> Option<usize>
    ensures found { IfSome result (IsNext (λ flyer. (P.view flyer.port).conduct.progress) end flyers.now) }
    ensures none { IfNone result (All (λ flyer. end ≤ (P.view flyer.port).conduct.progress) flyers.now) }
{
    let mut next = None;
    let mut below = end;
    for (number, flyer) in flyers.iter().enumerate() {
        let progress = flyer.port.progress();
        if progress < below {
            next = Some(number);
            below = progress;
        }
    }
    next
}

/// Steps the lowest-numbered unit of least progress that hasn't landed, until all have landed or
/// turned, and answers whether they have. No port tells another unit's number, so nothing says that
/// they have after as many steps as a number of 64 bits counts; at one a nanosecond these take
/// five centuries.
pub(crate) fn fly_all<P: Port>(mission: &Mission, flyers: &mut [Flyer<P>]) -> bool
    requires { All (λ flyer. Drives (flown_of mission.now) flyer.seat.board (P.view flyer.port)) flyers.old }
    ensures drives { All (λ flyer. Drives (flown_of mission.now) flyer.seat.board (P.view flyer.port)) flyers.new }
    ensures follows { AllZip (λ before after. P.follows before.port [] after.port) flyers.old flyers.new }
    ensures down { IsTrue result → All (λ flyer. (flown_of mission.now).frames * (flown_of mission.now).period ≤ (P.view flyer.port).conduct.progress) flyers.new }
{
    let end = u64::from(mission.frames()) * u64::from(mission.period());
    for _ in 0..u64::MAX {
        match next_of(flyers, end) {
            Some(number) => {
                let flyer = &mut flyers[number];
                flyer.seat.step(mission, &mut flyer.port);
            }
            None => return true,
        }
    }
    false
}
