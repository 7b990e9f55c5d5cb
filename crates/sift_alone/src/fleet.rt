//! The rogues that a flight has.

ghost use Rattle.std.specs.Prelude.{◌≡◌, length};
ghost use Rattle.sift_base.specs.Units.{unit_limit};

use sift_jobs::Flier;
use sift_rogue::Rogue;

/// What flies missions: the rogues of the units 0 to 7.
#[derive(Drop)]
pub struct Fleet<R> {
    pub rogues: Vec<R>,
    pub ghost eight: { length rogues.items ≡ unit_limit },
}

impl<R> Fleet<R> {
    /// The fleet with these rogues.
    pub fn of(rogues: Vec<R>) -> Fleet<R>
        requires { length rogues.items ≡ unit_limit }
        ensures { result.rogues ≡ rogues }
    {
        Fleet { rogues }
    }
}

impl<R: Rogue> Flier for Fleet<R> {
    ghost use Rattle.sift_alone.specs.Flown.{flying_with};

    ghost flying = { λ fleet. flying_with R.allows fleet.rogues.items };
}
