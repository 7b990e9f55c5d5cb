//! The command `gen`.

use sift_base::NoMemory;
use sift_gen::{one_text_of_a_number, scenario_text};
use sift_options::{Flag, Numbers, Options};
use sift_reply::{Begun, Reply, Work};
use sift_row::Command;
use std::alloc::Global;

/// `gen`: writes the scenario that is drawn from this number, and reads nothing.
#[derive(Clone, Copy)]
pub struct GenJob {
    pub number: u64,
}

/// From which number something is drawn.
pub const NUMBER: Flag = Flag {
    name: "--number",
    numbers: Numbers::Any,
};

impl<M: Drop, W: Work> Command<M, W> for GenJob {
    ghost use Rattle.sift_jobs.specs.Gen.{gen_row};

    ghost row_of = { λ means. gen_row };

    fn word() -> &'static str {
        "gen"
    }

    fn flags() -> &'static [Flag] {
        &[NUMBER]
    }

    fn of(options: Options<'_>) -> Option<Self> {
        Some(GenJob {
            number: options.number(NUMBER)?,
        })
    }

    fn limit(self) -> Option<u32> {
        None
    }

    fn begin(self, alloc: Global, _means: M, _bytes: &[u8]) -> Result<Begun<W>, NoMemory> {
        let text = scenario_text(alloc, self.number)?;
        Ok(Begun::Replied(Reply::done(text)))
    }

    fn keeps_its_row() {
        one_text_of_a_number();
    }
}
