//! A board, which is one unit's part in a flight, and what a step of it came to.

ghost use Rattle.std.specs.Prelude.{◌≡◌, ◌<◌, ◌≤◌, length, slice_index_or, vec_capacity};

use sift_base::{UNIT_LIMIT, UnitId, Word};
use sift_conduct::Account;
use sift_config::Config;
use sift_mission::Part;
use sift_unit_frame::Memory;

/// One unit in a flight: where it stands, what it remembers of the frame, and its accounts of the
/// frames that it has ended.
#[derive(Drop)]
pub struct Board {
    pub(crate) unit: UnitId,
    /// How many frames the mission has. There is room for so many accounts.
    pub(crate) frames: u32,
    /// The frame from which on the unit is stray, where it has a storm.
    pub(crate) storm: Option<u32>,
    /// Whether the unit has turned stray.
    pub(crate) turned: bool,
    pub(crate) frame: u32,
    pub(crate) subframe: u32,
    pub(crate) part: Part,
    pub(crate) slot: usize,
    pub(crate) other: u8,
    pub(crate) cfg: Config,
    pub(crate) clk: i64,
    pub(crate) places: [Option<Word>; UNIT_LIMIT],
    pub(crate) memory: Memory,
    pub(crate) accounts: Vec<Account>,
    ghost room: { frames ≤ vec_capacity accounts },
}

impl Board {
    /// The account of a frame that the unit has ended.
    pub fn account(&self, f: u32) -> &Account
        requires { f < length self.now.accounts.items }
        ensures { result.now ≡ slice_index_or self.now.accounts.items f result.now }
    {
        &self.accounts[f as usize]
    }

    /// The accounts of all frames that the unit has ended, in order.
    pub fn end(self) -> Vec<Account>
        ensures { result ≡ self.accounts }
    {
        self.accounts
    }
}

/// What a step of a board came to.
#[derive(Clone, Copy, Debug, PartialEq, Eq)]
pub enum Stepped {
    /// The unit said or heard one word, or entered the next subframe.
    Moved,
    /// The unit waits, since another unit's progress number was found below its own.
    NotYet { unit: UnitId, seen: u64 },
    /// The unit has turned stray.
    Turned,
    /// The unit has ended all frames.
    Landed,
}
