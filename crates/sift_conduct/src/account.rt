//! A unit's account of a frame.

use arrayvec::ArrayVec;
use sift_base::Word;
use sift_config::Config;
use sift_exec::Catches;

/// What a unit found in a frame that it went through. The small fields stand first, so that no account has gaps between
/// them: a mission keeps thousands.
#[derive(Drop)]
pub struct Account {
    /// The configuration of the frame, as the unit has it.
    pub cfg: Config,
    /// Whether the unit is outside it, and idle.
    pub idle: bool,
    /// Whom the unit caught.
    pub bad: Catches,
    /// The configuration of the next frame.
    pub next_cfg: Config,
    /// The offset of the unit's clock, in ticks.
    pub clk: i64,
    /// The offset in the next frame.
    pub next_clk: i64,
    /// The agreed word of each sensor.
    pub ins: ArrayVec<Word, 8>,
    /// The voted word of each number.
    pub outs: ArrayVec<Word, 64>,
}
