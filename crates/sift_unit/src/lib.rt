//! Boards, which fly missions: what one unit says, hears and does in each frame, step by step, on any port.
#![tactic(auto)]

mod board;
mod laws;
mod new_board;
mod stepping;
mod walk;

pub use board::{Board, Stepped};
pub use laws::{
    boards_account_for_their_frames, boards_drive_beside_strays, boards_keep_to_their_conduct,
    boards_may_be_sent, boards_may_jump, boards_that_are_down_have_flown,
    boards_that_step_keep_to_their_conduct, boards_that_turn_at_once_keep_to_it,
    boards_that_turn_keep_to_it, new_boards_keep_to_it, new_boards_may_step,
};
pub use sift_conduct::Account;
pub use sift_mission::{Mission, MissionParts};
