//! Laws about what boards do.

ghost use Rattle.std.specs.Thread.{IsSend};
ghost use Rattle.sift_unit.specs.contracts.board.Board.{the_row};
ghost use Rattle.sift_unit.specs.BoardLaws.{KeepLaw, StartLaw, TurnLaw, TurnFirstLaw, JumpLaw};
ghost use Rattle.sift_unit.specs.Boards.{NewBoardLaw, DriveLaw, AccountLaw};
ghost use Rattle.sift_unit.specs.Down.{DownLaw, StrayLaw};

use sift_skew::offsets_change_little;

/// A board, flying or turned, guarantees its acts and its accounts of all frames that it has ended.
pub fn boards_keep_to_their_conduct()
    ensures { KeepLaw }
{}

/// A new board does so on a port on which nothing was done.
pub fn new_boards_keep_to_it()
    ensures { StartLaw }
{}

/// A board that turns at a frame's end does so.
pub fn boards_that_turn_keep_to_it()
    ensures { TurnLaw }
{
    offsets_change_little();
}

/// A board that turns before anything else does so.
pub fn boards_that_turn_at_once_keep_to_it()
    ensures { TurnFirstLaw }
{}

/// A board may jump to where there is no stop before.
pub fn boards_may_jump()
    ensures { JumpLaw }
{}

/// A new board may step on a port of its unit on which nothing was done.
pub fn new_boards_may_step()
    ensures { NewBoardLaw }
{}

/// A board that has stepped, on whatever port, guarantees its acts and its accounts of all frames
/// that it has ended.
pub fn boards_that_step_keep_to_their_conduct()
    ensures { DriveLaw }
{}

/// A board has the accounts of all frames that it has ended, with offsets of which figures can be told.
pub fn boards_account_for_their_frames()
    ensures { AccountLaw }
{}

/// A board whose unit has landed or turned has kept to its conduct in all frames in which its unit
/// flies, by the accounts that it has, of which there is one for each of these frames.
pub fn boards_that_are_down_have_flown()
    ensures { DownLaw }
{}

/// A board drives on whatever strays its unit has stored.
pub fn boards_drive_beside_strays()
    ensures { StrayLaw }
{}

/// A board may be sent to another thread.
pub fn boards_may_be_sent()
    ensures { IsSend the_row }
{}
