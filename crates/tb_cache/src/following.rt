ghost use Rattle.std.specs.Prelude.{◌≡◌, IfOk};
ghost use Rattle.tb_board.specs.Changing.{changed_on};
ghost use Rattle.tb_cache.specs.Following.{touched};

use std::alloc::{AllocError, Global};
use tb_board::{Board, Change, changed_on};
use tb_values::Shared;

/// The board that a change touches: its title, its tasks, its gone places, or how far ahead it looks.
pub(crate) fn touched(change: &Change) -> Option<u32>
    ensures { result ≡ touched change.now }
{
    match change {
        Change::PutTask { board, .. }
        | Change::SetTitle { board, .. }
        | Change::SetGone { board, .. }
        | Change::TakeGone { board, .. }
        | Change::SetAhead { board, .. } => Some(*board),
        Change::AddPerson { .. }
        | Change::SetKey { .. }
        | Change::AddBoard { .. }
        | Change::SetRole { .. } => None,
    }
}

/// A board after a change that names it. It is copied only where it has another owner.
pub(crate) fn follow(
    alloc: Global,
    board: Shared<Board>,
    change: &Change,
) -> Result<Board, AllocError>
    ensures { IfOk result (λ later. later ≡ changed_on board change.now) }
{
    match board.into_value() {
        Ok(board) => changed_on(alloc, board, change),
        Err(_) => Err(AllocError),
    }
}

/// The board, with its index tightened where the change was a single one.
pub(crate) fn settled(mut board: Board, is_single: bool) -> Board
    ensures { result ≡ board }
{
    if is_single {
        board.tasks.tighten_index();
    }
    board
}
