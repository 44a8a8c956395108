ghost use Rattle.std.specs.Prelude.{◌≡◌, IfOk};
ghost use Rattle.tb_report.specs.Lists.{listing as listing_of, listing_awake};

use crate::lists::list_tasks;
use std::alloc::{AllocError, Global};
use tb_board::{Board, Draft, waits_of, wake_draft};
use tb_task::Moment;
use tb_values::Text;

/// The board's listing at a moment: a header, a line for each pending or waiting task, the most urgent first, and a count.
pub fn listing(alloc: Global, board: &Board, at: Moment) -> Result<Text, AllocError>
    ensures { IfOk result (λ text. text ≡ listing_of board.now at) }
{
    if !board.tasks.may_wake(at) {
        return list_awake(alloc, board, at);
    }
    let awake = wake_draft(alloc, Draft::of(alloc, board)?, at)?;
    list_awake(alloc, &awake.board, at)
}

/// The listing of a board that is awake.
fn list_awake(alloc: Global, board: &Board, at: Moment) -> Result<Text, AllocError>
    ensures { IfOk result (λ text. text ≡ listing_awake board.now at) }
{
    let waits = waits_of(alloc, board)?;
    list_tasks(alloc, board.tasks.as_slice(), &waits, at)
}
