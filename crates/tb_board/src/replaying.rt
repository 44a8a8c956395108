ghost use Rattle.std.specs.Prelude.{◌≡◌, IfOk};
ghost use Rattle.tb_board.specs.Changing.{changed_on, replayed};

use crate::board::Board;
use crate::change::Change;
use crate::changing::put_at;
use crate::gone::gone_without;
use std::alloc::{AllocError, Global};
use tb_values::Duplicate;

/// The board after changes, one after the other: people, boards and roles that change don't change it. It shares with this one
/// whatever stays.
pub fn replayed(alloc: Global, board: &Board, changes: &[Change]) -> Result<Board, AllocError>
    ensures { IfOk result (λ later. later ≡ replayed board.now changes.now) }
{
    let mut later = board.copy()?;
    for change in changes {
        later = changed_on(alloc, later, change)?;
    }
    Ok(later)
}

/// A board after a change that names it, or that changes no board.
pub fn changed_on(alloc: Global, mut board: Board, change: &Change) -> Result<Board, AllocError>
    ensures { IfOk result (λ later. later ≡ changed_on board change.now) }
{
    match change {
        Change::PutTask { place, task, .. } => put_at(&mut board.tasks, *place, task.share()?)?,
        Change::SetGone { gone, .. } => board.gone.push(*gone)?,
        Change::TakeGone {
            template,
            place,
            ..
        } => {
            board.gone = gone_without(alloc, board.gone.as_slice(), *template, *place)?;
        }
        Change::SetAhead { ahead, .. } => board.ahead = *ahead,
        Change::SetTitle { title, .. } => board.title = title.duplicate()?,
        Change::AddPerson { .. }
        | Change::SetKey { .. }
        | Change::AddBoard { .. }
        | Change::SetRole { .. } => {}
    }
    Ok(board)
}
