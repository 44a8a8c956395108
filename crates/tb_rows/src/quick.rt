//! The changes of rows of a board on which one plain task is put, made without the board after it.

ghost use Rattle.std.specs.Prelude.{◌≡◌, ◌≤◌, ◌<◌, ◌+◌, IfOk, IfSome, true, length, ◌∷◌, []};
ghost use Rattle.tb_board.specs.declared.change.Change.TheVariants.{PutTask};
ghost use Rattle.tb_rows.specs.Quick.{AreAllRows, ArePutRows, is_plain};
ghost use Rattle.tb_rows.specs.Steps.{new_task, put_task};
ghost use Rattle.tb_sql.specs.declared.changes.RowChange.TheVariants.{SetLow};
ghost use Rattle.tb_task.specs.Limits.{most_tasks};

use crate::numbering::next_number;
use crate::task_places::TaskPlaces;
use crate::tasks::{push_new_task, push_put_task};
use std::alloc::{AllocError, Global};
use tb_board::{Board, Change};
use tb_core::lacks_one;
use tb_sql::changes::RowChange;
use tb_task::{MOST_TASKS, Task};
use tb_values::Items;

/// The changes of rows, where the changes put one plain task and nothing else.
pub(crate) fn quick_rows(
    alloc: Global,
    board: &Board,
    changes: &[Change],
) -> Result<Option<Items<RowChange>>, AllocError>
    ensures { IfOk result (λ found. IfSome found (AreAllRows board.now changes.now)) }
{
    match changes.first() {
        Some(
            Change::PutTask {
                board: number,
                place,
                task,
            },
        ) if changes.len() == 1 => put_rows(alloc, board, *number, *place, task.get()),
        _ => Ok(None),
    }
}

fn put_rows(
    alloc: Global,
    board: &Board,
    number: u32,
    place: usize,
    task: &Task,
) -> Result<Option<Items<RowChange>>, AllocError>
    ensures { IfOk result
        (λ found. IfSome found (AreAllRows board.now (PutTask number place task.now ∷ []))) }
{
    if number != board.number || board.tasks.len() > MOST_TASKS || !is_plain(task) {
        return Ok(None);
    }
    if place < board.tasks.len() {
        return set_rows(alloc, board, place, task);
    }
    if place == board.tasks.len() {
        return push_rows(alloc, board, task);
    }
    Ok(None)
}

/// Whether a task is neither an instance nor a template.
fn is_plain(task: &Task) -> bool
    ensures { result ≡ is_plain task.now }
{
    task.parent.is_none() && task.recur.is_none()
}

/// Those of a plain task at a place where a task stands.
fn set_rows(
    alloc: Global,
    board: &Board,
    place: usize,
    task: &Task,
) -> Result<Option<Items<RowChange>>, AllocError>
    requires plain { is_plain task.now ≡ true }
    requires few { length board.now.tasks ≤ most_tasks }
    requires within { place < length board.now.tasks }
    ensures { IfOk result (λ found. IfSome found (ArePutRows board.now place task.now)) }
{
    if board.task_at(place).id != task.id {
        return Ok(None);
    }
    let rows = put_task_rows(alloc, board, place, task)?;
    Ok(Some(rows))
}

fn put_task_rows(
    alloc: Global,
    board: &Board,
    place: usize,
    task: &Task,
) -> Result<Items<RowChange>, AllocError>
    requires few { length board.now.tasks ≤ most_tasks }
    requires within { place < length board.now.tasks }
    ensures { IfOk result (λ rows. rows ≡ put_task board.now (place + 1) task.now) }
{
    let number = place as u32 + 1;
    let places = TaskPlaces::for_task(alloc, board, task)?;
    let mut rows = Items::new(alloc);
    push_put_task(alloc, &mut rows, board, &places, number, task)?;
    Ok(rows)
}

/// Those of a plain task that goes last.
fn push_rows(
    alloc: Global,
    board: &Board,
    task: &Task,
) -> Result<Option<Items<RowChange>>, AllocError>
    requires plain { is_plain task.now ≡ true }
    requires few { length board.now.tasks ≤ most_tasks }
    ensures { IfOk result
        (λ found. IfSome found (ArePutRows board.now (length board.now.tasks) task.now)) }
{
    if lacks_one(board, task.depends.as_slice()) {
        return Ok(None);
    }
    let Some(low) = next_number(board, task) else {
        return Ok(None);
    };
    let rows = new_task_rows(alloc, board, low, task)?;
    Ok(Some(rows))
}

fn new_task_rows(
    alloc: Global,
    board: &Board,
    low: u32,
    task: &Task,
) -> Result<Items<RowChange>, AllocError>
    requires { length board.now.tasks ≤ most_tasks }
    ensures { IfOk result (λ rows. rows
        ≡ SetLow board.now.number low
        ∷ new_task board.now (length board.now.tasks + 1) task.now) }
{
    let number = board.tasks.len() as u32 + 1;
    let places = TaskPlaces::for_task(alloc, board, task)?;
    let mut rows = Items::new(alloc);
    rows.push(RowChange::SetLow {
        board: board.number,
        low,
    })?;
    push_new_task(alloc, &mut rows, board, &places, number, task)?;
    Ok(rows)
}
