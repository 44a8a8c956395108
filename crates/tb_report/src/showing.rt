ghost use Rattle.std.specs.Prelude.{◌≡◌, None, IfOk, map};
ghost use Rattle.tb_report.specs.Showing.{mask_on as mask_on_board, shown as shown_of, shown_awake as all_awake, shown_on as shown_on_board, shown_task as shown_task_of};

use std::alloc::{AllocError, Global};
use tb_board::{Board, Draft, is_template_task, wake_draft, woken_task};
use tb_sweep::mask_of;
use tb_task::{Mask, Moment, Shown, Task};
use tb_values::{Items, Shared};

/// Every task of the board as it is at a moment, in order of entry. Tasks that don't change are shared with the board.
pub fn shown(alloc: Global, board: &Board, at: Moment) -> Result<Items<Shown>, AllocError>
    ensures { IfOk result (λ tasks. tasks ≡ shown_of board.now at) }
{
    if !board.tasks.may_wake(at) {
        return shown_awake(alloc, board);
    }
    let awake = wake_draft(alloc, Draft::of(alloc, board)?, at)?;
    shown_awake(alloc, &awake.board)
}

/// One task of a board as it is at a moment.
pub fn shown_task(
    alloc: Global,
    board: &Board,
    task: &Shared<Task>,
    at: Moment,
) -> Result<Shown, AllocError>
    ensures { IfOk result (λ shown. shown ≡ shown_task_of board.now at task.now) }
{
    let task = woken_task(alloc, task, at)?;
    if !is_template_task(task.get()) {
        return Ok(Shown { task, mask: None });
    }
    let awake = wake_draft(alloc, Draft::of(alloc, board)?, at)?;
    shown_on(alloc, &awake.board, &task)
}

fn shown_awake(alloc: Global, board: &Board) -> Result<Items<Shown>, AllocError>
    ensures { IfOk result (λ tasks. tasks ≡ all_awake board.now) }
{
    let mut tasks = Items::new(alloc);
    for task in board.tasks.as_slice() {
        tasks.push(shown_on(alloc, board, task)?)?;
    }
    Ok(tasks)
}

/// A task of a board that is awake.
fn shown_on(alloc: Global, board: &Board, task: &Shared<Task>) -> Result<Shown, AllocError>
    ensures { IfOk result (λ shown. shown ≡ shown_on_board board.now task.now) }
{
    let mask = mask_on(alloc, board, task.get())?;
    let task = task.share()?;
    Ok(Shown { task, mask })
}

fn mask_on(alloc: Global, board: &Board, task: &Task) -> Result<Option<Mask>, AllocError>
    ensures { IfOk result (λ mask. mask ≡ mask_on_board board.now task.now) }
{
    if is_template_task(task) {
        Ok(Some(mask_of(alloc, board, task.id)?))
    } else {
        Ok(None)
    }
}
