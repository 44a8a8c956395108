ghost use Rattle.std.specs.Prelude.{◌≡◌, ◌<◌, length, IfOk, slice_index_or, slice_set};
ghost use Rattle.tb_board.specs.Board.{wake};
ghost use Rattle.tb_board.specs.Tasks.{wakes, woken, has_come, is_waiting};
ghost use Rattle.tb_board.specs.Changing.{Follows};
ghost use Rattle.tb_task.specs.declared.status.Status.TheVariants.{Pending};
ghost use Rattle.tb_task.specs.declared.task.Task.{Task};

use crate::draft::Draft;
use std::alloc::{AllocError, Global};
use tb_task::{Moment, Status, Task};
use tb_values::Duplicate;

/// The board at a moment: each task that waited until then is pending. The other tasks stay as they are, shared.
pub fn wake_draft(alloc: Global, draft: Draft, at: Moment) -> Result<Draft, AllocError>
    ensures board { IfOk result (λ awake. awake.board ≡ wake draft.board at) }
    ensures follows { IfOk result (Follows draft) }
{
    let mut draft = draft;
    for place in 0..draft.board.tasks.len() {
        draft = wake_place(alloc, draft, place, at)?;
    }
    Ok(draft)
}

fn wake_place(alloc: Global, draft: Draft, place: usize, at: Moment) -> Result<Draft, AllocError>
    requires { place < length draft.board.tasks }
    ensures board { IfOk result
        (λ awake. (t : Task) → t ≡ slice_index_or draft.board.tasks place t
        → awake.board ≡ record draft.board {
          tasks = slice_set draft.board.tasks place
              (woken at t);
        }) }
    ensures follows { IfOk result (Follows draft) }
{
    let task = draft.board.task_at(place);
    if !has_waited(task, at) {
        return Ok(draft);
    }
    let task = pending_task(task)?;
    draft.set(alloc, place, task)
}

pub(crate) fn pending_task(task: &Task) -> Result<Task, AllocError>
    ensures { IfOk result (λ t. t ≡ record task.now { status = Pending }) }
{
    let mut task = task.duplicate()?;
    task.status = Status::Pending;
    Ok(task)
}

/// Whether a task that waits has its wait behind it.
#[tactic(auto, unfolding(crate::specs::Tasks::wakes))]
pub fn has_waited(task: &Task, at: Moment) -> bool
    ensures { result ≡ wakes at task.now }
{
    is_waiting_status(task.status) && is_over(task.wait, at)
}

pub(crate) fn is_waiting_status(status: Status) -> bool
    ensures { result ≡ is_waiting status }
{
    matches!(status, Status::Waiting)
}

pub(crate) fn is_over(wait: Option<Moment>, at: Moment) -> bool
    ensures { result ≡ has_come wait at }
{
    match wait {
        Some(until) => until <= at,
        None => false,
    }
}
