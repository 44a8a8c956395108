ghost use Rattle.std.specs.Prelude.{◌≡◌, IfOk};
ghost use Rattle.tb_board.specs.Tasks.{status_at, woken};

use crate::waking::{has_waited, pending_task};
use std::alloc::{AllocError, Global};
use tb_task::{Moment, Status, Task};
use tb_values::Shared;

/// The task as a view at this moment shows it: pending where its wait is over, and else the same task, shared.
pub fn woken_task(
    alloc: Global,
    task: &Shared<Task>,
    at: Moment,
) -> Result<Shared<Task>, AllocError>
    ensures { IfOk result (λ shown. shown ≡ woken at task.now) }
{
    if !has_waited(task.get(), at) {
        return task.share();
    }
    Shared::new(alloc, pending_task(task.get())?)
}

/// The status of a task as a view at this moment shows it.
pub fn woken(task: &Task, at: Moment) -> Status
    ensures { result ≡ status_at at task.now }
{
    if has_waited(task, at) {
        Status::Pending
    } else {
        task.status
    }
}
