ghost use Rattle.std.specs.Prelude.{◌≡◌, IfOk};
ghost use Rattle.tb_core.specs.Transitions.{completed, deleted, reopened, reopened_status, started, stopped};

use std::alloc::AllocError;
use tb_board::{is_template_task, settled_status};
use tb_task::{Moment, Status, Task};
use tb_values::Duplicate;

/// The task completed at a moment: it ends then, and isn't started any more.
pub fn completed_task(task: &Task, at: Moment) -> Result<Task, AllocError>
    ensures { IfOk result (λ t. t ≡ completed at task.now) }
{
    let mut task = task.duplicate()?;
    task.status = Status::Completed;
    task.end = Some(at);
    task.start = None;
    task.modified = Some(at);
    Ok(task)
}

/// The task deleted at a moment: it ends then, and isn't started any more.
pub fn deleted_task(task: &Task, at: Moment) -> Result<Task, AllocError>
    ensures { IfOk result (λ t. t ≡ deleted at task.now) }
{
    let mut task = task.duplicate()?;
    task.status = Status::Deleted;
    task.end = Some(at);
    task.start = None;
    task.modified = Some(at);
    Ok(task)
}

fn status_reopened(task: &Task, at: Moment) -> Status
    ensures { result ≡ reopened_status at task.now }
{
    if is_template_task(task) {
        Status::Recurring
    } else {
        settled_status(task.wait, at)
    }
}

/// The task opened again at a moment: a template recurs, any other task is pending or waiting, and it has no end.
pub fn reopened_task(task: &Task, at: Moment) -> Result<Task, AllocError>
    ensures { IfOk result (λ t. t ≡ reopened at task.now) }
{
    let status = status_reopened(task, at);
    let mut task = task.duplicate()?;
    task.status = status;
    task.end = None;
    task.modified = Some(at);
    Ok(task)
}

/// The task whose work begins at a moment.
pub fn started_task(task: &Task, at: Moment) -> Result<Task, AllocError>
    ensures { IfOk result (λ t. t ≡ started at task.now) }
{
    let mut task = task.duplicate()?;
    task.start = Some(at);
    task.modified = Some(at);
    Ok(task)
}

/// The task whose work ends. The moment is that of the change.
pub fn stopped_task(task: &Task, at: Moment) -> Result<Task, AllocError>
    ensures { IfOk result (λ t. t ≡ stopped at task.now) }
{
    let mut task = task.duplicate()?;
    task.start = None;
    task.modified = Some(at);
    Ok(task)
}
