ghost use Rattle.std.specs.Prelude.{◌≡◌, ◌||◌};
ghost use Rattle.tb_board.specs.Good.{has_template_form, is_deleted};
ghost use Rattle.tb_board.specs.Statuses.{is_open, is_pending, is_pending_or_waiting, is_template, settled};
ghost use Rattle.tb_task.specs.Checks.{is_recurring};

use tb_task::{Moment, Status, Task, is_recurring_status, is_step};

pub fn is_pending_status(status: Status) -> bool
    ensures { result ≡ is_pending status }
{
    matches!(status, Status::Pending)
}

pub fn is_pending_or_waiting_status(status: Status) -> bool
    ensures { result ≡ is_pending_or_waiting status }
{
    matches!(status, Status::Pending | Status::Waiting)
}

/// Whether a task of that status is neither completed nor deleted.
pub fn is_open_status(status: Status) -> bool
    ensures { result ≡ is_open status }
{
    matches!(
        status,
        Status::Pending | Status::Waiting | Status::Recurring
    )
}

/// Whether the task recurs and is no instance of another one.
pub fn is_template_task(task: &Task) -> bool
    ensures { result ≡ is_template task.now }
{
    task.recur.is_some() && task.parent.is_none()
}

/// Whether a template recurs or is deleted, and has a due date and a step, and any other task doesn't recur.
pub fn has_template_form(task: &Task) -> bool
    ensures { result ≡ has_template_form task.now }
{
    if is_template_task(task) {
        has_template_status(task.status) && task.due.is_some() && is_step(&task.recur)
    } else {
        !is_recurring_status(task.status)
    }
}

fn has_template_status(status: Status) -> bool
    ensures { result ≡ (is_recurring status || is_deleted status) }
{
    matches!(status, Status::Recurring | Status::Deleted)
}

/// Waiting where the wait is after the moment, and else pending.
pub fn settled_status(wait: Option<Moment>, at: Moment) -> Status
    ensures { result ≡ settled wait at }
{
    match wait {
        Some(until) => {
            if at < until {
                Status::Waiting
            } else {
                Status::Pending
            }
        }
        None => Status::Pending,
    }
}
