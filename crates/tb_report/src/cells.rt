ghost use Rattle.std.specs.Prelude.{◌≡◌, is_some, if◌then◌else◌, IfOk};
ghost use Rattle.std.specs.Cow.{cow_str_bytes};
ghost use Rattle.tb_report.specs.Lists.{due_text, flags, project_text};
ghost use Rattle.tb_report.specs.Urgencies.{is_waiting_now};

use crate::row::shown_cell;
use std::alloc::{AllocError, Global};
use std::borrow::CowStr;
use tb_task::{Moment, Status, Task};
use tb_values::NonEmptyText;

/// Waiting or started, blocked, blocking: a letter each, or a hyphen.
pub fn flags_of(task: &Task, is_blocked: bool, is_blocking: bool) -> &'static str
    ensures { result.now ≡ flags is_blocked is_blocking task.now }
{
    match (is_blocked, is_blocking) {
        (false, false) => one_of(task, "W--", "*--", "---"),
        (false, true) => one_of(task, "W-k", "*-k", "--k"),
        (true, false) => one_of(task, "Wb-", "*b-", "-b-"),
        (true, true) => one_of(task, "Wbk", "*bk", "-bk"),
    }
}

/// The first text of a waiting task, the second of another that is started, and else the third.
fn one_of(
    task: &Task,
    waiting: &'static str,
    started: &'static str,
    other: &'static str,
) -> &'static str
    ensures { result.now
        ≡ (if is_waiting_now task.now.status then waiting.now
        else if is_some task.now.start then started.now else other.now) }
{
    if is_waiting_status(task.status) {
        return waiting;
    }
    if task.start.is_some() { started } else { other }
}

fn is_waiting_status(status: Status) -> bool
    ensures { result ≡ is_waiting_now status }
{
    matches!(status, Status::Waiting)
}

/// The due date, or a hyphen.
pub fn due_of(alloc: Global, due: Option<Moment>) -> Result<CowStr<'static>, AllocError>
    ensures { IfOk result (λ text. cow_str_bytes text ≡ due_text due) }
{
    match due {
        Some(due) => Ok(CowStr::Owned(due.text(alloc)?.into_string())),
        None => Ok(CowStr::Borrowed("-")),
    }
}

/// The project without control characters, or a hyphen.
pub fn project_of(alloc: Global, project: &Option<NonEmptyText>) -> Result<CowStr<'_>, AllocError>
    ensures { IfOk result (λ text. cow_str_bytes text ≡ project_text project.now) }
{
    match project {
        Some(project) => shown_cell(alloc, project.as_str()),
        None => Ok(CowStr::Borrowed("-")),
    }
}
