ghost use Rattle.std.specs.Prelude.{◌≡◌, ◌≤◌, IfOk};
ghost use Rattle.tb_recur.specs.Instances.{due_of, delay_of, seconds_between, moved, settled, instance};

use crate::dues::due;
use crate::plan::plan_of;
use std::alloc::AllocError;
use tb_task::{Moment, Status, Task, TaskId};

/// The due of instance k.
fn due_of(template: &Task, k: u32) -> Option<Moment>
    ensures { result ≡ due_of template.now k }
{
    match plan_of(template) {
        Some(plan) => due(plan.due, plan.step, k),
        None => None,
    }
}

fn seconds_between(first: Option<Moment>, later: Option<Moment>) -> u64
    ensures value { result ≡ seconds_between first later }
    ensures small { result ≤ 253402300799 }
{
    match (first, later) {
        (Some(first), Some(later)) => later.seconds().saturating_sub(first.seconds()),
        _ => 0,
    }
}

fn delay_of(template: &Task, k: u32) -> u64
    ensures value { result ≡ delay_of template.now k }
    ensures small { result ≤ 253402300799 }
{
    seconds_between(template.due, due_of(template, k))
}

fn moved(moment: Option<Moment>, by: u64) -> Option<Moment>
    requires { by ≤ 253402300799 }
    ensures { result ≡ moved by moment }
{
    match moment {
        Some(moment) => Moment::from_seconds(moment.seconds() + by),
        None => None,
    }
}

fn settled(wait: Option<Moment>, at: Moment) -> Status
    ensures { result ≡ settled wait at }
{
    match wait {
        Some(until) if until > at => Status::Waiting,
        _ => Status::Pending,
    }
}

/// Instance k of a template, made at a moment under an identifier.
#[tactic(auto, unfolding(crate::specs::Instances::instance))]
pub fn instance(template: &Task, k: u32, id: TaskId, at: Moment) -> Result<Task, AllocError>
    ensures { IfOk result (λ t. t ≡ instance template.now k id at) }
{
    let by = delay_of(template, k);
    let status = settled(moved(template.wait, by), at);
    let due = due_of(template, k);
    let wait = moved(template.wait, by);
    let scheduled = moved(template.scheduled, by);
    let mut task = template.copy()?;
    task.id = id;
    task.status = status;
    task.entry = at;
    task.modified = Some(at);
    task.start = None;
    task.end = None;
    task.due = due;
    task.wait = wait;
    task.scheduled = scheduled;
    task.parent = Some(template.id);
    task.imask = Some(k);
    Ok(task)
}
