//! A task that comes in: its attributes, what they are where they are absent, and the rules between them.

ghost use Rattle.std.specs.Prelude.{◌≡◌};
ghost use Rattle.serde_json.specs.View.{view};
ghost use Rattle.tb_json.specs.Outcome.{Reads};
ghost use Rattle.tb_json.specs.Reading.{drafted, default_status as status_by_default, counted as one_more_if, without_parent, without_imask, is_deleted_template as is_gone_template, with_fit_link, may_recur as recurs, with_fit_recur, is_template as is_one, with_fit_mask, with_fit_end, is_later as is_after, settled, incoming_of as all_rules, task_of};

use crate::fault::JsonFault;
use crate::fields::{Fields, fields_of};
use serde_json::Value;
use std::alloc::Global;
use tb_task::{Incoming, Moment, Status, Task, TaskId, is_step};

fn default_status(fields: &Fields) -> Status
    ensures { result ≡ status_by_default fields.now }
{
    if fields.second.recur.is_some() && fields.second.parent.is_none() {
        Status::Recurring
    } else {
        Status::Pending
    }
}

/// The attributes as they were read. What is absent is empty, and the task was entered at the moment.
#[tactic(auto, unfolding(crate::specs::Reading::drafted))]
fn draft(fields: Fields, moment: Moment) -> Incoming
    ensures { result ≡ drafted moment fields }
{
    let status = fields.third.status.unwrap_or(default_status(&fields));
    let Fields {
        first,
        second,
        third,
        extras,
        dropped,
    } = fields;
    Incoming {
        task: Task {
            id: third.uuid.unwrap_or(TaskId::of_bytes([0; 16])),
            status,
            entry: first.entry.unwrap_or(moment),
            modified: second.modified,
            start: third.start,
            end: first.end,
            due: first.due,
            wait: third.wait,
            scheduled: third.scheduled,
            until: third.until,
            description: first.description,
            project: second.project,
            priority: second.priority,
            tags: third.tags,
            annotations: first.annotations,
            depends: first.depends,
            recur: second.recur,
            parent: None,
            imask: None,
            extras,
        },
        named: third.uuid.is_some(),
        raw_parent: second.parent,
        raw_imask: second.imask,
        raw_mask: second.mask,
        dropped,
    }
}

/// The count with one more, where something is dropped.
fn counted<T>(dropped: u32, value: &Option<T>) -> u32
    ensures { result ≡ one_more_if dropped value.now }
{
    if value.is_some() {
        dropped.saturating_add(1)
    } else {
        dropped
    }
}

fn drop_parent(incoming: &mut Incoming)
    ensures { incoming.new ≡ without_parent incoming.old }
{
    incoming.dropped = counted(incoming.dropped, &incoming.raw_parent);
    incoming.raw_parent = None;
}

fn drop_imask(incoming: &mut Incoming)
    ensures { incoming.new ≡ without_imask incoming.old }
{
    incoming.dropped = counted(incoming.dropped, &incoming.raw_imask);
    incoming.raw_imask = None;
}

fn is_deleted_template(incoming: &Incoming) -> bool
    ensures { result ≡ is_gone_template incoming.now }
{
    matches!(incoming.task.status, Status::Deleted)
        && incoming.task.recur.is_some()
        && incoming.raw_parent.is_none()
}

/// A template is no instance.
#[tactic(auto, unfolding(crate::specs::Reading::with_fit_link))]
fn fit_link(incoming: &mut Incoming)
    ensures { incoming.new ≡ with_fit_link incoming.old }
{
    if matches!(incoming.task.status, Status::Recurring) {
        drop_parent(incoming);
        drop_imask(incoming);
    } else if is_deleted_template(incoming) {
        drop_imask(incoming);
    }
}

fn may_recur(incoming: &Incoming) -> bool
    ensures { result ≡ recurs incoming.now }
{
    match incoming.task.status {
        Status::Recurring => true,
        Status::Deleted => {
            incoming.raw_parent.is_some()
                || incoming.task.due.is_some() && is_step(&incoming.task.recur)
        }
        Status::Pending | Status::Waiting | Status::Completed => incoming.raw_parent.is_some(),
    }
}

/// A step without a parent stays with a template alone.
#[tactic(auto, unfolding(crate::specs::Reading::with_fit_recur))]
fn fit_recur(incoming: &mut Incoming)
    ensures { incoming.new ≡ with_fit_recur incoming.old }
{
    if may_recur(incoming) {
        return;
    }
    incoming.dropped = counted(incoming.dropped, &incoming.task.recur);
    incoming.task.recur = None;
}

fn is_template(incoming: &Incoming) -> bool
    ensures { result ≡ is_one incoming.now }
{
    incoming.task.recur.is_some() && incoming.raw_parent.is_none()
}

/// And so does a mask.
#[tactic(auto, unfolding(crate::specs::Reading::with_fit_mask))]
fn fit_mask(incoming: &mut Incoming)
    ensures { incoming.new ≡ with_fit_mask incoming.old }
{
    if is_template(incoming) {
        return;
    }
    incoming.dropped = counted(incoming.dropped, &incoming.raw_mask);
    incoming.raw_mask = None;
}

/// A closed task has an end, and an open one none.
#[tactic(auto, unfolding(crate::specs::Reading::with_fit_end))]
fn fit_end(incoming: &mut Incoming, moment: Moment)
    ensures { incoming.new ≡ with_fit_end moment incoming.old }
{
    match incoming.task.status {
        Status::Completed | Status::Deleted => {
            incoming.task.end = Some(incoming.task.end.unwrap_or(moment));
        }
        Status::Pending | Status::Waiting | Status::Recurring => {
            incoming.dropped = counted(incoming.dropped, &incoming.task.end);
            incoming.task.end = None;
        }
    }
}

fn is_later(wait: Option<Moment>, moment: Moment) -> bool
    ensures { result ≡ is_after moment wait }
{
    match wait {
        Some(wait) => moment.seconds() < wait.seconds(),
        None => false,
    }
}

/// A task waits until its moment has come.
#[tactic(auto, unfolding(crate::specs::Reading::settled))]
fn settle(incoming: &mut Incoming, moment: Moment)
    ensures { incoming.new ≡ settled moment incoming.old }
{
    match incoming.task.status {
        Status::Pending | Status::Waiting => {
            incoming.task.status = if is_later(incoming.task.wait, moment) {
                Status::Waiting
            } else {
                Status::Pending
            };
        }
        Status::Recurring | Status::Completed | Status::Deleted => (),
    }
}

/// The task that the attributes make at a moment. The rules come in this order.
#[tactic(auto, unfolding(crate::specs::Reading::incoming_of))]
fn incoming_of(fields: Fields, moment: Moment) -> Incoming
    ensures { result ≡ all_rules moment fields }
{
    let mut incoming = draft(fields, moment);
    fit_link(&mut incoming);
    fit_recur(&mut incoming);
    fit_mask(&mut incoming);
    fit_end(&mut incoming, moment);
    settle(&mut incoming, moment);
    incoming
}

/// The task that a JSON object is when it comes in at a moment. Of several members in a wrong form the
/// fault names the first by byte order.
pub fn read_task(alloc: Global, value: &Value, moment: Moment) -> Result<Incoming, JsonFault>
    ensures { Reads result (task_of moment (view value.now)) }
{
    let fields = fields_of(alloc, value)?;
    Ok(incoming_of(fields, moment))
}
