//! Recurrence: dues, instances, and what a template wants.

use crate::finding::{Finding, missing, show};
use crate::given::{halves, id_of, moment_at, step_of};
use crate::tasks::{read, tell_task};
use std::alloc::Global;
use std::io;
use tb_recur::{due, instance, plan_of, wanted};

/// The number of an instance, counted from 0.
fn number(text: &str) -> io::Result<u32> {
    text.parse().ok().ok_or(missing())
}

/// How far ahead a board looks.
fn small_number(text: &str) -> io::Result<u8> {
    text.parse().ok().ok_or(missing())
}

/// The due of an instance: the first due, the step, and the instance's number.
pub(crate) fn due_in(alloc: Global, given: &str) -> Finding {
    let (first, rest) = halves(given);
    let (step, k) = halves(rest);
    let due = due(moment_at(first)?, step_of(step)?, number(k)?).ok_or(missing())?;
    Ok(due.text(alloc)?.into_string())
}

/// Whether an instance is wanted: the first due, the step, until when or `-`, how far ahead, the instance's number, and the moment.
pub(crate) fn is_wanted(alloc: Global, given: &str) -> Finding {
    let (first, rest) = halves(given);
    let (step, rest) = halves(rest);
    let (until, rest) = halves(rest);
    let (ahead, rest) = halves(rest);
    let (k, at) = halves(rest);
    let (first, step) = (moment_at(first)?, step_of(step)?);
    let (until, ahead) = (moment_at(until).ok(), small_number(ahead)?);
    show(
        alloc,
        &wanted(first, step, until, ahead, number(k)?, moment_at(at)?),
    )
}

/// Whether an instance of a template is wanted, and by which plan: how far ahead, the instance's number, the moment, and the template.
pub(crate) fn plan_wants(alloc: Global, given: &str) -> Finding {
    let (ahead, rest) = halves(given);
    let (k, rest) = halves(rest);
    let (at, json) = halves(rest);
    let plan = plan_of(&read(alloc, json)?).ok_or(missing())?;
    let wants = plan.wants(small_number(ahead)?, number(k)?, moment_at(at)?);
    let (due, step) = (plan.due.text(alloc)?, plan.step);
    show(alloc, &(due.as_str(), step, wants))
}

/// An instance of a template: the instance's number, its identifier, the moment, and the template.
pub(crate) fn instance_in(alloc: Global, given: &str) -> Finding {
    let (k, rest) = halves(given);
    let (id, rest) = halves(rest);
    let (at, json) = halves(rest);
    let template = read(alloc, json)?;
    let task = instance(&template, number(k)?, id_of(id)?, moment_at(at)?)?;
    tell_task(alloc, &task)
}
