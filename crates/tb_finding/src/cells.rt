//! What a line of the list shows of a task.
ghost use Rattle.std.specs.Prelude.{◌≡◌, ◌<◌, ◌+◌, ◌^◌, ◌++◌, IfOk, OnOk, decimal, string_bytes};
ghost use Rattle.tb_finding.specs.Cells.{cells_of, mark_if, marks, moment_cell, project_cell, short_room, standing, tag_words, what_of};
ghost use Rattle.tb_finding.specs.Table.{fitted};
ghost use Rattle.tb_my.specs.Telling.{shown_text};
ghost use Rattle.tb_report.specs.Urgencies.{is_waiting_now};

use crate::look::Look;
use crate::table::{Cells, Style, push_fitted};
use crate::tests::{assignee, is_overdue, letter_of};
use crate::words::push_moment;
use std::alloc::{AllocError, Global};
use std::fmt::Write;
use tb_my::{Clock, push_shown};
use tb_task::{Moment, Status, Task};
use tb_values::{NonEmptyText, Text};

/// The most columns of a project and of a name on a terminal.
const SHORT: usize = 20;

/// What the line of the task at a place, from 0, shows.
pub(crate) fn cells_of(
    alloc: Global,
    clock: &Clock,
    style: Style,
    look: &Look,
    place: usize,
    task: &Task,
) -> Result<Cells, AllocError>
    requires { place + 1 < 2 ^ 64 }
    ensures { IfOk result (λ cells. cells
        ≡ cells_of clock.now style look.now place task.now) }
{
    let room = short_room(style.columns);
    Ok(Cells {
        number: number_of(alloc, place + 1)?,
        marks: marks(alloc, look.is_blocked(place), look.is_blocking(place), task)?,
        due: moment_cell(alloc, clock, task.due)?,
        project: project_cell(alloc, room, &task.project)?,
        person: person_cell(alloc, room, assignee(task.extras.as_slice()))?,
        what: what_of(alloc, task)?,
        is_late: is_overdue(clock, task.due),
    })
}

fn number_of(alloc: Global, number: usize) -> Result<Text, AllocError>
    ensures { IfOk result (λ text. text ≡ decimal number) }
{
    let mut text = String::new(alloc);
    write!(text, "{number}")?;
    Ok(Text::from_string(text))
}

fn short_room(columns: Option<u32>) -> Option<usize>
    ensures { result ≡ short_room columns }
{
    match columns {
        Some(_) => Some(SHORT),
        None => None,
    }
}

/// The priority, `W` or `*`, `b` where the task is blocked, `k` where it blocks another.
fn marks(
    alloc: Global,
    is_blocked: bool,
    is_blocking: bool,
    task: &Task,
) -> Result<Text, AllocError>
    ensures { IfOk result (λ text. text ≡ marks is_blocked is_blocking task.now) }
{
    let mut text = String::from_str(alloc, letter_of(task.priority))?;
    text.push_str(standing(task))?;
    text.push_str(mark_if(is_blocked, "b"))?;
    text.push_str(mark_if(is_blocking, "k"))?;
    Ok(Text::from_string(text))
}

/// Waiting, or work has begun.
fn standing(task: &Task) -> &'static str
    ensures { result.now ≡ standing task.now }
{
    if is_waiting(task.status) {
        return "W";
    }
    if task.start.is_some() { "*" } else { "" }
}

fn is_waiting(status: Status) -> bool
    ensures { result ≡ is_waiting_now status }
{
    matches!(status, Status::Waiting)
}

fn mark_if(is_so: bool, mark: &'static str) -> &'static str
    ensures { result.now ≡ mark_if is_so mark.now }
{
    if is_so { mark } else { "" }
}

pub(crate) fn moment_cell(
    alloc: Global,
    clock: &Clock,
    moment: Option<Moment>,
) -> Result<Text, AllocError>
    ensures { IfOk result (λ text. text ≡ moment_cell clock.now moment) }
{
    let mut text = String::new(alloc);
    if let Some(moment) = moment {
        push_moment(&mut text, clock, moment)?;
    }
    Ok(Text::from_string(text))
}

fn project_cell(
    alloc: Global,
    room: Option<usize>,
    project: &Option<NonEmptyText>,
) -> Result<Text, AllocError>
    ensures { IfOk result (λ text. text ≡ project_cell room project.now) }
{
    match project {
        Some(project) => person_cell(alloc, room, project.as_str()),
        None => Ok(Text::new(alloc)),
    }
}

fn person_cell(alloc: Global, room: Option<usize>, what: &str) -> Result<Text, AllocError>
    ensures { IfOk result (λ text. text ≡ fitted room (shown_text what.now)) }
{
    let mut shown = String::new(alloc);
    push_shown(&mut shown, what)?;
    let mut text = String::new(alloc);
    push_fitted(alloc, &mut text, room, shown.as_str())?;
    Ok(Text::from_string(text))
}

fn what_of(alloc: Global, task: &Task) -> Result<Text, AllocError>
    ensures { IfOk result (λ text. text ≡ what_of task.now) }
{
    let mut text = String::new(alloc);
    push_shown(&mut text, task.description.as_str())?;
    push_tags(&mut text, task.tags.as_slice())?;
    Ok(Text::from_string(text))
}

pub(crate) fn push_tags(text: &mut String, tags: &[Text]) -> Result<(), AllocError>
    ensures { OnOk result (string_bytes text.new ≡ string_bytes text.old ++ tag_words tags.now) }
{
    for tag in tags {
        text.push_str(" @")?;
        push_shown(text, tag.as_str())?;
    }
    Ok(())
}
