//! The task that a line makes.
ghost use Rattle.std.specs.Prelude.{◌≡◌, ◌++◌, ◌∷◌, IfOk, decimal, option_map, string_bytes};
ghost use Rattle.tb_task.specs.TaskId.{made, named_id};
ghost use Rattle.tb_todotxt.specs.Day.{start_of};
ghost use Rattle.tb_todotxt.specs.Line.{spell};
ghost use Rattle.tb_todotxt.specs.Making.{start_or as start_or_moment, status_of as line_status, end_of as line_end, priority_of as line_priority, filled_or as text_or, line_id as named_line, id_or as id_or_other, task_of, task_with};

use crate::day::Day;
use crate::letter::Letter;
use crate::line::{Line, LineParts};
use crate::reading::write_line;
use crate::tags::in_order;
use crate::words::BodyWords;
use std::alloc::{AllocError, Global};
use std::fmt::Write;
use tb_task::{Moment, Priority, Status, Task, TaskId};
use tb_values::{Duplicate, Text};

/// The first second of the day, else the moment.
fn start_or(day: Option<Day>, moment: Moment) -> Moment
    ensures { result ≡ start_or_moment day moment }
{
    match day {
        Some(day) => day.start(),
        None => moment,
    }
}

fn status_of(done: bool) -> Status
    ensures { result ≡ line_status done }
{
    if done {
        Status::Completed
    } else {
        Status::Pending
    }
}

fn end_of(done: bool, completion: Option<Day>, moment: Moment) -> Option<Moment>
    ensures { result ≡ line_end done completion moment }
{
    if done {
        Some(start_or(completion, moment))
    } else {
        None
    }
}

fn due_of(day: Option<Day>) -> Option<Moment>
    ensures { result ≡ option_map start_of day }
{
    match day {
        Some(day) => Some(day.start()),
        None => None,
    }
}

fn priority_of(letter: Option<Letter>) -> Option<Priority>
    ensures { result ≡ line_priority letter }
{
    match letter?.code() {
        b'A' => Some(Priority::High),
        b'B' => Some(Priority::Medium),
        b'C' => Some(Priority::Low),
        _ => None,
    }
}

/// The text, or a copy of another where it is empty.
fn filled_or(text: Text, other: &Text) -> Result<Text, AllocError>
    ensures { IfOk result (λ filled. filled ≡ text_or text other.now) }
{
    if text.is_empty() {
        other.duplicate()
    } else {
        Ok(text)
    }
}

/// The identifier that a line gives by its text and by how many equal lines came before it.
fn line_id(alloc: Global, line: &Line, board: u32, occurrence: u32) -> Result<TaskId, AllocError>
    ensures { IfOk result (λ id. id ≡ named_line line.now board occurrence) }
{
    let mut name = write_line(alloc, line)?.into_string();
    write!(name, "\n{occurrence}")?;
    Ok(TaskId::named(TaskId::space(board), name.as_bytes()))
}

/// The task of a line's parts and of what its words say.
fn task_from(
    alloc: Global,
    parts: &LineParts,
    said: BodyWords,
    id: TaskId,
    moment: Moment,
) -> Result<Task, AllocError>
    ensures { IfOk result (λ task. task ≡ task_with parts.now said id moment) }
{
    let description = filled_or(said.description, &parts.body)?;
    let mut task = Task::new(alloc, id, start_or(parts.creation, moment), description);
    task.status = status_of(parts.done);
    task.modified = Some(moment);
    task.end = end_of(parts.done, parts.completion, moment);
    task.due = due_of(said.due);
    task.project = said.project;
    task.priority = priority_of(parts.priority);
    task.tags = in_order(alloc, said.tags.as_slice())?;
    Ok(task)
}

/// The task of a line on a board at a moment, before which so many equal lines came.
pub fn to_task(
    alloc: Global,
    line: &Line,
    moment: Moment,
    board: u32,
    occurrence: u32,
) -> Result<Task, AllocError>
    ensures { IfOk result (λ task. task ≡ task_of line.now moment board occurrence) }
{
    let parts = line.parts();
    let said = BodyWords::of(alloc, parts.body.as_str())?;
    let id = match said.id {
        Some(id) => id,
        None => line_id(alloc, line, board, occurrence)?,
    };
    task_from(alloc, parts, said, id, moment)
}
