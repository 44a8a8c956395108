//! The line that shows a task.
ghost use Rattle.std.specs.Prelude.{◌≡◌, ◌++◌, Ok, IfOk, OnOk, IfSome, string_bytes, option_map};
ghost use Rattle.tb_task.specs.Checks.{checked};
ghost use Rattle.tb_task.specs.TaskId.{id_text};
ghost use Rattle.tb_todotxt.specs.Day.{IsDay};
ghost use Rattle.tb_todotxt.specs.Letter.{letter_for, IsLetter};
ghost use Rattle.tb_todotxt.specs.Showing.{shown_char as visible_char, shown_text, project_text, tags_text, due_text, body_of as task_body, completion_of as task_completion, parts_of as task_parts, line_for};

use crate::day::Day;
use crate::letter::Letter;
use crate::line::{Line, LineParts};
use crate::reading::push_day;
use std::alloc::{AllocError, Global};
use tb_task::{Moment, Priority, Shown, Status, Task};
use tb_values::{NonEmptyText, Text};

fn shown_char(character: char, instead: char) -> char
    ensures { result ≡ visible_char instead character }
{
    if character <= ' ' || character == '\u{7f}' {
        instead
    } else {
        character
    }
}

/// Puts a text at the end, with another character for each space and control character.
#[tactic(auto, unfolding(crate::specs::Showing::shown_text))]
fn push_shown(body: &mut String, text: &str, instead: char) -> Result<(), AllocError>
    ensures { OnOk result
        (string_bytes body.new ≡ string_bytes body.old ++ shown_text instead text.now) }
{
    for character in text.chars() {
        body.push(shown_char(character, instead))?;
    }
    Ok(())
}

fn push_project(body: &mut String, project: &Option<NonEmptyText>) -> Result<(), AllocError>
    ensures { OnOk result
        (string_bytes body.new ≡ string_bytes body.old ++ project_text project.now) }
{
    if let Some(project) = project {
        body.push_str(" +")?;
        push_shown(body, project.as_str(), '_')?;
    }
    Ok(())
}

fn push_tags(body: &mut String, tags: &[Text]) -> Result<(), AllocError>
    ensures { OnOk result (string_bytes body.new ≡ string_bytes body.old ++ tags_text tags.now) }
{
    for tag in tags {
        body.push_str(" @")?;
        body.push_str(tag.as_str())?;
    }
    Ok(())
}

fn push_due(body: &mut String, due: Option<Moment>) -> Result<(), AllocError>
    ensures { OnOk result (string_bytes body.new ≡ string_bytes body.old ++ due_text due) }
{
    if let Some(due) = due {
        body.push_str(" due:")?;
        push_day(body, Day::of(due))?;
    }
    Ok(())
}

fn body_of(alloc: Global, task: &Task) -> Result<Text, AllocError>
    ensures { IfOk result (λ body. body ≡ task_body task.now) }
{
    let mut body = String::new(alloc);
    push_shown(&mut body, task.description.as_str(), ' ')?;
    push_project(&mut body, &task.project)?;
    push_tags(&mut body, task.tags.as_slice())?;
    push_due(&mut body, task.due)?;
    body.push_str(" uuid:")?;
    let id = task.id.text(alloc)?;
    body.push_str(id.as_str())?;
    Ok(Text::from_string(body))
}

fn completion_of(done: bool, task: &Task) -> Option<Day>
    ensures { result ≡ task_completion done task.now }
{
    if done {
        Some(Day::of(task.end.unwrap_or(task.entry)))
    } else {
        None
    }
}

fn letter_of(priority: Option<Priority>) -> Option<Letter>
    ensures { result ≡ option_map letter_for priority }
{
    match priority {
        Some(priority) => Some(Letter::of(priority)),
        None => None,
    }
}

fn parts_of(alloc: Global, task: &Task, done: bool) -> Result<LineParts, AllocError>
    ensures parts { IfOk result (λ parts. parts ≡ task_parts done task.now) }
    ensures letter { IfOk result (λ parts. IfSome parts.priority IsLetter) }
    ensures completion { IfOk result (λ parts. IfSome parts.completion IsDay) }
    ensures creation { IfOk result (λ parts. IfSome parts.creation IsDay) }
{
    let body = body_of(alloc, task)?;
    Ok(LineParts {
        done,
        priority: letter_of(task.priority),
        completion: completion_of(done, task),
        creation: Some(Day::of(task.entry)),
        body,
    })
}

/// The line of a task that a board takes.
fn line_of(alloc: Global, task: &Task, done: bool) -> Result<Line, AllocError>
    requires { checked task.now ≡ Ok tt }
    ensures { IfOk result (λ line. line ≡ task_parts done task.now) }
{
    let parts = parts_of(alloc, task, done)?;
    Ok(Line::from_parts(parts))
}

/// The line of a pending, waiting or completed task that a board takes. Others have none.
pub fn from_task(alloc: Global, shown: &Shown) -> Result<Option<Line>, AllocError>
    requires { checked shown.now.task ≡ Ok tt }
    ensures { IfOk result (λ line. line ≡ line_for shown.now.task) }
{
    let task = shown.task.get();
    match task.status {
        Status::Pending | Status::Waiting => Ok(Some(line_of(alloc, task, false)?)),
        Status::Completed => Ok(Some(line_of(alloc, task, true)?)),
        Status::Recurring | Status::Deleted => Ok(None),
    }
}
