//! One task in lines.
ghost use Rattle.std.specs.Prelude.{◌≡◌, ◌++◌, ◌+◌, ◌<◌, ◌^◌, IfOk, OnOk, codes, decimal, if◌then◌else◌, ◌∷◌, [], string_bytes};
ghost use Rattle.tb_finding.specs.Cells.{moment_cell};
ghost use Rattle.tb_finding.specs.Showing.{course_lines, field, int_text, kind_lines, named_from, need_lines, note_lines, number_from, own_line, own_lines, plan_lines, repeat_lines, show_of, show_text, state_lines, text_or_none, unspaced, value_text};
ghost use Rattle.tb_finding.specs.Words.{moment_word};
ghost use Rattle.tb_my.specs.Telling.{shown_text};
ghost use Rattle.tb_report.specs.Row.{is_negative};

use crate::cells::{moment_cell, push_tags};
use crate::json::truth;
use crate::look::task_in;
use crate::tests::{assignee, letter_of};
use crate::words::push_moment;
use std::alloc::{AllocError, Global};
use std::fmt::Write;
use tb_json::parse;
use tb_my::{Clock, Seen, after_key, push_shown};
use tb_task::{Annotation, Extra, ExtraValue, Moment, Task, TaskId};
use tb_values::{NonEmptyText, Text};

/// One task in lines, of the answer that shows it and of the board's tasks as a look at it showed them; none of another answer.
pub fn show_text(
    alloc: Global,
    clock: &Clock,
    tasks: &[Seen],
    body: &str,
) -> Result<Option<Text>, AllocError>
    ensures { IfOk result (λ text. text ≡ show_text clock.now tasks.now body.now) }
{
    let Some(value) = parse(alloc, body)? else {
        return Ok(None);
    };
    match task_in(alloc, &value, clock.moment)? {
        Some(task) => Ok(Some(show_of(alloc, clock, tasks, &task)?)),
        None => Ok(None),
    }
}

fn show_of(alloc: Global, clock: &Clock, tasks: &[Seen], task: &Task) -> Result<Text, AllocError>
    ensures { IfOk result (λ text. text ≡ show_of clock.now tasks.now task.now) }
{
    let mut text = String::new(alloc);
    push_shown(&mut text, task.description.as_str())?;
    text.push('\n')?;
    let number = number_from(alloc, task.id, tasks)?;
    push_field(&mut text, "number   ", number.as_str())?;
    push_kind(alloc, &mut text, task)?;
    push_state(alloc, &mut text, clock, task)?;
    push_needs(alloc, &mut text, tasks, task.depends.as_slice())?;
    push_notes(alloc, &mut text, clock, task.annotations.as_slice())?;
    push_own(alloc, &mut text, task.extras.as_slice())?;
    push_field(&mut text, "uuid     ", task.id.text(alloc)?.as_str())?;
    Ok(Text::from_string(text))
}

/// Puts a line of what a task has at the end: none of what it hasn't.
fn push_field(text: &mut String, name: &str, value: &str) -> Result<(), AllocError>
    ensures { OnOk result (string_bytes text.new
        ≡ string_bytes text.old ++ field name.now value.now) }
{
    if value.is_empty() {
        return Ok(());
    }
    text.push_str("  ")?;
    text.push_str(name)?;
    text.push_str("  ")?;
    text.push_str(value)?;
    text.push('\n')
}

fn push_kind(alloc: Global, text: &mut String, task: &Task) -> Result<(), AllocError>
    ensures { OnOk result (string_bytes text.new ≡ string_bytes text.old ++ kind_lines task.now) }
{
    let mut tags = String::new(alloc);
    push_tags(&mut tags, task.tags.as_slice())?;
    let person = shown(alloc, assignee(task.extras.as_slice()))?;
    push_field(text, "priority ", letter_of(task.priority))?;
    push_field(
        text,
        "project  ",
        text_or_none(alloc, &task.project)?.as_str(),
    )?;
    push_field(text, "tags     ", unspaced(tags.as_str()))?;
    push_field(text, "for      ", person.as_str())
}

/// A text without the space in front.
fn unspaced(text: &str) -> &str
    ensures { result.now ≡ unspaced text.now }
{
    match after_key(text, " ") {
        Some(rest) => rest,
        None => text,
    }
}

fn shown(alloc: Global, text: &str) -> Result<String, AllocError>
    ensures { IfOk result (λ shown. string_bytes shown ≡ shown_text text.now) }
{
    let mut shown = String::new(alloc);
    push_shown(&mut shown, text)?;
    Ok(shown)
}

fn text_or_none(alloc: Global, text: &Option<NonEmptyText>) -> Result<String, AllocError>
    ensures { IfOk result (λ shown. string_bytes shown ≡ text_or_none text.now) }
{
    match text {
        Some(text) => shown(alloc, text.as_str()),
        None => Ok(String::new(alloc)),
    }
}

fn push_state(
    alloc: Global,
    text: &mut String,
    clock: &Clock,
    task: &Task,
) -> Result<(), AllocError>
    ensures { OnOk result (string_bytes text.new
        ≡ string_bytes text.old ++ state_lines clock.now task.now) }
{
    push_plan(alloc, text, clock, task)?;
    push_repeats(alloc, text, clock, task)?;
    push_course(alloc, text, clock, task)
}

/// The status, and when a task is due, for what it waits and when it is scheduled.
fn push_plan(alloc: Global, text: &mut String, clock: &Clock, task: &Task) -> Result<(), AllocError>
    ensures { OnOk result (string_bytes text.new
        ≡ string_bytes text.old ++ plan_lines clock.now task.now) }
{
    push_field(text, "status   ", task.status.word())?;
    push_day(alloc, text, clock, "due      ", task.due)?;
    push_day(alloc, text, clock, "waits for", task.wait)?;
    push_day(alloc, text, clock, "scheduled", task.scheduled)
}

/// Until when a task goes, and how it repeats.
fn push_repeats(
    alloc: Global,
    text: &mut String,
    clock: &Clock,
    task: &Task,
) -> Result<(), AllocError>
    ensures { OnOk result (string_bytes text.new
        ≡ string_bytes text.old ++ repeat_lines clock.now task.now) }
{
    push_day(alloc, text, clock, "until    ", task.until)?;
    let repeats = text_or_none(alloc, &task.recur)?;
    push_field(text, "repeats  ", repeats.as_str())
}

/// When work on a task began, and when it was closed, added and changed.
fn push_course(
    alloc: Global,
    text: &mut String,
    clock: &Clock,
    task: &Task,
) -> Result<(), AllocError>
    ensures { OnOk result (string_bytes text.new
        ≡ string_bytes text.old ++ course_lines clock.now task.now) }
{
    push_day(alloc, text, clock, "begun    ", task.start)?;
    push_day(alloc, text, clock, "closed   ", task.end)?;
    push_day(alloc, text, clock, "added    ", Some(task.entry))?;
    push_day(alloc, text, clock, "changed  ", task.modified)
}

fn push_day(
    alloc: Global,
    text: &mut String,
    clock: &Clock,
    name: &str,
    moment: Option<Moment>,
) -> Result<(), AllocError>
    ensures { OnOk result (string_bytes text.new
        ≡ string_bytes text.old ++ field name.now (moment_cell clock.now moment)) }
{
    let cell = moment_cell(alloc, clock, moment)?;
    push_field(text, name, cell.as_str())
}

/// The number of a task among those that were seen: nothing where it isn't there.
fn number_from(alloc: Global, id: TaskId, tasks: &[Seen]) -> Result<String, AllocError>
    ensures { IfOk result (λ text. string_bytes text ≡ number_from id 0 tasks.now) }
{
    for (place, seen) in tasks.iter().enumerate() {
        if seen.id == id {
            return number_text(alloc, place);
        }
    }
    Ok(String::new(alloc))
}

fn number_text(alloc: Global, place: usize) -> Result<String, AllocError>
    requires { place + 1 < 2 ^ 64 }
    ensures { IfOk result (λ text. string_bytes text ≡ decimal (place + 1)) }
{
    let number = place + 1;
    format!(in alloc; "{number}")
}

/// The tasks on which a task depends.
fn push_needs(
    alloc: Global,
    text: &mut String,
    tasks: &[Seen],
    ids: &[TaskId],
) -> Result<(), AllocError>
    ensures { OnOk result (string_bytes text.new
        ≡ string_bytes text.old ++ need_lines tasks.now ids.now) }
{
    for id in ids {
        let named = named_from(alloc, *id, tasks)?;
        push_field(text, "needs    ", named.as_str())?;
    }
    Ok(())
}

/// The number and the description of a task, or its identifier where it wasn't seen.
pub(crate) fn named_from(alloc: Global, id: TaskId, tasks: &[Seen]) -> Result<Text, AllocError>
    ensures { IfOk result (λ text. text ≡ named_from id 0 tasks.now) }
{
    for (place, seen) in tasks.iter().enumerate() {
        if seen.id == id {
            return named_text(alloc, place, seen);
        }
    }
    id.text(alloc)
}

fn named_text(alloc: Global, place: usize, seen: &Seen) -> Result<Text, AllocError>
    requires { place + 1 < 2 ^ 64 }
    ensures { IfOk result (λ text. text
        ≡ decimal (place + 1) ++ 32 ∷ shown_text seen.now.description) }
{
    let mut text = number_text(alloc, place)?;
    text.push(' ')?;
    push_shown(&mut text, seen.description.as_str())?;
    Ok(Text::from_string(text))
}

fn push_notes(
    alloc: Global,
    text: &mut String,
    clock: &Clock,
    notes: &[Annotation],
) -> Result<(), AllocError>
    ensures { OnOk result (string_bytes text.new
        ≡ string_bytes text.old ++ note_lines clock.now notes.now) }
{
    for note in notes {
        let written = note_text(alloc, clock, note)?;
        push_field(text, "note     ", written.as_str())?;
    }
    Ok(())
}

fn note_text(alloc: Global, clock: &Clock, note: &Annotation) -> Result<String, AllocError>
    ensures { IfOk result (λ text. string_bytes text
        ≡ moment_word clock.now note.now.entry ++ (codes ": " ++ shown_text note.now.description)) }
{
    let mut text = String::new(alloc);
    push_moment(&mut text, clock, note.entry)?;
    text.push_str(": ")?;
    push_shown(&mut text, note.description.as_str())?;
    Ok(text)
}

/// Attributes of one's own, but the one for whom the task is.
fn push_own(alloc: Global, text: &mut String, extras: &[Extra]) -> Result<(), AllocError>
    ensures { OnOk result (string_bytes text.new ≡ string_bytes text.old ++ own_lines extras.now) }
{
    for extra in extras {
        push_one(alloc, text, extra.name.as_str(), &extra.value)?;
    }
    Ok(())
}

fn push_one(
    alloc: Global,
    text: &mut String,
    name: &str,
    value: &ExtraValue,
) -> Result<(), AllocError>
    ensures { OnOk result (string_bytes text.new
        ≡ string_bytes text.old ++ own_line name.now value.now) }
{
    if name == "assignee" {
        return Ok(());
    }
    let shown_name = shown(alloc, name)?;
    let shown_value = value_text(alloc, value)?;
    push_field(text, shown_name.as_str(), shown_value.as_str())
}

fn value_text(alloc: Global, value: &ExtraValue) -> Result<String, AllocError>
    ensures { IfOk result (λ text. string_bytes text ≡ value_text value.now) }
{
    match value {
        ExtraValue::Text(text) => shown(alloc, text.as_str()),
        ExtraValue::Whole(number) => int_text(alloc, *number),
        ExtraValue::Truth(is_so) => String::from_str(alloc, truth(*is_so)),
        ExtraValue::Null => Ok(String::new(alloc)),
    }
}

fn int_text(alloc: Global, number: i64) -> Result<String, AllocError>
    ensures { IfOk result (λ text. string_bytes text ≡ int_text number) }
{
    let size = number.unsigned_abs();
    let mut text = String::from_str(alloc, sign_of(number))?;
    write!(text, "{size}")?;
    Ok(text)
}

fn sign_of(number: i64) -> &'static str
    ensures { result.now ≡ (if is_negative number then 45 ∷ [] else []) }
{
    if number < 0 { "-" } else { "" }
}
