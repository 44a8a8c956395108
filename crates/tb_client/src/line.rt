//! A task that is typed as the words of a line of todo.txt.
ghost use Rattle.std.specs.Prelude.{◌≡◌, IfOk, OnOk, option_map};
ghost use Rattle.serde_json.specs.View.{members_view, view};
ghost use Rattle.serde_json.specs.Written.{compact_text};
ghost use Rattle.tb_client.specs.Line.{add_body, early_fields, is_object, is_object_alone, late_fields, line_body, line_data, spaced};
ghost use Rattle.tb_json.specs.Writing.{with_fields};
ghost use Rattle.tb_todotxt.specs.Day.{start_of};
ghost use Rattle.tb_todotxt.specs.Line.{is_free_of};
ghost use Rattle.tb_todotxt.specs.Making.{task_of};

use crate::given::given_id;
use serde_json::{Map, Value};
use std::alloc::{AllocError, Global};
use tb_json::{put_id, put_moment, put_priority, put_tags, put_text, put_text_if_some};
use tb_task::{Moment, Task};
use tb_todotxt::{Day, Line, LineFault, LineParts, read_line, to_task};
use tb_values::Text;

/// The body of a new task: one word that begins with `{` as it is, and others as the JSON of the line of todo.txt that they are.
pub(crate) fn add_body(alloc: Global, words: &[Text]) -> Result<Option<Text>, AllocError>
    ensures { IfOk result (λ body. body ≡ add_body words.now) }
{
    let text = spaced(alloc, words)?;
    if is_object_alone(words) {
        Ok(Some(text))
    } else {
        line_body(alloc, text.as_str())
    }
}

fn is_object_alone(words: &[Text]) -> bool
    ensures { result ≡ is_object_alone words.now }
{
    let [word] = words else {
        return false;
    };
    is_object(word.as_bytes())
}

/// Whether a text begins as the JSON of an object.
fn is_object(text: &[u8]) -> bool
    ensures { result ≡ is_object text.now }
{
    match text {
        [byte, ..] => *byte == b'{',
        [] => false,
    }
}

/// The words with a space between each two.
fn spaced(alloc: Global, words: &[Text]) -> Result<Text, AllocError>
    ensures { IfOk result (λ text. text ≡ spaced words.now) }
{
    let Some((first, rest)) = words.split_first() else {
        return Ok(Text::new(alloc));
    };
    let mut text = Text::from_str(alloc, first.as_str())?;
    for word in rest {
        text.push_str(" ")?;
        text.push_str(word.as_str())?;
    }
    Ok(text)
}

/// The JSON of the task that a text says as a line, if it is one.
fn line_body(alloc: Global, text: &str) -> Result<Option<Text>, AllocError>
    ensures { IfOk result (λ body. body ≡ line_body text.now) }
{
    if !is_one_line(text.as_bytes()) {
        return Ok(None);
    }
    match read_line(alloc, text) {
        Ok(line) => Ok(Some(line_text(alloc, &line)?)),
        Err(LineFault::EmptyLine) => Ok(None),
        Err(LineFault::Memory) => Err(AllocError),
    }
}

fn is_one_line(text: &[u8]) -> bool
    ensures { result ≡ is_free_of 10 text.now }
{
    for byte in text {
        if *byte == b'\n' {
            return false;
        }
    }
    true
}

fn line_text(alloc: Global, line: &Line) -> Result<Text, AllocError>
    ensures { IfOk result (λ text. text ≡ compact_text (line_data line.now)) }
{
    let value = line_value(alloc, line)?;
    let text = value.to_string(alloc)?;
    Ok(Text::from_string(text))
}

#[tactic(auto, unfolding(crate::specs::Line::line_members))]
fn line_value(alloc: Global, line: &Line) -> Result<Value, AllocError>
    ensures { IfOk result (λ value. view value ≡ line_data line.now) }
{
    let task = task_said(alloc, line)?;
    let parts = line.parts();
    let mut object = Map::new(alloc);
    put_early(&mut object, alloc, parts, &task)?;
    put_late(&mut object, alloc, parts, &task)?;
    Ok(Value::Object(object))
}

/// The task that an import would make of the line on board 1, at the beginning of 1970.
fn task_said(alloc: Global, line: &Line) -> Result<Task, AllocError>
    ensures { IfOk result (λ task. task ≡ task_of line.now 0 1 0) }
{
    match Moment::from_seconds(0) {
        Some(moment) => to_task(alloc, line, moment, 1, 0),
        None => unreachable!(),
    }
}

/// The attributes from `description` to `priority`.
fn put_early(
    object: &mut Map<String, Value>,
    alloc: Global,
    parts: &LineParts,
    task: &Task,
) -> Result<(), AllocError>
    ensures { OnOk result
        (members_view object.new.entries
        ≡ with_fields (early_fields parts.now task.now) (members_view object.old.entries)) }
{
    put_text(object, alloc, "description", task.description.as_str())?;
    put_moment(object, alloc, "due", task.due)?;
    put_moment(object, alloc, "end", start_of(parts.completion))?;
    put_moment(object, alloc, "entry", start_of(parts.creation))?;
    put_priority(object, alloc, task.priority)
}

/// The attributes from `project` to `uuid`.
fn put_late(
    object: &mut Map<String, Value>,
    alloc: Global,
    parts: &LineParts,
    task: &Task,
) -> Result<(), AllocError>
    ensures { OnOk result
        (members_view object.new.entries
        ≡ with_fields (late_fields parts.now task.now) (members_view object.old.entries)) }
{
    put_text_if_some(object, alloc, "project", &task.project)?;
    if parts.done {
        put_text(object, alloc, "status", task.status.word())?;
    }
    put_tags(object, alloc, task.tags.as_slice())?;
    put_id(object, alloc, "uuid", given_id(alloc, parts.body.as_str())?)
}

fn start_of(day: Option<Day>) -> Option<Moment>
    ensures { result ≡ option_map start_of day }
{
    match day {
        Some(day) => Some(day.start()),
        None => None,
    }
}
