//! Tasks as JSON.

ghost use Rattle.std.specs.Prelude.{◌≡◌, ◌++◌, IfOk, OnOk, map, string_bytes};
ghost use Rattle.serde_json.specs.Data.{no_members};
ghost use Rattle.serde_json.specs.View.{view, members_view};
ghost use Rattle.serde_json.specs.Written.{compact_text};
ghost use Rattle.tb_json.specs.ListText.{piece, list_text};
ghost use Rattle.tb_json.specs.Writing.{with_fields, extra_fields, early_fields, middle_fields, late_fields, task_json, shown_text};

use crate::members::{
    put_annotations, put_depends, put_id, put_imask, put_mask, put_moment, put_priority, put_tags,
    put_text, put_text_if_some,
};
use crate::values::extra_value;
use serde_json::{Map, Value, put};
use std::alloc::{AllocError, Global};
use tb_task::{Extra, Mask, Shown, Task};
use tb_values::Text;

fn members_of_extras(alloc: Global, extras: &[Extra]) -> Result<Map<String, Value>, AllocError>
    ensures { IfOk result
        (λ object. members_view object.entries ≡ with_fields (extra_fields extras.now) no_members) }
{
    let mut object = Map::new(alloc);
    for extra in extras {
        let value = extra_value(alloc, &extra.value)?;
        put(&mut object, alloc, extra.name.as_str(), value)?;
    }
    Ok(object)
}

/// The attributes from `annotations` to `entry`.
fn put_early(object: &mut Map<String, Value>, alloc: Global, task: &Task) -> Result<(), AllocError>
    ensures { OnOk result
        (members_view object.new.entries
        ≡ with_fields (early_fields task.now) (members_view object.old.entries)) }
{
    put_annotations(object, alloc, task.annotations.as_slice())?;
    put_depends(object, alloc, task.depends.as_slice())?;
    put_text(object, alloc, "description", task.description.as_str())?;
    put_moment(object, alloc, "due", task.due)?;
    put_moment(object, alloc, "end", task.end)?;
    put_moment(object, alloc, "entry", Some(task.entry))
}

/// The attributes from `imask` to `recur`.
fn put_middle(
    object: &mut Map<String, Value>,
    alloc: Global,
    task: &Task,
    mask: &Option<Mask>,
) -> Result<(), AllocError>
    ensures { OnOk result
        (members_view object.new.entries
        ≡ with_fields (middle_fields mask.now task.now) (members_view object.old.entries)) }
{
    put_imask(object, alloc, task.imask)?;
    put_mask(object, alloc, mask)?;
    put_moment(object, alloc, "modified", task.modified)?;
    put_id(object, alloc, "parent", task.parent)?;
    put_priority(object, alloc, task.priority)?;
    put_text_if_some(object, alloc, "project", &task.project)?;
    put_text_if_some(object, alloc, "recur", &task.recur)
}

/// The attributes from `scheduled` to `wait`.
fn put_late(object: &mut Map<String, Value>, alloc: Global, task: &Task) -> Result<(), AllocError>
    ensures { OnOk result
        (members_view object.new.entries
        ≡ with_fields (late_fields task.now) (members_view object.old.entries)) }
{
    put_moment(object, alloc, "scheduled", task.scheduled)?;
    put_moment(object, alloc, "start", task.start)?;
    put_text(object, alloc, "status", task.status.word())?;
    put_tags(object, alloc, task.tags.as_slice())?;
    put_moment(object, alloc, "until", task.until)?;
    put_id(object, alloc, "uuid", Some(task.id))?;
    put_moment(object, alloc, "wait", task.wait)
}

#[tactic(auto, unfolding(crate::specs::Writing::members_of))]
fn value_of(alloc: Global, task: &Task, mask: &Option<Mask>) -> Result<Value, AllocError>
    ensures { IfOk result (λ value. view value ≡ task_json mask.now task.now) }
{
    let mut object = members_of_extras(alloc, task.extras.as_slice())?;
    put_early(&mut object, alloc, task)?;
    put_middle(&mut object, alloc, task, mask)?;
    put_late(&mut object, alloc, task)?;
    Ok(Value::Object(object))
}

/// The JSON of a task with a mask.
pub(crate) fn text_of(alloc: Global, task: &Task, mask: &Option<Mask>) -> Result<Text, AllocError>
    ensures { IfOk result (λ text. text ≡ compact_text (task_json mask.now task.now)) }
{
    let value = value_of(alloc, task, mask)?;
    let text = value.to_string(alloc)?;
    Ok(Text::from_string(text))
}

/// The JSON of a task, without a space, with its members in byte order of their names.
pub fn write_task(alloc: Global, shown: &Shown) -> Result<Text, AllocError>
    ensures { IfOk result (λ text. text ≡ shown_text shown.now) }
{
    text_of(alloc, shown.task.get(), &shown.mask)
}

/// Puts a task's text at the end, and before it what ends the task before.
fn push_task(
    alloc: Global,
    text: &mut String,
    shown: &Shown,
    is_first: bool,
) -> Result<(), AllocError>
    ensures { OnOk result
        (string_bytes text.new ≡ string_bytes text.old ++ piece is_first (shown_text shown.now)) }
{
    if !is_first {
        text.push_str(",\n")?;
    }
    let written = write_task(alloc, shown)?;
    text.push_str(written.as_str())?;
    Ok(())
}

/// The JSON of a list of tasks: each on a line of its own, between the lines of the brackets.
pub fn write_tasks(alloc: Global, tasks: &[Shown]) -> Result<Text, AllocError>
    ensures { IfOk result (λ text. text ≡ list_text (map shown_text tasks.now)) }
{
    let mut text = String::from_str(alloc, "[\n")?;
    let mut is_first = true;
    for task in tasks {
        push_task(alloc, &mut text, task, is_first)?;
        is_first = false;
    }
    if !is_first {
        text.push_str("\n")?;
    }
    text.push_str("]\n")?;
    Ok(Text::from_string(text))
}
