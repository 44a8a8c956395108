//! A task as the text of a store.

ghost use Rattle.std.specs.Prelude.{◌≡◌, IfOk, Ok};
ghost use Rattle.tb_task.specs.Storable.{IsStorable};
ghost use Rattle.tb_task.specs.declared.task.Task.{Task as StoredTask};
ghost use Rattle.tb_json.specs.Attribute.{well_formed};
ghost use Rattle.tb_json.specs.Outcome.{Reads};
ghost use Rattle.tb_json.specs.Stored.{stored_text, stored_task as task_in, stored_of};

use crate::fault::{JsonFault, bad_field};
use crate::fields::{Fields, fields_of};
use crate::parsing::parse;
use crate::writing::text_of;
use std::alloc::{AllocError, Global};
use tb_task::{Task, ids_are_read};
use tb_values::Text;

/// The text under which a task is stored: its JSON without a mask.
pub fn write_stored(alloc: Global, task: &Task) -> Result<Text, AllocError>
    ensures { IfOk result (λ text. text ≡ stored_text task.now) }
{
    text_of(alloc, task, &None)
}

/// The value, or the fault of its name.
fn required<T: Drop>(alloc: Global, name: &str, value: Option<T>) -> Result<T, JsonFault>
    ensures { Reads result (well_formed name.now value) }
{
    match value {
        Some(value) => Ok(value),
        None => Err(bad_field(alloc, name)),
    }
}

/// The task of the attributes, of which none is made up.
#[tactic(auto, unfolding(crate::specs::Stored::stored_task))]
fn stored_task(alloc: Global, fields: Fields) -> Result<Task, JsonFault>
    ensures { Reads result (task_in fields) }
{
    let Fields {
        first,
        second,
        third,
        extras,
        ..
    } = fields;
    let entry = required(alloc, "entry", first.entry)?;
    let status = required(alloc, "status", third.status)?;
    let id = required(alloc, "uuid", third.uuid)?;
    Ok(Task {
        id,
        status,
        entry,
        modified: second.modified,
        start: third.start,
        end: first.end,
        due: first.due,
        wait: third.wait,
        scheduled: third.scheduled,
        until: third.until,
        description: first.description,
        project: second.project,
        priority: second.priority,
        tags: third.tags,
        annotations: first.annotations,
        depends: first.depends,
        recur: second.recur,
        parent: second.parent,
        imask: second.imask,
        extras,
    })
}

fn read_text(alloc: Global, text: &str) -> Result<Task, JsonFault>
    ensures { Reads result (stored_of text.now) }
{
    let value = parse(alloc, text)?.ok_or(JsonFault::NotObject)?;
    let fields = fields_of(alloc, &value)?;
    stored_task(alloc, fields)
}

/// The task that is stored under a text. The fault names the first attribute, by byte order, in a wrong
/// form, and else the first of `entry`, `status` and `uuid` that is missing; a text that is no JSON is
/// no object.
pub fn read_stored(alloc: Global, text: &str) -> Result<Task, JsonFault>
    ensures exact { Reads result (stored_of text.now) }
    // What was written of a task that a board takes is that task.
    ensures again { (t : StoredTask) → IsStorable t → text.now ≡ stored_text t
        → Reads result (Ok t) }
{
    // The proof of `again` needs that an identifier's text is read as that identifier.
    ids_are_read();
    read_text(alloc, text)
}
