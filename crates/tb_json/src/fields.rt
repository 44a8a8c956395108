//! The attributes of a task, read in byte order of their names, so that the first fault is the first faulty name.

ghost use Rattle.serde_json.specs.View.{view};
ghost use Rattle.tb_json.specs.Fields.{fields_to_entry as to_entry, fields_to_recur as to_recur, fields_to_wait as to_wait, fields_of as all_fields};
ghost use Rattle.tb_json.specs.Outcome.{Reads};

use crate::annotations::annotations_at;
use crate::attribute::{
    description_at, id_at, mask_at, moment_at, priority_at, status_at, text_at,
};
use crate::extras::Extras;
use crate::fault::JsonFault;
use crate::lists::{depends_at, tags_at};
use crate::numbers::imask_at;
use serde_json::Value;
use std::alloc::Global;
use tb_task::{Annotation, Extra, Mask, Moment, Priority, Status, TaskId};
use tb_values::{Items, NonEmptyText, Ordered, Text};

/// The attributes from `annotations` to `entry`.
#[derive(Drop)]
pub(crate) struct FieldsToEntry {
    pub annotations: Items<Annotation>,
    pub depends: Ordered<TaskId>,
    pub description: Text,
    pub due: Option<Moment>,
    pub end: Option<Moment>,
    pub entry: Option<Moment>,
}

/// The attributes from `imask` to `recur`.
#[derive(Drop)]
pub(crate) struct FieldsToRecur {
    pub imask: Option<u32>,
    pub mask: Option<Mask>,
    pub modified: Option<Moment>,
    pub parent: Option<TaskId>,
    pub priority: Option<Priority>,
    pub priorities_dropped: u32,
    pub project: Option<NonEmptyText>,
    pub recur: Option<NonEmptyText>,
}

/// The attributes from `scheduled` to `wait`.
#[derive(Drop)]
pub(crate) struct FieldsToWait {
    pub scheduled: Option<Moment>,
    pub start: Option<Moment>,
    pub status: Option<Status>,
    pub tags: Ordered<Text>,
    pub until: Option<Moment>,
    pub uuid: Option<TaskId>,
    pub wait: Option<Moment>,
}

/// What an object says of a task, and how many of its members were dropped.
#[derive(Drop)]
pub(crate) struct Fields {
    pub first: FieldsToEntry,
    pub second: FieldsToRecur,
    pub third: FieldsToWait,
    pub extras: Ordered<Extra>,
    pub dropped: u32,
}

#[tactic(auto, unfolding(crate::specs::Fields::fields_to_entry))]
fn fields_to_entry(alloc: Global, object: &Value) -> Result<FieldsToEntry, JsonFault>
    ensures { Reads result (to_entry (view object.now)) }
{
    let annotations = annotations_at(alloc, object)?.unwrap_or(Items::new(alloc));
    let depends = depends_at(alloc, object)?.unwrap_or(Ordered::new(alloc));
    let description = description_at(alloc, object)?;
    let due = moment_at(alloc, object, "due")?;
    let end = moment_at(alloc, object, "end")?;
    let entry = moment_at(alloc, object, "entry")?;
    Ok(FieldsToEntry {
        annotations,
        depends,
        description,
        due,
        end,
        entry,
    })
}

#[tactic(auto, unfolding(crate::specs::Fields::fields_to_recur))]
fn fields_to_recur(alloc: Global, object: &Value) -> Result<FieldsToRecur, JsonFault>
    ensures { Reads result (to_recur (view object.now)) }
{
    let imask = imask_at(object);
    let mask = mask_at(alloc, object)?;
    let modified = moment_at(alloc, object, "modified")?;
    let parent = id_at(alloc, object, "parent")?;
    let (priority, priorities_dropped) = priority_at(alloc, object)?;
    let project = text_at(alloc, object, "project")?;
    let recur = text_at(alloc, object, "recur")?;
    Ok(FieldsToRecur {
        imask,
        mask,
        modified,
        parent,
        priority,
        priorities_dropped,
        project,
        recur,
    })
}

#[tactic(auto, unfolding(crate::specs::Fields::fields_to_wait))]
fn fields_to_wait(alloc: Global, object: &Value) -> Result<FieldsToWait, JsonFault>
    ensures { Reads result (to_wait (view object.now)) }
{
    let scheduled = moment_at(alloc, object, "scheduled")?;
    let start = moment_at(alloc, object, "start")?;
    let status = status_at(alloc, object)?;
    let tags = tags_at(alloc, object)?.unwrap_or(Ordered::new(alloc));
    let until = moment_at(alloc, object, "until")?;
    let uuid = id_at(alloc, object, "uuid")?;
    let wait = moment_at(alloc, object, "wait")?;
    Ok(FieldsToWait {
        scheduled,
        start,
        status,
        tags,
        until,
        uuid,
        wait,
    })
}

#[tactic(auto, unfolding(crate::specs::Fields::fields_in))]
pub(crate) fn fields_of(alloc: Global, value: &Value) -> Result<Fields, JsonFault>
    ensures { Reads result (all_fields (view value.now)) }
{
    let Some(members) = value.as_object() else {
        return Err(JsonFault::NotObject);
    };
    let first = fields_to_entry(alloc, value)?;
    let second = fields_to_recur(alloc, value)?;
    let third = fields_to_wait(alloc, value)?;
    let extras = Extras::of(alloc, members)?;
    Ok(Fields {
        dropped: extras.dropped.saturating_add(second.priorities_dropped),
        first,
        second,
        third,
        extras: extras.kept,
    })
}
