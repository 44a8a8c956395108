//! A task's attributes go into the members of an object. Those that it hasn't are left out.

ghost use Rattle.std.specs.Prelude.{◌≡◌, OnOk, Some, codes, option_map};
ghost use Rattle.serde_json.specs.Data.{string};
ghost use Rattle.serde_json.specs.View.{members_view};
ghost use Rattle.tb_json.specs.Writing.{with_field, moment_data, id_data, imask_data, mask_data, priority_data, texts_data, ids_data, annotations_data};

use crate::values::{annotation_values, id_value, id_values, moment_value, text_values};
use serde_json::{Map, Value, put};
use std::alloc::{AllocError, Global};
use tb_task::{Annotation, Mask, Moment, Priority, TaskId};
use tb_values::{NonEmptyText, Text};

/// A text under a name.
pub fn put_text(
    object: &mut Map<String, Value>,
    alloc: Global,
    name: &str,
    text: &str,
) -> Result<(), AllocError>
    ensures { OnOk result
        (members_view object.new.entries
        ≡ with_field name.now (Some (string text.now)) (members_view object.old.entries)) }
{
    put(object, alloc, name, Value::try_from_str(alloc, text)?)
}

/// A text under a name, where there is one.
pub fn put_text_if_some(
    object: &mut Map<String, Value>,
    alloc: Global,
    name: &str,
    text: &Option<NonEmptyText>,
) -> Result<(), AllocError>
    ensures { OnOk result
        (members_view object.new.entries
        ≡ with_field name.now (option_map string text.now) (members_view object.old.entries)) }
{
    match text {
        Some(text) => put_text(object, alloc, name, text.as_str()),
        None => Ok(()),
    }
}

/// A moment under a name, where there is one.
pub fn put_moment(
    object: &mut Map<String, Value>,
    alloc: Global,
    name: &str,
    moment: Option<Moment>,
) -> Result<(), AllocError>
    ensures { OnOk result
        (members_view object.new.entries
        ≡ with_field name.now (option_map moment_data moment) (members_view object.old.entries)) }
{
    match moment {
        Some(moment) => put(object, alloc, name, moment_value(alloc, moment)?),
        None => Ok(()),
    }
}

/// An identifier under a name, where there is one.
pub fn put_id(
    object: &mut Map<String, Value>,
    alloc: Global,
    name: &str,
    id: Option<TaskId>,
) -> Result<(), AllocError>
    ensures { OnOk result
        (members_view object.new.entries
        ≡ with_field name.now (option_map id_data id) (members_view object.old.entries)) }
{
    match id {
        Some(id) => put(object, alloc, name, id_value(alloc, id)?),
        None => Ok(()),
    }
}

pub(crate) fn put_imask(
    object: &mut Map<String, Value>,
    alloc: Global,
    imask: Option<u32>,
) -> Result<(), AllocError>
    ensures { OnOk result
        (members_view object.new.entries
        ≡ with_field (codes "imask") (option_map imask_data imask)
        (members_view object.old.entries)) }
{
    match imask {
        Some(imask) => put(object, alloc, "imask", Value::from(imask)),
        None => Ok(()),
    }
}

pub(crate) fn put_mask(
    object: &mut Map<String, Value>,
    alloc: Global,
    mask: &Option<Mask>,
) -> Result<(), AllocError>
    ensures { OnOk result
        (members_view object.new.entries
        ≡ with_field (codes "mask") (mask_data mask.now) (members_view object.old.entries)) }
{
    match mask {
        Some(mask) if !mask.is_empty() => put_text(object, alloc, "mask", mask.as_str()),
        _ => Ok(()),
    }
}

/// The priority, where there is one.
pub fn put_priority(
    object: &mut Map<String, Value>,
    alloc: Global,
    priority: Option<Priority>,
) -> Result<(), AllocError>
    ensures { OnOk result
        (members_view object.new.entries
        ≡ with_field (codes "priority") (option_map priority_data priority)
        (members_view object.old.entries)) }
{
    match priority {
        Some(priority) => put_text(object, alloc, "priority", priority.letter()),
        None => Ok(()),
    }
}

/// The tags, where there are some.
pub fn put_tags(
    object: &mut Map<String, Value>,
    alloc: Global,
    tags: &[Text],
) -> Result<(), AllocError>
    ensures { OnOk result
        (members_view object.new.entries
        ≡ with_field (codes "tags") (texts_data tags.now) (members_view object.old.entries)) }
{
    if tags.is_empty() {
        return Ok(());
    }
    put(
        object,
        alloc,
        "tags",
        Value::Array(text_values(alloc, tags)?),
    )
}

pub(crate) fn put_depends(
    object: &mut Map<String, Value>,
    alloc: Global,
    ids: &[TaskId],
) -> Result<(), AllocError>
    ensures { OnOk result
        (members_view object.new.entries
        ≡ with_field (codes "depends") (ids_data ids.now) (members_view object.old.entries)) }
{
    if ids.is_empty() {
        return Ok(());
    }
    put(
        object,
        alloc,
        "depends",
        Value::Array(id_values(alloc, ids)?),
    )
}

pub(crate) fn put_annotations(
    object: &mut Map<String, Value>,
    alloc: Global,
    annotations: &[Annotation],
) -> Result<(), AllocError>
    ensures { OnOk result
        (members_view object.new.entries
        ≡ with_field (codes "annotations") (annotations_data annotations.now)
        (members_view object.old.entries)) }
{
    if annotations.is_empty() {
        return Ok(());
    }
    put(
        object,
        alloc,
        "annotations",
        Value::Array(annotation_values(alloc, annotations)?),
    )
}
