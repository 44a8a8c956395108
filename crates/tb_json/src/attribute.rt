//! The attributes of a task, each a member of its name in its form.

ghost use Rattle.std.specs.Prelude.{◌≡◌, codes, option_map, IfOk};
ghost use Rattle.serde_json.specs.View.{view};
ghost use Rattle.tb_json.specs.Attribute.{unless_blank as unless_empty, given, attribute, required, moment_form, id_form, text_form, status_form, mask_form, priority_in};
ghost use Rattle.tb_json.specs.Outcome.{Reads};

use crate::fault::{JsonFault, bad_field};
use serde_json::Value;
use std::alloc::{AllocError, Global};
use tb_task::{LONGEST_TEXT, Mask, Moment, Priority, Status, TaskId};
use tb_values::{NonEmptyText, Text};

/// The value, unless it is null or the empty text.
pub(crate) fn unless_blank(value: &Value) -> Option<&Value>
    ensures { option_map (λ v. view v.now) result ≡ unless_empty (view value.now) }
{
    match value {
        Value::Null => None,
        Value::String(text) if text.is_empty() => None,
        _ => Some(value),
    }
}

/// The value that is given for a name. Null and the empty text mean that none is.
pub(crate) fn given<'v>(object: &'v Value, name: &str) -> Option<&'v Value>
    ensures { option_map (λ v. view v.now) result ≡ given name.now (view object.now) }
{
    unless_blank(object.get(name)?)
}

pub(crate) fn moment_at(
    alloc: Global,
    object: &Value,
    name: &str,
) -> Result<Option<Moment>, JsonFault>
    ensures { Reads result (attribute moment_form name.now (view object.now)) }
{
    let Some(member) = given(object, name) else {
        return Ok(None);
    };
    let moment = member
        .as_str()
        .and_then(|text| Moment::read(text.as_bytes()));
    if moment.is_none() {
        return Err(bad_field(alloc, name));
    }
    Ok(moment)
}

pub(crate) fn id_at(alloc: Global, object: &Value, name: &str) -> Result<Option<TaskId>, JsonFault>
    ensures { Reads result (attribute id_form name.now (view object.now)) }
{
    let Some(member) = given(object, name) else {
        return Ok(None);
    };
    let id = member.as_str().and_then(TaskId::read);
    if id.is_none() {
        return Err(bad_field(alloc, name));
    }
    Ok(id)
}

/// The description, which may be empty but not absent.
pub(crate) fn description_at(alloc: Global, object: &Value) -> Result<Text, JsonFault>
    ensures { Reads result (required text_form (codes "description") (view object.now)) }
{
    match object.get("description").and_then(Value::as_str) {
        Some(text) => Ok(Text::from_str(alloc, text)?),
        None => Err(bad_field(alloc, "description")),
    }
}

pub(crate) fn text_at(
    alloc: Global,
    object: &Value,
    name: &str,
) -> Result<Option<NonEmptyText>, JsonFault>
    ensures { Reads result (attribute text_form name.now (view object.now)) }
{
    let Some(member) = given(object, name) else {
        return Ok(None);
    };
    match member.as_str() {
        Some(text) => Ok(NonEmptyText::from_str(alloc, text)?),
        None => Err(bad_field(alloc, name)),
    }
}

pub(crate) fn status_at(alloc: Global, object: &Value) -> Result<Option<Status>, JsonFault>
    ensures { Reads result (attribute status_form (codes "status") (view object.now)) }
{
    let Some(member) = given(object, "status") else {
        return Ok(None);
    };
    let status = member.as_str().and_then(Status::read);
    if status.is_none() {
        return Err(bad_field(alloc, "status"));
    }
    Ok(status)
}

fn mask_of(alloc: Global, value: &Value) -> Result<Option<Mask>, AllocError>
    ensures { IfOk result (λ mask. mask ≡ mask_form (view value.now)) }
{
    match value.as_str() {
        Some(text) if text.len() <= LONGEST_TEXT => Mask::read(alloc, text),
        _ => Ok(None),
    }
}

pub(crate) fn mask_at(alloc: Global, object: &Value) -> Result<Option<Mask>, JsonFault>
    ensures { Reads result (attribute mask_form (codes "mask") (view object.now)) }
{
    let Some(member) = given(object, "mask") else {
        return Ok(None);
    };
    let mask = mask_of(alloc, member)?;
    if mask.is_none() {
        return Err(bad_field(alloc, "mask"));
    }
    Ok(mask)
}

/// The priority, and how many members were dropped for it.
pub(crate) fn priority_at(
    alloc: Global,
    object: &Value,
) -> Result<(Option<Priority>, u32), JsonFault>
    ensures { Reads result (priority_in (view object.now)) }
{
    let Some(member) = given(object, "priority") else {
        return Ok((None, 0));
    };
    match member.as_str().map(Priority::read) {
        None => Err(bad_field(alloc, "priority")),
        Some(None) => Ok((None, 1)),
        Some(priority) => Ok((priority, 0)),
    }
}
