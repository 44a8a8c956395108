//! The edits that a JSON object asks for.

ghost use Rattle.std.specs.Prelude.{◌≡◌, [], IfOk, option_map, string_bytes};
ghost use Rattle.serde_json.specs.View.{view, members_view};
ghost use Rattle.tb_json.specs.Modify.{text_setting as as_text, moment_setting as as_moment, priority_setting as as_priority, tags_setting as as_tags, extra_setting as as_extra, is_text_name as has_text, is_moment_name as has_moment, removable_form, is_removable as may_go, setting_of as setting_at, edit_of as edit_in, edits_of as all_edits, modify_of};
ghost use Rattle.tb_json.specs.Outcome.{Reads};

use crate::attribute::unless_blank;
use crate::fault::{JsonFault, bad_field};
use crate::lists::tags_of;
use serde_json::{Map, Value};
use std::alloc::{AllocError, Global};
use tb_task::{Edit, Given, Moment, Priority, is_attribute};
use tb_values::{Items, NonEmptyText, Text};

fn text_setting(alloc: Global, value: &Value) -> Result<Option<Given>, AllocError>
    ensures { IfOk result (λ given. given ≡ as_text (view value.now)) }
{
    match value.as_str() {
        Some(text) => Ok(Some(Given::Text(Text::from_str(alloc, text)?))),
        None => Ok(None),
    }
}

fn moment_setting(value: &Value) -> Option<Given>
    ensures { result ≡ as_moment (view value.now) }
{
    let moment = Moment::read(value.as_str()?.as_bytes())?;
    Some(Given::Moment(moment))
}

fn priority_setting(value: &Value) -> Option<Given>
    ensures { result ≡ as_priority (view value.now) }
{
    let priority = Priority::read(value.as_str()?)?;
    Some(Given::Priority(priority))
}

fn tags_setting(alloc: Global, value: &Value) -> Result<Option<Given>, AllocError>
    ensures { IfOk result (λ given. given ≡ as_tags (view value.now)) }
{
    match tags_of(alloc, value)? {
        Some(tags) => Ok(Some(Given::Tags(tags))),
        None => Ok(None),
    }
}

/// What a member of a name that the format doesn't know says: nothing where its value is wrong.
fn extra_setting(alloc: Global, value: &Value) -> Result<Option<Option<Given>>, AllocError>
    ensures { IfOk result (λ given. given ≡ as_extra (view value.now)) }
{
    Ok(match value {
        Value::Null => Some(None),
        Value::Bool(truth) => Some(Some(Given::Truth(*truth))),
        Value::Number(number) => number.as_i64().map(|number| Some(Given::Number(number))),
        Value::String(text) => Some(Some(Given::Text(Text::from_str(alloc, text)?))),
        Value::Array(_) | Value::Object(_) => None,
    })
}

fn is_text_name(name: &str) -> bool
    ensures { result ≡ has_text name.now }
{
    matches!(name, "project" | "recur")
}

fn is_moment_name(name: &str) -> bool
    ensures { result ≡ has_moment name.now }
{
    matches!(name, "due" | "scheduled" | "until" | "wait")
}

/// What a member of an attribute that may be removed says.
#[tactic(auto, unfolding(crate::specs::Modify::removable_form))]
fn removable_setting(alloc: Global, name: &str, value: &Value) -> Result<Option<Given>, AllocError>
    ensures { IfOk result (λ given. given ≡ removable_form name.now (view value.now)) }
{
    if is_text_name(name) {
        return text_setting(alloc, value);
    }
    if is_moment_name(name) {
        return Ok(moment_setting(value));
    }
    if name == "priority" {
        return Ok(priority_setting(value));
    }
    tags_setting(alloc, value)
}

fn is_removable(name: &str) -> bool
    ensures { result ≡ may_go name.now }
{
    matches!(
        name,
        "due" | "priority" | "project" | "recur" | "scheduled" | "tags" | "until" | "wait"
    )
}

/// What a member says: nothing where its value is wrong, and no setting where it is removed.
#[tactic(auto, unfolding(crate::specs::Modify::setting_of))]
fn setting_of(alloc: Global, name: &str, value: &Value) -> Result<Option<Option<Given>>, AllocError>
    ensures { IfOk result (λ given. given ≡ setting_at name.now (view value.now)) }
{
    if name == "description" {
        return Ok(text_setting(alloc, value)?.map(Some));
    }
    if is_removable(name) {
        return match unless_blank(value) {
            Some(value) => Ok(removable_setting(alloc, name, value)?.map(Some)),
            None => Ok(Some(None)),
        };
    }
    if is_attribute(name) {
        return Ok(None);
    }
    extra_setting(alloc, value)
}

fn edit_of(alloc: Global, name: &str, value: &Value) -> Result<Edit, JsonFault>
    ensures { Reads result (edit_in name.now (view value.now)) }
{
    let Some(owned) = NonEmptyText::from_str(alloc, name)? else {
        return Err(bad_field(alloc, name));
    };
    match setting_of(alloc, name, value)? {
        Some(value) => Ok(Edit { name: owned, value }),
        None => Err(bad_field(alloc, name)),
    }
}

fn edits_of(alloc: Global, members: &Map<String, Value>) -> Result<Items<Edit>, JsonFault>
    ensures { Reads result (all_edits [] (members_view members.now.entries)) }
{
    let mut edits = Items::new(alloc);
    for (name, value) in members {
        edits.push(edit_of(alloc, name, value)?)?;
    }
    Ok(edits)
}

/// The edits that an object asks for, in byte order of their names.
pub fn read_modify(alloc: Global, value: &Value) -> Result<Items<Edit>, JsonFault>
    ensures { Reads result (modify_of (view value.now)) }
{
    match value.as_object() {
        Some(members) => edits_of(alloc, members),
        None => Err(JsonFault::NotObject),
    }
}
