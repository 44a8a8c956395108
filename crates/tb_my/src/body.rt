//! The bodies of the calls that add and change tasks.
ghost use Rattle.std.specs.Prelude.{◌≡◌, IfOk, OnOk};
ghost use Rattle.serde_json.specs.View.{members_view, view};
ghost use Rattle.serde_json.specs.Written.{compact_text};
ghost use Rattle.tb_my.specs.Body.{add_data, added_id, back_data, change_data, with_changed_tags, with_description, with_new_tags, with_old_description, with_old_settings, with_old_tags, with_old_value, with_setting, with_settings};

use crate::look::Seen;
use crate::part::Setting;
use crate::said::Said;
use crate::tags::tags_after;
use serde_json::{Map, Value, put};
use std::alloc::{AllocError, Global};
use tb_json::{put_id, put_tags, put_text};
use tb_task::TaskId;
use tb_values::Text;

/// The body that adds the task that words say, under the identifier that is made of that of the call.
pub(crate) fn add_body(
    alloc: Global,
    call: &Option<TaskId>,
    said: &Said,
) -> Result<Text, AllocError>
    ensures { IfOk result (λ body. body ≡ compact_text (add_data call.now said.now)) }
{
    let value = add_value(alloc, call, said)?;
    let text = value.to_string(alloc)?;
    Ok(Text::from_string(text))
}

fn add_value(alloc: Global, call: &Option<TaskId>, said: &Said) -> Result<Value, AllocError>
    ensures { IfOk result (λ value. view value ≡ add_data call.now said.now) }
{
    let mut object = Map::new(alloc);
    put_description(&mut object, alloc, said.description.as_str())?;
    put_tags(&mut object, alloc, said.tags.as_slice())?;
    put_settings(&mut object, alloc, said.settings.as_slice())?;
    put_id(&mut object, alloc, "uuid", added_id(call))?;
    Ok(Value::Object(object))
}

/// The identifier of the task that a call adds: a call that is sent again adds the same one.
pub(crate) fn added_id(call: &Option<TaskId>) -> Option<TaskId>
    ensures { result ≡ added_id call.now }
{
    match call {
        Some(call) => Some(TaskId::named(*call, "task".as_bytes())),
        None => None,
    }
}

/// The body that changes a task of these tags to what words say, with this description.
pub(crate) fn change_body(
    alloc: Global,
    tags: &[Text],
    description: &str,
    said: &Said,
) -> Result<Text, AllocError>
    ensures { IfOk result
        (λ body. body ≡ compact_text (change_data tags.now description.now said.now)) }
{
    let value = change_value(alloc, tags, description, said)?;
    let text = value.to_string(alloc)?;
    Ok(Text::from_string(text))
}

fn change_value(
    alloc: Global,
    tags: &[Text],
    description: &str,
    said: &Said,
) -> Result<Value, AllocError>
    ensures { IfOk result (λ value. view value ≡ change_data tags.now description.now said.now) }
{
    let mut object = Map::new(alloc);
    put_description(&mut object, alloc, description)?;
    put_changed_tags(&mut object, alloc, tags, said)?;
    put_settings(&mut object, alloc, said.settings.as_slice())?;
    Ok(Value::Object(object))
}

/// The body that makes a task again what it was before words changed it.
pub(crate) fn back_body(alloc: Global, task: &Seen, said: &Said) -> Result<Text, AllocError>
    ensures { IfOk result (λ body. body ≡ compact_text (back_data task.now said.now)) }
{
    let value = back_value(alloc, task, said)?;
    let text = value.to_string(alloc)?;
    Ok(Text::from_string(text))
}

fn back_value(alloc: Global, task: &Seen, said: &Said) -> Result<Value, AllocError>
    ensures { IfOk result (λ value. view value ≡ back_data task.now said.now) }
{
    let mut object = Map::new(alloc);
    put_old_description(&mut object, alloc, task, said)?;
    put_old_tags(&mut object, alloc, task, said)?;
    put_old_settings(&mut object, alloc, task, said.settings.as_slice())?;
    Ok(Value::Object(object))
}

fn put_old_description(
    object: &mut Map<String, Value>,
    alloc: Global,
    task: &Seen,
    said: &Said,
) -> Result<(), AllocError>
    ensures { OnOk result (members_view object.new.entries
        ≡ with_old_description task.now said.now (members_view object.old.entries)) }
{
    if said.description.is_empty() {
        return Ok(());
    }
    put_text(object, alloc, "description", task.description.as_str())
}

fn put_old_tags(
    object: &mut Map<String, Value>,
    alloc: Global,
    task: &Seen,
    said: &Said,
) -> Result<(), AllocError>
    ensures { OnOk result (members_view object.new.entries
        ≡ with_old_tags task.now said.now (members_view object.old.entries)) }
{
    if said.tags.is_empty() && said.untagged.is_empty() {
        return Ok(());
    }
    put_new_tags(object, alloc, task.tags.as_slice())
}

fn put_old_settings(
    object: &mut Map<String, Value>,
    alloc: Global,
    task: &Seen,
    settings: &[Setting],
) -> Result<(), AllocError>
    ensures { OnOk result (members_view object.new.entries
        ≡ with_old_settings task.now.old settings.now (members_view object.old.entries)) }
{
    for setting in settings {
        put_old_value(object, alloc, task, setting.name.as_str())?;
    }
    Ok(())
}

fn put_old_value(
    object: &mut Map<String, Value>,
    alloc: Global,
    task: &Seen,
    name: &str,
) -> Result<(), AllocError>
    ensures { OnOk result (members_view object.new.entries
        ≡ with_old_value task.now.old name.now (members_view object.old.entries)) }
{
    match task.old.named(name) {
        Some(value) => put_text(object, alloc, name, value.as_str()),
        None => put(object, alloc, name, Value::Null),
    }
}

/// The description, where words say one.
fn put_description(
    object: &mut Map<String, Value>,
    alloc: Global,
    description: &str,
) -> Result<(), AllocError>
    ensures { OnOk result (members_view object.new.entries
        ≡ with_description description.now (members_view object.old.entries)) }
{
    match description {
        "" => Ok(()),
        _ => put_text(object, alloc, "description", description),
    }
}

/// The tags, where words add or take some.
fn put_changed_tags(
    object: &mut Map<String, Value>,
    alloc: Global,
    tags: &[Text],
    said: &Said,
) -> Result<(), AllocError>
    ensures { OnOk result (members_view object.new.entries
        ≡ with_changed_tags tags.now said.now (members_view object.old.entries)) }
{
    if said.tags.is_empty() && said.untagged.is_empty() {
        return Ok(());
    }
    let after = tags_after(alloc, tags, said.tags.as_slice(), said.untagged.as_slice())?;
    put_new_tags(object, alloc, after.as_slice())
}

/// The tags, or null where none are left.
fn put_new_tags(
    object: &mut Map<String, Value>,
    alloc: Global,
    tags: &[Text],
) -> Result<(), AllocError>
    ensures { OnOk result (members_view object.new.entries
        ≡ with_new_tags tags.now (members_view object.old.entries)) }
{
    if tags.is_empty() {
        put(object, alloc, "tags", Value::Null)
    } else {
        put_tags(object, alloc, tags)
    }
}

fn put_settings(
    object: &mut Map<String, Value>,
    alloc: Global,
    settings: &[Setting],
) -> Result<(), AllocError>
    ensures { OnOk result (members_view object.new.entries
        ≡ with_settings settings.now (members_view object.old.entries)) }
{
    for setting in settings {
        put_setting(object, alloc, setting)?;
    }
    Ok(())
}

/// An attribute, or null where it is removed.
fn put_setting(
    object: &mut Map<String, Value>,
    alloc: Global,
    setting: &Setting,
) -> Result<(), AllocError>
    ensures { OnOk result (members_view object.new.entries
        ≡ with_setting setting.now (members_view object.old.entries)) }
{
    match &setting.value {
        Some(value) => put_text(object, alloc, setting.name.as_str(), value.as_str()),
        None => put(object, alloc, setting.name.as_str(), Value::Null),
    }
}
