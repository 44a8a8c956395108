//! A task of a text as an import takes it: numbers are whole, and steps are those of boards.

ghost use Rattle.std.specs.Prelude.{◌≡◌, [], IfOk, OnOk, option_map};
ghost use Rattle.serde_json.specs.Data.{no_members};
ghost use Rattle.serde_json.specs.View.{members_view, view};
ghost use Rattle.tb_cleaning.specs.Respelling.{change_of, changes_of, changes_on, item_of, members_on, new_text, step_text, text_change, value_of, whole_text, with_text};

use crate::numbers::{whole_in, whole_of};
use crate::steps::respelled;
use crate::telling::push_line;
use serde_json::{Map, Value, put};
use std::alloc::{AllocError, Global};
use tb_values::{Items, Text};

/// The value that means the same as a text, where there is another: a place of an instance becomes a number, and a step that of a board.
fn new_text(alloc: Global, name: &str, text: &str) -> Result<Option<Value>, AllocError>
    ensures { IfOk result (λ made. option_map view made ≡ new_text name.now text.now) }
{
    if name == "imask" {
        return match whole_in(text.as_bytes()) {
            Some(whole) => Ok(Some(Value::from(whole))),
            None => Ok(None),
        };
    }
    if name != "recur" {
        return Ok(None);
    }
    match respelled(alloc, text)? {
        Some(step) => Ok(Some(Value::String(step.into_string()))),
        None => Ok(None),
    }
}

/// The value of a member, or another one that means the same.
fn value_of(alloc: Global, name: &str, value: &Value) -> Result<Value, AllocError>
    ensures { IfOk result (λ made. view made ≡ value_of name.now (view value.now)) }
{
    match value {
        Value::Number(number) => match whole_of(number) {
            Some(whole) => Ok(Value::from(whole)),
            None => value.clone(),
        },
        Value::String(text) => match new_text(alloc, name, text.as_str())? {
            Some(made) => Ok(made),
            None => value.clone(),
        },
        _ => value.clone(),
    }
}

fn members_of(alloc: Global, members: &Map<String, Value>) -> Result<Map<String, Value>, AllocError>
    ensures { IfOk result (λ made. members_view made.entries
        ≡ members_on no_members (members_view members.now.entries)) }
{
    let mut found = Map::new(alloc);
    for (name, value) in members {
        put(&mut found, alloc, name, value_of(alloc, name, value)?)?;
    }
    Ok(found)
}

/// The task with its own members as an import takes them.
pub(crate) fn item_of(alloc: Global, value: &Value) -> Result<Value, AllocError>
    ensures { IfOk result (λ made. view made ≡ item_of (view value.now)) }
{
    match value {
        Value::Object(members) => Ok(Value::Object(members_of(alloc, members)?)),
        _ => value.clone(),
    }
}

fn whole_text(alloc: Global, name: &str, whole: i64) -> Result<Text, AllocError>
    ensures { IfOk result (λ text. text ≡ whole_text name.now whole) }
{
    let mut text = String::new(alloc);
    push_line(&mut text, name)?;
    write!(text, " is {whole}")?;
    Ok(Text::from_string(text))
}

fn step_text(alloc: Global, before: &str, step: &str) -> Result<Text, AllocError>
    ensures { IfOk result (λ text. text ≡ step_text before.now step.now) }
{
    let mut text = String::from_str(alloc, "recur ")?;
    push_line(&mut text, before)?;
    text.push_str(" is ")?;
    text.push_str(step)?;
    Ok(Text::from_string(text))
}

fn text_change(alloc: Global, name: &str, text: &str) -> Result<Option<Text>, AllocError>
    ensures { IfOk result (λ change. change ≡ text_change name.now text.now) }
{
    if name == "imask" {
        return match whole_in(text.as_bytes()) {
            Some(whole) => Ok(Some(whole_text(alloc, name, i64::from(whole))?)),
            None => Ok(None),
        };
    }
    if name != "recur" {
        return Ok(None);
    }
    match respelled(alloc, text)? {
        Some(step) => Ok(Some(step_text(alloc, text, step.as_str())?)),
        None => Ok(None),
    }
}

/// What is told of a member that is written otherwise.
fn change_of(alloc: Global, name: &str, value: &Value) -> Result<Option<Text>, AllocError>
    ensures { IfOk result (λ change. change ≡ change_of name.now (view value.now)) }
{
    match value {
        Value::Number(number) => match whole_of(number) {
            Some(whole) => Ok(Some(whole_text(alloc, name, whole)?)),
            None => Ok(None),
        },
        Value::String(text) => text_change(alloc, name, text.as_str()),
        _ => Ok(None),
    }
}

pub(crate) fn push_text(found: &mut Items<Text>, text: Option<Text>) -> Result<(), AllocError>
    ensures { OnOk result (found.new ≡ with_text found.old text) }
{
    match text {
        Some(text) => found.push(text),
        None => Ok(()),
    }
}

fn changes_on(alloc: Global, members: &Map<String, Value>) -> Result<Items<Text>, AllocError>
    ensures { IfOk result
        (λ changes. changes ≡ changes_on [] (members_view members.now.entries)) }
{
    let mut found = Items::new(alloc);
    for (name, value) in members {
        push_text(&mut found, change_of(alloc, name, value)?)?;
    }
    Ok(found)
}

/// What is told of the members of a task that are written otherwise.
pub(crate) fn changes_of(alloc: Global, value: &Value) -> Result<Items<Text>, AllocError>
    ensures { IfOk result (λ changes. changes ≡ changes_of (view value.now)) }
{
    match value {
        Value::Object(members) => changes_on(alloc, members),
        _ => Ok(Items::new(alloc)),
    }
}
