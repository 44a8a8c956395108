//! The tasks of a board, as a look at it showed them.
ghost use Rattle.std.specs.Prelude.{◌≡◌, [], IfOk, OnOk, option_copied, option_map};
ghost use Rattle.serde_json.specs.Read.{read};
ghost use Rattle.serde_json.specs.View.{items_view, view};
ghost use Rattle.tb_my.specs.Look.{find_id, seen_in, seen_of, seen_task, seen_texts, task_named, texts_of, with_seen, with_text, with_texts};

use crate::old::{Old, read_old};
use serde_json::Value;
use std::alloc::{AllocError, Global};
use tb_json::parse;
use tb_task::TaskId;
use tb_values::{Duplicate, Items, Text, read_number};

/// A task of a board, as far as the words of `my` have to know it.
#[derive(Drop)]
pub struct Seen {
    pub id: TaskId,
    pub description: Text,
    pub tags: Items<Text>,
    /// The uuids of the tasks on which it depends.
    pub needs: Items<Text>,
    pub old: Old,
}

impl Duplicate for Seen {
    fn duplicate(&self) -> Result<Seen, AllocError> {
        Ok(Seen {
            id: self.id,
            description: self.description.duplicate()?,
            tags: self.tags.duplicate()?,
            needs: self.needs.duplicate()?,
            old: self.old.duplicate()?,
        })
    }
}

/// The tasks of an export, if it is one, in their order.
pub fn read_seen(alloc: Global, text: &str) -> Result<Option<Items<Seen>>, AllocError>
    ensures { IfOk result (λ seen. seen ≡ seen_in text.now) }
{
    match parse(alloc, text)? {
        Some(value) => seen_of(alloc, &value),
        None => Ok(None),
    }
}

fn seen_of(alloc: Global, value: &Value) -> Result<Option<Items<Seen>>, AllocError>
    ensures { IfOk result (λ seen. seen ≡ seen_of (view value.now)) }
{
    match value {
        Value::Array(list) => seen_tasks(alloc, list),
        _ => Ok(None),
    }
}

fn seen_tasks(alloc: Global, list: &Vec<Value>) -> Result<Option<Items<Seen>>, AllocError>
    ensures { IfOk result (λ seen. seen ≡ with_seen [] (items_view list.now.items)) }
{
    let mut seen = Items::new(alloc);
    for item in list {
        let Some(task) = seen_task(alloc, item)? else {
            return Ok(None);
        };
        seen.push(task)?;
    }
    Ok(Some(seen))
}

fn seen_task(alloc: Global, value: &Value) -> Result<Option<Seen>, AllocError>
    ensures { IfOk result (λ task. task ≡ seen_task (view value.now)) }
{
    let id = value.get("uuid").and_then(Value::as_str);
    let Some(id) = id.and_then(TaskId::read) else {
        return Ok(None);
    };
    let Some(text) = value.get("description").and_then(Value::as_str) else {
        return Ok(None);
    };
    Ok(Some(Seen {
        id,
        description: Text::from_str(alloc, text)?,
        tags: seen_texts(alloc, value, "tags")?,
        needs: seen_texts(alloc, value, "depends")?,
        old: read_old(alloc, value)?,
    }))
}

/// The texts of a member.
fn seen_texts(alloc: Global, value: &Value, name: &str) -> Result<Items<Text>, AllocError>
    ensures { IfOk result (λ texts. texts ≡ seen_texts name.now (view value.now)) }
{
    match value.get(name) {
        Some(member) => texts_of(alloc, member),
        None => Ok(Items::new(alloc)),
    }
}

fn texts_of(alloc: Global, value: &Value) -> Result<Items<Text>, AllocError>
    ensures { IfOk result (λ texts. texts ≡ texts_of (view value.now)) }
{
    match value {
        Value::Array(list) => listed_texts(alloc, list),
        _ => Ok(Items::new(alloc)),
    }
}

/// The texts of an array. What isn't one is left out.
fn listed_texts(alloc: Global, list: &Vec<Value>) -> Result<Items<Text>, AllocError>
    ensures { IfOk result (λ texts. texts ≡ with_texts [] (items_view list.now.items)) }
{
    let mut texts = Items::new(alloc);
    for item in list {
        push_text(alloc, &mut texts, item.as_str())?;
    }
    Ok(texts)
}

fn push_text(alloc: Global, texts: &mut Items<Text>, text: Option<&str>) -> Result<(), AllocError>
    ensures { OnOk result
        (texts.new ≡ with_text texts.old (option_map (λ text. text.now) text.entry)) }
{
    match text {
        Some(text) => texts.push(Text::from_str(alloc, text)?),
        None => Ok(()),
    }
}

/// The task that a word names: by its place, from 1, or by its uuid.
pub(crate) fn task_named<'s>(tasks: &'s [Seen], word: &str) -> Option<&'s Seen>
    ensures { option_copied result ≡ task_named tasks.now word.now }
{
    match read_number(word, u32::MAX) {
        Some(place) => tasks.get(place.saturating_sub(1) as usize),
        None => task_with(tasks, TaskId::read(word)?),
    }
}

fn task_with(tasks: &[Seen], id: TaskId) -> Option<&Seen>
    ensures { option_copied result ≡ find_id id tasks.now }
{
    for task in tasks {
        if task.id == id {
            return Some(task);
        }
    }
    None
}
