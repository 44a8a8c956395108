//! What an import drops of the tasks that it takes.

ghost use Rattle.std.specs.Prelude.{◌≡◌, [], IfOk, OnOk, is_some, map};
ghost use Rattle.serde_json.specs.View.{members_view, view};
ghost use Rattle.tb_cleaning.specs.Entries.{id_of, seen, taken_in};
ghost use Rattle.tb_cleaning.specs.Losses.{all_drops, all_links, drop_of, drop_text, drops_in, drops_of, drops_on, has_extra, is_dropped, is_kept, link_at, link_text, links_from, links_on, reason_of};
ghost use Rattle.tb_cleaning.specs.Places.{depends_in};
ghost use Rattle.tb_cleaning.specs.Telling.{line_of};
ghost use Rattle.tb_json.specs.Attribute.{unless_blank};

use crate::entry::Entry;
use crate::ids::Ids;
use crate::respelling::push_text;
use crate::telling::{line_of, push_line};
use serde_json::{Map, Value};
use std::alloc::{AllocError, Global};
use tb_task::{Incoming, TaskId, is_attribute};
use tb_values::{Items, Text};

const DROPPED: &str = "will be dropped: ";

const LINK_LOST: &str = "link dropped: ";

const LINK_LATER: &str = "can't be ordered: ";

const NO_END: &str = "the task is open";

const NO_PLACE: &str = "it is no place in the mask of a template";

const NO_MASK: &str = "the task is no template";

const NO_INSTANCE: &str = "a template is no instance";

const NO_PRIORITY: &str = "it isn't H, M or L";

const NO_RECUR: &str = "the task is neither template nor instance";

const NO_EXTRA: &str = "it is neither a text nor a whole number of 64 bits";

const NOT_THERE: &str = " that it depends on isn't there";

const LATER: &str =
    " that it depends on comes later, as they wait for each other over a template; a later part drops the link";

/// Whether the task as it is taken has what a member of a known name says.
#[tactic(auto, unfolding(crate::specs::Losses::is_kept))]
fn is_kept(name: &str, incoming: &Incoming) -> bool
    ensures { result ≡ is_kept name.now incoming.now }
{
    match name {
        "end" => incoming.task.end.is_some(),
        "imask" => incoming.raw_imask.is_some(),
        "mask" => incoming.raw_mask.is_some(),
        "parent" => incoming.raw_parent.is_some(),
        "priority" => incoming.task.priority.is_some(),
        "recur" => incoming.task.recur.is_some(),
        _ => true,
    }
}

fn has_extra(name: &str, incoming: &Incoming) -> bool
    ensures { result ≡ has_extra name.now incoming.now }
{
    incoming
        .task
        .extras
        .as_slice()
        .iter()
        .any(|extra| extra.name.as_bytes() == name.as_bytes())
}

fn says_something(value: &Value) -> bool
    ensures { result ≡ is_some (unless_blank (view value.now)) }
{
    match value {
        Value::Null => false,
        Value::String(text) => !text.is_empty(),
        _ => true,
    }
}

/// Whether a member says something, and the task as it is taken doesn't.
fn is_dropped(name: &str, value: &Value, incoming: &Incoming) -> bool
    ensures { result ≡ is_dropped name.now (view value.now) incoming.now }
{
    if is_attribute(name) {
        return says_something(value) && !is_kept(name, incoming);
    }
    !has_extra(name, incoming)
}

#[tactic(auto, unfolding(crate::specs::Losses::reason_of))]
fn reason_of(name: &str) -> &'static str
    ensures { result.now ≡ reason_of name.now }
{
    match name {
        "end" => NO_END,
        "imask" => NO_PLACE,
        "mask" => NO_MASK,
        "parent" => NO_INSTANCE,
        "priority" => NO_PRIORITY,
        "recur" => NO_RECUR,
        _ => NO_EXTRA,
    }
}

fn drop_text(alloc: Global, name: &str) -> Result<Text, AllocError>
    ensures { IfOk result (λ text. text ≡ drop_text name.now) }
{
    let mut text = String::new(alloc);
    push_line(&mut text, name)?;
    text.push_str(": ")?;
    text.push_str(reason_of(name))?;
    Ok(Text::from_string(text))
}

fn drop_of(
    alloc: Global,
    task: &Value,
    name: &str,
    value: &Value,
    incoming: &Incoming,
) -> Result<Option<Text>, AllocError>
    ensures { IfOk result (λ line. line
        ≡ drop_of (view task.now) name.now (view value.now) incoming.now) }
{
    if !is_dropped(name, value, incoming) {
        return Ok(None);
    }
    let text = drop_text(alloc, name)?;
    Ok(Some(line_of(alloc, DROPPED, task, text.as_str())?))
}

fn push_drops(
    alloc: Global,
    found: &mut Items<Text>,
    task: &Value,
    members: &Map<String, Value>,
    incoming: &Incoming,
) -> Result<(), AllocError>
    ensures { OnOk result (found.new ≡ drops_on (view task.now) incoming.now found.old
        (members_view members.now.entries)) }
{
    for (name, value) in members {
        push_text(found, drop_of(alloc, task, name, value, incoming)?)?;
    }
    Ok(())
}

fn push_drops_in(
    alloc: Global,
    found: &mut Items<Text>,
    task: &Value,
    incoming: &Incoming,
) -> Result<(), AllocError>
    ensures { OnOk result (found.new ≡ drops_in found.old (view task.now) incoming.now) }
{
    match task {
        Value::Object(members) => push_drops(alloc, found, task, members, incoming),
        _ => Ok(()),
    }
}

fn push_drops_of(alloc: Global, found: &mut Items<Text>, entry: &Entry) -> Result<(), AllocError>
    ensures { OnOk result
        (found.new ≡ drops_of found.old (view entry.now.value) (taken_in entry.now.verdict)) }
{
    match entry.taken() {
        Some(incoming) => push_drops_in(alloc, found, &entry.value, incoming),
        None => Ok(()),
    }
}

/// A line for each member that is dropped.
pub(crate) fn all_drops(alloc: Global, entries: &[&Entry]) -> Result<Items<Text>, AllocError>
    ensures { IfOk result
        (λ lines. lines ≡ all_drops [] (map (λ e. seen e.now) entries.entry.now)) }
{
    let mut found = Items::new(alloc);
    for entry in entries {
        push_drops_of(alloc, &mut found, entry)?;
    }
    Ok(found)
}

fn link_text(alloc: Global, id: TaskId, what: &str) -> Result<Text, AllocError>
    ensures { IfOk result (λ text. text ≡ link_text id what.now) }
{
    let mut text = Text::from_str(alloc, "the task ")?;
    text.push_str(id.text(alloc)?.as_str())?;
    text.push_str(what)?;
    Ok(text)
}

fn link_line(
    alloc: Global,
    label: &str,
    task: &Value,
    id: TaskId,
    what: &str,
) -> Result<Text, AllocError>
    ensures { IfOk result
        (λ line. line ≡ line_of label.now (view task.now) (link_text id what.now)) }
{
    let text = link_text(alloc, id, what)?;
    line_of(alloc, label, task, text.as_str())
}

fn link_at(
    alloc: Global,
    task: &Value,
    place: usize,
    id: TaskId,
    found: Option<usize>,
) -> Result<Option<Text>, AllocError>
    ensures { IfOk result (λ line. line ≡ link_at (view task.now) place id found) }
{
    match found {
        None => Ok(Some(link_line(alloc, LINK_LOST, task, id, NOT_THERE)?)),
        Some(other) if place < other => { Ok(Some(link_line(alloc, LINK_LATER, task, id, LATER)?)) }
        Some(_) => Ok(None),
    }
}

fn push_links(
    alloc: Global,
    found: &mut Items<Text>,
    ids: &Ids,
    task: &Value,
    place: usize,
    depends: &[TaskId],
) -> Result<(), AllocError>
    ensures { OnOk result
        (found.new ≡ links_on ids.now (view task.now) place found.old depends.now) }
{
    for id in depends {
        let other = ids.place_of(*id);
        push_text(found, link_at(alloc, task, place, *id, other)?)?;
    }
    Ok(())
}

fn push_links_of(
    alloc: Global,
    found: &mut Items<Text>,
    ids: &Ids,
    place: usize,
    entry: &Entry,
) -> Result<(), AllocError>
    ensures { OnOk result (found.new ≡ links_on ids.now (view entry.now.value) place found.old
        (depends_in (taken_in entry.now.verdict))) }
{
    match entry.taken() {
        Some(incoming) => {
            let depends = incoming.task.depends.as_slice();
            push_links(alloc, found, ids, &entry.value, place, depends)
        }
        None => Ok(()),
    }
}

fn links_from(alloc: Global, ids: &Ids, entries: &[&Entry]) -> Result<Items<Text>, AllocError>
    ensures { IfOk result
        (λ lines. lines ≡ links_from ids.now 0 [] (map (λ e. seen e.now) entries.entry.now)) }
{
    let mut found = Items::new(alloc);
    for (place, entry) in entries.iter().enumerate() {
        push_links_of(alloc, &mut found, ids, place, entry)?;
    }
    Ok(found)
}

pub(crate) fn ids_of(alloc: Global, entries: &[&Entry]) -> Result<Ids, AllocError>
    ensures { IfOk result
        (λ ids. ids ≡ map id_of (map (λ e. seen e.now) entries.entry.now)) }
{
    let mut ids = Vec::with_capacity(alloc, entries.len())?;
    for entry in entries {
        ids.push(entry.id())?;
    }
    Ids::of(alloc, ids)
}

/// A line for each link to a task that isn't brought, or later.
pub(crate) fn all_links(alloc: Global, entries: &[&Entry]) -> Result<Items<Text>, AllocError>
    ensures { IfOk result (λ lines. lines ≡ all_links (map (λ e. seen e.now) entries.entry.now)) }
{
    let ids = ids_of(alloc, entries)?;
    links_from(alloc, &ids, entries)
}
