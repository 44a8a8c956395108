//! Which of a text's tasks are taken: not a second one with a uuid, none that depends on itself, and no instance of a template that isn't.

ghost use Rattle.std.specs.Prelude.{◌≡◌, ◌==◌, [], IfOk, OnOk, map};
ghost use Rattle.std.specs.List.{list_any};
ghost use Rattle.serde_json.specs.View.{view};
ghost use Rattle.tb_cleaning.specs.Entries.{seen};
ghost use Rattle.tb_cleaning.specs.Places.{with_place};
ghost use Rattle.tb_cleaning.specs.Sorting.{change_at, is_lost, is_place, kept_of, kept_on, loss_of, lost_reason, refused_id, refused_on, sorted, sorted_by, sorted_of, sorted_on, with_change};
ghost use Rattle.tb_graph.specs.Marks.{is_marked};

use crate::circles::circles_of;
use crate::entry::{Entry, entries_of, ids_of};
use crate::ids::Ids;
use crate::places::{all_depends, parent_of};
use crate::verdict::Verdict;
use serde_json::Value;
use std::alloc::{AllocError, Global};
use tb_task::TaskId;
use tb_values::{Items, Text};

const IN_CIRCLE: &str = "it depends on itself, over others or directly";

/// The tasks of a text, each with its verdict.
pub(crate) fn sorted(alloc: Global, items: &[Value]) -> Result<Vec<Entry>, AllocError>
    ensures { IfOk result (λ entries. map seen entries.items ≡ sorted (map view items.now)) }
{
    let entries = entries_of(alloc, items)?;
    let entries = sorted_of(alloc, entries)?;
    kept_of(alloc, entries)
}

fn sorted_of(alloc: Global, entries: Vec<Entry>) -> Result<Vec<Entry>, AllocError>
    ensures { IfOk result
        (λ sorted. map seen sorted.items ≡ sorted_of (map seen entries.items)) }
{
    let ids = ids_of(alloc, entries.as_slice())?;
    sorted_by(alloc, &ids, entries)
}

fn sorted_by(alloc: Global, ids: &Ids, entries: Vec<Entry>) -> Result<Vec<Entry>, AllocError>
    ensures { IfOk result (λ sorted. map seen sorted.items
        ≡ sorted_by ids.now (map seen entries.items)) }
{
    let links = all_depends(alloc, ids, entries.as_slice())?;
    let circles = circles_of(alloc, links.as_slice())?;
    sorted_on(alloc, ids, circles.as_slice(), entries)
}

fn sorted_on(
    alloc: Global,
    ids: &Ids,
    circles: &[bool],
    entries: Vec<Entry>,
) -> Result<Vec<Entry>, AllocError>
    ensures { IfOk result (λ sorted. map seen sorted.items
        ≡ sorted_on ids.now circles.now [] (map seen entries.items)) }
{
    let mut found = Vec::with_capacity(alloc, entries.len())?;
    for entry in entries {
        let change = change_at(alloc, ids, circles, found.len(), entry.id())?;
        found.push(with_change(entry, change))?;
    }
    Ok(found)
}

fn with_change(entry: Entry, change: Option<Verdict>) -> Entry
    ensures { seen result ≡ with_change (seen entry) change }
{
    match change {
        Some(verdict) => with_verdict(entry, verdict),
        None => entry,
    }
}

fn with_verdict(entry: Entry, verdict: Verdict) -> Entry
    ensures { seen result ≡ record (seen entry) { verdict = verdict } }
{
    let Entry { value, changes, .. } = entry;
    Entry {
        value,
        changes,
        verdict,
    }
}

fn change_at(
    alloc: Global,
    ids: &Ids,
    circles: &[bool],
    place: usize,
    id: Option<TaskId>,
) -> Result<Option<Verdict>, AllocError>
    ensures { IfOk result (λ change. change ≡ change_at ids.now circles.now place id) }
{
    let Some(id) = id else {
        return Ok(None);
    };
    if !is_place(place, ids.place_of(id)) {
        return Ok(Some(Verdict::Double));
    }
    if is_marked(circles, place) {
        return Ok(Some(Verdict::Refused(Text::from_str(alloc, IN_CIRCLE)?)));
    }
    Ok(None)
}

fn is_place(place: usize, found: Option<usize>) -> bool
    ensures { result ≡ is_place place found }
{
    match found {
        Some(other) => other == place,
        None => false,
    }
}

pub(crate) fn is_marked(marks: &[bool], place: usize) -> bool
    ensures { result ≡ is_marked marks.now place }
{
    match marks.get(place) {
        Some(mark) => *mark,
        None => false,
    }
}

/// The uuid of a task that is refused.
fn refused_id(entry: &Entry) -> Option<TaskId>
    ensures { result ≡ refused_id (seen entry.now) }
{
    match &entry.verdict {
        Verdict::Refused(_) => TaskId::read(entry.value.get("uuid").and_then(Value::as_str)?),
        Verdict::Taken(_) | Verdict::Double => None,
    }
}

fn push_id(found: &mut Items<TaskId>, id: Option<TaskId>) -> Result<(), AllocError>
    ensures { OnOk result (found.new ≡ with_place found.old id) }
{
    match id {
        Some(id) => found.push(id),
        None => Ok(()),
    }
}

fn refused_on(alloc: Global, entries: &[Entry]) -> Result<Items<TaskId>, AllocError>
    ensures { IfOk result (λ ids. ids ≡ refused_on [] (map seen entries.now)) }
{
    let mut found = Items::new(alloc);
    for entry in entries {
        push_id(&mut found, refused_id(entry))?;
    }
    Ok(found)
}

fn lost_reason(alloc: Global, id: TaskId) -> Result<Text, AllocError>
    ensures { IfOk result (λ reason. reason ≡ lost_reason id) }
{
    let mut reason = Text::from_str(alloc, "its template can't be taken: ")?;
    reason.push_str(id.text(alloc)?.as_str())?;
    Ok(reason)
}

fn is_lost(ids: &Ids, refused: &[TaskId], id: TaskId) -> bool
    ensures { result ≡ is_lost ids.now refused.now id }
{
    has_id(refused, id) && ids.place_of(id).is_none()
}

fn has_id(list: &[TaskId], id: TaskId) -> bool
    ensures { result ≡ list_any (λ other. other == id) list.now }
{
    list.iter().any(|other| *other == id)
}

fn loss_of(
    alloc: Global,
    ids: &Ids,
    refused: &[TaskId],
    parent: Option<TaskId>,
) -> Result<Option<Verdict>, AllocError>
    ensures { IfOk result (λ change. change ≡ loss_of ids.now refused.now parent) }
{
    let Some(parent) = parent else {
        return Ok(None);
    };
    if !is_lost(ids, refused, parent) {
        return Ok(None);
    }
    Ok(Some(Verdict::Refused(lost_reason(alloc, parent)?)))
}

fn kept_on(
    alloc: Global,
    ids: &Ids,
    refused: &[TaskId],
    entries: Vec<Entry>,
) -> Result<Vec<Entry>, AllocError>
    ensures { IfOk result (λ kept. map seen kept.items
        ≡ kept_on ids.now refused.now [] (map seen entries.items)) }
{
    let mut found = Vec::with_capacity(alloc, entries.len())?;
    for entry in entries {
        let change = loss_of(alloc, ids, refused, parent_of(&entry))?;
        found.push(with_change(entry, change))?;
    }
    Ok(found)
}

fn kept_of(alloc: Global, entries: Vec<Entry>) -> Result<Vec<Entry>, AllocError>
    ensures { IfOk result (λ kept. map seen kept.items ≡ kept_of (map seen entries.items)) }
{
    let ids = ids_of(alloc, entries.as_slice())?;
    let refused = refused_on(alloc, entries.as_slice())?;
    kept_on(alloc, &ids, refused.as_slice(), entries)
}
