//! Where the tasks are to which others are linked.

ghost use Rattle.std.specs.Prelude.{◌≡◌, [], IfOk, OnOk, map};
ghost use Rattle.tb_cleaning.specs.Entries.{seen, taken_in};
ghost use Rattle.tb_cleaning.specs.Places.{depends_of, parent_in, place_of_some, places_on, waits_of, with_place};

use crate::entry::Entry;
use crate::ids::Ids;
use std::alloc::{AllocError, Global};
use tb_task::TaskId;
use tb_values::Items;

pub(crate) fn push_place(found: &mut Items<usize>, place: Option<usize>) -> Result<(), AllocError>
    ensures { OnOk result (found.new ≡ with_place found.old place) }
{
    match place {
        Some(place) => found.push(place),
        None => Ok(()),
    }
}

fn places_of(alloc: Global, ids: &Ids, wanted: &[TaskId]) -> Result<Items<usize>, AllocError>
    ensures { IfOk result (λ places. places ≡ places_on ids.now [] wanted.now) }
{
    let mut found = Items::new(alloc);
    for id in wanted {
        push_place(&mut found, ids.place_of(*id))?;
    }
    Ok(found)
}

/// The tasks on which one depends.
pub(crate) fn depends_of(
    alloc: Global,
    ids: &Ids,
    entry: &Entry,
) -> Result<Items<usize>, AllocError>
    ensures { IfOk result (λ places. places ≡ depends_of ids.now (seen entry.now)) }
{
    match entry.taken() {
        Some(incoming) => places_of(alloc, ids, incoming.task.depends.as_slice()),
        None => Ok(Items::new(alloc)),
    }
}

pub(crate) fn place_of_some(ids: &Ids, id: Option<TaskId>) -> Option<usize>
    ensures { result ≡ place_of_some ids.now id }
{
    ids.place_of(id?)
}

pub(crate) fn parent_of(entry: &Entry) -> Option<TaskId>
    ensures { result ≡ parent_in (taken_in entry.now.verdict) }
{
    match entry.taken() {
        Some(incoming) => incoming.raw_parent,
        None => None,
    }
}

/// These and the template of an instance.
fn waits_of(alloc: Global, ids: &Ids, entry: &Entry) -> Result<Items<usize>, AllocError>
    ensures { IfOk result (λ places. places ≡ waits_of ids.now (seen entry.now)) }
{
    let mut places = depends_of(alloc, ids, entry)?;
    push_place(&mut places, place_of_some(ids, parent_of(entry)))?;
    Ok(places)
}

/// For each task those on which it depends.
pub(crate) fn all_depends(
    alloc: Global,
    ids: &Ids,
    entries: &[Entry],
) -> Result<Vec<Items<usize>>, AllocError>
    ensures { IfOk result (λ links. links.items ≡ map (depends_of ids.now) (map seen entries.now)) }
{
    let mut links = Vec::with_capacity(alloc, entries.len())?;
    for entry in entries {
        links.push(depends_of(alloc, ids, entry)?)?;
    }
    Ok(links)
}

/// For each task those for which it waits.
pub(crate) fn all_waits(
    alloc: Global,
    ids: &Ids,
    entries: &[Entry],
) -> Result<Vec<Items<usize>>, AllocError>
    ensures { IfOk result (λ links. links.items ≡ map (waits_of ids.now) (map seen entries.now)) }
{
    let mut links = Vec::with_capacity(alloc, entries.len())?;
    for entry in entries {
        links.push(waits_of(alloc, ids, entry)?)?;
    }
    Ok(links)
}
