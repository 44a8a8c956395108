//! In which order tasks are brought: each after those that it waits for, where that can be.

ghost use Rattle.std.specs.Prelude.{◌≡◌, [], IfOk, OnOk, map, not, option_map, Some, slice_get, slice_set, true};
ghost use Rattle.std.specs.List.{list_all};
ghost use Rattle.tb_cleaning.specs.Ordering.{brought, has_instances, is_left_out, is_ready, is_template, left_from, marked, next_of, order_of, order_on, picked_on, ready_from, with_entry};
ghost use Rattle.tb_graph.specs.Marks.{is_marked};
ghost use Rattle.tb_cleaning.specs.Entries.{seen};

use crate::entry::{Entry, ids_of};
use crate::places::{all_waits, push_place};
use crate::sorting::is_marked;
use std::alloc::{AllocError, Global};
use tb_task::Incoming;
use tb_values::Items;

/// The tasks that are taken, as they are brought.
pub(crate) fn brought<'e>(alloc: Global, entries: &'e [Entry]) -> Result<Vec<&'e Entry>, AllocError>
    ensures { IfOk result (λ list. map (λ e. seen e.now) list.items ≡ brought (map seen entries.now)) }
{
    let order = order_of(alloc, entries)?;
    picked(alloc, entries, order.as_slice())
}

fn picked<'e>(
    alloc: Global,
    entries: &'e [Entry],
    places: &[usize],
) -> Result<Vec<&'e Entry>, AllocError>
    ensures { IfOk result
        (λ list. map (λ e. seen e.now) list.items ≡ picked_on (map seen entries.now) [] places.now) }
{
    let mut found = Vec::new(alloc);
    for place in places {
        push_entry(&mut found, entry_at(entries, *place))?;
    }
    Ok(found)
}

fn entry_at(entries: &[Entry], place: usize) -> Option<&Entry>
    ensures { option_map (λ e. seen e.now) result ≡ slice_get (map seen entries.now) place }
{
    entries.get(place)
}

fn push_entry<'e>(found: &mut Vec<&'e Entry>, entry: Option<&'e Entry>) -> Result<(), AllocError>
    ensures { OnOk result (map (λ e. seen e.now) found.new.items
        ≡ with_entry (map (λ e. seen e.now) found.old.items)
        (option_map (λ e. seen e.now) entry.entry)) }
{
    match entry {
        Some(entry) => {
            found.push(entry)?;
            Ok(())
        }
        None => Ok(()),
    }
}

fn order_of(alloc: Global, entries: &[Entry]) -> Result<Items<usize>, AllocError>
    ensures { IfOk result (λ order. order ≡ order_of (map seen entries.now)) }
{
    let ids = ids_of(alloc, entries)?;
    let waits = all_waits(alloc, &ids, entries)?;
    let templates = templates_of(alloc, entries)?;
    let mut done = left_out(alloc, entries)?;
    order_on(alloc, waits.as_slice(), templates.as_slice(), &mut done)
}

fn templates_of(alloc: Global, entries: &[Entry]) -> Result<Vec<bool>, AllocError>
    ensures { IfOk result (λ marks. marks.items ≡ map has_instances (map seen entries.now)) }
{
    let mut marks = Vec::with_capacity(alloc, entries.len())?;
    for entry in entries {
        marks.push(has_instances(entry))?;
    }
    Ok(marks)
}

fn has_instances(entry: &Entry) -> bool
    ensures { result ≡ has_instances (seen entry.now) }
{
    match entry.taken() {
        Some(incoming) => is_template(incoming),
        None => false,
    }
}

pub(crate) fn is_template(incoming: &Incoming) -> bool
    ensures { result ≡ is_template (Some incoming.now) }
{
    incoming.task.recur.is_some()
        && !(incoming.raw_parent.is_some() || incoming.raw_imask.is_some())
}

fn left_out(alloc: Global, entries: &[Entry]) -> Result<Vec<bool>, AllocError>
    ensures { IfOk result (λ marks. marks.items ≡ map is_left_out (map seen entries.now)) }
{
    let mut marks = Vec::with_capacity(alloc, entries.len())?;
    for entry in entries {
        marks.push(entry.taken().is_none())?;
    }
    Ok(marks)
}

/// The places in order: one after another, until none is left.
fn order_on(
    alloc: Global,
    waits: &[Items<usize>],
    templates: &[bool],
    done: &mut [bool],
) -> Result<Items<usize>, AllocError>
    ensures { IfOk result
        (λ order. order ≡ order_on waits.now templates.now [] done.old waits.now) }
{
    let mut order = Items::new(alloc);
    for one in waits {
        let next = next_of(waits, templates, done);
        push_place(&mut order, next)?;
        mark(done, next);
    }
    Ok(order)
}

fn mark(done: &mut [bool], place: Option<usize>)
    ensures { done.new ≡ marked done.old place }
{
    if let Some(place) = place {
        mark_at(done, place);
    }
}

fn mark_at(done: &mut [bool], place: usize)
    ensures { done.new ≡ slice_set done.old place true }
{
    if place < done.len() {
        done[place] = true;
    }
}

fn next_of(waits: &[Items<usize>], templates: &[bool], done: &[bool]) -> Option<usize>
    ensures { result ≡ next_of waits.now templates.now done.now }
{
    if let Some(place) = first_ready(waits, done) {
        return Some(place);
    }
    if let Some(place) = first_template(templates, done) {
        return Some(place);
    }
    first_left(done)
}

fn first_ready(waits: &[Items<usize>], done: &[bool]) -> Option<usize>
    ensures { result ≡ ready_from done.now 0 waits.now }
{
    for (place, all) in waits.iter().enumerate() {
        if is_ready(done, place, all.as_slice()) {
            return Some(place);
        }
    }
    None
}

fn is_ready(done: &[bool], place: usize, waits: &[usize]) -> bool
    ensures { result ≡ is_ready done.now place waits.now }
{
    !is_marked(done, place) && are_marked(done, waits)
}

fn are_marked(done: &[bool], places: &[usize]) -> bool
    ensures { result ≡ list_all (is_marked done.now) places.now }
{
    places.iter().all(|place| is_marked(done, *place))
}

fn first_template(templates: &[bool], done: &[bool]) -> Option<usize>
    ensures { result ≡ left_from done.now 0 templates.now }
{
    for (place, is) in templates.iter().enumerate() {
        if *is && !is_marked(done, place) {
            return Some(place);
        }
    }
    None
}

fn first_left(done: &[bool]) -> Option<usize>
    ensures { result ≡ left_from done.now 0 (map not done.now) }
{
    for (place, is) in done.iter().enumerate() {
        if !*is && !is_marked(done, place) {
            return Some(place);
        }
    }
    None
}
