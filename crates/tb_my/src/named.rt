//! The tasks that words name.
ghost use Rattle.std.specs.Path.{rsplit_once};
ghost use Rattle.std.specs.Prelude.{◌≡◌, ◌≤◌, ◌++◌, Err, IfOk, OnOk, Some, length, map};
ghost use Rattle.tb_my.specs.Named.{are_places, count_places, has_task, is_place, is_place_part, is_range, is_range_of, lacking, range_named, range_of, run_named, tasks_named, with_named, with_new, with_parts};
ghost use Rattle.tb_my.specs.Outcome.{Fails, Reads};
ghost use Rattle.tb_my.specs.declared.fault.MyFault.{MyFault as Fault};

use crate::days::after_key;
use crate::fault::{MyFault, no_option, no_place, no_task};
use crate::look::{Seen, task_named};
use crate::splitting::parts_of;
use std::alloc::{AllocError, Global};
use tb_task::TaskId;
use tb_values::{Duplicate, Items, Text, read_number};

/// The tasks that words name, in their order: by their places, as `3`, `3-8` or `3,5`, or by their uuids.
pub(crate) fn tasks_named(
    alloc: Global,
    tasks: &[Seen],
    is_further: bool,
    before: Items<Seen>,
    words: &[Text],
) -> Result<Items<Seen>, MyFault>
    ensures { Reads result (tasks_named tasks.now is_further before words.now) }
{
    let mut named = before;
    for word in words {
        named = with_named(alloc, tasks, is_further, named, word)?;
    }
    Ok(named)
}

pub(crate) fn with_named(
    alloc: Global,
    tasks: &[Seen],
    is_further: bool,
    named: Items<Seen>,
    word: &Text,
) -> Result<Items<Seen>, MyFault>
    ensures { Reads result (with_named tasks.now is_further named word.now) }
{
    if after_key(word.as_str(), "--").is_some() {
        return Err(no_option(alloc, word.as_str()));
    }
    let parts = parts_of(alloc, word.as_str())?;
    with_parts(alloc, tasks, is_further, named, word, parts.as_slice())
}

fn with_parts(
    alloc: Global,
    tasks: &[Seen],
    is_further: bool,
    before: Items<Seen>,
    word: &Text,
    parts: &[&str],
) -> Result<Items<Seen>, MyFault>
    ensures { Reads result
        (with_parts tasks.now is_further before word.now (map (λ part. part.now) parts.entry.now)) }
{
    let mut named = before;
    for part in parts {
        let Some(run) = run_named(alloc, tasks, part)? else {
            return Err(lacking(alloc, is_further, word.as_str()));
        };
        push_new(&mut named, run.as_slice())?;
    }
    Ok(named)
}

fn lacking(alloc: Global, is_further: bool, word: &str) -> MyFault
    ensures { Fails {X = Fault} result (Err (lacking is_further word.now)) }
{
    if is_further {
        no_place(alloc, word)
    } else {
        no_task(alloc, word)
    }
}

/// Puts those at the end that aren't there yet: a task that is named again stays where it is.
fn push_new(named: &mut Items<Seen>, more: &[Seen]) -> Result<(), AllocError>
    ensures { OnOk result (named.new ≡ with_new named.old more.now) }
{
    for seen in more {
        if !has_task(named.as_slice(), seen.id) {
            named.push(seen.duplicate()?)?;
        }
    }
    Ok(())
}

fn has_task(tasks: &[Seen], id: TaskId) -> bool
    ensures { result ≡ has_task id tasks.now }
{
    tasks.iter().any(|task| task.id == id)
}

/// The tasks of a place, of a range of places, or of a uuid.
fn run_named(alloc: Global, tasks: &[Seen], part: &str) -> Result<Option<Items<Seen>>, AllocError>
    ensures { IfOk result (λ run. run ≡ run_named tasks.now part.now) }
{
    match task_named(tasks, part) {
        Some(task) => {
            let mut run = Items::new(alloc);
            run.push(task.duplicate()?)?;
            Ok(Some(run))
        }
        None => range_named(alloc, tasks, part),
    }
}

fn range_named(alloc: Global, tasks: &[Seen], part: &str) -> Result<Option<Items<Seen>>, AllocError>
    ensures { IfOk result (λ run. run ≡ range_named tasks.now part.now) }
{
    match part.rsplit_once('-') {
        Some((first, last)) => range_of(alloc, tasks, first, last),
        None => Ok(None),
    }
}

fn range_of(
    alloc: Global,
    tasks: &[Seen],
    first: &str,
    last: &str,
) -> Result<Option<Items<Seen>>, AllocError>
    ensures { IfOk result (λ run. run ≡ range_of tasks.now (Some (first.now, last.now))) }
{
    let Some(first) = read_number(first, u32::MAX) else {
        return Ok(None);
    };
    let Some(last) = read_number(last, u32::MAX) else {
        return Ok(None);
    };
    if first == 0 || last < first || last as usize > tasks.len() {
        return Ok(None);
    }
    let start = (first - 1) as usize;
    let end = last as usize;
    Ok(Some(Items::from_slice(alloc, &tasks[start..end])?))
}

/// How many words at the front are places or uuids.
pub(crate) fn count_places(alloc: Global, words: &[Text]) -> Result<usize, AllocError>
    ensures count { IfOk result (λ count. count ≡ count_places words.now) }
    ensures most { IfOk result (λ count. count ≤ length words.now) }
{
    let mut count = 0;
    for word in words {
        if !is_place(alloc, word.as_str())? {
            return Ok(count);
        }
        count += 1;
    }
    Ok(count)
}

fn is_place(alloc: Global, word: &str) -> Result<bool, AllocError>
    ensures { IfOk result (λ is. is ≡ is_place word.now) }
{
    let parts = parts_of(alloc, word)?;
    Ok(are_places(parts.as_slice()))
}

fn are_places(parts: &[&str]) -> bool
    ensures { result ≡ are_places (map (λ part. part.now) parts.entry.now) }
{
    for part in parts {
        if !is_place_part(part) {
            return false;
        }
    }
    true
}

fn is_place_part(part: &str) -> bool
    ensures { result ≡ is_place_part part.now }
{
    read_number(part, u32::MAX).is_some() || TaskId::read(part).is_some() || is_range(part)
}

fn is_range(part: &str) -> bool
    ensures { result ≡ is_range part.now }
{
    match part.rsplit_once('-') {
        Some((first, last)) => are_ends(first, last),
        None => false,
    }
}

fn are_ends(first: &str, last: &str) -> bool
    ensures { result ≡ is_range_of (Some (first.now, last.now)) }
{
    read_number(first, u32::MAX).is_some() && read_number(last, u32::MAX).is_some()
}
