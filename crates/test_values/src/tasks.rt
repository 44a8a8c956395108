//! Tasks, which are given as the JSON texts that store them.

use crate::finding::{Finding, missing, say, show};
use crate::given::{halves, read_count};
use crate::lists::ordered_of;
use std::alloc::Global;
use std::io;
use tb_json::{read_stored, write_stored};
use tb_task::{Edit, Extra, ExtraValue, Given, Task, check};
use tb_values::{Duplicate, NonEmptyText, Same, Text};

pub(crate) fn read(alloc: Global, json: &str) -> io::Result<Task> {
    read_stored(alloc, json).ok().ok_or(missing())
}

pub(crate) fn tell_task(alloc: Global, task: &Task) -> Finding {
    Ok(write_stored(alloc, task)?.into_string())
}

/// What is wrong with a task, or `good`.
pub(crate) fn tell_verdict(alloc: Global, task: &Task) -> Finding {
    match check(task) {
        Ok(()) => say(alloc, "good"),
        Err(field) => show(alloc, &field),
    }
}

/// Checks a task with one more extra attribute, of any name.
pub(crate) fn checked_with_extra(alloc: Global, given: &str) -> Finding {
    let (name, json) = halves(given);
    let name = NonEmptyText::from_str(alloc, name)?.ok_or(missing())?;
    let mut task = read(alloc, json)?;
    let value = ExtraValue::Whole(-3);
    task.extras.insert(Extra { name, value })?;
    tell_verdict(alloc, &task)
}

/// Checks a task with a description of so many letters.
pub(crate) fn checked_with_length(alloc: Global, given: &str) -> Finding {
    let (length, json) = halves(given);
    let mut task = read(alloc, json)?;
    task.description = Text::from_string("a".repeat(alloc, read_count(length))?);
    tell_verdict(alloc, &task)
}

/// A copy of a task, which has to be the same until it is changed.
pub(crate) fn copied(alloc: Global, given: &str) -> Finding {
    let task = read(alloc, given)?;
    let mut changed = task.copy()?;
    changed.imask = Some(0);
    let copied = task.copy()?;
    if !copied.same(&task) || changed.same(&task) {
        return say(alloc, "another");
    }
    tell_task(alloc, &copied)
}

/// Whether an edit that sets tags under a name is the same as its copy.
pub(crate) fn edit(alloc: Global, given: &str) -> Finding {
    let (name, tags) = halves(given);
    let name = NonEmptyText::from_str(alloc, name)?.ok_or(missing())?;
    let value = Some(Given::Tags(ordered_of(alloc, tags)?));
    let edit = Edit { name, value };
    show(alloc, &edit.same(&edit.duplicate()?))
}
