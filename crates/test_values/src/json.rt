//! Tasks as JSON: as they come in, as they are stored, and the edits of them.
use crate::finding::{Finding, say, show};
use crate::given::{halves, now, read_count, text_of};
use crate::tasks::read;
use std::alloc::{AllocError, Global};
use tb_json::{
    ImportFault, JsonFault, parse, read_import, read_modify, read_stored, read_task, write_stored,
    write_task, write_tasks,
};
use tb_task::{Incoming, Shown, TaskId, check};
use tb_values::Shared;

fn told(alloc: Global, fault: &JsonFault) -> Finding {
    match fault {
        JsonFault::NotObject => say(alloc, "NotObject"),
        JsonFault::BadField(name) => Ok(format!(in alloc; "BadField {}", name.as_str())?),
        JsonFault::Memory => Err(AllocError.into()),
    }
}

/// The task that comes in, or its fault.
pub(crate) fn task(alloc: Global, text: &str) -> Finding {
    let Some(value) = parse(alloc, text)? else {
        return say(alloc, "no JSON");
    };
    match read_task(alloc, &value, now()?) {
        Ok(incoming) => first_of_board(alloc, incoming),
        Err(fault) => told(alloc, &fault),
    }
}

/// How many members were dropped, and what is written of the task when it comes to board 1 as its first.
fn first_of_board(alloc: Global, incoming: Incoming) -> Finding {
    let dropped = incoming.dropped;
    let mut task = incoming.task;
    task.modified = Some(now()?);
    task.id = TaskId::made(1, 1).unwrap_or(task.id);
    let shown = Shown {
        task: Shared::new(alloc, task)?,
        mask: incoming.raw_mask,
    };
    let written = write_task(alloc, &shown)?;
    Ok(format!(in alloc; "dropped {dropped}: {}", written.as_str())?)
}

/// How long the answer is of a task with so many tags in falling order, each of which goes before all that are there.
pub(crate) fn many_tags(alloc: Global, count: &str) -> Finding {
    let mut text = String::from_str(alloc, r#"{"description":"a","tags":["a""#)?;
    for number in 0..read_count(count) {
        write!(text, ",\"{}\"", 999_999usize.saturating_sub(number))?;
    }
    text.push_str("]}")?;
    let answer = task(alloc, text.as_str())?;
    Ok(format!(in alloc; "{} bytes", answer.len())?)
}

/// The names of the attributes that are set or removed.
pub(crate) fn edits(alloc: Global, text: &str) -> Finding {
    let Some(value) = parse(alloc, text)? else {
        return say(alloc, "no JSON");
    };
    let edits = match read_modify(alloc, &value) {
        Ok(edits) => edits,
        Err(fault) => return told(alloc, &fault),
    };
    let mut all = String::new(alloc);
    for edit in edits.as_slice() {
        let is_set = edit.value.is_some();
        all.push_str(edit.name.as_str())?;
        all.push_str(if is_set { " set\n" } else { " removed\n" })?;
    }
    Ok(all)
}

/// How many tasks an import has, or its fault.
pub(crate) fn import(alloc: Global, given: &str) -> Finding {
    let text = text_of(alloc, given)?;
    match read_import(alloc, text.as_bytes(), now()?) {
        Ok(tasks) => Ok(format!(in alloc; "{} tasks", tasks.len())?),
        Err(ImportFault::BadTask(at, name)) => {
            Ok(format!(in alloc; "BadTask {at} {}", name.as_str())?)
        }
        Err(ImportFault::NotJson) => say(alloc, "NotJson"),
        Err(ImportFault::TooMany) => say(alloc, "TooMany"),
        Err(ImportFault::Memory) => Err(AllocError.into()),
    }
}

/// A stored task as it is stored again.
pub(crate) fn stored(alloc: Global, text: &str) -> Finding {
    match read_stored(alloc, text) {
        Ok(task) => match check(&task) {
            Ok(()) => Ok(write_stored(alloc, &task)?.into_string()),
            Err(field) => show(alloc, &field),
        },
        Err(fault) => told(alloc, &fault),
    }
}

/// The list of a stored task a number of times.
pub(crate) fn stored_list(alloc: Global, given: &str) -> Finding {
    let (count, text) = halves(given);
    let mut tasks = Vec::new(alloc);
    for _ in 0..read_count(count) {
        let task = Shared::new(alloc, read(alloc, text)?)?;
        tasks.push(Shown { task, mask: None })?;
    }
    Ok(write_tasks(alloc, &tasks)?.into_string())
}
