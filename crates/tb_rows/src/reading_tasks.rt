//! Tasks and their rows.

ghost use Rattle.std.specs.Prelude.{[]};
ghost use Rattle.tb_json.specs.Stored.{stored_of};
ghost use Rattle.tb_rows.specs.Outcome.{Reads};
ghost use Rattle.tb_rows.specs.Reading.{body_task, task_of, task_at, tasks_in};

use crate::fault::ReopenFault;
use std::alloc::Global;
use tb_json::{JsonFault, read_stored};
use tb_sql_tables::rows::TaskRow;
use tb_task::Task;
use tb_values::{Items, Shared};

fn read_body(alloc: Global, text: &str) -> Result<Task, ReopenFault>
    ensures { Reads result (body_task (stored_of text.now)) }
{
    match read_stored(alloc, text) {
        Ok(task) => Ok(task),
        Err(JsonFault::NotObject) => Err(ReopenFault::NotRows),
        Err(JsonFault::BadField(_)) => Err(ReopenFault::NotRows),
        Err(JsonFault::Memory) => Err(ReopenFault::Memory),
    }
}

/// The task of a row, whose body has the row's identifier.
fn read_task(alloc: Global, row: &TaskRow) -> Result<Task, ReopenFault>
    ensures { Reads result (task_of row.now) }
{
    let task = read_body(alloc, row.body.as_str())?;
    if task.id != row.uuid {
        return Err(ReopenFault::NotRows);
    }
    Ok(task)
}

/// The task of a row, which stands at this place.
fn read_task_at(alloc: Global, place: usize, row: &TaskRow) -> Result<Task, ReopenFault>
    ensures { Reads result (task_at place row.now) }
{
    if row.place as usize != place {
        return Err(ReopenFault::NotRows);
    }
    read_task(alloc, row)
}

/// The tasks of these rows, which stand at the places from 1.
pub(crate) fn read_tasks(
    alloc: Global,
    rows: &[TaskRow],
) -> Result<Items<Shared<Task>>, ReopenFault>
    ensures { Reads result (tasks_in [] rows.now) }
{
    let mut tasks = Items::new(alloc);
    for row in rows {
        let task = read_task_at(alloc, tasks.len() + 1, row)?;
        tasks.push(Shared::new(alloc, task)?)?;
    }
    Ok(tasks)
}
