//! Gone places and their rows.

ghost use Rattle.std.specs.Prelude.{[]};
ghost use Rattle.tb_rows.specs.Outcome.{Reads};
ghost use Rattle.tb_rows.specs.Reading.{id_at as the_id_at, mark_of, gone_of, gone_in};

use crate::fault::ReopenFault;
use std::alloc::Global;
use tb_board::Gone;
use tb_sql_tables::rows::GoneRow;
use tb_task::{Mark, Task, TaskId};
use tb_values::{Items, Shared};

/// The identifier of the task at a place, counted from 1.
fn id_at(tasks: &[Shared<Task>], place: u32) -> Result<TaskId, ReopenFault>
    ensures { Reads result (the_id_at tasks.now place) }
{
    if place == 0 {
        return Err(ReopenFault::NotRows);
    }
    match tasks.get(place as usize - 1) {
        Some(task) => Ok(task.get().id),
        None => Err(ReopenFault::NotRows),
    }
}

/// The mark that is the one character of a text.
fn read_mark(text: &[u8]) -> Result<Mark, ReopenFault>
    ensures { Reads result (mark_of text.now) }
{
    match text {
        [byte] => match Mark::read(*byte) {
            Some(mark) => Ok(mark),
            None => Err(ReopenFault::NotRows),
        },
        _ => Err(ReopenFault::NotRows),
    }
}

fn read_place(tasks: &[Shared<Task>], row: &GoneRow) -> Result<Gone, ReopenFault>
    ensures { Reads result (gone_of tasks.now row.now) }
{
    let template = id_at(tasks, row.template)?;
    let mark = read_mark(row.mark.as_bytes())?;
    Ok(Gone {
        template,
        place: row.imask,
        mark,
    })
}

/// The gone places of these rows, of templates among these tasks.
pub(crate) fn read_gone(
    alloc: Global,
    tasks: &[Shared<Task>],
    rows: &[GoneRow],
) -> Result<Items<Gone>, ReopenFault>
    ensures { Reads result (gone_in tasks.now [] rows.now) }
{
    let mut gone = Items::new(alloc);
    for row in rows {
        gone.push(read_place(tasks, row)?)?;
    }
    Ok(gone)
}
