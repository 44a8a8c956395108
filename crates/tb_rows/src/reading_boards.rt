//! Boards and their rows.

ghost use Rattle.tb_rows.specs.Outcome.{Reads};
ghost use Rattle.tb_rows.specs.Reading.{ahead_of, board_of};

use crate::fault::ReopenFault;
use crate::reading_gone::read_gone;
use crate::reading_tasks::read_tasks;
use std::alloc::Global;
use tb_board::{Ahead, Board, TaskList, Title};
use tb_sql_tables::rows::{BoardRow, GoneRow, HorizonRow, TaskRow};

/// How far ahead a board looks, by its one row.
fn read_ahead(horizon: Option<HorizonRow>) -> Result<Ahead, ReopenFault>
    ensures { Reads result (ahead_of horizon) }
{
    let row = horizon.ok_or(ReopenFault::NotRows)?;
    Ahead::read(u64::from(row.ahead)).ok_or(ReopenFault::NotRows)
}

/// The board of a row with that of how far ahead it looks, those of its tasks, in order of place, and of its gone places.
pub fn read_board(
    alloc: Global,
    row: &BoardRow,
    horizon: Option<HorizonRow>,
    task_rows: &[TaskRow],
    gone_rows: &[GoneRow],
) -> Result<Board, ReopenFault>
    ensures { Reads result (board_of row.now horizon task_rows.now gone_rows.now) }
{
    let title = Title::read(alloc, row.title.as_str())?.ok_or(ReopenFault::NotRows)?;
    let ahead = read_ahead(horizon)?;
    let tasks = read_tasks(alloc, task_rows)?;
    let gone = read_gone(alloc, tasks.as_slice(), gone_rows)?;
    Ok(Board {
        number: row.id,
        title,
        tasks: TaskList::of(tasks),
        gone,
        ahead,
    })
}
