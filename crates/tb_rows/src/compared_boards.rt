//! A board beside its rows.

ghost use Rattle.std.specs.Prelude.{◌≡◌, ◌≤◌, ◌↔◌, IsTrue, IfOk, Some, length};
ghost use Rattle.tb_rows.specs.AsStored.{AreAsStored};
ghost use Rattle.tb_rows.specs.Rows.{board_row, horizon_row};
ghost use Rattle.tb_task.specs.Limits.{most_tasks};

use crate::compared_instances::have_instances;
use crate::compared_links::have_links;
use crate::compared_masks::have_masks;
use crate::task_places::TaskPlaces;
use std::alloc::{AllocError, Global};
use tb_board::{Board, least_number};
use tb_sql_tables::rows::{BoardRow, HorizonRow, InstanceRow, LinkRow, TaskRow};

/// Whether a board has this row, and this for how far ahead it looks, its tasks in order of place these masks, and the board these
/// links and instances. What else the rows of the tasks hold isn't looked at.
pub fn is_as_stored(
    alloc: Global,
    board: &Board,
    row: &BoardRow,
    horizon: Option<HorizonRow>,
    tasks: &[TaskRow],
    links: &[LinkRow],
    instances: &[InstanceRow],
) -> Result<bool, AllocError>
    requires { length board.now.tasks ≤ most_tasks }
    ensures { IfOk result
        (λ same. IsTrue same
        ↔ AreAsStored board.now row.now horizon tasks.now links.now instances.now) }
{
    if !has_row(alloc, board, row)? {
        return Ok(false);
    }
    if !has_horizon(board, horizon) {
        return Ok(false);
    }
    if !have_masks(alloc, board, tasks)? {
        return Ok(false);
    }
    let places = TaskPlaces::of(alloc, board)?;
    if !have_links(alloc, board, &places, links)? {
        return Ok(false);
    }
    have_instances(alloc, board, &places, instances)
}

fn has_row(alloc: Global, board: &Board, row: &BoardRow) -> Result<bool, AllocError>
    requires { length board.now.tasks ≤ most_tasks }
    ensures { IfOk result (λ same. IsTrue same ↔ (row.now ≡ board_row board.now)) }
{
    let low = least_number(alloc, board)?;
    Ok(row.id == board.number && row.low == low && row.title.as_str() == board.title.as_str())
}

fn has_horizon(board: &Board, horizon: Option<HorizonRow>) -> bool
    ensures { IsTrue result ↔ (horizon ≡ Some (horizon_row board.now)) }
{
    match horizon {
        Some(row) => { row.board == board.number && row.ahead == u32::from(board.ahead.number()) }
        None => false,
    }
}
