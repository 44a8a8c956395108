//! The links of a board.

ghost use Rattle.std.specs.Prelude.{◌≡◌, ◌≤◌, ◌↔◌, ◌++◌, IsTrue, IsPermutation, IsSorted, IfOk, OnOk, length};
ghost use Rattle.tb_rows.specs.RowOrders.{link_order};
ghost use Rattle.tb_rows.specs.Rows.{board_links, link_rows};
ghost use Rattle.tb_rows.specs.TaskPlaces.{AreFor};
ghost use Rattle.tb_task.specs.Limits.{most_tasks};

use crate::linking::link_row;
use crate::task_places::TaskPlaces;
use std::alloc::{AllocError, Global};
use tb_board::Board;
use tb_sql_tables::rows::LinkRow;
use tb_task::Task;
use tb_values::Items;

/// Whether a board has these links, in whatever order.
pub(crate) fn have_links(
    alloc: Global,
    board: &Board,
    places: &TaskPlaces,
    rows: &[LinkRow],
) -> Result<bool, AllocError>
    requires places { AreFor board.now places.now }
    requires few { length board.now.tasks ≤ most_tasks }
    ensures { IfOk result (λ same. IsTrue same ↔ IsPermutation rows.now (board_links board.now)) }
{
    let wanted = in_order(board_links(alloc, board, places)?.into_vec());
    let found = in_order(Vec::from_slice(alloc, rows)?);
    Ok(found == wanted)
}

/// The links by place and target.
fn in_order(mut links: Vec<LinkRow>) -> Vec<LinkRow>
    ensures same { IsPermutation links.items result.items }
    ensures sorted { IsSorted link_order result.items }
{
    links.sort_unstable_by_key(|link| (link.board, link.place, link.target));
    links
}

/// All links of a board.
fn board_links(
    alloc: Global,
    board: &Board,
    places: &TaskPlaces,
) -> Result<Items<LinkRow>, AllocError>
    requires places { AreFor board.now places.now }
    requires few { length board.now.tasks ≤ most_tasks }
    ensures { IfOk result (λ links. links ≡ board_links board.now) }
{
    let mut links = Items::new(alloc);
    for (place, task) in board.tasks.as_slice().iter().enumerate() {
        push_links(&mut links, board, places, place as u32 + 1, task.get())?;
    }
    Ok(links)
}

/// A link for each task on which the task depends.
fn push_links(
    links: &mut Items<LinkRow>,
    board: &Board,
    places: &TaskPlaces,
    place: u32,
    task: &Task,
) -> Result<(), AllocError>
    requires places { AreFor board.now places.now }
    requires few { length board.now.tasks ≤ most_tasks }
    ensures { OnOk result (links.new ≡ links.old ++ link_rows board.now place task.now) }
{
    for id in task.depends.as_slice() {
        links.push(link_row(board, places, place, *id))?;
    }
    Ok(())
}
