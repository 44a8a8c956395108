//! The changes of rows of a board's tasks.

ghost use Rattle.std.specs.Prelude.{◌≡◌, ◌≤◌, ◌<◌, ◌++◌, IfOk, OnOk, length, map};
ghost use Rattle.tb_sql.specs.declared.changes.RowChange.TheVariants.{AddInstance, AddLink};
ghost use Rattle.tb_rows.specs.Rows.{instance_rows, link_rows, mask_cell, rows_from, task_row};
ghost use Rattle.tb_rows.specs.Steps.{new_mask, new_task, put_task, task_changes};
ghost use Rattle.tb_rows.specs.TaskPlaces.{AreFor};
ghost use Rattle.tb_task.specs.Limits.{most_tasks};

use crate::concerned::PlaceList;
use crate::linking::{instance_row, link_row};
use crate::task_places::TaskPlaces;
use std::alloc::{AllocError, Global};
use tb_board::{Board, is_template_task};
use tb_json::write_stored;
use tb_sql::changes::RowChange;
use tb_sql_tables::rows::TaskRow;
use tb_sweep::mask_of;
use tb_task::Task;
use tb_values::{Items, Shared, Text};

/// Which tasks of a board are concerned by changes: those beyond the old number, those that are put, and
/// the templates of which a mask may change.
#[derive(Drop)]
pub(crate) struct Concerned {
    pub(crate) old: usize,
    pub(crate) put: PlaceList,
    pub(crate) templates: PlaceList,
}

/// The mask of a template as it is stored.
fn mask_cell(alloc: Global, board: &Board, task: &Task) -> Result<Option<Text>, AllocError>
    ensures { IfOk result (λ cell. cell ≡ mask_cell board.now task.now) }
{
    if !is_template_task(task) {
        return Ok(None);
    }
    let mask = mask_of(alloc, board, task.id)?;
    Ok(Some(Text::from_str(alloc, mask.as_str())?))
}

fn task_row(alloc: Global, board: &Board, place: u32, task: &Task) -> Result<TaskRow, AllocError>
    ensures { IfOk result (λ row. row ≡ task_row board.now place task.now) }
{
    let body = write_stored(alloc, task)?;
    let mask = mask_cell(alloc, board, task)?;
    Ok(TaskRow {
        board: board.number,
        place,
        uuid: task.id,
        body,
        mask,
    })
}

/// The changes of rows of all tasks of a board.
pub(crate) fn push_tasks(
    alloc: Global,
    rows: &mut Items<RowChange>,
    board: &Board,
    places: &TaskPlaces,
    concerned: &Concerned,
) -> Result<(), AllocError>
    requires places { AreFor board.now places.now }
    requires few { length board.now.tasks ≤ most_tasks }
    ensures { OnOk result
        (rows.new ≡ rows.old
        ++ rows_from (task_changes board.now concerned.now.old concerned.now.put
        concerned.now.templates) 0 board.now.tasks) }
{
    for (place, task) in board.tasks.as_slice().iter().enumerate() {
        push_task(alloc, rows, board, places, concerned, place, task.get())?;
    }
    Ok(())
}

fn push_task(
    alloc: Global,
    rows: &mut Items<RowChange>,
    board: &Board,
    places: &TaskPlaces,
    concerned: &Concerned,
    place: usize,
    task: &Task,
) -> Result<(), AllocError>
    requires places { AreFor board.now places.now }
    requires few { length board.now.tasks ≤ most_tasks }
    requires within { place < length board.now.tasks }
    ensures { OnOk result
        (rows.new ≡ rows.old
        ++ task_changes board.now concerned.now.old concerned.now.put concerned.now.templates
        place task.now) }
{
    let number = place as u32 + 1;
    if place >= concerned.old {
        return push_new_task(alloc, rows, board, places, number, task);
    }
    if concerned.put.has(place) {
        return push_put_task(alloc, rows, board, places, number, task);
    }
    if concerned.templates.has(place) {
        return push_new_mask(alloc, rows, board, number, task);
    }
    Ok(())
}

/// The rows of a task that is new.
pub(crate) fn push_new_task(
    alloc: Global,
    rows: &mut Items<RowChange>,
    board: &Board,
    places: &TaskPlaces,
    place: u32,
    task: &Task,
) -> Result<(), AllocError>
    requires places { AreFor board.now places.now }
    requires few { length board.now.tasks ≤ most_tasks }
    ensures { OnOk result (rows.new ≡ rows.old ++ new_task board.now place task.now) }
{
    let row = task_row(alloc, board, place, task)?;
    rows.push(RowChange::AddTask(row))?;
    push_links(rows, board, places, place, task)?;
    push_instance(rows, board, places, place, task)
}

/// The new text, mask and links of a task.
pub(crate) fn push_put_task(
    alloc: Global,
    rows: &mut Items<RowChange>,
    board: &Board,
    places: &TaskPlaces,
    place: u32,
    task: &Task,
) -> Result<(), AllocError>
    requires places { AreFor board.now places.now }
    requires few { length board.now.tasks ≤ most_tasks }
    ensures { OnOk result (rows.new ≡ rows.old ++ put_task board.now place task.now) }
{
    let body = write_stored(alloc, task)?;
    let mask = mask_cell(alloc, board, task)?;
    rows.push(RowChange::SetText {
        board: board.number,
        place,
        body,
        mask,
    })?;
    rows.push(RowChange::RemoveLinks {
        board: board.number,
        place,
    })?;
    push_links(rows, board, places, place, task)
}

fn push_new_mask(
    alloc: Global,
    rows: &mut Items<RowChange>,
    board: &Board,
    place: u32,
    task: &Task,
) -> Result<(), AllocError>
    ensures { OnOk result (rows.new ≡ rows.old ++ new_mask board.now place task.now) }
{
    let mask = mask_cell(alloc, board, task)?;
    rows.push(RowChange::SetMask {
        board: board.number,
        place,
        mask,
    })?;
    Ok(())
}

/// A link for each task on which the task depends.
pub(crate) fn push_links(
    rows: &mut Items<RowChange>,
    board: &Board,
    places: &TaskPlaces,
    place: u32,
    task: &Task,
) -> Result<(), AllocError>
    requires places { AreFor board.now places.now }
    requires few { length board.now.tasks ≤ most_tasks }
    ensures { OnOk result
        (rows.new ≡ rows.old ++ map AddLink (link_rows board.now place task.now)) }
{
    for id in task.depends.as_slice() {
        let row = link_row(board, places, place, *id);
        rows.push(RowChange::AddLink(row))?;
    }
    Ok(())
}

/// A row where the task is an instance.
fn push_instance(
    rows: &mut Items<RowChange>,
    board: &Board,
    places: &TaskPlaces,
    place: u32,
    task: &Task,
) -> Result<(), AllocError>
    requires places { AreFor board.now places.now }
    requires few { length board.now.tasks ≤ most_tasks }
    ensures { OnOk result
        (rows.new ≡ rows.old ++ map AddInstance (instance_rows board.now place task.now)) }
{
    if let Some(row) = instance_row(board, places, place, task) {
        rows.push(RowChange::AddInstance(row))?;
    }
    Ok(())
}
