//! The changes of rows of gone places.

ghost use Rattle.std.specs.Prelude.{◌≡◌, ◌≤◌, ◌++◌, IfOk, OnOk, length};
ghost use Rattle.std.specs.List.{flat_map};
ghost use Rattle.tb_board.specs.Tasks.{ids, place_in};
ghost use Rattle.tb_rows.specs.Rows.{gone_row};
ghost use Rattle.tb_rows.specs.Steps.{gone_added, gone_changes, gone_removed};
ghost use Rattle.tb_rows.specs.TaskPlaces.{AreFor};
ghost use Rattle.tb_task.specs.Limits.{most_tasks};

use crate::linking::place_number;
use crate::task_places::TaskPlaces;
use std::alloc::{AllocError, Global};
use tb_board::{Board, Change, Gone};
use tb_sql::changes::RowChange;
use tb_sql_tables::rows::GoneRow;
use tb_task::{Mark, Mask, TaskId};
use tb_values::{Items, Text};

fn gone_row(
    alloc: Global,
    board: &Board,
    places: &TaskPlaces,
    gone: &Gone,
) -> Result<GoneRow, AllocError>
    requires places { AreFor board.now places.now }
    requires few { length board.now.tasks ≤ most_tasks }
    ensures { IfOk result (λ row. row ≡ gone_row board.now gone.now) }
{
    let mut mask = Mask::new(alloc);
    mask.push(gone.mark)?;
    Ok(GoneRow {
        board: board.number,
        template: place_number(board, places, gone.template),
        imask: gone.place,
        mark: Text::from_str(alloc, mask.as_str())?,
    })
}

/// The changes of rows where the changes take or leave gone places of a board.
pub(crate) fn push_gone_changes(
    alloc: Global,
    rows: &mut Items<RowChange>,
    board: &Board,
    places: &TaskPlaces,
    changes: &[Change],
) -> Result<(), AllocError>
    requires places { AreFor board.now places.now }
    requires few { length board.now.tasks ≤ most_tasks }
    ensures { OnOk result (rows.new ≡ rows.old ++ flat_map (gone_changes board.now) changes.now) }
{
    for change in changes {
        push_gone_change(alloc, rows, board, places, change)?;
    }
    Ok(())
}

fn push_gone_change(
    alloc: Global,
    rows: &mut Items<RowChange>,
    board: &Board,
    places: &TaskPlaces,
    change: &Change,
) -> Result<(), AllocError>
    requires places { AreFor board.now places.now }
    requires few { length board.now.tasks ≤ most_tasks }
    ensures { OnOk result (rows.new ≡ rows.old ++ gone_changes board.now change.now) }
{
    match change {
        Change::SetGone {
            board: number,
            gone,
        } => {
            if board.number == *number {
                push_gone(alloc, rows, board, places, gone)?;
            }
        }
        Change::TakeGone {
            board: number,
            template,
            place,
        } => {
            if board.number == *number {
                push_taken(rows, board, places, *template, *place)?;
            }
        }
        _ => {}
    }
    Ok(())
}

fn push_gone(
    alloc: Global,
    rows: &mut Items<RowChange>,
    board: &Board,
    places: &TaskPlaces,
    gone: &Gone,
) -> Result<(), AllocError>
    requires places { AreFor board.now places.now }
    requires few { length board.now.tasks ≤ most_tasks }
    ensures { OnOk result
        (rows.new ≡ rows.old
        ++ gone_added board.now gone.now (place_in (ids board.now.tasks) gone.now.template)) }
{
    if places.place_of(board, gone.template).is_none() {
        return Ok(());
    }
    let row = gone_row(alloc, board, places, gone)?;
    rows.push(RowChange::AddGone(row))?;
    Ok(())
}

fn push_taken(
    rows: &mut Items<RowChange>,
    board: &Board,
    places: &TaskPlaces,
    template: TaskId,
    imask: u32,
) -> Result<(), AllocError>
    requires places { AreFor board.now places.now }
    requires few { length board.now.tasks ≤ most_tasks }
    ensures { OnOk result
        (rows.new ≡ rows.old
        ++ gone_removed board.now imask (place_in (ids board.now.tasks) template)) }
{
    if let Some(place) = places.place_of(board, template) {
        rows.push(RowChange::RemoveGone {
            board: board.number,
            template: place as u32 + 1,
            imask,
        })?;
    }
    Ok(())
}
