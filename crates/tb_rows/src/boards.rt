//! The changes of rows of boards.

ghost use Rattle.std.specs.Prelude.{◌≡◌, ◌≤◌, ◌++◌, IfOk, OnOk, length};
ghost use Rattle.std.specs.List.{flat_map, list_any};
ghost use Rattle.tb_board.specs.World.{empty_board};
ghost use Rattle.tb_rows.specs.Rows.{board_row};
ghost use Rattle.tb_rows.specs.Steps.{ahead_changes, changed_templates, kept_board, later_board, low_changes, put_place, sets_ahead, sets_title, title_changes};
ghost use Rattle.tb_rows.specs.TaskPlaces.{AreFor};
ghost use Rattle.tb_task.specs.Limits.{most_tasks};

use crate::concerned::{PlaceList, changed_templates, is_concerned, put_places};
use crate::gone::push_gone_changes;
use crate::task_places::TaskPlaces;
use crate::tasks::{Concerned, push_tasks};
use std::alloc::{AllocError, Global};
use tb_board::{Ahead, Board, Change, Title, least_number};
use tb_sql::changes::RowChange;
use tb_sql_tables::rows::{BoardRow, HorizonRow};
use tb_values::{Items, Text};

/// The changes of rows of a board that had so many tasks.
pub(crate) fn push_kept_board(
    alloc: Global,
    rows: &mut Items<RowChange>,
    old: usize,
    board: &Board,
    changes: &[Change],
) -> Result<(), AllocError>
    requires { length board.now.tasks ≤ most_tasks }
    ensures { OnOk result (rows.new ≡ rows.old ++ kept_board old board.now changes.now) }
{
    if !is_concerned(changes, board.number) {
        return Ok(());
    }
    push_later_board(alloc, rows, old, board, changes)
}

fn push_later_board(
    alloc: Global,
    rows: &mut Items<RowChange>,
    old: usize,
    board: &Board,
    changes: &[Change],
) -> Result<(), AllocError>
    requires { length board.now.tasks ≤ most_tasks }
    ensures { OnOk result (rows.new ≡ rows.old ++ later_board old board.now changes.now) }
{
    let places = TaskPlaces::for_changes(alloc, board, changes)?;
    let concerned = concerned_tasks(alloc, board, &places, old, changes)?;
    push_title(alloc, rows, board, changes)?;
    push_low(alloc, rows, old, board)?;
    push_ahead(rows, board, changes)?;
    push_tasks(alloc, rows, board, &places, &concerned)?;
    push_gone_changes(alloc, rows, board, &places, changes)
}

fn concerned_tasks(
    alloc: Global,
    board: &Board,
    places: &TaskPlaces,
    old: usize,
    changes: &[Change],
) -> Result<Concerned, AllocError>
    requires { AreFor board.now places.now }
    ensures old { IfOk result (λ concerned. concerned.old ≡ old) }
    ensures put { IfOk result
        (λ concerned. concerned.put ≡ flat_map (put_place board.now.number) changes.now) }
    ensures templates { IfOk result
        (λ concerned. concerned.templates
        ≡ changed_templates board.now old
        (flat_map (put_place board.now.number) changes.now) changes.now) }
{
    let count = board.tasks.len();
    let put = PlaceList::of(alloc, put_places(alloc, changes, board.number)?, count)?;
    let listed = changed_templates(alloc, board, places, old, &put, changes)?;
    let templates = PlaceList::of(alloc, listed, count)?;
    Ok(Concerned {
        old,
        put,
        templates,
    })
}

/// The title of a board, if the changes set it.
fn push_title(
    alloc: Global,
    rows: &mut Items<RowChange>,
    board: &Board,
    changes: &[Change],
) -> Result<(), AllocError>
    ensures { OnOk result (rows.new ≡ rows.old ++ title_changes board.now changes.now) }
{
    if set_title(changes, board.number) {
        rows.push(RowChange::SetTitle {
            board: board.number,
            title: Text::from_str(alloc, board.title.as_str())?,
        })?;
    }
    Ok(())
}

/// Whether one of the changes sets the title of a board.
fn set_title(changes: &[Change], board: u32) -> bool
    ensures { result ≡ list_any (sets_title board) changes.now }
{
    changes.iter().any(|change| sets_title(change, board))
}

fn sets_title(change: &Change, board: u32) -> bool
    ensures { result ≡ sets_title board change.now }
{
    match change {
        Change::SetTitle { board: number, .. } => board == *number,
        _ => false,
    }
}

/// The least free number of a board that had so many tasks, if it has more now.
fn push_low(
    alloc: Global,
    rows: &mut Items<RowChange>,
    old: usize,
    board: &Board,
) -> Result<(), AllocError>
    requires { length board.now.tasks ≤ most_tasks }
    ensures { OnOk result (rows.new ≡ rows.old ++ low_changes old board.now) }
{
    if old < board.tasks.len() {
        let low = least_number(alloc, board)?;
        rows.push(RowChange::SetLow {
            board: board.number,
            low,
        })?;
    }
    Ok(())
}

/// How far ahead a board looks, if the changes set that.
fn push_ahead(
    rows: &mut Items<RowChange>,
    board: &Board,
    changes: &[Change],
) -> Result<(), AllocError>
    ensures { OnOk result (rows.new ≡ rows.old ++ ahead_changes board.now changes.now) }
{
    if set_ahead(changes, board.number) {
        rows.push(RowChange::SetHorizon {
            board: board.number,
            ahead: u32::from(board.ahead.number()),
        })?;
    }
    Ok(())
}

/// Whether one of the changes sets how far ahead a board looks.
fn set_ahead(changes: &[Change], board: u32) -> bool
    ensures { result ≡ list_any (sets_ahead board) changes.now }
{
    changes.iter().any(|change| sets_ahead(change, board))
}

fn sets_ahead(change: &Change, board: u32) -> bool
    ensures { result ≡ sets_ahead board change.now }
{
    match change {
        Change::SetAhead { board: number, .. } => board == *number,
        _ => false,
    }
}

/// How far ahead a new board looks.
pub(crate) fn first_horizon(number: u32) -> HorizonRow
    ensures { result ≡ record { board = number; ahead = 1 } }
{
    HorizonRow {
        board: number,
        ahead: u32::from(Ahead::one().number()),
    }
}

/// The row of a board without tasks.
#[tactic(auto, unfolding(tb_board::specs::Numbers::free))]
pub(crate) fn empty_board_row(
    alloc: Global,
    number: u32,
    title: &Title,
) -> Result<BoardRow, AllocError>
    ensures { IfOk result (λ row. row ≡ board_row (empty_board number title.now)) }
{
    let title = Text::from_str(alloc, title.as_str())?;
    Ok(BoardRow {
        id: number,
        title,
        low: 1,
    })
}
