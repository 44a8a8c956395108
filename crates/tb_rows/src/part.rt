//! The changes of rows that follow from the changes of one decision, by the part of a world that they touch.

ghost use Rattle.std.specs.Prelude.{◌≡◌, ◌≤◌, ◌++◌, Some, true, IfOk, OnOk};
ghost use Rattle.std.specs.List.{flat_map};
ghost use Rattle.std.specs.Option.{option_map};
ghost use Rattle.tb_board.specs.Changing.{changed};
ghost use Rattle.tb_board.specs.declared.world.World.{World};
ghost use Rattle.tb_rows.specs.Part.{AreRowsFor, IsPartOf, is_small_part, part_after, part_board, part_of_board, rows_of_part, single_changes, touched_board};
ghost use Rattle.tb_rows.specs.Steps.{Leads};
ghost use Rattle.tb_task.specs.Limits.{most_people};

use crate::boards::{empty_board_row, first_horizon, push_kept_board};
use crate::people::{person_row, secret_change};
use crate::quick::quick_rows;
use crate::roles::push_role;
use std::alloc::{AllocError, Global};
use tb_board::{Board, Change, replayed};
use tb_sql::changes::RowChange;
use tb_task::{MOST_PEOPLE, MOST_TASKS};
use tb_values::Items;

/// A board that changes touch: how many tasks it had, and what it is after them.
#[derive(Drop)]
pub struct BoardPart {
    pub tasks_before: usize,
    pub later: Board,
}

/// The board whose title, tasks, gone places or view ahead the first of a decision's changes changes: the one that a
/// store has to look up for `part_changes`.
pub fn touched_board(changes: &[Change]) -> Option<u32>
    ensures { result ≡ touched_board changes.now }
{
    match changes.first()? {
        Change::PutTask { board, .. } => Some(*board),
        Change::SetTitle { board, .. } => Some(*board),
        Change::SetGone { board, .. } => Some(*board),
        Change::TakeGone { board, .. } => Some(*board),
        Change::SetAhead { board, .. } => Some(*board),
        _ => None,
    }
}

/// The changes of rows that lead from the rows of a good world to those of the good world that the changes
/// of one decision make of it. Of the world only the number of its people and the touched board are needed,
/// the latter as it is before the changes, where the world has it. Only rows of people, boards, roles and tasks
/// that are new or changed are touched, and the masks of templates of which an instance or a gone place is changed.
pub fn part_changes(
    alloc: Global,
    people: usize,
    part: Option<&Board>,
    changes: &[Change],
) -> Result<Items<RowChange>, AllocError>
    ensures leads { IfOk result (λ rows. (w : World)
        → IsPartOf w people
        (part_of_board (option_map (λ b. b.now) part.entry) changes.now) changes.now
        → Leads rows w (changed w changes.now)) }
    ensures steps { IfOk result (λ rows. people ≤ most_people
        → is_small_part (part_of_board (option_map (λ b. b.now) part.entry) changes.now) ≡ true
        → rows ≡ rows_of_part people
        (part_of_board (option_map (λ b. b.now) part.entry) changes.now) changes.now) }
{
    match part {
        Some(board) => board_changes(alloc, people, board, changes),
        None => checked_rows(alloc, people, &None, changes),
    }
}

/// Those of a board that the world has.
fn board_changes(
    alloc: Global,
    people: usize,
    board: &Board,
    changes: &[Change],
) -> Result<Items<RowChange>, AllocError>
    ensures { IfOk result
        (AreRowsFor people (Some (part_after changes.now board.now)) changes.now) }
{
    if let Some(rows) = quick_rows(alloc, board, changes)? {
        return Ok(rows);
    }
    let part = part_after(alloc, board, changes)?;
    checked_rows(alloc, people, &Some(part), changes)
}

fn part_after(alloc: Global, board: &Board, changes: &[Change]) -> Result<BoardPart, AllocError>
    ensures { IfOk result (λ part. part ≡ part_after changes.now board.now) }
{
    let later = replayed(alloc, board, changes)?;
    Ok(BoardPart {
        tasks_before: board.tasks.len(),
        later,
    })
}

fn checked_rows(
    alloc: Global,
    people: usize,
    part: &Option<BoardPart>,
    changes: &[Change],
) -> Result<Items<RowChange>, AllocError>
    ensures { IfOk result (AreRowsFor people part.now changes.now) }
{
    if people <= MOST_PEOPLE && is_small(part) {
        return rows_of_part(alloc, people, part, changes);
    }
    Err(AllocError) // Never: no good world has more people or tasks, so nothing is committed.
}

fn is_small(part: &Option<BoardPart>) -> bool
    ensures { result ≡ is_small_part part.now }
{
    match part {
        Some(part) => part.later.tasks.len() <= MOST_TASKS,
        None => true,
    }
}

fn rows_of_part(
    alloc: Global,
    people: usize,
    part: &Option<BoardPart>,
    changes: &[Change],
) -> Result<Items<RowChange>, AllocError>
    requires people { people ≤ most_people }
    requires small { is_small_part part.now ≡ true }
    ensures { IfOk result (λ rows. rows ≡ rows_of_part people part.now changes.now) }
{
    let mut rows = Items::new(alloc);
    push_part(alloc, &mut rows, part, changes)?;
    push_singles(alloc, &mut rows, people, changes)?;
    Ok(rows)
}

/// The changes of rows of the touched board.
fn push_part(
    alloc: Global,
    rows: &mut Items<RowChange>,
    part: &Option<BoardPart>,
    changes: &[Change],
) -> Result<(), AllocError>
    requires { is_small_part part.now ≡ true }
    ensures { OnOk result (rows.new ≡ rows.old ++ part_board part.now changes.now) }
{
    match part {
        Some(part) => push_kept_board(alloc, rows, part.tasks_before, &part.later, changes),
        None => Ok(()),
    }
}

/// What follows from each change by itself.
fn push_singles(
    alloc: Global,
    rows: &mut Items<RowChange>,
    people: usize,
    changes: &[Change],
) -> Result<(), AllocError>
    requires { people ≤ most_people }
    ensures { OnOk result (rows.new ≡ rows.old ++ flat_map (single_changes people) changes.now) }
{
    for change in changes {
        push_single(alloc, rows, people, change)?;
    }
    Ok(())
}

fn push_single(
    alloc: Global,
    rows: &mut Items<RowChange>,
    people: usize,
    change: &Change,
) -> Result<(), AllocError>
    requires { people ≤ most_people }
    ensures { OnOk result (rows.new ≡ rows.old ++ single_changes people change.now) }
{
    match change {
        Change::AddPerson { name, key } => {
            let person = person_row(alloc, people, name, key)?;
            rows.push(RowChange::AddPerson(person))?;
            Ok(())
        }
        Change::SetKey { name, key } => {
            let change = secret_change(alloc, name, key)?;
            rows.push(change)?;
            Ok(())
        }
        Change::AddBoard { number, title } => {
            let board = empty_board_row(alloc, *number, title)?;
            rows.push(RowChange::AddBoard(board))?;
            rows.push(RowChange::AddHorizon(first_horizon(*number)))?;
            Ok(())
        }
        Change::SetRole {
            board,
            person,
            role,
        } => push_role(rows, *board, *person, *role),
        _ => Ok(()),
    }
}
