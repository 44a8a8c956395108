//! The rows that tell by places which task depends on which, and which is an instance of which.

ghost use Rattle.std.specs.Prelude.{◌≡◌, ◌≤◌, [], ◌∷◌, MatchOption, length};
ghost use Rattle.tb_rows.specs.Rows.{instance_rows, link_row, place_of};
ghost use Rattle.tb_rows.specs.TaskPlaces.{AreFor};
ghost use Rattle.tb_task.specs.Limits.{most_tasks};

use crate::task_places::TaskPlaces;
use tb_board::Board;
use tb_sql_tables::rows::{InstanceRow, LinkRow};
use tb_task::{Task, TaskId};

/// The place of a task by its identifier, counted from 1, or 0 where there is none.
pub fn place_number(board: &Board, places: &TaskPlaces, id: TaskId) -> u32
    requires places { AreFor board.now places.now }
    requires few { length board.now.tasks ≤ most_tasks }
    ensures { result ≡ place_of board.now.tasks id }
{
    match places.place_of(board, id) {
        Some(place) => place as u32 + 1,
        None => 0,
    }
}

/// The row of the link from the task at a place to the one of an identifier.
pub fn link_row(board: &Board, places: &TaskPlaces, place: u32, id: TaskId) -> LinkRow
    requires places { AreFor board.now places.now }
    requires few { length board.now.tasks ≤ most_tasks }
    ensures { result ≡ link_row board.now place id }
{
    LinkRow {
        board: board.number,
        place,
        target: place_number(board, places, id),
    }
}

/// The row of the task at a place, where it is an instance.
pub fn instance_row(
    board: &Board,
    places: &TaskPlaces,
    place: u32,
    task: &Task,
) -> Option<InstanceRow>
    requires places { AreFor board.now places.now }
    requires few { length board.now.tasks ≤ most_tasks }
    ensures { MatchOption result (instance_rows board.now place task.now ≡ [])
        (λ row. instance_rows board.now place task.now ≡ row ∷ []) }
{
    let parent = task.parent?;
    let imask = task.imask?;
    Some(InstanceRow {
        board: board.number,
        template: place_number(board, places, parent),
        imask,
        place,
    })
}
