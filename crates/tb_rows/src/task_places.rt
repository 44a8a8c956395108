//! Where the tasks of a board stand, by their identifiers.

ghost use Rattle.std.specs.Prelude.{◌≡◌, IfOk};
ghost use Rattle.std.specs.BTreeMap.{get};
ghost use Rattle.std.specs.Ordering.{nat_cmp};
ghost use Rattle.tb_board.specs.Tasks.{ids, place_in};
ghost use Rattle.tb_rows.specs.TaskPlaces.{AreFor};

use std::alloc::{AllocError, Global};
use std::collections::BTreeMap;
use tb_board::{Board, Change, places_of};
use tb_task::{Task, TaskId};

/// So many tasks are sought on the board itself in less time than it takes to list all of them.
const FEW: usize = 4;

/// How the places of a board's tasks are found.
#[derive(Drop)]
pub enum TaskPlaces {
    /// All are listed.
    Listed(BTreeMap<TaskId, usize>),
    /// Each is sought on the board.
    Sought,
}

impl TaskPlaces {
    /// Lists those of all tasks.
    pub fn of(alloc: Global, board: &Board) -> Result<TaskPlaces, AllocError>
        ensures { IfOk result (AreFor board.now) }
    {
        let places = places_of(alloc, board.tasks.as_slice())?;
        Ok(TaskPlaces::Listed(places))
    }

    /// Lists them only where the changes ask for many.
    pub(crate) fn for_changes(
        alloc: Global,
        board: &Board,
        changes: &[Change],
    ) -> Result<TaskPlaces, AllocError>
        ensures { IfOk result (AreFor board.now) }
    {
        if ask_for_few(changes) {
            return Ok(TaskPlaces::Sought);
        }
        TaskPlaces::of(alloc, board)
    }

    /// Lists them only where the board has no index and the task asks for many.
    pub(crate) fn for_task(
        alloc: Global,
        board: &Board,
        task: &Task,
    ) -> Result<TaskPlaces, AllocError>
        ensures { IfOk result (AreFor board.now) }
    {
        if board.tasks.places().is_some() || asks_for_few(task) {
            return Ok(TaskPlaces::Sought);
        }
        TaskPlaces::of(alloc, board)
    }

    /// The place of the first task of that identifier, counted from 0.
    pub(crate) fn place_of(&self, board: &Board, id: TaskId) -> Option<usize>
        requires { AreFor board.now self.now }
        ensures { result ≡ place_in (ids board.now.tasks) id }
    {
        match self {
            TaskPlaces::Listed(places) => listed_place(places, id),
            TaskPlaces::Sought => board.tasks.place_of(id),
        }
    }
}

/// Whether the changes put one task, which has few links.
fn ask_for_few(changes: &[Change]) -> bool {
    match changes.first() {
        Some(Change::PutTask { task, .. }) => changes.len() == 1 && asks_for_few(task.get()),
        _ => false,
    }
}

fn asks_for_few(task: &Task) -> bool {
    task.depends.len() <= FEW
}

fn listed_place(places: &BTreeMap<TaskId, usize>, id: TaskId) -> Option<usize>
    ensures { result ≡ get nat_cmp places.now id }
{
    match places.get(&id) {
        Some(place) => Some(*place),
        None => None,
    }
}
