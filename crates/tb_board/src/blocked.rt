ghost use Rattle.std.specs.Prelude.{◌≡◌, ◌<◌, ◌==◌, length, slice_index_or};
ghost use Rattle.std.specs.List.{list_any, range_with_len};
ghost use Rattle.tb_graph.specs.Marks.{is_marked};
ghost use Rattle.tb_board.specs.Blocked.{blocked, blocking, depends_on as depends_on_id, is_blocked_among, is_blocking_among, is_first, is_held, is_open_by_id, is_open_on};

use crate::board::Board;
use crate::links::place_by_id;
use crate::statuses::is_open_status;
use tb_task::{Task, TaskId};
use tb_values::Shared;

/// Whether the task at a place, counted from 0, is blocked. It looks for each task on which that one depends, and takes no memory.
pub fn is_blocked_task(board: &Board, place: usize) -> bool
    requires { place < length board.now.tasks }
    ensures { result ≡ is_marked (blocked board.now) place }
{
    let tasks = board.tasks.as_slice();
    is_blocked_in(tasks, tasks[place].get())
}

fn is_blocked_in(tasks: &[Shared<Task>], task: &Task) -> bool
    ensures { result ≡ is_blocked_among tasks.now task.now }
{
    is_open_status(task.status) && any_open(tasks, task.depends.as_slice())
}

/// Whether one of these identifiers is that of an open task.
fn any_open(tasks: &[Shared<Task>], ids: &[TaskId]) -> bool
    ensures { result ≡ list_any (is_open_by_id tasks.now) ids.now }
{
    ids.iter().any(|id| is_open_task(tasks, *id))
}

fn is_open_task(tasks: &[Shared<Task>], id: TaskId) -> bool
    ensures { result ≡ is_open_by_id tasks.now id }
{
    match place_by_id(tasks, id) {
        Some(place) => is_open_status(tasks[place].get().status),
        None => false,
    }
}

/// Whether the task at a place, counted from 0, is blocking. It goes over the tasks of the board, and takes no memory.
pub fn is_blocking_task(board: &Board, place: usize) -> bool
    requires { place < length board.now.tasks }
    ensures { result ≡ is_marked (blocking board.now) place }
{
    let tasks = board.tasks.as_slice();
    is_blocking_in(tasks, place, tasks[place].get())
}

fn is_blocking_in(tasks: &[Shared<Task>], place: usize, task: &Task) -> bool
    ensures { result ≡ is_blocking_among tasks.now place task.now }
{
    is_open_status(task.status)
        && is_first_at(tasks, task.id, place)
        && holds_another(tasks, task.id, place)
}

/// Whether the first task of that identifier stands at the place.
fn is_first_at(tasks: &[Shared<Task>], id: TaskId, place: usize) -> bool
    ensures { result ≡ is_first tasks.now id place }
{
    match place_by_id(tasks, id) {
        Some(first) => first == place,
        None => false,
    }
}

/// Whether an open task that stands elsewhere depends on that identifier.
fn holds_another(tasks: &[Shared<Task>], id: TaskId, place: usize) -> bool
    ensures { result ≡ list_any (is_held tasks.now id place) (range_with_len 0 (length tasks.now)) }
{
    for other in 0..tasks.len() {
        if other != place && waits_for(tasks[other].get(), id) {
            return true;
        }
    }
    false
}

fn waits_for(task: &Task, id: TaskId) -> bool
    ensures { result ≡ is_open_on id task.now }
{
    is_open_status(task.status) && depends_on(task, id)
}

fn depends_on(task: &Task, id: TaskId) -> bool
    ensures { result ≡ depends_on_id id task.now }
{
    task.depends.as_slice().iter().any(|other| *other == id)
}
