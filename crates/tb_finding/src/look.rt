//! The tasks of a board, as an export of it shows them.
ghost use Rattle.std.specs.Prelude.{◌≡◌, ◌<◌, ◌+◌, ◌^◌, [], IfOk, IsSome, codes, option_map, slice_get};
ghost use Rattle.serde_json.specs.Read.{read};
ghost use Rattle.serde_json.specs.View.{items_view, view};
ghost use Rattle.tb_finding.specs.Board.{board_of, linked_task, look_of, task_in, tasks_in, tasks_of, told_status, with_tasks};
ghost use Rattle.tb_graph.specs.Marks.{is_marked};

use serde_json::Value;
use std::alloc::{AllocError, Global};
use tb_board::{Board, TaskList, Title, waits_of};
use tb_json::{JsonFault, parse, read_task};
use tb_my::text_at;
use tb_task::{Incoming, Moment, Status, Task};
use tb_values::{Duplicate, Items, Shared};

/// The tasks of a board, and by their places which are blocked and which are blocking.
#[derive(Drop)]
pub struct Look {
    pub tasks: Items<Shared<Task>>,
    pub blocked: Items<bool>,
    pub blocking: Items<bool>,
}

/// The tasks of an export at a moment, if it is one.
pub fn read_tasks(
    alloc: Global,
    text: &str,
    at: Moment,
) -> Result<Option<Items<Shared<Task>>>, AllocError>
    ensures { IfOk result (λ tasks. tasks ≡ tasks_in at text.now) }
{
    match parse(alloc, text)? {
        Some(value) => tasks_of(alloc, value.as_array(), at),
        None => Ok(None),
    }
}

fn tasks_of(
    alloc: Global,
    list: Option<&Vec<Value>>,
    at: Moment,
) -> Result<Option<Items<Shared<Task>>>, AllocError>
    ensures { IfOk result (λ tasks. tasks
        ≡ tasks_of at (option_map (λ list. items_view list.now.items) list.entry)) }
{
    match list {
        Some(list) => listed_tasks(alloc, list, at),
        None => Ok(None),
    }
}

fn listed_tasks(
    alloc: Global,
    list: &Vec<Value>,
    at: Moment,
) -> Result<Option<Items<Shared<Task>>>, AllocError>
    ensures { IfOk result (λ tasks. tasks ≡ with_tasks at [] (items_view list.now.items)) }
{
    let mut tasks = Items::new(alloc);
    for item in list {
        let Some(task) = task_in(alloc, item, at)? else {
            return Ok(None);
        };
        tasks.push(Shared::new(alloc, task)?)?;
    }
    Ok(Some(tasks))
}

/// The task that a value is at a moment.
pub(crate) fn task_in(alloc: Global, value: &Value, at: Moment) -> Result<Option<Task>, AllocError>
    ensures { IfOk result (λ task. task ≡ task_in at (view value.now)) }
{
    match read_task(alloc, value, at) {
        Ok(incoming) => Ok(Some(linked_task(incoming, told_status(value)))),
        Err(JsonFault::Memory) => Err(AllocError),
        Err(_) => Ok(None),
    }
}

/// The status that a task is shown with.
fn told_status(value: &Value) -> Option<Status>
    ensures { result ≡ told_status (view value.now) }
{
    Status::read(text_at(value, "status")?)
}

/// The task with its template and the status that is told, whatever the clock here says.
fn linked_task(incoming: Incoming, status: Option<Status>) -> Task
    ensures { result ≡ linked_task incoming status }
{
    let mut task = incoming.task;
    if let Some(status) = status {
        task.status = status;
    }
    task.parent = incoming.raw_parent;
    task.imask = incoming.raw_imask;
    task
}

impl Look {
    /// The tasks, and which of them are blocked and blocking.
    pub fn of(alloc: Global, tasks: Items<Shared<Task>>) -> Result<Look, AllocError>
        ensures { IfOk result (λ look. look ≡ look_of tasks) }
    {
        let board = board_of(alloc, tasks.duplicate()?)?;
        let waits = waits_of(alloc, &board)?;
        Ok(Look {
            tasks,
            blocked: Items::from_vec(waits.blocked),
            blocking: Items::from_vec(waits.blocking),
        })
    }

    /// The task at a place, from 0.
    pub(crate) fn task(&self, place: usize) -> Option<&Task>
        ensures task { option_map (λ task. task.now) result ≡ slice_get self.now.tasks place }
        ensures within { IsSome result → place + 1 < 2 ^ 64 }
    {
        if place >= self.tasks.len() {
            return None;
        }
        match self.tasks.get(place) {
            Some(task) => Some(task.get()),
            None => None,
        }
    }

    pub(crate) fn is_blocked(&self, place: usize) -> bool
        ensures { result ≡ is_marked self.now.blocked place }
    {
        mark_at(self.blocked.as_slice(), place)
    }

    pub(crate) fn is_blocking(&self, place: usize) -> bool
        ensures { result ≡ is_marked self.now.blocking place }
    {
        mark_at(self.blocking.as_slice(), place)
    }
}

fn mark_at(marks: &[bool], place: usize) -> bool
    ensures { result ≡ is_marked marks.now place }
{
    match marks.get(place) {
        Some(mark) => *mark,
        None => false,
    }
}

fn board_of(alloc: Global, tasks: Items<Shared<Task>>) -> Result<Board, AllocError>
    ensures { IfOk result (λ board. board ≡ board_of tasks) }
{
    let mut list = TaskList::of(tasks);
    list.make_index(alloc, 1);
    let mut board = Board::new(alloc, 1, some_title(alloc)?);
    board.tasks = list;
    Ok(board)
}

#[tactic(auto, unfolding(tb_board::specs::Names::is_title))]
fn some_title(alloc: Global) -> Result<Title, AllocError>
    ensures { IfOk result (λ title. title ≡ codes "-") }
{
    match Title::read(alloc, "-")? {
        Some(title) => Ok(title),
        None => unreachable!(),
    }
}
