ghost use Rattle.std.specs.Prelude.{◌≡◌, ◌<◌, [], ◌∷◌, ◌++◌, length, IfOk, OnOk, slice_index_or, slice_set};
ghost use Rattle.tb_board.specs.Blocked.{are_open, blocked, blocking};
ghost use Rattle.tb_board.specs.Tasks.{ids, ArePlaces, place_in};
ghost use Rattle.tb_board.specs.Links.{depends_of, leads_on, links, places_in};
ghost use Rattle.tb_graph.specs.Leads.{is_acyclic};
ghost use Rattle.tb_board.specs.Walks.{IsAcyclicByWalks, LeadsByWalks};
ghost use Rattle.tb_board.specs.declared.board.Board.{Board as BoardValue};

use crate::board::Board;
use crate::first::first_task;
use crate::statuses::is_open_status;
use std::alloc::{AllocError, Global};
use std::collections::BTreeMap;
use tb_graph::Links;
use tb_task::{Task, TaskId};
use tb_values::Shared;

/// Whether one task depends on another, directly or by other ones.
pub fn is_led(alloc: Global, board: &Board, from: TaskId, to: TaskId) -> Result<bool, AllocError>
    ensures { IfOk result (λ answer. answer ≡ leads_on board.now from to) }
{
    let Some(from) = board.tasks.place_of(from) else {
        return Ok(false);
    };
    let Some(to) = board.tasks.place_of(to) else {
        return Ok(false);
    };
    links_of(alloc, board)?.reaches(from, to)
}

/// Whether no task depends on itself, by whichever other ones.
pub fn is_acyclic_board(alloc: Global, board: &Board) -> Result<bool, AllocError>
    ensures { IfOk result (λ answer. answer ≡ is_acyclic (links board.now)) }
{
    links_of(alloc, board)?.acyclic()
}

/// Which tasks are blocked, and which are blocking, by their places.
#[derive(Drop)]
pub struct Waits {
    pub blocked: Vec<bool>,
    pub blocking: Vec<bool>,
}

/// Which tasks wait for others, and which ones others wait for.
pub fn waits_of(alloc: Global, board: &Board) -> Result<Waits, AllocError>
    ensures blocked { IfOk result (λ waits. waits.blocked.items ≡ blocked board.now) }
    ensures blocking { IfOk result (λ waits. waits.blocking.items ≡ blocking board.now) }
{
    let open_tasks = open_tasks(alloc, board.tasks.as_slice())?;
    let graph = links_of(alloc, board)?;
    let blocked = blocked_marks(&graph, open_tasks.as_slice())?;
    let blocking = blocking_marks(&graph, open_tasks.as_slice())?;
    Ok(Waits { blocked, blocking })
}

fn blocked_marks(graph: &Links, open_tasks: &[bool]) -> Result<Vec<bool>, AllocError>
    ensures { IfOk result (λ marks. (b : BoardValue) → graph.now ≡ links b
        → open_tasks.now ≡ are_open b.tasks → marks.items ≡ blocked b) }
{
    graph.blocked(open_tasks)
}

fn blocking_marks(graph: &Links, open_tasks: &[bool]) -> Result<Vec<bool>, AllocError>
    ensures { IfOk result (λ marks. (b : BoardValue) → graph.now ≡ links b
        → open_tasks.now ≡ are_open b.tasks → marks.items ≡ blocking b) }
{
    graph.blocking(open_tasks)
}

fn open_tasks(alloc: Global, tasks: &[Shared<Task>]) -> Result<Vec<bool>, AllocError>
    ensures { IfOk result (λ open_tasks. open_tasks.items ≡ are_open tasks.now) }
{
    let mut open_tasks = Vec::with_capacity(alloc, tasks.len())?;
    for task in tasks {
        open_tasks.push(is_open_status(task.get().status))?;
    }
    Ok(open_tasks)
}

/// The links of a board, in time that grows little faster than tasks and links.
fn links_of(alloc: Global, board: &Board) -> Result<Links, AllocError>
    ensures { IfOk result (λ g. g ≡ links board.now) }
{
    let tasks = board.tasks.as_slice();
    match board.tasks.places() {
        Some(places) => links_by(alloc, tasks, places),
        None => links_by(alloc, tasks, &places_of(alloc, tasks)?),
    }
}

fn links_by(
    alloc: Global,
    tasks: &[Shared<Task>],
    places: &BTreeMap<TaskId, usize>,
) -> Result<Links, AllocError>
    requires { ArePlaces (ids tasks.now) places.now }
    ensures { IfOk result (λ g. (b : BoardValue) → tasks.now ≡ b.tasks → g ≡ links b) }
{
    let mut links = Links::new(alloc, tasks.len())?;
    for from in 0..tasks.len() {
        add_depends(&mut links, places, tasks, from)?;
    }
    Ok(links)
}

/// The place of each identifier among those of the tasks.
pub fn places_of(
    alloc: Global,
    tasks: &[Shared<Task>],
) -> Result<BTreeMap<TaskId, usize>, AllocError>
    ensures { IfOk result (λ places. ArePlaces (ids tasks.now) places) }
{
    let mut places = BTreeMap::new(alloc);
    let mut place = tasks.len();
    while place > 0 {
        place -= 1;
        places.insert(tasks[place].get().id, place)?;
    }
    Ok(places)
}

/// Links a task to those on which it depends.
fn add_depends(
    links: &mut Links,
    places: &BTreeMap<TaskId, usize>,
    tasks: &[Shared<Task>],
    from: usize,
) -> Result<(), AllocError>
    requires places { ArePlaces (ids tasks.now) places.now }
    requires nodes { length links.old ≡ length tasks.now }
    requires from { from < length tasks.now }
    ensures { OnOk result
        (links.new ≡ slice_set links.old from
        (slice_index_or links.old from []
        ++ places_in (ids tasks.now) (slice_index_or (depends_of tasks.now) from []))) }
{
    for id in tasks[from].get().depends.as_slice() {
        add_link(links, places, tasks, from, *id)?;
    }
    Ok(())
}

/// Links a task to the one of this identifier, if there is one.
fn add_link(
    links: &mut Links,
    places: &BTreeMap<TaskId, usize>,
    tasks: &[Shared<Task>],
    from: usize,
    id: TaskId,
) -> Result<(), AllocError>
    requires places { ArePlaces (ids tasks.now) places.now }
    requires nodes { length links.old ≡ length tasks.now }
    requires from { from < length tasks.now }
    ensures { OnOk result
        (links.new ≡ slice_set links.old from
        (slice_index_or links.old from [] ++ places_in (ids tasks.now) (id ∷ []))) }
{
    match places.get(&id) {
        Some(to) => links.add(from, *to),
        None => Ok(()),
    }
}

/// The place of the first task of that identifier.
pub(crate) fn place_by_id(tasks: &[Shared<Task>], id: TaskId) -> Option<usize>
    ensures { result ≡ place_in (ids tasks.now) id }
{
    first_task(tasks, id)
}

/// A task leads to another one exactly where there is a walk of tasks, each of which depends on the next.
pub fn walks_are_found()
    ensures { LeadsByWalks }
{}

/// A board is acyclic exactly where no walk of tasks leads from one back to it.
pub fn acyclic_boards_have_no_walks_back()
    ensures { IsAcyclicByWalks }
{}
