//! Which tasks are found, in which order.
ghost use Rattle.std.specs.Prelude.{◌≡◌, ◌++◌, [], IfOk, OnOk};
ghost use Rattle.tb_finding.specs.Order.{due_or_last, first_key, found, key_if_found, key_order, keys_from, place_among, project_place, rank_of, with_project, with_projects};
ghost use Rattle.tb_report.specs.Rank.{ordered};

use crate::look::Look;
use crate::tests::is_found;
use std::alloc::{AllocError, Global};
use std::cmp::Reverse;
use tb_my::{Clock, Query, Sort};
use tb_report::{Rank, urgency_of_task};
use tb_task::{Moment, Task};
use tb_values::{NonEmptyText, Ordered, Shared, Text, TextSet};

/// The second after the last one that a due date can be.
const LAST: u64 = 253_402_300_800;

/// Where a found task stands: what its order goes by, smaller first, and its rank.
pub type Key = (u64, Rank);

/// The found tasks of a board, in the order that is asked for.
#[tactic(auto, unfolding(crate::specs::Order::found))]
pub fn found(
    alloc: Global,
    clock: &Clock,
    query: &Query,
    look: &Look,
) -> Result<Vec<Key>, AllocError>
    ensures { IfOk result (λ keys. keys.items ≡ found clock.now query.now look.now) }
{
    let projects = projects_of(alloc, look.tasks.as_slice())?;
    let keys = keys_of(alloc, clock, query, projects.as_slice(), look)?;
    in_order(keys)
}

fn in_order(mut keys: Vec<Key>) -> Result<Vec<Key>, AllocError>
    ensures { IfOk result (λ sorted. sorted.items ≡ ordered key_order keys.items) }
{
    keys.sort()?;
    Ok(keys)
}

/// The projects of tasks in byte order, each once.
fn projects_of(alloc: Global, tasks: &[Shared<Task>]) -> Result<Ordered<Text>, AllocError>
    ensures { IfOk result (λ projects. projects ≡ with_projects [] tasks.now) }
{
    let mut projects = TextSet::new(alloc);
    for task in tasks {
        add_project(alloc, &mut projects, &task.get().project)?;
    }
    projects.into_ordered(alloc)
}

fn add_project(
    alloc: Global,
    projects: &mut TextSet,
    project: &Option<NonEmptyText>,
) -> Result<(), AllocError>
    ensures { OnOk result (projects.new ≡ with_project projects.old project.now) }
{
    match project {
        Some(project) => projects.insert(alloc, project.as_str()),
        None => Ok(()),
    }
}

fn keys_of(
    alloc: Global,
    clock: &Clock,
    query: &Query,
    projects: &[Text],
    look: &Look,
) -> Result<Vec<Key>, AllocError>
    ensures { IfOk result (λ keys. keys.items
        ≡ keys_from clock.now query.now projects.now look.now 0 look.now.tasks) }
{
    let mut keys = Vec::new(alloc);
    for (place, task) in look.tasks.as_slice().iter().enumerate() {
        add_key(&mut keys, clock, query, projects, look, place, task.get())?;
    }
    Ok(keys)
}

fn add_key(
    keys: &mut Vec<Key>,
    clock: &Clock,
    query: &Query,
    projects: &[Text],
    look: &Look,
    place: usize,
    task: &Task,
) -> Result<(), AllocError>
    ensures { OnOk result (keys.new.items ≡ keys.old.items
        ++ key_if_found clock.now query.now projects.now look.now place task.now) }
{
    if is_found(clock, query, look.is_blocked(place), task) {
        let first = first_key(projects, query.sort, task);
        keys.push((first, rank_of(clock, look, place, task)))?;
    }
    Ok(())
}

fn rank_of(clock: &Clock, look: &Look, place: usize, task: &Task) -> Rank
    ensures { result ≡ rank_of clock.now look.now place task.now }
{
    let urgency = urgency_of_task(
        task,
        look.is_blocked(place),
        look.is_blocking(place),
        clock.moment,
    );
    (Reverse(urgency), place)
}

fn first_key(projects: &[Text], sort: Sort, task: &Task) -> u64
    ensures { result ≡ first_key projects.now sort task.now }
{
    match sort {
        Sort::Urgency => 0,
        Sort::Due => due_or_last(task.due),
        Sort::Project => project_place(projects, &task.project),
    }
}

fn due_or_last(due: Option<Moment>) -> u64
    ensures { result ≡ due_or_last due }
{
    match due {
        Some(due) => due.seconds(),
        None => LAST,
    }
}

fn project_place(projects: &[Text], project: &Option<NonEmptyText>) -> u64
    ensures { result ≡ project_place projects.now project.now }
{
    match project {
        Some(project) => place_among(project.as_str(), projects),
        None => projects.len() as u64,
    }
}

/// How many projects stand before one.
fn place_among(project: &str, projects: &[Text]) -> u64
    ensures { result ≡ place_among project.now projects.now }
{
    for (place, other) in projects.iter().enumerate() {
        if project == other.as_str() {
            return place as u64;
        }
    }
    projects.len() as u64
}
