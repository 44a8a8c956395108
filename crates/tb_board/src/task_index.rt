//! What is noted of a list of tasks, so that one needn't go through it.

ghost use Rattle.std.specs.Prelude.{◌≡◌, ◌∷◌, ◌++◌, ◌<◌, ◌≤◌, ℕ, [], IfOk, IfSome, List, false, is_some, length, slice_index_or, slice_set, true};
ghost use Rattle.std.specs.BTreeMap.{get};
ghost use Rattle.std.specs.Ordering.{nat_cmp};
ghost use Rattle.tb_board.specs.Tasks.{ids, ArePlaces, place_in};
ghost use Rattle.tb_board.specs.FirstWait.{may_wake};
ghost use Rattle.tb_board.specs.TaskIndex.{IsIndexOf, IsLeastFree, IsLike};
ghost use Rattle.tb_task.specs.TaskId.{made};
ghost use Rattle.tb_task.specs.declared.task.Task.{Task as TaskValue};

use crate::first_wait::FirstWait;
use crate::links::places_of;
use crate::template_index::TemplateIndex;
use std::alloc::{AllocError, Global};
use std::collections::BTreeMap;
use tb_task::{Moment, Task, TaskId};
use tb_values::Shared;

/// The places of a list's tasks by their identifiers, the least number that a board can give to a new one, from when on a task wakes, and
/// what is noted of templates.
#[derive(Drop)]
pub(crate) struct TaskIndex {
    pub(crate) places: BTreeMap<TaskId, usize>,
    pub(crate) board: u32,
    pub(crate) least_free: u32,
    pub(crate) first_wait: FirstWait,
    /// Whether a task was replaced that may have been the first to wake.
    pub(crate) is_loose: bool,
    pub(crate) templates: TemplateIndex,
}

impl TaskIndex {
    /// The index of a list, for the numbers of a board. None where there is no free number, or more than can be counted.
    pub(crate) fn of(
        alloc: Global,
        tasks: &[Shared<Task>],
        board: u32,
    ) -> Result<Option<TaskIndex>, AllocError>
        ensures { IfOk result (λ index. IfSome index (IsIndexOf tasks.now)) }
    {
        let places = places_of(alloc, tasks)?;
        let Some(least_free) = next_free(&places, board, 1) else {
            return Ok(None);
        };
        let Some(templates) = TemplateIndex::of(alloc, tasks)? else {
            return Ok(None);
        };
        Ok(Some(TaskIndex {
            places,
            board,
            least_free,
            first_wait: FirstWait::of(tasks),
            is_loose: false,
            templates,
        }))
    }

    /// The index of the list with one more task.
    pub(crate) fn with(
        self,
        tasks: &[Shared<Task>],
        task: &Task,
    ) -> Result<Option<TaskIndex>, AllocError>
        requires { IsIndexOf tasks.now self }
        ensures { IfOk result (λ index. IfSome index (IsIndexOf (tasks.now ++ task.now ∷ []))) }
    {
        let TaskIndex {
            places,
            board,
            least_free,
            first_wait,
            is_loose,
            templates,
        } = self;
        let places = places_with(places, tasks, task.id)?;
        let Some(least_free) = next_free(&places, board, least_free) else {
            return Ok(None);
        };
        let Some(templates) = templates.with(tasks.len(), task)? else {
            return Ok(None);
        };
        Ok(Some(TaskIndex {
            places,
            board,
            least_free,
            first_wait: first_wait.with(task),
            is_loose,
            templates,
        }))
    }

    /// The index of a list in which a task takes the place of one that is like it.
    pub(crate) fn with_other(self, old: &Task, new: &Task) -> TaskIndex
        requires { IsLike old.now new.now }
        ensures { (ts : List TaskValue) (place : ℕ) → IsIndexOf ts self → place < length ts
            → old.now ≡ slice_index_or ts place old.now
            → IsIndexOf (slice_set ts place new.now) result }
    {
        let was_noted = FirstWait::new().with(old).is_noted();
        let TaskIndex {
            places,
            board,
            least_free,
            first_wait,
            is_loose,
            templates,
        } = self;
        TaskIndex {
            places,
            board,
            least_free,
            first_wait: first_wait.with(new),
            is_loose: is_loose || was_noted,
            templates,
        }
    }

    /// The same index, with what is noted of the tasks anew if one was replaced.
    pub(crate) fn tightened(self, tasks: &[Shared<Task>]) -> TaskIndex
        requires { IsIndexOf tasks.now self }
        ensures { IsIndexOf tasks.now result }
    {
        if !self.is_loose {
            return self;
        }
        let TaskIndex {
            places,
            board,
            least_free,
            templates,
            ..
        } = self;
        TaskIndex {
            places,
            board,
            least_free,
            first_wait: FirstWait::of(tasks),
            is_loose: false,
            templates,
        }
    }

    /// The place of the first task of that identifier.
    pub(crate) fn place_of(&self, id: TaskId) -> Option<usize>
        ensures { (all : List ℕ) → ArePlaces all self.now.places → result ≡ place_in all id }
    {
        self.places.get(&id).copied()
    }

    /// Whether a task may wake at the moment.
    pub(crate) fn may_wake(&self, at: Moment) -> bool
        ensures { result ≡ may_wake at self.now.first_wait }
    {
        self.first_wait.may_wake(at)
    }
}

/// The places, where a task of this identifier goes last.
fn places_with(
    mut places: BTreeMap<TaskId, usize>,
    tasks: &[Shared<Task>],
    id: TaskId,
) -> Result<BTreeMap<TaskId, usize>, AllocError>
    requires { ArePlaces (ids tasks.now) places }
    ensures { IfOk result (λ later. ArePlaces (ids tasks.now ++ id ∷ []) later) }
{
    if places.contains_key(&id) {
        return Ok(places);
    }
    places.insert(id, tasks.len())?;
    Ok(places)
}

/// The first number from this one on of which the board's identifier has no place.
fn next_free(places: &BTreeMap<TaskId, usize>, board: u32, from: u32) -> Option<u32>
    requires { 1 ≤ from }
    ensures from { IfSome result (λ n. from ≤ n) }
    ensures taken { IfSome result (λ n. (k : ℕ) → from ≤ k → k < n
        → is_some (get nat_cmp places.now (made board k)) ≡ true) }
    ensures vacant { IfSome result
        (λ n. is_some (get nat_cmp places.now (made board n)) ≡ false) }
{
    let mut number = from;
    while is_taken(places, board, number) {
        if number == u32::MAX {
            return None;
        }
        number += 1;
    }
    Some(number)
}

fn is_taken(places: &BTreeMap<TaskId, usize>, board: u32, number: u32) -> bool
    requires { 1 ≤ number }
    ensures { result ≡ is_some (get nat_cmp places.now (made board number)) }
{
    match TaskId::made(board, u64::from(number)) {
        Some(id) => places.contains_key(&id),
        None => unreachable!(),
    }
}
