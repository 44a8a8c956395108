ghost use Rattle.std.specs.Prelude.{◌≡◌, ◌↔◌, IsTrue, ◌<◌, [], ◌∷◌, ◌++◌, IfSome, MatchOption, OnErr, OnOk, List, ℕ, false, length, position, slice_get, slice_index_or, slice_set};
ghost use Rattle.std.specs.List.{list_any};
ghost use Rattle.std.specs.Option.{option_copied};
ghost use Rattle.std.specs.Slice.{IsItemAt};
ghost use Rattle.tb_board.specs.Tasks.{ArePlaces, has_id, ids, place_in, wakes};
ghost use Rattle.tb_board.specs.First.{IsFirst, IsNone};
ghost use Rattle.tb_board.specs.TaskIndex.{IsIndexOf, IsLeastFree, IsLike};
ghost use Rattle.tb_board.specs.TemplateIndex.{IsTemplateIndex};
ghost use Rattle.tb_task.specs.declared.task.Task.{Task as TaskValue};

use crate::links::place_by_id;
use crate::task_index::TaskIndex;
use crate::template_index::TemplateIndex;
use std::alloc::{AllocError, Global};
use std::collections::BTreeMap;
use std::marker::Model;
use tb_task::{Moment, Task, TaskId, is_recurring_status};
use tb_values::{Duplicate, Items, Shared};

/// The tasks of a board in order of entry, with an index if one was made. A contract sees the tasks alone.
#[derive(Drop)]
pub struct TaskList {
    tasks: Items<Shared<Task>>,
    index: Option<TaskIndex>,
}

impl Model for TaskList {
    ghost use Rattle.std.specs.Prelude.{IfSome, List};
    ghost use Rattle.tb_board.specs.TaskIndex.{IsIndexOf};
    ghost use Rattle.tb_task.specs.declared.task.Task.{Task as TaskValue};

    ghost Value = { List TaskValue };

    ghost view = { λ l. l.tasks };

    ghost invariant = { λ l. IfSome l.index (IsIndexOf l.tasks) };
}

impl TaskList {
    pub fn new(alloc: Global) -> TaskList
        ensures { result ≡ [] }
    {
        TaskList::of(Items::new(alloc))
    }

    /// These tasks, without an index.
    pub fn of(tasks: Items<Shared<Task>>) -> TaskList
        ensures { result ≡ tasks }
    {
        TaskList { tasks, index: None }
    }

    pub fn len(&self) -> usize
        ensures { result ≡ length self.now }
    {
        self.tasks.len()
    }

    pub fn is_empty(&self) -> bool
        ensures { IsTrue result ↔ (self.now ≡ []) }
    {
        self.tasks.is_empty()
    }

    pub fn get(&self, place: usize) -> Option<&Shared<Task>>
        ensures value { option_copied result ≡ slice_get self.now place }
        ensures item { IsItemAt self.now place result }
    {
        self.tasks.get(place)
    }

    pub fn as_slice(&self) -> &[Shared<Task>]
        ensures { result.now ≡ self.now }
    {
        self.tasks.as_slice()
    }

    /// Puts a task last. Without memory nothing changes.
    pub fn push(&mut self, task: Shared<Task>) -> Result<(), AllocError>
        ensures ok { OnOk result (self.new ≡ self.old ++ task ∷ []) }
        ensures err { OnErr result (self.new ≡ self.old) }
    {
        let index = match self.index.take() {
            Some(index) => index_with(index, self.tasks.as_slice(), task.get()),
            None => None,
        };
        self.tasks.push(task)?;
        self.index = index;
        Ok(())
    }

    /// Puts another task at a place.
    pub fn set(&mut self, place: usize, task: Shared<Task>)
        requires { place < length self.old }
        ensures { self.new ≡ slice_set self.old place task }
    {
        let index = match self.index.take() {
            Some(index) => index_with_other(index, self.tasks.as_slice()[place].get(), task.get()),
            None => None,
        };
        self.tasks.set(place, task);
        self.index = index;
    }

    /// Makes the index, for the numbers of a board. Without memory there is none: all is found without it too, in more time.
    pub fn make_index(&mut self, alloc: Global, board: u32)
        ensures { self.new ≡ self.old }
    {
        self.index = match TaskIndex::of(alloc, self.tasks.as_slice(), board) {
            Ok(index) => index,
            Err(_) => None,
        };
    }

    /// Goes through the tasks once more where some were replaced, to note which one wakes first.
    pub fn tighten_index(&mut self)
        ensures { self.new ≡ self.old }
    {
        if let Some(index) = self.index.take() {
            self.index = Some(index.tightened(self.tasks.as_slice()));
        }
    }

    /// The place of the first task of that identifier.
    pub fn place_of(&self, id: TaskId) -> Option<usize>
        ensures place { result ≡ place_in (ids self.now) id }
        ensures position { result ≡ position (has_id id) self.now }
        ensures first { MatchOption result (IsNone (has_id id) self.now) (IsFirst (has_id id) self.now) }
    {
        self.sought_place(id)
    }

    fn sought_place(&self, id: TaskId) -> Option<usize>
        ensures { result ≡ place_in (ids self.now) id }
    {
        match &self.index {
            Some(index) => index.place_of(id),
            None => place_by_id(self.tasks.as_slice(), id),
        }
    }

    /// The places of all identifiers, if there is an index.
    pub fn places(&self) -> Option<&BTreeMap<TaskId, usize>>
        ensures { IfSome result (λ places. ArePlaces (ids self.now) places.now) }
    {
        match &self.index {
            Some(index) => Some(&index.places),
            None => None,
        }
    }

    /// Whether a task may wake at the moment. Where this says no, none does.
    pub fn may_wake(&self, at: Moment) -> bool
        ensures { result ≡ false → list_any (wakes at) self.now ≡ false }
    {
        match &self.index {
            Some(index) => index.may_wake(at),
            None => true,
        }
    }

    /// What is noted of templates, if there is an index.
    pub fn templates(&self) -> Option<&TemplateIndex>
        ensures { IfSome result (λ templates. IsTemplateIndex self.now templates.now) }
    {
        match &self.index {
            Some(index) => Some(&index.templates),
            None => None,
        }
    }

    /// The least number that the board can give to a new task, if the index has it.
    pub fn least_free(&self, board: u32) -> Option<u32>
        ensures { IfSome result (IsLeastFree (ids self.now) board) }
    {
        match &self.index {
            Some(index) if index.board == board => Some(index.least_free),
            _ => None,
        }
    }
}

fn index_with(index: TaskIndex, tasks: &[Shared<Task>], task: &Task) -> Option<TaskIndex>
    requires { IsIndexOf tasks.now index }
    ensures { IfSome result (IsIndexOf (tasks.now ++ task.now ∷ [])) }
{
    match index.with(tasks, task) {
        Ok(index) => index,
        Err(_) => None,
    }
}

/// A task that isn't like the one whose place it takes has the index dropped.
fn index_with_other(index: TaskIndex, old: &Task, new: &Task) -> Option<TaskIndex>
    ensures { (ts : List TaskValue) (place : ℕ) → IsIndexOf ts index → place < length ts
        → old.now ≡ slice_index_or ts place old.now
        → IfSome result (IsIndexOf (slice_set ts place new.now)) }
{
    if !is_like(old, new) {
        return None;
    }
    Some(index.with_other(old, new))
}

/// Whether the new task can take the old one's place in an index.
fn is_like(old: &Task, new: &Task) -> bool
    ensures { IsTrue result → IsLike old.now new.now }
{
    let recurs = is_recurring_status(old.status) || !is_recurring_status(new.status);
    new.id == old.id && new.parent == old.parent && new.imask == old.imask && recurs
}

/// The tasks are shared with the list that is duplicated, and there is no index.
impl Duplicate for TaskList {
    fn duplicate(&self) -> Result<TaskList, AllocError> {
        Ok(TaskList::of(self.tasks.duplicate()?))
    }
}
