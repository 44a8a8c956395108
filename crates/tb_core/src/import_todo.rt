ghost use Rattle.std.specs.Prelude.{◌≡◌, ◌∷◌, [], ◌++◌, List, map, not, IfOk, OnOk};
ghost use Rattle.std.specs.List.{list_any};
ghost use Rattle.tb_board.specs.Board.{with_task};
ghost use Rattle.tb_board.specs.Tasks.{has_id};
ghost use Rattle.tb_board.specs.Changing.{Follows};
ghost use Rattle.tb_core.specs.ImportTodo.{first_bad, judged_import_todo, line_fault, new_beside, HasIdsOf, is_of_no_line, is_pending_or_completed, is_tied};
ghost use Rattle.tb_core.specs.Refusals.{Gives};
ghost use Rattle.tb_task.specs.declared.task.Task.{Task};

use crate::command::AnswerDetail;
use crate::judged::{CommandFailure, Judged};
use crate::refusal::Refusal;
use std::alloc::{AllocError, Global};
use std::collections::BTreeSet;
use tb_board::Draft;
use tb_task::{Field, MOST_TASKS, Status, Task, TaskId, check};
use tb_values::{Duplicate, Shared};

/// Adds the tasks to a board that is awake whose identifiers are new to it.
pub fn import_todo(alloc: Global, draft: Draft, tasks: &[Task]) -> Result<Judged, CommandFailure>
    ensures gives { Gives result (judged_import_todo draft.board tasks.now) }
    ensures follows { IfOk result (λ judged. Follows draft judged.draft) }
{
    if let Some(refusal) = first_bad(tasks) {
        return Err(CommandFailure::Refused(refusal));
    }
    let new = new_tasks(alloc, draft.board.tasks.as_slice(), tasks)?;
    if draft.board.tasks.len().saturating_add(new.len()) > MOST_TASKS {
        return Err(CommandFailure::Refused(Refusal::Full));
    }
    let detail = AnswerDetail::TodoImported {
        known: tasks.len().saturating_sub(new.len()),
        new: new.len(),
    };
    let draft = push_all(alloc, draft, &new)?;
    Ok(Judged { draft, detail })
}

/// The first task with a fault, known or not.
fn first_bad(tasks: &[Task]) -> Option<Refusal>
    ensures { result ≡ first_bad 0 tasks.now }
{
    for (at, task) in tasks.iter().enumerate() {
        if let Some(field) = line_fault(task) {
            return Some(Refusal::BadTaskAt { at, field });
        }
    }
    None
}

fn line_fault(task: &Task) -> Option<Field>
    ensures { result ≡ line_fault task.now }
{
    if let Err(fault) = check(task) {
        return Some(fault);
    }
    if is_of_no_line(task) {
        return Some(Field::BadPair);
    }
    None
}

/// Whether no line makes such a task.
fn is_of_no_line(task: &Task) -> bool
    ensures { result ≡ is_of_no_line task.now }
{
    !is_pending_or_completed_status(task.status) || is_tied(task)
}

fn is_pending_or_completed_status(status: Status) -> bool
    ensures { result ≡ is_pending_or_completed status }
{
    matches!(status, Status::Pending | Status::Completed)
}

/// Whether the task recurs or hangs on another one.
fn is_tied(task: &Task) -> bool
    ensures { result ≡ is_tied task.now }
{
    task.recur.is_some() || task.parent.is_some() || task.imask.is_some() || task.depends.len() != 0
}

/// The tasks whose identifiers none has that was there before.
fn new_tasks<'t>(
    alloc: Global,
    before: &[Shared<Task>],
    tasks: &'t [Task],
) -> Result<Vec<&'t Task>, AllocError>
    ensures { IfOk result
        (λ new. map (λ task. task.now) new.items ≡ new_beside before.now tasks.now) }
{
    let mut known = ids_of(alloc, before)?;
    let mut new = Vec::new(alloc);
    for task in tasks {
        if add_id(&mut known, task.id)? {
            new.push(task)?;
        }
    }
    Ok(new)
}

fn ids_of(alloc: Global, tasks: &[Shared<Task>]) -> Result<BTreeSet<TaskId>, AllocError>
    ensures { IfOk result (HasIdsOf tasks.now) }
{
    let mut ids = BTreeSet::new(alloc);
    for task in tasks {
        keep_id(&mut ids, task.get().id)?;
    }
    Ok(ids)
}

fn keep_id(ids: &mut BTreeSet<TaskId>, id: TaskId) -> Result<(), AllocError>
    ensures { OnOk result ((tasks : List Task) (task : Task) → task.id ≡ id → HasIdsOf tasks ids.old
        → HasIdsOf (tasks ++ task ∷ []) ids.new) }
{
    ids.insert(id)?;
    Ok(())
}

/// Puts the identifier into the set, and tells whether it is new.
fn add_id(ids: &mut BTreeSet<TaskId>, id: TaskId) -> Result<bool, AllocError>
    ensures new { IfOk result (λ new. (tasks : List Task) → HasIdsOf tasks ids.old
        → new ≡ not (list_any (has_id id) tasks)) }
    ensures more { IfOk result (λ new. (tasks : List Task) (task : Task) → task.id ≡ id
        → HasIdsOf tasks ids.old → HasIdsOf (tasks ++ task ∷ []) ids.new) }
{
    Ok(ids.insert(id)?)
}

/// The tasks go last in their order.
fn push_all(alloc: Global, draft: Draft, tasks: &[&Task]) -> Result<Draft, AllocError>
    ensures board { IfOk result
        (λ later. later.board
        ≡ record draft.board { tasks = draft.board.tasks ++ map (λ task. task.now) tasks.now }) }
    ensures follows { IfOk result (Follows draft) }
{
    let mut draft = draft;
    for task in tasks {
        draft = push_copy(alloc, draft, task)?;
    }
    Ok(draft)
}

fn push_copy(alloc: Global, draft: Draft, task: &Task) -> Result<Draft, AllocError>
    ensures board { IfOk result (λ later. later.board ≡ with_task draft.board task.now) }
    ensures follows { IfOk result (Follows draft) }
{
    let task = task.duplicate()?;
    draft.push(alloc, task)
}
