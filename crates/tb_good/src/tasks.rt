//! The tasks of a board.

ghost use Rattle.std.specs.Prelude.{◌≡◌, ◌↔◌, IsTrue, IfOk};
ghost use Rattle.std.specs.List.{list_all};
ghost use Rattle.tb_board.specs.Tasks.{ids};
ghost use Rattle.tb_good.specs.Parts.{HasGoodTasks, is_sound};

use crate::distinct::are_distinct;
use std::alloc::{AllocError, Global};
use tb_board::{Board, has_template_form};
use tb_task::{MOST_TASKS, Task, TaskId, check};
use tb_values::Shared;

/// Whether each task is sound, no two have one identifier, and there aren't too many.
pub(crate) fn has_good_tasks(alloc: Global, board: &Board) -> Result<bool, AllocError>
    ensures { IfOk result (λ answer. IsTrue answer ↔ HasGoodTasks board.now) }
{
    let tasks = board.tasks.as_slice();
    if tasks.len() > MOST_TASKS {
        return Ok(false);
    }
    if !are_sound(tasks) {
        return Ok(false);
    }
    let ids = ids_of(alloc, tasks)?;
    are_distinct(alloc, ids.as_slice())
}

fn ids_of(alloc: Global, tasks: &[Shared<Task>]) -> Result<Vec<TaskId>, AllocError>
    ensures { IfOk result (λ all. all.items ≡ ids tasks.now) }
{
    let mut all = Vec::with_capacity(alloc, tasks.len())?;
    for task in tasks {
        all.push(task.get().id)?;
    }
    Ok(all)
}

fn are_sound(tasks: &[Shared<Task>]) -> bool
    ensures { result ≡ list_all is_sound tasks.now }
{
    tasks.iter().all(|task| is_sound(task.get()))
}

fn is_sound(task: &Task) -> bool
    ensures { result ≡ is_sound task.now }
{
    check(task).is_ok() && has_template_form(task)
}
