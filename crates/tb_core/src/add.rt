ghost use Rattle.std.specs.Prelude.{◌≡◌, ◌<◌, Some, None, length, is_some, IfOk};
ghost use Rattle.std.specs.List.{list_any};
ghost use Rattle.tb_core.specs.Add.{add_fault, add_refusals, entered_id, is_full, is_linked, judged_add, is_misread};
ghost use Rattle.tb_board.specs.Board.{lacks_depends};
ghost use Rattle.tb_core.specs.Effect.{Fits, GivesEffect};
ghost use Rattle.tb_core.specs.Refusals.{least};
ghost use Rattle.tb_task.specs.Limits.{most_tasks};

use crate::command::AnswerDetail;
use crate::effect::{BoardChange, Effect};
use crate::judged::CommandFailure;
use crate::refusal::Refusal;
use std::alloc::{AllocError, Global};
use tb_board::{Board, has_template_form, least_number};
use tb_task::{Field, Incoming, MOST_TASKS, Moment, Task, TaskId, check};
use tb_values::Duplicate;

/// Why the board doesn't take the task, if it doesn't. It is the same for a board that is awake.
pub fn add_refusal(board: &Board, incoming: &Incoming) -> Option<Refusal>
    ensures { result ≡ least (add_refusals board.now incoming.now) }
{
    if lacks_one(board, incoming.task.depends.as_slice()) {
        return Some(Refusal::NoTask);
    }
    if incoming.named && board.has(incoming.task.id) {
        return Some(Refusal::UuidTaken);
    }
    if let Some(fault) = fault_in(incoming) {
        return Some(Refusal::BadTask(fault));
    }
    if has_no_room(board) {
        return Some(Refusal::Full);
    }
    None
}

/// Adds a task to a board that is awake, and that takes it.
pub fn add(
    alloc: Global,
    board: &Board,
    incoming: &Incoming,
    at: Moment,
) -> Result<Effect, CommandFailure>
    requires { least (add_refusals board.now incoming.now) ≡ None }
    ensures gives { GivesEffect board.now result (judged_add board.now incoming.now at) }
    ensures fits { IfOk result (λ effect. Fits board.now effect.change) }
{
    let id = id_for(alloc, board, incoming)?;
    let task = entered_task(&incoming.task, id, at)?;
    let detail = AnswerDetail::Added {
        id,
        dropped: incoming.dropped,
    };
    let change = BoardChange::Push { task };
    Ok(Effect { change, detail })
}

/// Whether one of these isn't on the board.
pub fn lacks_one(board: &Board, ids: &[TaskId]) -> bool
    ensures { result ≡ lacks_depends board.now ids.now }
{
    ids.iter().any(|id| !board.has(*id))
}

fn fault_in(incoming: &Incoming) -> Option<Field>
    ensures { result ≡ add_fault incoming.now }
{
    if let Err(fault) = check(&incoming.task) {
        return Some(fault);
    }
    if is_linked(incoming) || is_misread(&incoming.task) {
        return Some(Field::BadPair);
    }
    None
}

fn is_linked(incoming: &Incoming) -> bool
    ensures { result ≡ is_linked incoming.now }
{
    incoming.raw_parent.is_some() || incoming.raw_imask.is_some() || incoming.raw_mask.is_some()
}

/// Whether no reader leaves the task so.
fn is_misread(task: &Task) -> bool
    ensures { result ≡ is_misread task.now }
{
    task.parent.is_some() || !has_template_form(task)
}

/// Whether the board has as many tasks as a board can have.
fn has_no_room(board: &Board) -> bool
    ensures { result ≡ is_full board.now }
{
    board.tasks.len() >= MOST_TASKS
}

fn id_for(alloc: Global, board: &Board, incoming: &Incoming) -> Result<TaskId, AllocError>
    requires { length board.now.tasks < most_tasks }
    ensures { IfOk result (λ id. id ≡ entered_id board.now incoming.now) }
{
    if incoming.named {
        return Ok(incoming.task.id);
    }
    let number = least_number(alloc, board)?;
    match TaskId::made(board.number, u64::from(number)) {
        Some(id) => Ok(id),
        None => unreachable!(),
    }
}

fn entered_task(task: &Task, id: TaskId, at: Moment) -> Result<Task, AllocError>
    ensures { IfOk result (λ t. t ≡ record task.now { id = id; modified = Some at }) }
{
    let mut task = task.duplicate()?;
    task.id = id;
    task.modified = Some(at);
    Ok(task)
}
