ghost use Rattle.std.specs.Prelude.{◌≡◌, Option, Some, IfOk, IfErr};
ghost use Rattle.std.specs.BTreeSet.{replace_key};
ghost use Rattle.std.specs.List.{list_any};
ghost use Rattle.std.specs.Ordering.{nat_cmp};
ghost use Rattle.tb_board.specs.Links.{leads_on};
ghost use Rattle.tb_core.specs.Linking.{closes_walk, depends_on, IsPlaceToLink, judged_depend, judged_undepend, link_refusals, unlinked};
ghost use Rattle.tb_core.specs.Effect.{Fits, GivesEffect};
ghost use Rattle.tb_core.specs.Refusals.{Fails, least, unless_refused};
ghost use Rattle.tb_core.specs.declared.command.AnswerDetail.{AnswerDetail};
ghost use Rattle.tb_core.specs.declared.refusal.Refusal.{Refusal};
ghost use Rattle.tb_board.specs.declared.board.Board.{Board};

use crate::command::AnswerDetail;
use crate::effect::{BoardChange, Effect};
use crate::judged::CommandFailure;
use crate::refusal::Refusal;
use std::alloc::{AllocError, Global};
use tb_board::{Board, is_led, is_open_status};
use tb_task::{Moment, Task, TaskId};
use tb_values::Duplicate;

/// A task depends on another one, on a board that is awake.
pub fn depend(
    alloc: Global,
    board: &Board,
    id: TaskId,
    on: TaskId,
    at: Moment,
) -> Result<Effect, CommandFailure>
    ensures gives { GivesEffect board.now result (judged_depend board.now id on at) }
    ensures fits { IfOk result (λ effect. Fits board.now effect.change) }
{
    let place = place_to_link(board, id, on)?;
    let task = board.task_at(place);
    if is_cycle(alloc, board, id, on)? {
        return Err(CommandFailure::Refused(Refusal::Cycle));
    }
    if is_linked_to(task, on) {
        return Ok(Effect {
            change: BoardChange::Stay,
            detail: AnswerDetail::Changed { id },
        });
    }
    let task = linked_task(task, on, at)?;
    Ok(Effect {
        change: BoardChange::Set { place, task },
        detail: AnswerDetail::Changed { id },
    })
}

/// A task depends no more on another one, on a board that is awake.
pub fn undepend(board: &Board, id: TaskId, on: TaskId, at: Moment) -> Result<Effect, CommandFailure>
    ensures gives { GivesEffect board.now result (judged_undepend board.now id on at) }
    ensures fits { IfOk result (λ effect. Fits board.now effect.change) }
{
    let place = place_to_link(board, id, on)?;
    let task = board.task_at(place);
    if !is_linked_to(task, on) {
        return Err(CommandFailure::Refused(Refusal::NoLink));
    }
    let task = unlinked_task(task, on, at)?;
    Ok(Effect {
        change: BoardChange::Set { place, task },
        detail: AnswerDetail::Changed { id },
    })
}

/// The place of a task that is open, where the other task is on the board too.
fn place_to_link(board: &Board, id: TaskId, on: TaskId) -> Result<usize, CommandFailure>
    ensures place { IfOk result (IsPlaceToLink board.now id on) }
    ensures refused { IfErr result
        (λ failure. (last : Option Refusal) (later : Board) (detail : AnswerDetail)
        → Fails failure (unless_refused (least (link_refusals board.now id on last)) later detail)) }
{
    let Some(place) = board.tasks.place_of(id) else {
        return Err(CommandFailure::Refused(Refusal::NoTask));
    };
    if !board.has(on) {
        return Err(CommandFailure::Refused(Refusal::NoTask));
    }
    if !is_open_status(board.task_at(place).status) {
        return Err(CommandFailure::Refused(Refusal::WrongStatus));
    }
    Ok(place)
}

/// Whether a link from the first task to the second would close a walk.
fn is_cycle(alloc: Global, board: &Board, id: TaskId, on: TaskId) -> Result<bool, AllocError>
    ensures { IfOk result (λ answer. answer ≡ closes_walk board.now id on) }
{
    if id == on {
        return Ok(true);
    }
    leads_back(alloc, board, id, on)
}

/// Whether the second task depends on the first, directly or by others. The links of all tasks are followed only where one leads there.
fn leads_back(alloc: Global, board: &Board, id: TaskId, on: TaskId) -> Result<bool, AllocError>
    ensures { IfOk result (λ answer. answer ≡ leads_on board.now on id) }
{
    if !is_awaited(board, id) {
        return Ok(false);
    }
    is_led(alloc, board, on, id)
}

/// Whether a task of the board depends directly on this one.
fn is_awaited(board: &Board, id: TaskId) -> bool
    ensures { result ≡ list_any (depends_on id) board.now.tasks }
{
    board
        .tasks
        .as_slice()
        .iter()
        .any(|task| is_linked_to(task.get(), id))
}

fn is_linked_to(task: &Task, on: TaskId) -> bool
    ensures { result ≡ depends_on on task.now }
{
    task.depends.as_slice().iter().any(|id| *id == on)
}

fn linked_task(task: &Task, on: TaskId, at: Moment) -> Result<Task, AllocError>
    ensures { IfOk result
        (λ t. t ≡ record task.now {
          depends = replace_key nat_cmp task.now.depends on;
          modified = Some at;
        }) }
{
    let mut task = task.duplicate()?;
    task.depends.insert(on)?;
    task.modified = Some(at);
    Ok(task)
}

fn unlinked_task(task: &Task, on: TaskId, at: Moment) -> Result<Task, AllocError>
    ensures { IfOk result (λ t. t ≡ unlinked at on task.now) }
{
    let mut task = task.duplicate()?;
    task.depends.remove(&on);
    task.modified = Some(at);
    Ok(task)
}
