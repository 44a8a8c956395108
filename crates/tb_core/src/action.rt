ghost use Rattle.std.specs.Prelude.{◌≡◌, IfOk};
ghost use Rattle.tb_core.specs.Action.{acted, action_fault, judged_action, lacks, takes};
ghost use Rattle.tb_core.specs.Effect.{Fits, GivesEffect};

use crate::command::AnswerDetail;
use crate::effect::{BoardChange, Effect};
use crate::judged::CommandFailure;
use crate::notes::{annotated_task, denotated_task, fault_in_note, has_note_of};
use crate::refusal::Refusal;
use crate::transitions::{completed_task, deleted_task, reopened_task, started_task, stopped_task};
use std::alloc::AllocError;
use tb_board::{Board, is_open_status, is_pending_or_waiting_status, is_pending_status};
use tb_task::{Field, Moment, Task, TaskId};
use tb_values::Text;

/// What is done to one task.
#[derive(Drop)]
pub enum Action {
    Done,
    Delete,
    Reopen,
    Start,
    Stop,
    Annotate(Text),
    Denotate(Text),
}

/// What it makes of a task of a board that is awake.
pub fn act(board: &Board, id: TaskId, action: &Action, at: Moment) -> Result<Effect, CommandFailure>
    ensures gives { GivesEffect board.now result (judged_action board.now id action.now at) }
    ensures fits { IfOk result (λ effect. Fits board.now effect.change) }
{
    let Some(place) = board.tasks.place_of(id) else {
        return Err(CommandFailure::Refused(Refusal::NoTask));
    };
    let task = board.task_at(place);
    if !is_taken_by(action, task) {
        return Err(CommandFailure::Refused(Refusal::WrongStatus));
    }
    if let Some(fault) = fault_in(action) {
        return Err(CommandFailure::Refused(Refusal::BadTask(fault)));
    }
    if is_lacking(action, task) {
        return Err(CommandFailure::Refused(Refusal::NoLink));
    }
    let task = acted_task(task, action, at)?;
    Ok(Effect {
        change: BoardChange::Set { place, task },
        detail: AnswerDetail::Changed { id },
    })
}

fn is_taken_by(action: &Action, task: &Task) -> bool
    ensures { result ≡ takes action.now task.now }
{
    match action {
        Action::Done => is_pending_or_waiting_status(task.status),
        Action::Delete => is_open_status(task.status),
        Action::Reopen => !is_open_status(task.status),
        Action::Start => is_pending_status(task.status) && task.start.is_none(),
        Action::Stop => is_pending_status(task.status) && task.start.is_some(),
        Action::Annotate(_) | Action::Denotate(_) => true,
    }
}

fn fault_in(action: &Action) -> Option<Field>
    ensures { result ≡ action_fault action.now }
{
    match action {
        Action::Annotate(text) => fault_in_note(text),
        _ => None,
    }
}

fn is_lacking(action: &Action, task: &Task) -> bool
    ensures { result ≡ lacks action.now task.now }
{
    match action {
        Action::Denotate(text) => !has_note_of(task, text),
        _ => false,
    }
}

fn acted_task(task: &Task, action: &Action, at: Moment) -> Result<Task, AllocError>
    ensures { IfOk result (λ t. t ≡ acted at action.now task.now) }
{
    match action {
        Action::Done => completed_task(task, at),
        Action::Delete => deleted_task(task, at),
        Action::Reopen => reopened_task(task, at),
        Action::Start => started_task(task, at),
        Action::Stop => stopped_task(task, at),
        Action::Annotate(text) => annotated_task(task, text, at),
        Action::Denotate(text) => denotated_task(task, text, at),
    }
}
