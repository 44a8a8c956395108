ghost use Rattle.std.specs.Prelude.{◌≡◌, IfOk};
ghost use Rattle.tb_core.specs.Effect.{Fits, GivesEffect};
ghost use Rattle.tb_core.specs.Modify.{is_fixed, is_misplaced, judged_modify};

use crate::command::AnswerDetail;
use crate::edits::{is_named, modified_task};
use crate::effect::{BoardChange, Effect};
use crate::judged::CommandFailure;
use crate::refusal::Refusal;
use std::alloc::Global;
use tb_board::{Board, is_open_status, is_template_task};
use tb_task::{Edit, Field, Moment, Task, TaskId, check};

/// Sets and removes attributes of one task of a board that is awake.
pub fn modify(
    alloc: Global,
    board: &Board,
    id: TaskId,
    edits: &[Edit],
    at: Moment,
) -> Result<Effect, CommandFailure>
    ensures gives { GivesEffect board.now result (judged_modify board.now id edits.now at) }
    ensures fits { IfOk result (λ effect. Fits board.now effect.change) }
{
    let Some(place) = board.tasks.place_of(id) else {
        return Err(CommandFailure::Refused(Refusal::NoTask));
    };
    let task = board.task_at(place);
    if !is_open_status(task.status) {
        return Err(CommandFailure::Refused(Refusal::WrongStatus));
    }
    if has_misplaced_step(edits, task) {
        return Err(CommandFailure::Refused(Refusal::BadTask(Field::BadPair)));
    }
    let later = modified_task(alloc, task, edits, at)?;
    if let Err(fault) = check(&later) {
        return Err(CommandFailure::Refused(Refusal::BadTask(fault)));
    }
    if is_template_fixed(edits, task) {
        return Err(CommandFailure::Refused(Refusal::TemplateFixed));
    }
    Ok(Effect {
        change: BoardChange::Set { place, task: later },
        detail: AnswerDetail::Changed { id },
    })
}

/// Whether a step is named that only a template has.
fn has_misplaced_step(edits: &[Edit], task: &Task) -> bool
    ensures { result ≡ is_misplaced edits.now task.now }
{
    is_named(edits, "recur") && !is_template_task(task)
}

fn is_template_fixed(edits: &[Edit], task: &Task) -> bool
    ensures { result ≡ is_fixed edits.now task.now }
{
    is_template_task(task) && (is_named(edits, "due") || is_named(edits, "recur"))
}
