ghost use Rattle.std.specs.Prelude.{◌≡◌, ◌||◌, not, is_some, length, nat_lt, unwrap_or, []};
ghost use Rattle.tb_board.specs.Good.{has_template_form};
ghost use Rattle.tb_import.specs.Entering.{is_linked};
ghost use Rattle.tb_import.specs.Refusal.{bad_task, import_fault, is_misread};
ghost use Rattle.tb_task.specs.Limits.{longest_text};

use crate::refusal::ImportRefusal;
use tb_board::has_template_form;
use tb_task::{Field, Incoming, LONGEST_TEXT, Mask, Task, check, is_recurring_status};

/// The first task with a fault, known or new.
pub fn first_bad_task(list: &[Incoming]) -> Option<ImportRefusal>
    ensures { result ≡ bad_task 0 list.now }
{
    for (at, incoming) in list.iter().enumerate() {
        if let Some(field) = fault_in(incoming) {
            return Some(ImportRefusal::BadTask { at, field });
        }
    }
    None
}

fn fault_in(incoming: &Incoming) -> Option<Field>
    ensures { result ≡ import_fault incoming.now }
{
    if let Err(fault) = check(&incoming.task) {
        return Some(fault);
    }
    if is_misread(incoming) {
        return Some(Field::BadPair);
    }
    None
}

/// Whether no reader leaves the task so.
fn is_misread(incoming: &Incoming) -> bool
    ensures { result ≡ is_misread incoming.now }
{
    let misread = if is_linked(incoming) {
        is_recurring_status(incoming.task.status)
    } else {
        is_misformed(&incoming.task)
    };
    misread || is_too_long(&incoming.raw_mask)
}

/// Whether the task came with a parent or with a place in a parent's mask.
pub fn is_linked(incoming: &Incoming) -> bool
    ensures { result ≡ is_linked incoming.now }
{
    incoming.raw_parent.is_some() || incoming.raw_imask.is_some()
}

fn is_misformed(task: &Task) -> bool
    ensures { result ≡ (is_some task.now.parent || not (has_template_form task.now)) }
{
    task.parent.is_some() || !has_template_form(task)
}

fn is_too_long(mask: &Option<Mask>) -> bool
    ensures { result ≡ nat_lt longest_text (length (unwrap_or mask.now [])) }
{
    match mask {
        Some(mask) => mask.len() > LONGEST_TEXT,
        None => false,
    }
}
