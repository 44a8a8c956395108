ghost use Rattle.std.specs.Prelude.{◌≡◌, ◌++◌, ◌∷◌, [], IfOk};
ghost use Rattle.tb_board.specs.Changing.{Follows};
ghost use Rattle.tb_import.specs.Entering.{is_new_template, marked_from, mask_in};
ghost use Rattle.tb_import.specs.Import.{with_masks};

use crate::faults::is_linked;
use std::alloc::AllocError;
use tb_board::{Draft, Gone};
use tb_task::{Incoming, Mark, Mask, TaskId};

/// The places of the new templates' masks are gone.
pub fn set_masks(draft: Draft, new: &[Incoming]) -> Result<Draft, AllocError>
    ensures board { IfOk result (λ later. later.board ≡ with_masks draft.board new.now) }
    ensures follows { IfOk result (Follows draft) }
{
    let mut draft = draft;
    for incoming in new {
        draft = set_mask(draft, incoming)?;
    }
    Ok(draft)
}

/// Whether the new task has instances of its own.
pub fn is_new_template(incoming: &Incoming) -> bool
    ensures { result ≡ is_new_template incoming.now }
{
    incoming.task.recur.is_some() && !is_linked(incoming)
}

fn set_mask(draft: Draft, incoming: &Incoming) -> Result<Draft, AllocError>
    ensures board { IfOk result
        (λ later. later.board
        ≡ record draft.board {
          gone = draft.board.gone
              ++ marked_from incoming.now.task.id 0 (mask_in incoming.now);
        }) }
    ensures follows { IfOk result (Follows draft) }
{
    if !is_new_template(incoming) {
        return Ok(draft);
    }
    match &incoming.raw_mask {
        Some(mask) => set_marks(draft, incoming.task.id, mask),
        None => Ok(draft),
    }
}

fn set_marks(draft: Draft, template: TaskId, mask: &Mask) -> Result<Draft, AllocError>
    ensures board { IfOk result
        (λ later. later.board
        ≡ record draft.board { gone = draft.board.gone ++ marked_from template 0 mask.now }) }
    ensures follows { IfOk result (Follows draft) }
{
    let mut draft = draft;
    for place in 0..mask.len() {
        draft = set_mark(draft, template, place, mask.at(place))?;
    }
    Ok(draft)
}

/// A place of the template is gone. Masks with more places than 32 bits can count were refused before as bad tasks.
fn set_mark(draft: Draft, template: TaskId, place: usize, mark: Mark) -> Result<Draft, AllocError>
    ensures board { IfOk result
        (λ later. later.board
        ≡ record draft.board {
          gone = draft.board.gone
              ++ record { template = template; place = place; mark = mark } ∷ [];
        }) }
    ensures follows { IfOk result (Follows draft) }
{
    if place > u32::MAX as usize {
        return Err(AllocError);
    }
    draft.set_gone(&Gone {
        template,
        place: place as u32,
        mark,
    })
}
