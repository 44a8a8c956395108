ghost use Rattle.std.specs.Prelude.{◌≡◌, IfOk};
ghost use Rattle.tb_board.specs.Changing.{Follows};
ghost use Rattle.tb_core.specs.ImportJson.{judged_import_json, refusal_of};
ghost use Rattle.tb_core.specs.Refusals.{Gives};

use crate::command::AnswerDetail;
use crate::judged::{CommandFailure, Judged};
use crate::refusal::Refusal;
use std::alloc::Global;
use tb_board::Draft;
use tb_import::{ImportFailure, ImportRefusal, Imported, import_tasks};
use tb_task::Incoming;

/// Adds the new tasks of an import to a board that is awake.
pub fn import_json(
    alloc: Global,
    draft: Draft,
    tasks: &[Incoming],
) -> Result<Judged, CommandFailure>
    ensures gives { Gives result (judged_import_json draft.board tasks.now) }
    ensures follows { IfOk result (λ judged. Follows draft judged.draft) }
{
    match import_tasks(alloc, draft, tasks) {
        Ok(Imported { draft, counts }) => Ok(Judged {
            draft,
            detail: AnswerDetail::Imported(counts),
        }),
        Err(ImportFailure::Refused(refusal)) => Err(CommandFailure::Refused(refusal_from(refusal))),
        Err(ImportFailure::Memory) => Err(CommandFailure::Memory),
    }
}

fn refusal_from(refusal: ImportRefusal) -> Refusal
    ensures { result ≡ refusal_of refusal }
{
    match refusal {
        ImportRefusal::BadTask { at, field } => Refusal::BadTaskAt { at, field },
        ImportRefusal::Cycle => Refusal::Cycle,
        ImportRefusal::Full => Refusal::Full,
    }
}
