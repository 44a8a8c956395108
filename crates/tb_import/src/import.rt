ghost use Rattle.std.specs.Prelude.{◌≡◌, ◌+◌, not, ℕ, IfOk, sum_by, count_by};
ghost use Rattle.tb_board.specs.Changing.{Follows};
ghost use Rattle.tb_import.specs.Import.{board_after, counts_after, counts_of, with_new_tasks};
ghost use Rattle.tb_import.specs.Known.{IsKnown};
ghost use Rattle.tb_import.specs.News.{is_there};
ghost use Rattle.tb_import.specs.Refusal.{Gives, is_cyclic, is_too_full, judged_import};
ghost use Rattle.tb_import.specs.Sets.{has};
ghost use Rattle.tb_task.specs.declared.incoming.Incoming.{Incoming};

use crate::entering::{Entering, Known, enter_all};
use crate::faults::first_bad_task;
use crate::ids::Ids;
use crate::imported::{ImportCounts, Imported};
use crate::masks::set_masks;
use crate::news::NewTasks;
use crate::parents::parents_of;
use crate::places::Places;
use crate::refusal::{ImportFailure, ImportRefusal};
use std::alloc::{AllocError, Global};
use tb_board::{Board, Draft, is_acyclic_board};
use tb_task::{Incoming, MOST_TASKS, TaskId};

/// Puts the new tasks of a list on a board that is awake, in time that grows little faster than the board and the list but for
/// one pass over the gone places for each instance.
pub fn import_tasks(
    alloc: Global,
    draft: Draft,
    list: &[Incoming],
) -> Result<Imported, ImportFailure>
    ensures gives { Gives result (judged_import draft.board list.now) }
    ensures follows { IfOk result (λ imported. Follows draft imported.draft) }
{
    if let Some(refusal) = first_bad_task(list) {
        return Err(ImportFailure::Refused(refusal));
    }
    let imported = with_new(alloc, draft, list)?;
    if is_cyclic(alloc, &imported.draft.board)? {
        return Err(ImportFailure::Refused(ImportRefusal::Cycle));
    }
    if is_too_full(&imported.draft.board) {
        return Err(ImportFailure::Refused(ImportRefusal::Full));
    }
    Ok(imported)
}

fn is_cyclic(alloc: Global, board: &Board) -> Result<bool, AllocError>
    ensures { IfOk result (λ answer. answer ≡ is_cyclic board.now) }
{
    let acyclic = is_acyclic_board(alloc, board)?;
    Ok(!acyclic)
}

fn is_too_full(board: &Board) -> bool
    ensures { result ≡ is_too_full board.now }
{
    board.tasks.len() > MOST_TASKS
}

/// The board with the new tasks, whatever their links and however many they are.
fn with_new(alloc: Global, draft: Draft, list: &[Incoming]) -> Result<Imported, AllocError>
    ensures board { IfOk result
        (λ imported. imported.draft.board ≡ board_after draft.board list.now) }
    ensures counts { IfOk result (λ imported. imported.counts ≡ counts_after draft.board list.now) }
    ensures follows { IfOk result (λ imported. Follows draft imported.draft) }
{
    let NewTasks { tasks, ids } = NewTasks::find(alloc, &draft.board, list)?;
    let known = known_of(alloc, &draft.board, ids, tasks.as_slice())?;
    enter_new(alloc, draft, list, tasks.as_slice(), &known)
}

/// What is known of a board and the new tasks, whose identifiers are these.
fn known_of(alloc: Global, board: &Board, ids: Ids, new: &[Incoming]) -> Result<Known, AllocError>
    requires { (q : ℕ) → has ids q ≡ is_there board.now new.now q }
    ensures { IfOk result (IsKnown board.now new.now) }
{
    let parents = parents_of(alloc, board, new)?;
    Ok(Known { ids, parents })
}

/// The new tasks of the list go to the board.
fn enter_new(
    alloc: Global,
    draft: Draft,
    list: &[Incoming],
    new: &[Incoming],
    known: &Known,
) -> Result<Imported, AllocError>
    requires { IsKnown draft.board new.now known.now }
    ensures board { IfOk result
        (λ imported. imported.draft.board ≡ with_new_tasks draft.board new.now) }
    ensures counts { IfOk result
        (λ imported. imported.counts ≡ counts_of draft.board list.now new.now) }
    ensures follows { IfOk result (λ imported. Follows draft imported.draft) }
{
    let dropped = dropped_of(new)?;
    let unlinked = unlinked_of(new, &known.ids)?;
    let draft = set_masks(draft, new)?;
    let places = Places::of(alloc, draft.board.gone.as_slice())?;
    let entering = Entering {
        draft,
        places,
        orphans: 0,
    };
    let entering = enter_all(alloc, entering, known, new)?;
    let Entering { draft, orphans, .. } = entering;
    let counts = ImportCounts {
        known: list.len().saturating_sub(new.len()),
        new: new.len(),
        dropped,
        orphans,
        unlinked,
    };
    Ok(Imported { draft, counts })
}

/// How many members of the new tasks were dropped. A count that no memory could hold the tasks of is want of memory.
fn dropped_of(new: &[Incoming]) -> Result<usize, AllocError>
    ensures { IfOk result (λ dropped. dropped ≡ sum_by (λ (i : Incoming). i.dropped) new.now) }
{
    let mut dropped = 0usize;
    for incoming in new {
        dropped = sum(dropped, incoming.dropped as usize)?;
    }
    Ok(dropped)
}

/// How many links of the new tasks lead to no task that is known.
fn unlinked_of(new: &[Incoming], ids: &Ids) -> Result<usize, AllocError>
    ensures { IfOk result
        (λ unlinked. unlinked
        ≡ sum_by (λ (i : Incoming). count_by (λ id. not (has ids.now id)) i.task.depends) new.now) }
{
    let mut unlinked = 0usize;
    for incoming in new {
        unlinked = sum(unlinked, unknown_in(incoming.task.depends.as_slice(), ids))?;
    }
    Ok(unlinked)
}

fn unknown_in(depends: &[TaskId], ids: &Ids) -> usize
    ensures { result ≡ count_by (λ id. not (has ids.now id)) depends.now }
{
    depends.iter().filter(|id| !ids.has(**id)).count()
}

fn sum(one: usize, other: usize) -> Result<usize, AllocError>
    ensures { IfOk result (λ both. both ≡ one + other) }
{
    match one.checked_add(other) {
        Some(both) => Ok(both),
        None => Err(AllocError),
    }
}
