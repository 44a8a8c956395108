ghost use Rattle.std.specs.Prelude.{◌≡◌, IfOk};
ghost use Rattle.std.specs.List.{list_any};
ghost use Rattle.tb_board.specs.Changing.{Follows};
ghost use Rattle.tb_sweep.specs.Counts.{AreCounts};
ghost use Rattle.tb_sweep.specs.Sweeping.{added, lacks, more, sweep, with_wanted};
ghost use Rattle.tb_board.specs.declared.board.Board.{Board};
ghost use Rattle.tb_task.specs.Checks.{is_recurring};
ghost use Rattle.tb_task.specs.declared.task.Task.{Task};

use crate::counts::Counts;
use crate::growing::{Growing, grown_all};
use std::alloc::{AllocError, Global};
use tb_board::{Ahead, Board, Draft, taken_numbers, wake_draft};
use tb_recur::plan_of;
use tb_task::{Moment, Task, is_recurring_status};
use tb_values::Shared;

/// A board after the sweep, how many instances it got, and whether a template still has fewer than it needs.
#[derive(Drop)]
pub struct Swept {
    pub draft: Draft,
    pub added: usize,
    pub more: bool,
}

/// The sweep of a board at a moment.
pub fn sweep_draft(alloc: Global, draft: Draft, at: Moment) -> Result<Swept, AllocError>
    ensures board { IfOk result (λ swept. swept.draft.board ≡ sweep draft.board at) }
    ensures added { IfOk result (λ swept. swept.added ≡ added draft.board at) }
    ensures more { IfOk result (λ swept. swept.more ≡ more (sweep draft.board at) at) }
    ensures follows { IfOk result (λ swept. Follows draft swept.draft) }
{
    let before = draft.board.tasks.len();
    let draft = wake_draft(alloc, draft, at)?;
    if !has_recurring(draft.board.tasks.as_slice()) {
        return Ok(Swept {
            draft,
            added: 0,
            more: false,
        });
    }
    let Growing { draft, counts, .. } = with_wanted(alloc, draft, at)?;
    let added = draft.board.tasks.len().saturating_sub(before);
    let more = some_lacks(&draft.board, &counts, at);
    Ok(Swept { draft, added, more })
}

/// Whether a template recurs. Most boards have none, and need no more than this pass.
pub(crate) fn has_recurring(tasks: &[Shared<Task>]) -> bool
    ensures { result ≡ list_any (λ (t : Task). is_recurring t.status) tasks.now }
{
    tasks
        .iter()
        .any(|task| is_recurring_status(task.get().status))
}

/// A board that is awake, with the instances that are wanted.
fn with_wanted(alloc: Global, draft: Draft, at: Moment) -> Result<Growing, AllocError>
    ensures board { IfOk result (λ g. g.draft.board ≡ with_wanted at draft.board) }
    ensures counts { IfOk result (λ g. AreCounts g.draft.board g.counts) }
    ensures follows { IfOk result (λ g. Follows draft g.draft) }
{
    let marks = taken_numbers(alloc, &draft.board)?;
    let counts = Counts::of(alloc, &draft.board)?;
    let growing = Growing {
        draft,
        counts,
        next: 1,
    };
    grown_all(alloc, growing, &marks, at)
}

/// Whether a template still has fewer places than it needs.
fn some_lacks(board: &Board, counts: &Counts, at: Moment) -> bool
    requires { AreCounts board.now counts.now }
    ensures { result ≡ more board.now at }
{
    board
        .tasks
        .as_slice()
        .iter()
        .any(|task| is_lacking(task.get(), counts, board.ahead, at))
}

/// Whether the task is a template that recurs and its next place is wanted.
fn is_lacking(task: &Task, counts: &Counts, ahead: Ahead, at: Moment) -> bool
    ensures { (b : Board) → AreCounts b counts.now → b.ahead ≡ ahead
        → result ≡ lacks b at task.now }
{
    if !is_recurring_status(task.status) {
        return false;
    }
    let Some(next) = counts.next_place(task.id) else {
        return false;
    };
    match plan_of(task) {
        Some(plan) => plan.wants(ahead.number(), next, at),
        None => false,
    }
}
