ghost use Rattle.std.specs.Prelude.{◌≡◌, ◌∷◌, [], IfOk, IsTrue, slice_set};
ghost use Rattle.tb_board.specs.Changing.{Follows};
ghost use Rattle.tb_board.specs.declared.change.Change.TheVariants.{PutTask, SetAhead, SetTitle};
ghost use Rattle.tb_core.specs.Effect.{after, Fits, IsStill, KeepsQuiet, changes_by};
ghost use Rattle.tb_sweep.specs.Quiet.{IsQuiet};

use crate::command::{AnswerDetail, Import};
use crate::judged::Judged;
use std::alloc::{AllocError, Global};
use tb_board::{Ahead, Board, Change, Draft, Title, has_waited};
use tb_task::{Moment, Task, is_recurring_status};
use tb_values::{Items, Shared};

/// How a command changes a board.
#[derive(Drop)]
pub enum BoardChange {
    /// Another task stands at this place.
    Set { place: usize, task: Task },
    /// A task goes last.
    Push { task: Task },
    /// All stay.
    Stay,
    /// All stay, and the board looks so many instances ahead.
    LookAhead { ahead: Ahead },
    /// All stay, and the board has this title.
    Retitle { title: Title },
}

/// What an accepted command makes of a board, of which it changes one task at most.
#[derive(Drop)]
pub struct Effect {
    pub change: BoardChange,
    pub detail: AnswerDetail,
}

/// What a command is to make of a board.
#[derive(Drop)]
pub enum Plan<'c> {
    /// One change at most.
    Effect(Effect),
    /// What an import adds.
    Import(&'c Import),
}

impl Effect {
    /// Makes it on a draft.
    pub fn make(self, alloc: Global, draft: Draft) -> Result<Judged, AllocError>
        requires { Fits draft.board self.change }
        ensures board { IfOk result (λ judged. judged.draft.board ≡ after draft.board self.change) }
        ensures detail { IfOk result (λ judged. judged.detail ≡ self.detail) }
        ensures follows { IfOk result (λ judged. Follows draft judged.draft) }
    {
        let Effect { change, detail } = self;
        let draft = change.make(alloc, draft)?;
        Ok(Judged { draft, detail })
    }
}

impl BoardChange {
    fn make(self, alloc: Global, draft: Draft) -> Result<Draft, AllocError>
        requires { Fits draft.board self }
        ensures board { IfOk result (λ later. later.board ≡ after draft.board self) }
        ensures follows { IfOk result (Follows draft) }
    {
        match self {
            BoardChange::Set { place, task } => draft.set(alloc, place, task),
            BoardChange::Push { task } => draft.push(alloc, task),
            BoardChange::Stay => Ok(draft),
            BoardChange::LookAhead { ahead } => draft.set_ahead(ahead),
            BoardChange::Retitle { title } => draft.set_title(&title),
        }
    }

    /// The changes by which it is made on a board.
    pub fn into_changes(self, alloc: Global, board: &Board) -> Result<Items<Change>, AllocError>
        ensures { IfOk result (λ changes. changes ≡ changes_by board.now self) }
    {
        match self {
            BoardChange::Set { place, task } => one_change(alloc, board.number, place, task),
            BoardChange::Push { task } => one_change(alloc, board.number, board.tasks.len(), task),
            BoardChange::Stay => Ok(Items::new(alloc)),
            BoardChange::LookAhead { ahead } => ahead_change(alloc, board.number, ahead),
            BoardChange::Retitle { title } => title_change(alloc, board.number, title),
        }
    }

    /// Whether it surely leaves a board quiet that is. Else the sweep has to be tried.
    pub fn keeps_quiet(&self, board: &Board, at: Moment) -> bool
        ensures { IsTrue result → KeepsQuiet at board.now self.now }
    {
        match self {
            BoardChange::Set { place, task } => keeps_quiet_at(board, *place, task, at),
            BoardChange::Push { task } => is_still(task, at),
            BoardChange::Stay => true,
            BoardChange::LookAhead { .. } | BoardChange::Retitle { .. } => false,
        }
    }
}

fn one_change(
    alloc: Global,
    board: u32,
    place: usize,
    task: Task,
) -> Result<Items<Change>, AllocError>
    ensures { IfOk result (λ changes. changes ≡ PutTask board place task ∷ []) }
{
    let task = Shared::new(alloc, task)?;
    let mut changes = Items::new(alloc);
    changes.push(Change::PutTask { board, place, task })?;
    Ok(changes)
}

fn ahead_change(alloc: Global, board: u32, ahead: Ahead) -> Result<Items<Change>, AllocError>
    ensures { IfOk result (λ changes. changes ≡ SetAhead board ahead ∷ []) }
{
    let mut changes = Items::new(alloc);
    changes.push(Change::SetAhead { board, ahead })?;
    Ok(changes)
}

fn title_change(alloc: Global, board: u32, title: Title) -> Result<Items<Change>, AllocError>
    ensures { IfOk result (λ changes. changes ≡ SetTitle board title ∷ []) }
{
    let mut changes = Items::new(alloc);
    changes.push(Change::SetTitle { board, title })?;
    Ok(changes)
}

/// Whether the task at a place can become another one, and a quiet board stays quiet.
fn keeps_quiet_at(board: &Board, place: usize, task: &Task, at: Moment) -> bool
    ensures { IsTrue result → IsQuiet at board.now
        → IsQuiet at (record board.now { tasks = slice_set board.now.tasks place task.now }) }
{
    match board.tasks.get(place) {
        Some(old) => is_still(task, at) && has_same_place(old.get(), task),
        None => false,
    }
}

/// Whether both are the same instance of a template, or none.
fn has_same_place(old: &Task, new: &Task) -> bool
    ensures parent { IsTrue result → new.now.parent ≡ old.now.parent }
    ensures place { IsTrue result → new.now.imask ≡ old.now.imask }
{
    new.parent == old.parent && new.imask == old.imask
}

/// Whether the task neither wakes at the moment nor recurs.
fn is_still(task: &Task, at: Moment) -> bool
    ensures { IsTrue result → IsStill at task.now }
{
    !has_waited(task, at) && !is_recurring_status(task.status)
}
