ghost use Rattle.std.specs.Prelude.{◌≡◌, ◌<◌, [], ◌∷◌, ◌++◌, length, IfOk, slice_set};
ghost use Rattle.tb_board.specs.Changing.{IsDraft, Follows, with_ahead, with_gone, with_title, without_gone};
ghost use Rattle.tb_board.specs.declared.change.Change.TheVariants.{PutTask};

use crate::ahead::Ahead;
use crate::board::Board;
use crate::change::Change;
use crate::gone::{Gone, gone_without};
use crate::title::Title;
use std::alloc::{AllocError, Global};
use tb_task::{Task, TaskId};
use tb_values::{Duplicate, Items, Shared};

/// A board that is worked on, with the changes that made it.
#[derive(Drop)]
pub struct Draft {
    pub board: Board,
    pub changes: Items<Change>,
}

impl Draft {
    /// A board without changes.
    pub fn of(alloc: Global, board: &Board) -> Result<Draft, AllocError>
        ensures board { IfOk result (λ draft. draft.board ≡ board.now) }
        ensures made { IfOk result (IsDraft board.now) }
    {
        let board = board.duplicate()?;
        Ok(Draft {
            board,
            changes: Items::new(alloc),
        })
    }

    /// Puts another task at a place.
    pub fn set(self, alloc: Global, place: usize, task: Task) -> Result<Draft, AllocError>
        requires { place < length self.board.tasks }
        ensures board { IfOk result
            (λ draft. draft.board
            ≡ record self.board { tasks = slice_set self.board.tasks place task }) }
        ensures follows { IfOk result (Follows self) }
    {
        let Draft {
            mut board,
            mut changes,
        } = self;
        let task = Shared::new(alloc, task)?;
        changes.push(put_task(&board, place, &task)?)?;
        board.tasks.set(place, task);
        Ok(Draft { board, changes })
    }

    /// The changes that made the board.
    pub fn into_changes(self) -> Items<Change>
        ensures { result ≡ self.changes }
    {
        let Draft { changes, .. } = self;
        changes
    }

    /// Puts a task last.
    pub fn push(self, alloc: Global, task: Task) -> Result<Draft, AllocError>
        ensures board { IfOk result
            (λ draft. draft.board ≡ record self.board { tasks = self.board.tasks ++ task ∷ [] }) }
        ensures follows { IfOk result (Follows self) }
    {
        let Draft {
            mut board,
            mut changes,
        } = self;
        let task = Shared::new(alloc, task)?;
        changes.push(put_task(&board, board.tasks.len(), &task)?)?;
        board.tasks.push(task)?;
        Ok(Draft { board, changes })
    }

    /// Puts a gone place last.
    pub fn set_gone(self, gone: &Gone) -> Result<Draft, AllocError>
        ensures board { IfOk result (λ draft. draft.board ≡ with_gone gone.now self.board) }
        ensures follows { IfOk result (Follows self) }
    {
        let Draft {
            mut board,
            mut changes,
        } = self;
        changes.push(Change::SetGone {
            board: board.number,
            gone: *gone,
        })?;
        board.gone.push(*gone)?;
        Ok(Draft { board, changes })
    }

    /// Takes a place of a template's mask, which isn't gone any more.
    pub fn take_gone(self, alloc: Global, template: TaskId, place: u32) -> Result<Draft, AllocError>
        ensures board { IfOk result
            (λ draft. draft.board ≡ without_gone template place self.board) }
        ensures follows { IfOk result (Follows self) }
    {
        let Draft {
            mut board,
            mut changes,
        } = self;
        changes.push(Change::TakeGone {
            board: board.number,
            template,
            place,
        })?;
        board.gone = gone_without(alloc, board.gone.as_slice(), template, place)?;
        Ok(Draft { board, changes })
    }

    /// Lets the board look so many instances ahead.
    pub fn set_ahead(self, ahead: Ahead) -> Result<Draft, AllocError>
        ensures board { IfOk result (λ draft. draft.board ≡ with_ahead ahead self.board) }
        ensures follows { IfOk result (Follows self) }
    {
        let Draft {
            mut board,
            mut changes,
        } = self;
        changes.push(Change::SetAhead {
            board: board.number,
            ahead,
        })?;
        board.ahead = ahead;
        Ok(Draft { board, changes })
    }

    /// Gives the board another title.
    pub fn set_title(self, title: &Title) -> Result<Draft, AllocError>
        ensures board { IfOk result (λ draft. draft.board ≡ with_title title.now self.board) }
        ensures follows { IfOk result (Follows self) }
    {
        let Draft {
            mut board,
            mut changes,
        } = self;
        changes.push(Change::SetTitle {
            board: board.number,
            title: title.duplicate()?,
        })?;
        board.title = title.duplicate()?;
        Ok(Draft { board, changes })
    }
}

fn put_task(board: &Board, place: usize, task: &Shared<Task>) -> Result<Change, AllocError>
    ensures { IfOk result (λ change. change ≡ PutTask board.now.number place task.now) }
{
    let task = task.share()?;
    Ok(Change::PutTask {
        board: board.number,
        place,
        task,
    })
}
