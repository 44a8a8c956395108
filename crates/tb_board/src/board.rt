ghost use Rattle.std.specs.Prelude.{◌≡◌, ◌<◌, [], length, IfOk, slice_index_or};
ghost use Rattle.tb_board.specs.Board.{is_on};

use crate::ahead::Ahead;
use crate::gone::Gone;
use crate::task_list::TaskList;
use crate::title::Title;
use std::alloc::{AllocError, Global};
use tb_task::{Task, TaskId};
use tb_values::{Duplicate, Items};

/// A board: its tasks in order of entry, the gone places of its templates, and how many instances ahead it looks. A copy of a board
/// copies no task.
#[derive(Drop)]
pub struct Board {
    pub number: u32,
    pub title: Title,
    pub tasks: TaskList,
    pub gone: Items<Gone>,
    pub ahead: Ahead,
}

impl Board {
    /// A board without tasks, which looks one ahead.
    pub fn new(alloc: Global, number: u32, title: Title) -> Board
        ensures { result
            ≡ record { number = number; title = title; tasks = []; gone = []; ahead = 1 } }
    {
        Board {
            number,
            title,
            tasks: TaskList::new(alloc),
            gone: Items::new(alloc),
            ahead: Ahead::one(),
        }
    }

    /// An equal board, which shares its tasks with this one.
    pub fn copy(&self) -> Result<Board, AllocError>
        ensures { IfOk result (λ copied. copied ≡ self.now) }
    {
        self.duplicate()
    }

    /// The task at a place, counted from 0.
    pub fn task_at(&self, place: usize) -> &Task
        requires { place < length self.now.tasks }
        ensures { result.now ≡ slice_index_or self.now.tasks place result.now }
    {
        self.tasks.as_slice()[place].get()
    }

    /// Whether a task of the board has this identifier.
    pub fn has(&self, id: TaskId) -> bool
        ensures { result ≡ is_on self.now id }
    {
        self.tasks.place_of(id).is_some()
    }
}

impl Duplicate for Board {
    fn duplicate(&self) -> Result<Board, AllocError> {
        let title = self.title.duplicate()?;
        let tasks = self.tasks.duplicate()?;
        let gone = self.gone.duplicate()?;
        Ok(Board {
            number: self.number,
            title,
            tasks,
            gone,
            ahead: self.ahead,
        })
    }
}
