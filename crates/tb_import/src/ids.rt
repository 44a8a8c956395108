ghost use Rattle.std.specs.Prelude.{◌≡◌, ◌==◌, ◌||◌, ℕ, false, IfOk, OnOk};
ghost use Rattle.tb_board.specs.Board.{is_on};
ghost use Rattle.tb_import.specs.Sets.{has};

use std::alloc::{AllocError, Global};
use std::collections::BTreeSet;
use tb_board::Board;
use tb_task::TaskId;

/// A set of identifiers.
#[derive(Drop)]
pub struct Ids {
    set: BTreeSet<TaskId>,
}

impl Ids {
    pub fn new(alloc: Global) -> Ids
        ensures { (q : ℕ) → has result q ≡ false }
    {
        Ids {
            set: BTreeSet::new(alloc),
        }
    }

    /// The identifiers of the tasks of a board.
    pub fn on(alloc: Global, board: &Board) -> Result<Ids, AllocError>
        ensures { IfOk result (λ ids. (q : ℕ) → has ids q ≡ is_on board.now q) }
    {
        let mut ids = Ids::new(alloc);
        for task in board.tasks.as_slice() {
            ids.insert(task.get().id)?;
        }
        Ok(ids)
    }

    pub fn has(&self, id: TaskId) -> bool
        ensures { result ≡ has self.now id }
    {
        self.set.contains(&id)
    }

    pub fn insert(&mut self, id: TaskId) -> Result<(), AllocError>
        ensures { OnOk result ((q : ℕ) → has self.new q ≡ (has self.old q || id == q)) }
    {
        self.set.insert(id)?;
        Ok(())
    }
}
