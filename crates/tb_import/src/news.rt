ghost use Rattle.std.specs.Prelude.{◌≡◌, ◌==◌, ◌||◌, ℕ, [], ◌∷◌, ◌++◌, IfOk, OnOk};
ghost use Rattle.tb_import.specs.News.{is_there, new_tasks};
ghost use Rattle.tb_import.specs.Sets.{has};

use crate::ids::Ids;
use std::alloc::{AllocError, Global};
use tb_board::Board;
use tb_task::Incoming;
use tb_values::{Duplicate, Items};

/// The new tasks of a list, and the identifiers of the board's tasks and theirs.
#[derive(Drop)]
pub struct NewTasks {
    pub tasks: Items<Incoming>,
    pub ids: Ids,
}

impl NewTasks {
    /// The tasks of the list that are neither on the board nor earlier in the list.
    pub fn find(alloc: Global, board: &Board, list: &[Incoming]) -> Result<NewTasks, AllocError>
        ensures tasks { IfOk result (λ new. new.tasks ≡ new_tasks board.now list.now) }
        ensures ids { IfOk result
            (λ new. (q : ℕ) → has new.ids q ≡ is_there board.now new.tasks q) }
    {
        let mut new = NewTasks {
            tasks: Items::new(alloc),
            ids: Ids::on(alloc, board)?,
        };
        for incoming in list {
            if !new.ids.has(incoming.task.id) {
                new.add(incoming)?;
            }
        }
        Ok(new)
    }

    fn add(&mut self, incoming: &Incoming) -> Result<(), AllocError>
        ensures tasks { OnOk result (self.new.tasks ≡ self.old.tasks ++ incoming.now ∷ []) }
        ensures ids { OnOk result
            ((q : ℕ) → has self.new.ids q ≡ (has self.old.ids q || incoming.now.task.id == q)) }
    {
        self.ids.insert(incoming.task.id)?;
        self.tasks.push(copied(incoming)?)
    }
}

fn copied(incoming: &Incoming) -> Result<Incoming, AllocError>
    ensures { IfOk result (λ copied. copied ≡ incoming.now) }
{
    let task = incoming.task.duplicate()?;
    let raw_mask = incoming.raw_mask.duplicate()?;
    Ok(Incoming {
        task,
        named: incoming.named,
        raw_parent: incoming.raw_parent,
        raw_imask: incoming.raw_imask,
        raw_mask,
        dropped: incoming.dropped,
    })
}
