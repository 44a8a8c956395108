ghost use Rattle.std.specs.Prelude.{◌≡◌, ◌||◌, ℕ, IfOk, OnOk};
ghost use Rattle.std.specs.List.{list_any};
ghost use Rattle.tb_board.specs.Instances.{is_template_with};
ghost use Rattle.tb_import.specs.Entering.{is_new_template_with, is_parent};
ghost use Rattle.tb_import.specs.Sets.{has};

use crate::ids::Ids;
use crate::masks::is_new_template;
use std::alloc::{AllocError, Global};
use tb_board::{Board, is_template_task};
use tb_task::{Incoming, Task};
use tb_values::Shared;

/// The identifiers of the templates of a board and of those among the new tasks.
pub fn parents_of(alloc: Global, board: &Board, new: &[Incoming]) -> Result<Ids, AllocError>
    ensures { IfOk result (λ parents. (q : ℕ) → has parents q ≡ is_parent board.now new.now q) }
{
    let mut parents = Ids::new(alloc);
    add_templates(&mut parents, board.tasks.as_slice())?;
    add_new_templates(&mut parents, new)?;
    Ok(parents)
}

fn add_templates(parents: &mut Ids, tasks: &[Shared<Task>]) -> Result<(), AllocError>
    ensures { OnOk result
        ((q : ℕ) → has parents.new q
        ≡ (has parents.old q || list_any (is_template_with q) tasks.now)) }
{
    for task in tasks {
        if is_template_task(task.get()) {
            parents.insert(task.get().id)?;
        }
    }
    Ok(())
}

fn add_new_templates(parents: &mut Ids, new: &[Incoming]) -> Result<(), AllocError>
    ensures { OnOk result
        ((q : ℕ) → has parents.new q
        ≡ (has parents.old q || list_any (is_new_template_with q) new.now)) }
{
    for incoming in new {
        if is_new_template(incoming) {
            parents.insert(incoming.task.id)?;
        }
    }
    Ok(())
}
