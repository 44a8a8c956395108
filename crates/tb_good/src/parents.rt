//! The parents of a board's tasks.

ghost use Rattle.std.specs.Prelude.{◌≡◌, IfOk};
ghost use Rattle.std.specs.List.{list_all};
ghost use Rattle.tb_board.specs.Instances.{has_template};
ghost use Rattle.tb_board.specs.declared.board.Board.{Board};
ghost use Rattle.tb_good.specs.Templates.{AreTemplates};

use std::alloc::{AllocError, Global};
use std::collections::BTreeSet;
use tb_board::{Board, is_template_task};
use tb_task::{Task, TaskId};
use tb_values::Shared;

/// The identifiers of the templates among these tasks.
pub(crate) fn templates_of(
    alloc: Global,
    tasks: &[Shared<Task>],
) -> Result<BTreeSet<TaskId>, AllocError>
    ensures { IfOk result (AreTemplates tasks.now) }
{
    let mut templates = BTreeSet::new(alloc);
    for task in tasks {
        if is_template_task(task.get()) {
            templates.insert(task.get().id)?;
        }
    }
    Ok(templates)
}

/// Whether each parent is a template of the board.
pub(crate) fn have_parents(board: &Board, templates: &BTreeSet<TaskId>) -> bool
    requires templates { AreTemplates board.now.tasks templates.now }
    ensures { result ≡ list_all (λ t. has_template board.now t.parent) board.now.tasks }
{
    board
        .tasks
        .as_slice()
        .iter()
        .all(|task| has_parent(templates, task.get()))
}

/// Whether the parent is one of the templates, if the task has one.
fn has_parent(templates: &BTreeSet<TaskId>, task: &Task) -> bool
    ensures { (b : Board) → AreTemplates b.tasks templates.now
        → result ≡ has_template b task.now.parent }
{
    match task.parent {
        Some(id) => templates.contains(&id),
        None => true,
    }
}
