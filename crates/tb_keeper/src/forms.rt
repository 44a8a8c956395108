//! What the types of the values in changes keep of them, told by functions that look.

ghost use Rattle.std.specs.Prelude.{◌≡◌, IfSome, true};
ghost use Rattle.std.specs.List.{AllByRecursion};
ghost use Rattle.tb_board.specs.Ahead.{is_ahead};
ghost use Rattle.tb_board.specs.Names.{is_key};
ghost use Rattle.tb_task.specs.Mask.{is_mark};
ghost use Rattle.tb_keeper.specs.Forms.{HasChangeForm};
ghost use Rattle.tb_rows.specs.Forms.{HasTaskForm};

use tb_board::{Ahead, Change, Key};
use tb_task::{Mark, Task, check};

/// Whether names, keys, titles, tasks and marks have their forms. Those of a good world do.
pub(crate) fn have_forms(changes: &[Change]) -> bool
    ensures { result ≡ true → AllByRecursion HasChangeForm changes.now }
{
    for change in changes {
        if !has_form(change) {
            return false;
        }
    }
    true
}

fn has_form(change: &Change) -> bool
    ensures { result ≡ true → HasChangeForm change.now }
{
    match change {
        Change::PutTask { task, .. } => is_taken(task.get()),
        Change::AddPerson { name, key } => {
            name.has_form();
            key.has_form();
            true
        }
        Change::SetKey { key, .. } => {
            has_key_form(key);
            true
        }
        Change::AddBoard { title, .. } | Change::SetTitle { title, .. } => {
            title.has_form();
            true
        }
        Change::SetGone { gone, .. } => {
            is_known(gone.mark);
            true
        }
        Change::SetAhead { ahead, .. } => {
            is_from_one(*ahead);
            true
        }
        Change::SetRole { .. } | Change::TakeGone { .. } => true,
    }
}

fn has_key_form(key: &Option<Key>)
    ensures { IfSome key.now (λ k. is_key k ≡ true) }
{
    if let Some(key) = key {
        key.has_form();
    }
}

fn is_taken(task: &Task) -> bool
    ensures { result ≡ true → HasTaskForm task.now }
{
    match check(task) {
        Ok(()) => true,
        Err(_) => false,
    }
}

fn is_known(mark: Mark)
    ensures { is_mark mark ≡ true }
{
    let _byte = mark.byte();
}

fn is_from_one(ahead: Ahead)
    ensures { is_ahead ahead ≡ true }
{
    let _number = ahead.number();
}
