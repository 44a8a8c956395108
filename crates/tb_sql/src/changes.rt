//! Changes of the rows, as values, and a statement for each.

ghost use Rattle.std.specs.Prelude.{◌≡◌, IsTrue, OnOk, OnErr};
ghost use Rattle.sqlite.specs.State.{HasCleanDisk, KeepsCommit, Survives};
ghost use Rattle.tb_sql_tables.specs.Inside.{seen, KeepsOnErr};
ghost use Rattle.tb_sql_tables.specs.Statements.{Changes};
ghost use Rattle.tb_sql.specs.Writing.{changed_by, changed_by_all};

use crate::boards::{insert_board, update_low, update_title};
use crate::gone::{delete_gone, insert_gone};
use crate::horizons::{insert_horizon, update_horizon};
use crate::instances::insert_instance;
use crate::links::{delete_links, insert_link};
use crate::people::{insert_person, update_secret};
use crate::roles::{delete_role, insert_role};
use crate::tasks::{insert_task, update_mask, update_text};
use sqlite::{Alter, Error, Transaction};
use tb_sql_pages::histories::insert_entry;
use tb_sql_tables::rows::{
    BoardRow, GoneRow, HistoryRow, HorizonRow, InstanceRow, LinkRow, PersonRow, RoleRow, TaskRow,
};
use tb_values::Text;

/// One change of the rows.
#[derive(Drop)]
pub enum RowChange {
    AddPerson(PersonRow),
    SetSecret {
        name: Text,
        secret: Text,
    },
    AddBoard(BoardRow),
    SetTitle {
        board: u32,
        title: Text,
    },
    SetLow {
        board: u32,
        low: u32,
    },
    AddRole(RoleRow),
    RemoveRole {
        board: u32,
        person: u32,
    },
    AddTask(TaskRow),
    SetText {
        board: u32,
        place: u32,
        body: Text,
        mask: Option<Text>,
    },
    SetMask {
        board: u32,
        place: u32,
        mask: Option<Text>,
    },
    AddLink(LinkRow),
    RemoveLinks {
        board: u32,
        place: u32,
    },
    AddInstance(InstanceRow),
    AddGone(GoneRow),
    RemoveGone {
        board: u32,
        template: u32,
        imask: u32,
    },
    AddHorizon(HorizonRow),
    SetHorizon {
        board: u32,
        ahead: u32,
    },
    AddEntry(HistoryRow),
}

/// Makes one change.
pub fn apply_change<S: Alter>(tx: &mut Transaction<'_, S>, change: &RowChange) -> Result<(), Error>
    ensures same_reference { tx.new.conn.ghost_name ≡ tx.old.conn.ghost_name }
    ensures put { HasCleanDisk (seen S.Store tx.new)
        → IsTrue (seen S.Store tx.old).in_transaction
        → OnOk result (Changes (changed_by change.now) (seen S.Store tx.old)
        (seen S.Store tx.new)) }
    ensures kept { KeepsOnErr (seen S.Store tx.old) (seen S.Store tx.new) result }
    ensures survives { Survives (seen S.Store tx.old) (seen S.Store tx.new) (λ _. ⊥) }
{
    match change {
        RowChange::AddPerson(person) => insert_person(tx, person),
        RowChange::SetSecret { name, secret } => {
            update_secret(tx, name.as_str(), secret.as_str())
        }
        RowChange::AddBoard(board) => insert_board(tx, board),
        RowChange::SetTitle { board, title } => update_title(tx, *board, title.as_str()),
        RowChange::SetLow { board, low } => update_low(tx, *board, *low),
        RowChange::AddRole(role) => insert_role(tx, role),
        RowChange::RemoveRole { board, person } => delete_role(tx, *board, *person),
        RowChange::AddTask(task) => insert_task(tx, task),
        RowChange::SetText {
            board,
            place,
            body,
            mask,
        } => update_text(tx, *board, *place, body.as_str(), mask),
        RowChange::SetMask { board, place, mask } => update_mask(tx, *board, *place, mask),
        RowChange::AddLink(link) => insert_link(tx, link),
        RowChange::RemoveLinks { board, place } => delete_links(tx, *board, *place),
        RowChange::AddInstance(instance) => insert_instance(tx, instance),
        RowChange::AddGone(gone) => insert_gone(tx, gone),
        RowChange::RemoveGone {
            board,
            template,
            imask,
        } => delete_gone(tx, *board, *template, *imask),
        RowChange::AddHorizon(horizon) => insert_horizon(tx, horizon),
        RowChange::SetHorizon { board, ahead } => update_horizon(tx, *board, *ahead),
        RowChange::AddEntry(entry) => insert_entry(tx, entry),
    }
}

/// Makes the changes in their order, on an open connection.
pub fn apply_changes<S: Alter>(
    tx: &mut Transaction<'_, S>,
    changes: &[RowChange],
) -> Result<(), Error>
    ensures same_reference { tx.new.conn.ghost_name ≡ tx.old.conn.ghost_name }
    ensures put { HasCleanDisk (seen S.Store tx.new)
        → IsTrue (seen S.Store tx.old).in_transaction
        → IsTrue (seen S.Store tx.old).is_open
        → OnOk result (Changes (changed_by_all changes.now) (seen S.Store tx.old)
        (seen S.Store tx.new)) }
    ensures kept { HasCleanDisk (seen S.Store tx.new)
        → IsTrue (seen S.Store tx.old).in_transaction
        → IsTrue (seen S.Store tx.old).is_open
        → OnErr result (KeepsCommit (seen S.Store tx.old) (seen S.Store tx.new)) }
    ensures survives { Survives (seen S.Store tx.old) (seen S.Store tx.new) (λ _. ⊥) }
{
    'changes: for change in changes {
        apply_change(tx, change)?;
    }
    Ok(())
}
