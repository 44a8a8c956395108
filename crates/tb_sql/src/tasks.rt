//! The statements on the tasks.

ghost use Rattle.std.specs.Prelude.{◌≡◌, IsTrue, IfErr, IfOk, OnOk, ◌==◌, filter};
ghost use Rattle.sqlite.specs.State.{HasCleanDisk, Survives};
ghost use Rattle.tb_sql_tables.specs.Inside.{seen, KeepsInside, KeepsOnErr};
ghost use Rattle.tb_sql_tables.specs.Statements.{Changes, Finds};
ghost use Rattle.tb_sql_tables.specs.Failing.{IsExcused};
ghost use Rattle.tb_sql_tables.specs.Found.{AreFound, IsOneOf};
ghost use Rattle.tb_sql.specs.Changes.{with_task, with_text, with_mask, is_task, IsTaskBefore};

use crate::bind::{identifier_bytes, lent};
use sqlite::{Alter, Error, Transaction, params};
use tb_sql_tables::fitting::{mask_fits, task_fits, text_fits};
use tb_sql_tables::read::{read_all, read_first};
use tb_sql_tables::rows::TaskRow;
use tb_sql_tables::run::{find_rows, run};
use tb_values::{Items, Text};

/// Adds a task at a place. It fails where there is no such board, or the place or the identifier is taken on it.
pub fn insert_task<S: Alter>(tx: &mut Transaction<'_, S>, task: &TaskRow) -> Result<(), Error>
    ensures same_reference { tx.new.conn.ghost_name ≡ tx.old.conn.ghost_name }
    ensures put { HasCleanDisk (seen S.Store tx.new)
        → IsTrue (seen S.Store tx.old).in_transaction
        → OnOk result (Changes (with_task task.now) (seen S.Store tx.old) (seen S.Store tx.new)) }
    ensures kept { KeepsOnErr (seen S.Store tx.old) (seen S.Store tx.new) result }
    ensures survives { Survives (seen S.Store tx.old) (seen S.Store tx.new) (λ _. ⊥) }
{
    task_fits(task);
    let uuid = identifier_bytes(task.uuid);
    let uuid = uuid.as_slice();
    let body = task.body.as_str();
    let mask = lent(&task.mask);
    run(
        tx,
        "INSERT INTO task (board, place, uuid, body, mask) VALUES (?1, ?2, ?3, ?4, ?5)",
        params![task.board, task.place, uuid, body, mask],
    )
}

/// Sets the stored text and the mask of the task at a place, if there is one.
pub fn update_text<S: Alter>(
    tx: &mut Transaction<'_, S>,
    board: u32,
    place: u32,
    body: &str,
    mask: &Option<Text>,
) -> Result<(), Error>
    ensures same_reference { tx.new.conn.ghost_name ≡ tx.old.conn.ghost_name }
    ensures put { HasCleanDisk (seen S.Store tx.new)
        → IsTrue (seen S.Store tx.old).in_transaction
        → OnOk result (Changes (with_text board place body.now mask.now)
        (seen S.Store tx.old) (seen S.Store tx.new)) }
    ensures kept { KeepsOnErr (seen S.Store tx.old) (seen S.Store tx.new) result }
    ensures survives { Survives (seen S.Store tx.old) (seen S.Store tx.new) (λ _. ⊥) }
{
    text_fits(body);
    mask_fits(mask);
    let mask = lent(mask);
    run(
        tx,
        "UPDATE task SET body = ?3, mask = ?4 WHERE board = ?1 AND place = ?2",
        params![board, place, body, mask],
    )
}

/// Sets the mask of the task at a place, if there is one, and leaves its text alone.
pub fn update_mask<S: Alter>(
    tx: &mut Transaction<'_, S>,
    board: u32,
    place: u32,
    mask: &Option<Text>,
) -> Result<(), Error>
    ensures same_reference { tx.new.conn.ghost_name ≡ tx.old.conn.ghost_name }
    ensures put { HasCleanDisk (seen S.Store tx.new)
        → IsTrue (seen S.Store tx.old).in_transaction
        → OnOk result (Changes (with_mask board place mask.now) (seen S.Store tx.old)
        (seen S.Store tx.new)) }
    ensures kept { KeepsOnErr (seen S.Store tx.old) (seen S.Store tx.new) result }
    ensures survives { Survives (seen S.Store tx.old) (seen S.Store tx.new) (λ _. ⊥) }
{
    mask_fits(mask);
    let mask = lent(mask);
    run(
        tx,
        "UPDATE task SET mask = ?3 WHERE board = ?1 AND place = ?2",
        params![board, place, mask],
    )
}

/// The tasks of a board, in order of place.
pub fn select_tasks<S: Alter>(
    tx: &mut Transaction<'_, S>,
    board: u32,
) -> Result<Items<TaskRow>, Error>
    ensures same_reference { tx.new.conn.ghost_name ≡ tx.old.conn.ghost_name }
    ensures found { HasCleanDisk (seen S.Store tx.new)
        → IfOk result (λ tasks. Finds
        (λ content. AreFound IsTaskBefore (filter (λ task. task.board == board) content.tasks)
        tasks) (seen S.Store tx.old)) }
    ensures excused { HasCleanDisk (seen S.Store tx.new)
        → IfErr result (IsExcused (seen S.Store tx.old) (seen S.Store tx.new)) }
    ensures kept { KeepsInside (seen S.Store tx.old) (seen S.Store tx.new) }
    ensures survives { Survives (seen S.Store tx.old) (seen S.Store tx.new) (λ _. ⊥) }
{
    let rows = find_rows(
        tx,
        "SELECT board, place, uuid, body, mask FROM task WHERE board = ?1 ORDER BY place",
        params![board],
    )?;
    read_all(*rows.allocator(), &rows)
}

/// The task at a place of a board.
pub fn find_task<S: Alter>(
    tx: &mut Transaction<'_, S>,
    board: u32,
    place: u32,
) -> Result<Option<TaskRow>, Error>
    ensures same_reference { tx.new.conn.ghost_name ≡ tx.old.conn.ghost_name }
    ensures found { HasCleanDisk (seen S.Store tx.new)
        → IfOk result (λ task. Finds
        (λ content. IsOneOf (filter (is_task board place) content.tasks) task)
        (seen S.Store tx.old)) }
    ensures excused { HasCleanDisk (seen S.Store tx.new)
        → IfErr result (IsExcused (seen S.Store tx.old) (seen S.Store tx.new)) }
    ensures kept { KeepsInside (seen S.Store tx.old) (seen S.Store tx.new) }
    ensures survives { Survives (seen S.Store tx.old) (seen S.Store tx.new) (λ _. ⊥) }
{
    let rows = find_rows(
        tx,
        "SELECT board, place, uuid, body, mask FROM task WHERE board = ?1 AND place = ?2",
        params![board, place],
    )?;
    read_first(&rows)
}
