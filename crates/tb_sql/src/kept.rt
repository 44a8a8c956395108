//! The statements on the kept replies.

ghost use Rattle.std.specs.Prelude.{◌≡◌, IsTrue, IfErr, IfOk, IsPermutation, OnOk, filter};
ghost use Rattle.sqlite.specs.State.{HasCleanDisk, Survives};
ghost use Rattle.tb_sql_tables.specs.Inside.{seen, KeepsInside, KeepsOnErr};
ghost use Rattle.tb_sql_tables.specs.Statements.{Changes, Finds};
ghost use Rattle.tb_sql_tables.specs.Failing.{IsExcused};
ghost use Rattle.tb_sql_tables.specs.Found.{IsOneOf};
ghost use Rattle.tb_sql.specs.Changes.{with_kept, is_kept};

use crate::bind::identifier_bytes;
use sqlite::{Alter, Error, Transaction, params};
use tb_sql_tables::fitting::kept_fits;
use tb_sql_tables::read::{read_all, read_first};
use tb_sql_tables::rows::KeptRow;
use tb_sql_tables::run::{find_rows, run};
use tb_task::TaskId;
use tb_values::Items;

/// Keeps a reply. It fails where there is no such person, or one is kept under this identifier.
pub fn insert_kept<S: Alter>(tx: &mut Transaction<'_, S>, kept: &KeptRow) -> Result<(), Error>
    ensures same_reference { tx.new.conn.ghost_name ≡ tx.old.conn.ghost_name }
    ensures put { HasCleanDisk (seen S.Store tx.new)
        → IsTrue (seen S.Store tx.old).in_transaction
        → OnOk result (Changes (with_kept kept.now) (seen S.Store tx.old) (seen S.Store tx.new)) }
    ensures kept { KeepsOnErr (seen S.Store tx.old) (seen S.Store tx.new) result }
    ensures survives { Survives (seen S.Store tx.old) (seen S.Store tx.new) (λ _. ⊥) }
{
    kept_fits(kept);
    let id = identifier_bytes(kept.id);
    let id = id.as_slice();
    let content = kept.content.as_slice();
    let body = kept.body.as_str();
    let number = u32::from(kept.number);
    let status = u32::from(kept.status);
    run(
        tx,
        "INSERT INTO kept (person, id, content, number, status, body) VALUES (?1, ?2, ?3, ?4, ?5, ?6)",
        params![kept.person, id, content, number, status, body],
    )
}

/// The reply that is kept under a person and an identifier.
pub fn find_kept<S: Alter>(
    tx: &mut Transaction<'_, S>,
    person: u32,
    id: TaskId,
) -> Result<Option<KeptRow>, Error>
    ensures same_reference { tx.new.conn.ghost_name ≡ tx.old.conn.ghost_name }
    ensures found { HasCleanDisk (seen S.Store tx.new)
        → IfOk result (λ kept. Finds
        (λ content. IsOneOf (filter (is_kept person id) content.kept) kept)
        (seen S.Store tx.old)) }
    ensures excused { HasCleanDisk (seen S.Store tx.new)
        → IfErr result (IsExcused (seen S.Store tx.old) (seen S.Store tx.new)) }
    ensures kept { KeepsInside (seen S.Store tx.old) (seen S.Store tx.new) }
    ensures survives { Survives (seen S.Store tx.old) (seen S.Store tx.new) (λ _. ⊥) }
{
    let bytes = identifier_bytes(id);
    let bytes = bytes.as_slice();
    let rows = find_rows(
        tx,
        "SELECT person, id, content, number, status, body FROM kept WHERE person = ?1 AND id = ?2",
        params![person, bytes],
    )?;
    read_first(&rows)
}

/// All replies that are kept, in no order.
pub fn select_kept<S: Alter>(tx: &mut Transaction<'_, S>) -> Result<Items<KeptRow>, Error>
    ensures same_reference { tx.new.conn.ghost_name ≡ tx.old.conn.ghost_name }
    ensures found { HasCleanDisk (seen S.Store tx.new)
        → IfOk result (λ kept. Finds (λ content. IsPermutation content.kept kept)
        (seen S.Store tx.old)) }
    ensures excused { HasCleanDisk (seen S.Store tx.new)
        → IfErr result (IsExcused (seen S.Store tx.old) (seen S.Store tx.new)) }
    ensures kept { KeepsInside (seen S.Store tx.old) (seen S.Store tx.new) }
    ensures survives { Survives (seen S.Store tx.old) (seen S.Store tx.new) (λ _. ⊥) }
{
    let rows = find_rows(
        tx,
        "SELECT person, id, content, number, status, body FROM kept",
        &[],
    )?;
    read_all(*rows.allocator(), &rows)
}
