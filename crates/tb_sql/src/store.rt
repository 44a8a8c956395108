//! The transactions: a new store, and changes with a kept reply at once.

ghost use Rattle.std.specs.Prelude.{◌≡◌, ◌↔◌, false, IsTrue, OnOk, Err};
ghost use Rattle.sqlite.specs.Held.{state};
ghost use Rattle.sqlite.specs.State.{HasCleanDisk, Survives};
ghost use Rattle.tb_sql_tables.specs.Inside.{seen, KeepsOnErr};
ghost use Rattle.tb_sql_tables.specs.Content.{Content, IsContent, Stands, StandsAsEither};
ghost use Rattle.tb_sql_tables.specs.Statements.{Changes, Turns};
ghost use Rattle.tb_sql_tables.specs.Standing.{HasNoTables, StandsEmpty, StandsEmptyOr};
ghost use Rattle.tb_sql.specs.Writing.{written, opening};

use crate::changes::{RowChange, apply_changes};
use crate::kept::insert_kept;
use sqlite::{Alter, Connection, Error, ErrorCode, Transaction};
use tb_sql_tables::create::create_all;
use tb_sql_tables::rows::KeptRow;

/// Why a transaction fails.
#[derive(Clone, Copy, Debug, PartialEq, Eq)]
pub enum StoreFault {
    /// For want of memory. Nothing has changed, and a stop leaves what it left before.
    Memory,
    /// The database failed. What it holds, or a stop leaves, is what was there before or what the transaction writes.
    Store,
}

impl StoreFault {
    /// The fault of a statement before the commit. An error of the commit is always `Store`.
    pub fn before_commit(error: &Error) -> StoreFault
        ensures { (result ≡ StoreFault.Memory)
            ↔ (error.now ≡ Error.SqliteFailure ErrorCode.OutOfMemory) }
    {
        match error {
            Error::SqliteFailure(ErrorCode::OutOfMemory) => StoreFault::Memory,
            _ => StoreFault::Store,
        }
    }
}

/// Keeps the reply and makes the changes.
fn put_rows<S: Alter>(
    tx: &mut Transaction<'_, S>,
    changes: &[RowChange],
    kept: &KeptRow,
) -> Result<(), Error>
    ensures same_reference { tx.new.conn.ghost_name ≡ tx.old.conn.ghost_name }
    ensures put { HasCleanDisk (seen S.Store tx.new)
        → IsTrue (seen S.Store tx.old).in_transaction
        → OnOk result (Changes (written changes.now kept.now) (seen S.Store tx.old)
        (seen S.Store tx.new)) }
    ensures kept { KeepsOnErr (seen S.Store tx.old) (seen S.Store tx.new) result }
    ensures survives { Survives (seen S.Store tx.old) (seen S.Store tx.new) (λ _. ⊥) }
{
    insert_kept(tx, kept)?;
    apply_changes(tx, changes)
}

/// Keeps the reply and makes the changes, at once.
pub fn write_rows<S: Alter>(
    conn: &mut Connection<S>,
    changes: &[RowChange],
    kept: &KeptRow,
) -> Result<(), StoreFault>
    requires { conn.old.in_transaction ≡ false }
    ensures idle { conn.new.in_transaction ≡ false }
    ensures clean { HasCleanDisk (state S.Store conn.new) → HasCleanDisk (state S.Store conn.old) }
    ensures done { OnOk result ((content : Content) → Stands content (state S.Store conn.old)
        → Stands (written changes.now kept.now content) (state S.Store conn.new)) }
    ensures memory { result ≡ Err StoreFault.Memory → (content : Content)
        → Stands content (state S.Store conn.old) → Stands content (state S.Store conn.new) }
    ensures store { result ≡ Err StoreFault.Store → (content : Content)
        → Stands content (state S.Store conn.old)
        → StandsAsEither content (written changes.now kept.now content) (state S.Store conn.new) }
{
    let mut tx = conn.transaction();
    if let Err(error) = put_rows(&mut tx, changes, kept) {
        return Err(StoreFault::before_commit(&error));
    }
    match tx.commit() {
        Ok(()) => Ok(()),
        Err(_) => Err(StoreFault::Store), // A stop may leave what was before or what is written.
    }
}

/// Makes the tables, and puts the first rows in.
fn put_tables<S: Alter>(tx: &mut Transaction<'_, S>, rows: &[RowChange]) -> Result<(), Error>
    ensures same_reference { tx.new.conn.ghost_name ≡ tx.old.conn.ghost_name }
    ensures made { HasCleanDisk (seen S.Store tx.new)
        → IsTrue (seen S.Store tx.old).in_transaction
        → OnOk result (Turns HasNoTables (IsContent (opening rows.now))
        (seen S.Store tx.old) (seen S.Store tx.new)) }
    ensures kept { KeepsOnErr (seen S.Store tx.old) (seen S.Store tx.new) result }
    ensures survives { Survives (seen S.Store tx.old) (seen S.Store tx.new) (λ _. ⊥) }
{
    create_all(tx)?;
    apply_changes(tx, rows)
}

/// Makes the tables of a store in an empty database, and puts the first rows in, at once.
pub fn create<S: Alter>(conn: &mut Connection<S>, rows: &[RowChange]) -> Result<(), StoreFault>
    requires { conn.old.in_transaction ≡ false }
    ensures idle { conn.new.in_transaction ≡ false }
    ensures done { OnOk result
        (StandsEmpty (state S.Store conn.old)
        → Stands (opening rows.now) (state S.Store conn.new)) }
    ensures memory { result ≡ Err StoreFault.Memory → StandsEmpty (state S.Store conn.old)
        → StandsEmpty (state S.Store conn.new) }
    ensures store { result ≡ Err StoreFault.Store → StandsEmpty (state S.Store conn.old)
        → StandsEmptyOr (opening rows.now) (state S.Store conn.new) }
{
    let mut making = conn.transaction();
    if let Err(error) = put_tables(&mut making, rows) {
        return Err(StoreFault::before_commit(&error));
    }
    match making.commit() {
        Ok(()) => Ok(()),
        Err(_) => Err(StoreFault::Store), // A stop may leave no table or all of them.
    }
}
