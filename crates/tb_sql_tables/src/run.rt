//! A statement of any text, inside a transaction.

ghost use Rattle.std.specs.Prelude.{◌≡◌, ◌⊎◌, IsTrue, IfErr, IfOk, OnOk};
ghost use Rattle.sqlite.specs.State.{FailsToQuery, HasCleanDisk, IsTooLate, Shown, Survives};
ghost use Rattle.sqlite.specs.Values.{bound};
ghost use Rattle.tb_sql_tables.specs.Inside.{seen, KeepsInside, KeepsOnErr};
ghost use Rattle.tb_sql_tables.specs.Statements.{Ran};

use sqlite::types::ValueRef;
use sqlite::{Alter, Error, Row, Transaction};

/// Runs a statement that shows no rows.
pub fn run<S: Alter>(
    tx: &mut Transaction<'_, S>,
    sql: &str,
    params: &[ValueRef<'_>],
) -> Result<(), Error>
    ensures same_reference { tx.new.conn.ghost_name ≡ tx.old.conn.ghost_name }
    ensures ran { HasCleanDisk (seen S.Store tx.new)
        → IsTrue (seen S.Store tx.old).in_transaction
        → OnOk result (Ran sql.now (bound params.now) (seen S.Store tx.old)
        (seen S.Store tx.new)) }
    ensures kept { KeepsOnErr (seen S.Store tx.old) (seen S.Store tx.new) result }
    ensures survives { Survives (seen S.Store tx.old) (seen S.Store tx.new) (λ _. ⊥) }
{
    tx.execute(sql, params)?;
    Ok(())
}

/// The rows that a query shows, whose last commit stands whatever comes of it.
pub fn find_rows<S: Alter>(
    tx: &mut Transaction<'_, S>,
    sql: &str,
    params: &[ValueRef<'_>],
) -> Result<Vec<Row>, Error>
    ensures same_reference { tx.new.conn.ghost_name ≡ tx.old.conn.ghost_name }
    ensures shown { HasCleanDisk (seen S.Store tx.new)
        → IfOk result (λ rows. Shown sql.now (bound params.now) (seen S.Store tx.old)
        (seen S.Store tx.new) rows.items) }
    ensures refused { HasCleanDisk (seen S.Store tx.new)
        → IfErr result (λ e. FailsToQuery sql.now (bound params.now) (seen S.Store tx.old)
        (seen S.Store tx.new) e
        ⊎ IsTooLate sql.now (bound params.now) (seen S.Store tx.old) (seen S.Store tx.new) e) }
    ensures kept { KeepsInside (seen S.Store tx.old) (seen S.Store tx.new) }
    ensures survives { Survives (seen S.Store tx.old) (seen S.Store tx.new) (λ _. ⊥) }
{
    tx.query_all(sql, params)
}
