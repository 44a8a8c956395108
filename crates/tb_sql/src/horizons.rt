//! The statements on how far ahead the boards look.

ghost use Rattle.std.specs.Prelude.{◌≡◌, IsTrue, IfErr, IfOk, OnOk, filter};
ghost use Rattle.sqlite.specs.State.{HasCleanDisk, Survives};
ghost use Rattle.tb_sql_tables.specs.Inside.{seen, KeepsInside, KeepsOnErr};
ghost use Rattle.tb_sql_tables.specs.Statements.{Changes, Finds};
ghost use Rattle.tb_sql_tables.specs.Failing.{IsExcused};
ghost use Rattle.tb_sql_tables.specs.Found.{IsOneOf};
ghost use Rattle.tb_sql.specs.Changes.{with_ahead, with_horizon, is_horizon};

use sqlite::{Alter, Error, Transaction, params};
use tb_sql_tables::fitting::{horizon_fits, number_fits};
use tb_sql_tables::read::read_first;
use tb_sql_tables::rows::HorizonRow;
use tb_sql_tables::run::{find_rows, run};

/// Adds how far ahead a board looks. It fails where that is there, where there is no board of the number, and where it isn't 1 to 12.
pub fn insert_horizon<S: Alter>(
    tx: &mut Transaction<'_, S>,
    horizon: &HorizonRow,
) -> Result<(), Error>
    ensures same_reference { tx.new.conn.ghost_name ≡ tx.old.conn.ghost_name }
    ensures put { HasCleanDisk (seen S.Store tx.new)
        → IsTrue (seen S.Store tx.old).in_transaction
        → OnOk result (Changes (with_horizon horizon.now) (seen S.Store tx.old)
        (seen S.Store tx.new)) }
    ensures kept { KeepsOnErr (seen S.Store tx.old) (seen S.Store tx.new) result }
    ensures survives { Survives (seen S.Store tx.old) (seen S.Store tx.new) (λ _. ⊥) }
{
    horizon_fits(horizon);
    run(
        tx,
        "INSERT INTO horizon (board, ahead) VALUES (?1, ?2)",
        params![horizon.board, horizon.ahead],
    )
}

/// Sets how far ahead a board looks, if that is there. It fails where it isn't 1 to 12.
pub fn update_horizon<S: Alter>(
    tx: &mut Transaction<'_, S>,
    board: u32,
    ahead: u32,
) -> Result<(), Error>
    ensures same_reference { tx.new.conn.ghost_name ≡ tx.old.conn.ghost_name }
    ensures put { HasCleanDisk (seen S.Store tx.new)
        → IsTrue (seen S.Store tx.old).in_transaction
        → OnOk result (Changes (with_ahead board ahead) (seen S.Store tx.old)
        (seen S.Store tx.new)) }
    ensures kept { KeepsOnErr (seen S.Store tx.old) (seen S.Store tx.new) result }
    ensures survives { Survives (seen S.Store tx.old) (seen S.Store tx.new) (λ _. ⊥) }
{
    number_fits(ahead);
    run(
        tx,
        "UPDATE horizon SET ahead = ?2 WHERE board = ?1",
        params![board, ahead],
    )
}

/// How far ahead the board of a number looks.
pub fn find_horizon<S: Alter>(
    tx: &mut Transaction<'_, S>,
    board: u32,
) -> Result<Option<HorizonRow>, Error>
    ensures same_reference { tx.new.conn.ghost_name ≡ tx.old.conn.ghost_name }
    ensures found { HasCleanDisk (seen S.Store tx.new)
        → IfOk result (λ horizon. Finds
        (λ content. IsOneOf (filter (is_horizon board) content.horizon) horizon)
        (seen S.Store tx.old)) }
    ensures excused { HasCleanDisk (seen S.Store tx.new)
        → IfErr result (IsExcused (seen S.Store tx.old) (seen S.Store tx.new)) }
    ensures kept { KeepsInside (seen S.Store tx.old) (seen S.Store tx.new) }
    ensures survives { Survives (seen S.Store tx.old) (seen S.Store tx.new) (λ _. ⊥) }
{
    let rows = find_rows(
        tx,
        "SELECT board, ahead FROM horizon WHERE board = ?1",
        params![board],
    )?;
    read_first(&rows)
}
