//! The statements on the instances that are not on the board.

ghost use Rattle.std.specs.Prelude.{◌≡◌, IsTrue, IfErr, IfOk, OnOk, ◌==◌, filter};
ghost use Rattle.sqlite.specs.State.{HasCleanDisk, Survives};
ghost use Rattle.tb_sql_tables.specs.Inside.{seen, KeepsInside, KeepsOnErr};
ghost use Rattle.tb_sql_tables.specs.Statements.{Changes, Finds};
ghost use Rattle.tb_sql_tables.specs.Failing.{IsExcused};
ghost use Rattle.tb_sql_tables.specs.Found.{AreFound};
ghost use Rattle.tb_sql.specs.Changes.{with_gone, without_gone, IsGoneBefore};

use sqlite::{Alter, Error, Transaction, params};
use tb_sql_tables::fitting::gone_fits;
use tb_sql_tables::read::read_all;
use tb_sql_tables::rows::GoneRow;
use tb_sql_tables::run::{find_rows, run};
use tb_values::Items;

/// Marks an instance of a template as gone. It fails where it is.
pub fn insert_gone<S: Alter>(tx: &mut Transaction<'_, S>, gone: &GoneRow) -> Result<(), Error>
    ensures same_reference { tx.new.conn.ghost_name ≡ tx.old.conn.ghost_name }
    ensures put { HasCleanDisk (seen S.Store tx.new)
        → IsTrue (seen S.Store tx.old).in_transaction
        → OnOk result (Changes (with_gone gone.now) (seen S.Store tx.old) (seen S.Store tx.new)) }
    ensures kept { KeepsOnErr (seen S.Store tx.old) (seen S.Store tx.new) result }
    ensures survives { Survives (seen S.Store tx.old) (seen S.Store tx.new) (λ _. ⊥) }
{
    gone_fits(gone);
    let mark = gone.mark.as_str();
    run(
        tx,
        "INSERT INTO gone (board, template, imask, mark) VALUES (?1, ?2, ?3, ?4)",
        params![gone.board, gone.template, gone.imask, mark],
    )
}

/// Takes the mark of an instance away, if it is gone.
pub fn delete_gone<S: Alter>(
    tx: &mut Transaction<'_, S>,
    board: u32,
    template: u32,
    imask: u32,
) -> Result<(), Error>
    ensures same_reference { tx.new.conn.ghost_name ≡ tx.old.conn.ghost_name }
    ensures put { HasCleanDisk (seen S.Store tx.new)
        → IsTrue (seen S.Store tx.old).in_transaction
        → OnOk result (Changes (without_gone board template imask) (seen S.Store tx.old)
        (seen S.Store tx.new)) }
    ensures kept { KeepsOnErr (seen S.Store tx.old) (seen S.Store tx.new) result }
    ensures survives { Survives (seen S.Store tx.old) (seen S.Store tx.new) (λ _. ⊥) }
{
    run(
        tx,
        "DELETE FROM gone WHERE board = ?1 AND template = ?2 AND imask = ?3",
        params![board, template, imask],
    )
}

/// The instances that a board lacks, in order of template and number.
pub fn select_gone<S: Alter>(
    tx: &mut Transaction<'_, S>,
    board: u32,
) -> Result<Items<GoneRow>, Error>
    ensures same_reference { tx.new.conn.ghost_name ≡ tx.old.conn.ghost_name }
    ensures found { HasCleanDisk (seen S.Store tx.new)
        → IfOk result (λ gone. Finds
        (λ content. AreFound IsGoneBefore (filter (λ row. row.board == board) content.gone) gone)
        (seen S.Store tx.old)) }
    ensures excused { HasCleanDisk (seen S.Store tx.new)
        → IfErr result (IsExcused (seen S.Store tx.old) (seen S.Store tx.new)) }
    ensures kept { KeepsInside (seen S.Store tx.old) (seen S.Store tx.new) }
    ensures survives { Survives (seen S.Store tx.old) (seen S.Store tx.new) (λ _. ⊥) }
{
    let rows = find_rows(
        tx,
        "SELECT board, template, imask, mark FROM gone WHERE board = ?1 ORDER BY template, imask",
        params![board],
    )?;
    read_all(*rows.allocator(), &rows)
}
