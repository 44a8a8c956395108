//! The statements on the instances of templates.

ghost use Rattle.std.specs.Prelude.{◌≡◌, IsTrue, IfErr, IfOk, OnOk, ◌==◌, filter};
ghost use Rattle.sqlite.specs.State.{HasCleanDisk, Survives};
ghost use Rattle.tb_sql_tables.specs.Inside.{seen, KeepsInside, KeepsOnErr};
ghost use Rattle.tb_sql_tables.specs.Statements.{Changes, Finds};
ghost use Rattle.tb_sql_tables.specs.Failing.{IsExcused};
ghost use Rattle.tb_sql_tables.specs.Found.{AreFound};
ghost use Rattle.tb_sql.specs.Changes.{with_instance, IsInstanceBefore};

use sqlite::{Alter, Error, Transaction, params};
use tb_sql_tables::fitting::instance_fits;
use tb_sql_tables::read::read_all;
use tb_sql_tables::rows::InstanceRow;
use tb_sql_tables::run::{find_rows, run};
use tb_values::Items;

/// Adds an instance. It fails where the template has one of this number, or the place is taken.
pub fn insert_instance<S: Alter>(
    tx: &mut Transaction<'_, S>,
    instance: &InstanceRow,
) -> Result<(), Error>
    ensures same_reference { tx.new.conn.ghost_name ≡ tx.old.conn.ghost_name }
    ensures put { HasCleanDisk (seen S.Store tx.new)
        → IsTrue (seen S.Store tx.old).in_transaction
        → OnOk result (Changes (with_instance instance.now) (seen S.Store tx.old)
        (seen S.Store tx.new)) }
    ensures kept { KeepsOnErr (seen S.Store tx.old) (seen S.Store tx.new) result }
    ensures survives { Survives (seen S.Store tx.old) (seen S.Store tx.new) (λ _. ⊥) }
{
    instance_fits(instance);
    run(
        tx,
        "INSERT INTO instance (board, template, imask, place) VALUES (?1, ?2, ?3, ?4)",
        params![
            instance.board,
            instance.template,
            instance.imask,
            instance.place
        ],
    )
}

/// The instances on a board, in order of template and number.
pub fn select_instances<S: Alter>(
    tx: &mut Transaction<'_, S>,
    board: u32,
) -> Result<Items<InstanceRow>, Error>
    ensures same_reference { tx.new.conn.ghost_name ≡ tx.old.conn.ghost_name }
    ensures found { HasCleanDisk (seen S.Store tx.new)
        → IfOk result (λ instances. Finds (λ content. AreFound IsInstanceBefore
        (filter (λ instance. instance.board == board) content.instances) instances)
        (seen S.Store tx.old)) }
    ensures excused { HasCleanDisk (seen S.Store tx.new)
        → IfErr result (IsExcused (seen S.Store tx.old) (seen S.Store tx.new)) }
    ensures kept { KeepsInside (seen S.Store tx.old) (seen S.Store tx.new) }
    ensures survives { Survives (seen S.Store tx.old) (seen S.Store tx.new) (λ _. ⊥) }
{
    let rows = find_rows(
        tx,
        "SELECT board, template, imask, place FROM instance WHERE board = ?1 ORDER BY template, imask",
        params![board],
    )?;
    read_all(*rows.allocator(), &rows)
}
