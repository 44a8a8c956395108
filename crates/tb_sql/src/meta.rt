//! The statements on the table that tells what the file is.

ghost use Rattle.std.specs.Prelude.{◌≡◌, [], ◌∷◌, IsTrue, IfErr, IfOk, OnOk};
ghost use Rattle.sqlite.specs.State.{HasCleanDisk, Survives};
ghost use Rattle.tb_sql_tables.specs.Inside.{seen, KeepsInside, KeepsOnErr};
ghost use Rattle.tb_sql_tables.specs.Content.{old_part, Content, IsContent};
ghost use Rattle.tb_sql_tables.specs.Statements.{Finds, Turns};
ghost use Rattle.tb_sql_tables.specs.Standing.{IsHalfway};
ghost use Rattle.tb_sql_tables.specs.Failing.{IsExcused};
ghost use Rattle.tb_sql.specs.Opening.{our_meta, AreMetas, AreShown, ReadsVersion};

use sqlite::{Alter, Error, Transaction};
use tb_sql_tables::read::read_all;
use tb_sql_tables::rows::MetaRow;
use tb_sql_tables::run::{find_rows, run};
use tb_values::Items;

/// What the file is, which in a store is one row.
pub fn select_meta<S: Alter>(tx: &mut Transaction<'_, S>) -> Result<Items<MetaRow>, Error>
    ensures same_reference { tx.new.conn.ghost_name ≡ tx.old.conn.ghost_name }
    ensures found { HasCleanDisk (seen S.Store tx.new)
        → IfOk result (λ metas. Finds (λ _. metas ≡ our_meta ∷ []) (seen S.Store tx.old)) }
    ensures told { HasCleanDisk (seen S.Store tx.new)
        → IfOk result (λ metas. AreMetas (seen S.Store tx.old).now metas) }
    ensures shown { HasCleanDisk (seen S.Store tx.new)
        → IfOk result (λ metas. AreShown (seen S.Store tx.old) (seen S.Store tx.new) metas) }
    ensures excused { HasCleanDisk (seen S.Store tx.new)
        → IfErr result (IsExcused (seen S.Store tx.old) (seen S.Store tx.new)) }
    ensures hides { HasCleanDisk (seen S.Store tx.new)
        → IfErr result (ReadsVersion (seen S.Store tx.old) (seen S.Store tx.new)) }
    ensures kept { KeepsInside (seen S.Store tx.old) (seen S.Store tx.new) }
    ensures survives { Survives (seen S.Store tx.old) (seen S.Store tx.new) (λ _. ⊥) }
{
    let rows = find_rows(tx, "SELECT kind, version FROM meta", &[])?;
    read_all(*rows.allocator(), &rows)
}

/// Tells that the file is of the second version or the third, which have one number.
pub(crate) fn update_version<S: Alter>(tx: &mut Transaction<'_, S>) -> Result<(), Error>
    ensures same_reference { tx.new.conn.ghost_name ≡ tx.old.conn.ghost_name }
    ensures made { HasCleanDisk (seen S.Store tx.new)
        → IsTrue (seen S.Store tx.old).in_transaction
        → OnOk result ((content : Content)
        → Turns (IsHalfway content) (IsContent (old_part content))
        (seen S.Store tx.old) (seen S.Store tx.new)) }
    ensures kept { KeepsOnErr (seen S.Store tx.old) (seen S.Store tx.new) result }
    ensures survives { Survives (seen S.Store tx.old) (seen S.Store tx.new) (λ _. ⊥) }
{
    run(tx, "UPDATE meta SET version = 2", &[])
}
