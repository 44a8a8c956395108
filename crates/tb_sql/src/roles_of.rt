//! The statement on the roles of one person.

ghost use Rattle.std.specs.Prelude.{◌≡◌, ◌==◌, filter, IfErr, IfOk};
ghost use Rattle.sqlite.specs.State.{HasCleanDisk, Survives};
ghost use Rattle.tb_sql_tables.specs.Inside.{seen, KeepsInside};
ghost use Rattle.tb_sql_tables.specs.Statements.{Finds};
ghost use Rattle.tb_sql_tables.specs.Failing.{IsExcused};
ghost use Rattle.tb_sql_tables.specs.Found.{AreFound};
ghost use Rattle.tb_sql.specs.RolesOf.{IsBoardBefore};

use sqlite::{Alter, Error, Transaction, params};
use tb_sql_tables::read::read_all;
use tb_sql_tables::rows::RoleRow;
use tb_sql_tables::run::find_rows;
use tb_values::Items;

/// The roles of a person, in order of board.
pub fn select_roles_of<S: Alter>(
    tx: &mut Transaction<'_, S>,
    person: u32,
) -> Result<Items<RoleRow>, Error>
    ensures same_reference { tx.new.conn.ghost_name ≡ tx.old.conn.ghost_name }
    ensures found { HasCleanDisk (seen S.Store tx.new)
        → IfOk result (λ roles. Finds
        (λ content. AreFound IsBoardBefore (filter (λ role. role.person == person) content.roles)
        roles) (seen S.Store tx.old)) }
    ensures excused { HasCleanDisk (seen S.Store tx.new)
        → IfErr result (IsExcused (seen S.Store tx.old) (seen S.Store tx.new)) }
    ensures kept { KeepsInside (seen S.Store tx.old) (seen S.Store tx.new) }
    ensures survives { Survives (seen S.Store tx.old) (seen S.Store tx.new) (λ _. ⊥) }
{
    let rows = find_rows(
        tx,
        "SELECT board, person, kind FROM role WHERE person = ?1 ORDER BY board",
        params![person],
    )?;
    read_all(*rows.allocator(), &rows)
}
