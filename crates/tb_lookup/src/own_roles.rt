//! The rows of one person's roles. The query stands in a transaction that is dropped, and leaves everything as it was.

ghost use Rattle.std.specs.Prelude.{◌≡◌, ◌==◌, false, filter, IfOk, Err};
ghost use Rattle.sqlite.specs.Held.{state};
ghost use Rattle.tb_sql.specs.Opening.{IsAsBefore};
ghost use Rattle.tb_sql.specs.RolesOf.{IsBoardBefore};
ghost use Rattle.tb_sql_tables.specs.Found.{AreFound};
ghost use Rattle.tb_sql_tables.specs.Content.{IsContent};
ghost use Rattle.tb_sql_tables.specs.Failing.{FailsByFault, KeepsFaults};
ghost use Rattle.tb_lookup.specs.Reopening.{OfContent};

use sqlite::{Alter, Connection};
use tb_sql::roles_of::select_roles_of;
use tb_sql::store::StoreFault;
use tb_sql_tables::rows::RoleRow;
use tb_values::Items;

/// The roles of a person, in order of board.
pub fn role_rows_of<S: Alter>(
    conn: &mut Connection<S>,
    person: u32,
) -> Result<Items<RoleRow>, StoreFault>
    requires { conn.old.in_transaction ≡ false }
    ensures idle { conn.new.in_transaction ≡ false }
    ensures found { IfOk result (λ rows. OfContent (state S.Store conn.old) (state S.Store conn.new)
        (λ content. AreFound IsBoardBefore
        (filter (λ row. row.person == person) content.roles) rows)) }
    ensures excused { result ≡ Err StoreFault.Store
        → FailsByFault (state S.Store conn.old) (state S.Store conn.new)
        (λ content. IsContent content (state S.Store conn.old).now) }
    ensures faults { KeepsFaults (state S.Store conn.old) (state S.Store conn.new) }
    ensures same { IsAsBefore (state S.Store conn.old) (state S.Store conn.new) }
{
    let mut tx = conn.transaction();
    let found = select_roles_of(&mut tx, person);
    drop(tx);
    match found {
        Ok(rows) => Ok(rows),
        Err(error) => Err(StoreFault::before_commit(&error)),
    }
}
