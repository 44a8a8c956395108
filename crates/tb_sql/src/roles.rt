//! The statements on the roles of people on boards.

ghost use Rattle.std.specs.Prelude.{◌≡◌, ◌==◌, filter, IsTrue, IfErr, IfOk, OnOk};
ghost use Rattle.sqlite.specs.State.{HasCleanDisk, Survives};
ghost use Rattle.tb_sql_tables.specs.Inside.{seen, KeepsInside, KeepsOnErr};
ghost use Rattle.tb_sql_tables.specs.Statements.{Changes, Finds};
ghost use Rattle.tb_sql_tables.specs.Failing.{IsExcused};
ghost use Rattle.tb_sql_tables.specs.Found.{AreFound, IsOneOf};
ghost use Rattle.tb_sql.specs.Changes.{with_role, without_role, is_role, IsRoleBefore};

use sqlite::{Alter, Error, Transaction, params};
use tb_sql_tables::fitting::role_fits;
use tb_sql_tables::read::{read_all, read_first};
use tb_sql_tables::rows::RoleRow;
use tb_sql_tables::run::{find_rows, run};
use tb_values::Items;

/// Gives a person a role on a board. It fails where there is no such board or person, or the person has a role there.
pub fn insert_role<S: Alter>(tx: &mut Transaction<'_, S>, role: &RoleRow) -> Result<(), Error>
    ensures same_reference { tx.new.conn.ghost_name ≡ tx.old.conn.ghost_name }
    ensures put { HasCleanDisk (seen S.Store tx.new)
        → IsTrue (seen S.Store tx.old).in_transaction
        → OnOk result (Changes (with_role role.now) (seen S.Store tx.old) (seen S.Store tx.new)) }
    ensures kept { KeepsOnErr (seen S.Store tx.old) (seen S.Store tx.new) result }
    ensures survives { Survives (seen S.Store tx.old) (seen S.Store tx.new) (λ _. ⊥) }
{
    role_fits(role);
    run(
        tx,
        "INSERT INTO role (board, person, kind) VALUES (?1, ?2, ?3)",
        params![role.board, role.person, role.kind],
    )
}

/// Takes away a person's role on a board, if there is one.
pub fn delete_role<S: Alter>(
    tx: &mut Transaction<'_, S>,
    board: u32,
    person: u32,
) -> Result<(), Error>
    ensures same_reference { tx.new.conn.ghost_name ≡ tx.old.conn.ghost_name }
    ensures put { HasCleanDisk (seen S.Store tx.new)
        → IsTrue (seen S.Store tx.old).in_transaction
        → OnOk result (Changes (without_role board person) (seen S.Store tx.old)
        (seen S.Store tx.new)) }
    ensures kept { KeepsOnErr (seen S.Store tx.old) (seen S.Store tx.new) result }
    ensures survives { Survives (seen S.Store tx.old) (seen S.Store tx.new) (λ _. ⊥) }
{
    run(
        tx,
        "DELETE FROM role WHERE board = ?1 AND person = ?2",
        params![board, person],
    )
}

/// The roles on a board, in order of person.
pub fn select_roles<S: Alter>(
    tx: &mut Transaction<'_, S>,
    board: u32,
) -> Result<Items<RoleRow>, Error>
    ensures same_reference { tx.new.conn.ghost_name ≡ tx.old.conn.ghost_name }
    ensures found { HasCleanDisk (seen S.Store tx.new)
        → IfOk result (λ roles. Finds
        (λ content. AreFound IsRoleBefore (filter (λ role. role.board == board) content.roles)
        roles) (seen S.Store tx.old)) }
    ensures excused { HasCleanDisk (seen S.Store tx.new)
        → IfErr result (IsExcused (seen S.Store tx.old) (seen S.Store tx.new)) }
    ensures kept { KeepsInside (seen S.Store tx.old) (seen S.Store tx.new) }
    ensures survives { Survives (seen S.Store tx.old) (seen S.Store tx.new) (λ _. ⊥) }
{
    let rows = find_rows(
        tx,
        "SELECT board, person, kind FROM role WHERE board = ?1 ORDER BY person",
        params![board],
    )?;
    read_all(*rows.allocator(), &rows)
}

/// The role of a person on a board.
pub fn find_role<S: Alter>(
    tx: &mut Transaction<'_, S>,
    board: u32,
    person: u32,
) -> Result<Option<RoleRow>, Error>
    ensures same_reference { tx.new.conn.ghost_name ≡ tx.old.conn.ghost_name }
    ensures found { HasCleanDisk (seen S.Store tx.new)
        → IfOk result (λ role. Finds
        (λ content. IsOneOf (filter (is_role board person) content.roles) role)
        (seen S.Store tx.old)) }
    ensures excused { HasCleanDisk (seen S.Store tx.new)
        → IfErr result (IsExcused (seen S.Store tx.old) (seen S.Store tx.new)) }
    ensures kept { KeepsInside (seen S.Store tx.old) (seen S.Store tx.new) }
    ensures survives { Survives (seen S.Store tx.old) (seen S.Store tx.new) (λ _. ⊥) }
{
    let rows = find_rows(
        tx,
        "SELECT board, person, kind FROM role WHERE board = ?1 AND person = ?2",
        params![board, person],
    )?;
    read_first(&rows)
}
