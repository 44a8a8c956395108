//! Stores of the first version, as tests of what becomes of them need them.

ghost use Rattle.std.specs.Prelude.{◌≡◌, false, IsTrue, OnOk, Err};
ghost use Rattle.sqlite.specs.Held.{state};
ghost use Rattle.sqlite.specs.State.{HasCleanDisk, Survives};
ghost use Rattle.tb_sql_tables.specs.Inside.{seen, KeepsOnErr};
ghost use Rattle.tb_sql_tables.specs.Content.{Content};
ghost use Rattle.tb_sql_tables.specs.Standing.{HasNoTables, IsOldContent, StandsEmpty, StandsEmptyOrOld, StandsOld};
ghost use Rattle.tb_sql_tables.specs.Statements.{Turns};
ghost use Rattle.tb_sql.specs.Changes.{with_board, with_person, with_role};
ghost use Rattle.tb_sql.specs.FirstVersion.{first_content};

use crate::store::StoreFault;
use sqlite::{Alter, Connection, Error, Transaction, params};
use tb_sql_tables::create::create_old;
use tb_sql_tables::fitting::{board_fits, person_fits, role_fits};
use tb_sql_tables::rows::{BoardRow, PersonRow, RoleRow};
use tb_sql_tables::run::run;

/// Adds a person.
fn insert_person<S: Alter>(tx: &mut Transaction<'_, S>, person: &PersonRow) -> Result<(), Error>
    ensures same_reference { tx.new.conn.ghost_name ≡ tx.old.conn.ghost_name }
    ensures made { HasCleanDisk (seen S.Store tx.new)
        → IsTrue (seen S.Store tx.old).in_transaction
        → OnOk result ((content : Content)
        → Turns (IsOldContent content) (IsOldContent (with_person person.now content))
        (seen S.Store tx.old) (seen S.Store tx.new)) }
    ensures kept { KeepsOnErr (seen S.Store tx.old) (seen S.Store tx.new) result }
    ensures survives { Survives (seen S.Store tx.old) (seen S.Store tx.new) (λ _. ⊥) }
{
    person_fits(person);
    let name = person.name.as_str();
    let secret = person.secret.as_str();
    run(
        tx,
        "INSERT INTO person (id, name, secret) VALUES (?1, ?2, ?3)",
        params![person.id, name, secret],
    )
}

/// Adds a board.
fn insert_board<S: Alter>(tx: &mut Transaction<'_, S>, board: &BoardRow) -> Result<(), Error>
    ensures same_reference { tx.new.conn.ghost_name ≡ tx.old.conn.ghost_name }
    ensures made { HasCleanDisk (seen S.Store tx.new)
        → IsTrue (seen S.Store tx.old).in_transaction
        → OnOk result ((content : Content)
        → Turns (IsOldContent content) (IsOldContent (with_board board.now content))
        (seen S.Store tx.old) (seen S.Store tx.new)) }
    ensures kept { KeepsOnErr (seen S.Store tx.old) (seen S.Store tx.new) result }
    ensures survives { Survives (seen S.Store tx.old) (seen S.Store tx.new) (λ _. ⊥) }
{
    board_fits(board);
    let title = board.title.as_str();
    run(
        tx,
        "INSERT INTO board (id, title, low) VALUES (?1, ?2, ?3)",
        params![board.id, title, board.low],
    )
}

/// Adds the role of a person on a board.
fn insert_role<S: Alter>(tx: &mut Transaction<'_, S>, role: &RoleRow) -> Result<(), Error>
    ensures same_reference { tx.new.conn.ghost_name ≡ tx.old.conn.ghost_name }
    ensures made { HasCleanDisk (seen S.Store tx.new)
        → IsTrue (seen S.Store tx.old).in_transaction
        → OnOk result ((content : Content)
        → Turns (IsOldContent content) (IsOldContent (with_role role.now content))
        (seen S.Store tx.old) (seen S.Store tx.new)) }
    ensures kept { KeepsOnErr (seen S.Store tx.old) (seen S.Store tx.new) result }
    ensures survives { Survives (seen S.Store tx.old) (seen S.Store tx.new) (λ _. ⊥) }
{
    role_fits(role);
    run(
        tx,
        "INSERT INTO role (board, person, kind) VALUES (?1, ?2, ?3)",
        params![role.board, role.person, role.kind],
    )
}

/// Makes the tables, and puts the rows in.
fn put_first<S: Alter>(
    tx: &mut Transaction<'_, S>,
    person: &PersonRow,
    board: &BoardRow,
    role: &RoleRow,
) -> Result<(), Error>
    ensures same_reference { tx.new.conn.ghost_name ≡ tx.old.conn.ghost_name }
    ensures made { HasCleanDisk (seen S.Store tx.new)
        → IsTrue (seen S.Store tx.old).in_transaction
        → OnOk result (Turns HasNoTables
        (IsOldContent (first_content person.now board.now role.now)) (seen S.Store tx.old)
        (seen S.Store tx.new)) }
    ensures kept { KeepsOnErr (seen S.Store tx.old) (seen S.Store tx.new) result }
    ensures survives { Survives (seen S.Store tx.old) (seen S.Store tx.new) (λ _. ⊥) }
{
    create_old(tx)?;
    insert_person(tx, person)?;
    insert_board(tx, board)?;
    insert_role(tx, role)
}

/// Makes the tables of the first version in an empty database, for one person on one board, at once.
pub fn create_v1<S: Alter>(
    conn: &mut Connection<S>,
    person: &PersonRow,
    board: &BoardRow,
    role: &RoleRow,
) -> Result<(), StoreFault>
    requires { conn.old.in_transaction ≡ false }
    ensures idle { conn.new.in_transaction ≡ false }
    ensures done { OnOk result
        (StandsEmpty (state S.Store conn.old)
        → StandsOld (first_content person.now board.now role.now) (state S.Store conn.new)) }
    ensures memory { result ≡ Err StoreFault.Memory → StandsEmpty (state S.Store conn.old)
        → StandsEmpty (state S.Store conn.new) }
    ensures store { result ≡ Err StoreFault.Store → StandsEmpty (state S.Store conn.old)
        → StandsEmptyOrOld (first_content person.now board.now role.now) (state S.Store conn.new) }
{
    let mut making = conn.transaction();
    if let Err(error) = put_first(&mut making, person, board, role) {
        return Err(StoreFault::before_commit(&error));
    }
    match making.commit() {
        Ok(()) => Ok(()),
        Err(_) => Err(StoreFault::Store), // A stop may leave no table or all of them.
    }
}
