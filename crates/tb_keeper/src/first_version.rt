//! Stores of the first version, as tests of what becomes of them need them.

ghost use Rattle.std.specs.Prelude.{◌≡◌, false, IfErr, IfOk, MatchResult};
ghost use Rattle.sqlite.specs.Held.{state};
ghost use Rattle.tb_sql_tables.specs.Failing.{IsAtRest};
ghost use Rattle.tb_calls.specs.Call.{opening};
ghost use Rattle.tb_sql.specs.FirstVersion.{first_content};
ghost use Rattle.tb_sql_tables.specs.Standing.{StandsEmpty};
ghost use Rattle.tb_sql_tables.specs.Tables.{no_schema};
ghost use Rattle.tb_lookup.specs.Stored.{AreOldRowsOf};
ghost use Rattle.tb_lookup.specs.Migrating.{IsEmptyOrStoredOld, IsStoredOld};

use crate::creating::CreateFault;
use sqlite::{Alter, Connection};
use std::alloc::{AllocError, Global};
use tb_board::{Key, Name};
use tb_rows::FirstRows;
use tb_rows::laws::rows_are_apart;
use tb_sql::first_version::create_v1 as create_tables;
use tb_sql::opening::is_empty;
use tb_sql::store::StoreFault;

/// Makes a store of the first version in an empty database, for one person, who owns the one board.
pub fn create_v1<S: Alter>(
    alloc: Global,
    mut conn: Connection<S>,
    name: &Name,
    key: &Key,
) -> Result<Connection<S>, (Connection<S>, CreateFault)>
    requires { conn.in_transaction ≡ false }
    ensures created { IfOk result
        (λ made. IsAtRest (state S.Store conn)
        → IsStoredOld (opening name.now key.now) (state S.Store made)) }
    ensures empty { ((state S.Store conn).now.schema ≡ no_schema → ⊥)
        → MatchResult result (λ made. ⊥) (λ e. (e.0 ≡ conn) × (e.1 ≡ CreateFault.NotEmpty)) }
    ensures memory { IfErr result (λ e. e.1 ≡ CreateFault.Memory → IsAtRest (state S.Store conn)
        → StandsEmpty (state S.Store e.0)) }
    ensures store { IfErr result (λ e. e.1 ≡ CreateFault.Store → IsAtRest (state S.Store conn)
        → IsEmptyOrStoredOld (opening name.now key.now) (state S.Store e.0)) }
    ensures idle { IfErr result (λ e. e.0.in_transaction ≡ false) }
{
    if !is_empty(&conn) {
        return Err((conn, CreateFault::NotEmpty));
    }
    let Ok(first) = first_rows(alloc, name, key) else {
        return Err((conn, CreateFault::Memory));
    };
    match create_tables(&mut conn, &first.person, &first.board, &first.role) {
        Ok(()) => Ok(conn),
        Err(StoreFault::Memory) => Err((conn, CreateFault::Memory)),
        Err(StoreFault::Store) => Err((conn, CreateFault::Store)),
    }
}

fn first_rows(alloc: Global, name: &Name, key: &Key) -> Result<FirstRows, AllocError>
    ensures { IfOk result
        (λ first. AreOldRowsOf (opening name.now key.now)
        (first_content first.person first.board first.role)) }
{
    rows_are_apart();
    let first = FirstRows::of(alloc, name, key)?;
    name.has_form();
    key.has_form();
    Ok(first)
}
