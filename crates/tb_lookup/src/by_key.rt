//! The row of a key. Each query stands in a transaction that is dropped, and leaves everything as it was.

ghost use Rattle.std.specs.Prelude.{◌≡◌, false, filter, Err, IfOk};
ghost use Rattle.std.specs.List.{list_any};
ghost use Rattle.sqlite.specs.Held.{state};
ghost use Rattle.tb_sql.specs.Changes.{is_board, is_horizon, is_kept, is_named, is_person};
ghost use Rattle.tb_sql.specs.Opening.{IsAsBefore};
ghost use Rattle.tb_sql_tables.specs.Content.{IsContent};
ghost use Rattle.tb_sql_tables.specs.Failing.{FailsByFault, KeepsFaults};
ghost use Rattle.tb_sql_tables.specs.Found.{IsOneOf};
ghost use Rattle.tb_lookup.specs.Reopening.{OfContent};

use sqlite::{Alter, Connection};
use tb_sql::boards::{find_board, has_board};
use tb_sql::horizons::find_horizon;
use tb_sql::kept::find_kept;
use tb_sql::people::{find_person, find_person_at, has_person};
use tb_sql::store::StoreFault;
use tb_sql_tables::rows::{BoardRow, HorizonRow, KeptRow, PersonRow};
use tb_task::TaskId;

/// The person of a name.
pub fn person_row_named<S: Alter>(
    conn: &mut Connection<S>,
    name: &str,
) -> Result<Option<PersonRow>, StoreFault>
    requires { conn.old.in_transaction ≡ false }
    ensures idle { conn.new.in_transaction ≡ false }
    ensures found { IfOk result (λ row. OfContent (state S.Store conn.old) (state S.Store conn.new)
        (λ content. IsOneOf (filter (is_named name.now) content.people) row)) }
    ensures excused { result ≡ Err StoreFault.Store
        → FailsByFault (state S.Store conn.old) (state S.Store conn.new)
        (λ content. IsContent content (state S.Store conn.old).now) }
    ensures faults { KeepsFaults (state S.Store conn.old) (state S.Store conn.new) }
    ensures same { IsAsBefore (state S.Store conn.old) (state S.Store conn.new) }
{
    let mut tx = conn.transaction();
    let found = find_person(&mut tx, name);
    drop(tx);
    match found {
        Ok(row) => Ok(row),
        Err(error) => Err(StoreFault::before_commit(&error)),
    }
}

/// The person of a number.
pub fn person_row_at<S: Alter>(
    conn: &mut Connection<S>,
    id: u32,
) -> Result<Option<PersonRow>, StoreFault>
    requires { conn.old.in_transaction ≡ false }
    ensures idle { conn.new.in_transaction ≡ false }
    ensures found { IfOk result (λ row. OfContent (state S.Store conn.old) (state S.Store conn.new)
        (λ content. IsOneOf (filter (is_person id) content.people) row)) }
    ensures excused { result ≡ Err StoreFault.Store
        → FailsByFault (state S.Store conn.old) (state S.Store conn.new)
        (λ content. IsContent content (state S.Store conn.old).now) }
    ensures faults { KeepsFaults (state S.Store conn.old) (state S.Store conn.new) }
    ensures same { IsAsBefore (state S.Store conn.old) (state S.Store conn.new) }
{
    let mut tx = conn.transaction();
    let found = find_person_at(&mut tx, id);
    drop(tx);
    match found {
        Ok(row) => Ok(row),
        Err(error) => Err(StoreFault::before_commit(&error)),
    }
}

/// Whether there is a person of a number.
pub fn has_person_at<S: Alter>(conn: &mut Connection<S>, id: u32) -> Result<bool, StoreFault>
    requires { conn.old.in_transaction ≡ false }
    ensures idle { conn.new.in_transaction ≡ false }
    ensures found { IfOk result
        (λ there. OfContent (state S.Store conn.old) (state S.Store conn.new)
        (λ content. there ≡ list_any (is_person id) content.people)) }
    ensures excused { result ≡ Err StoreFault.Store
        → FailsByFault (state S.Store conn.old) (state S.Store conn.new)
        (λ content. IsContent content (state S.Store conn.old).now) }
    ensures faults { KeepsFaults (state S.Store conn.old) (state S.Store conn.new) }
    ensures same { IsAsBefore (state S.Store conn.old) (state S.Store conn.new) }
{
    let mut tx = conn.transaction();
    let found = has_person(&mut tx, id);
    drop(tx);
    match found {
        Ok(there) => Ok(there),
        Err(error) => Err(StoreFault::before_commit(&error)),
    }
}

/// Whether there is a board of a number.
pub fn has_board_at<S: Alter>(conn: &mut Connection<S>, id: u32) -> Result<bool, StoreFault>
    requires { conn.old.in_transaction ≡ false }
    ensures idle { conn.new.in_transaction ≡ false }
    ensures found { IfOk result
        (λ there. OfContent (state S.Store conn.old) (state S.Store conn.new)
        (λ content. there ≡ list_any (is_board id) content.boards)) }
    ensures excused { result ≡ Err StoreFault.Store
        → FailsByFault (state S.Store conn.old) (state S.Store conn.new)
        (λ content. IsContent content (state S.Store conn.old).now) }
    ensures faults { KeepsFaults (state S.Store conn.old) (state S.Store conn.new) }
    ensures same { IsAsBefore (state S.Store conn.old) (state S.Store conn.new) }
{
    let mut tx = conn.transaction();
    let found = has_board(&mut tx, id);
    drop(tx);
    match found {
        Ok(there) => Ok(there),
        Err(error) => Err(StoreFault::before_commit(&error)),
    }
}

/// The board of a number.
pub fn board_row_at<S: Alter>(
    conn: &mut Connection<S>,
    id: u32,
) -> Result<Option<BoardRow>, StoreFault>
    requires { conn.old.in_transaction ≡ false }
    ensures idle { conn.new.in_transaction ≡ false }
    ensures found { IfOk result (λ row. OfContent (state S.Store conn.old) (state S.Store conn.new)
        (λ content. IsOneOf (filter (is_board id) content.boards) row)) }
    ensures excused { result ≡ Err StoreFault.Store
        → FailsByFault (state S.Store conn.old) (state S.Store conn.new)
        (λ content. IsContent content (state S.Store conn.old).now) }
    ensures faults { KeepsFaults (state S.Store conn.old) (state S.Store conn.new) }
    ensures same { IsAsBefore (state S.Store conn.old) (state S.Store conn.new) }
{
    let mut tx = conn.transaction();
    let found = find_board(&mut tx, id);
    drop(tx);
    match found {
        Ok(row) => Ok(row),
        Err(error) => Err(StoreFault::before_commit(&error)),
    }
}

/// How far ahead the board of a number looks.
pub fn horizon_row_at<S: Alter>(
    conn: &mut Connection<S>,
    board: u32,
) -> Result<Option<HorizonRow>, StoreFault>
    requires { conn.old.in_transaction ≡ false }
    ensures idle { conn.new.in_transaction ≡ false }
    ensures found { IfOk result (λ row. OfContent (state S.Store conn.old) (state S.Store conn.new)
        (λ content. IsOneOf (filter (is_horizon board) content.horizon) row)) }
    ensures excused { result ≡ Err StoreFault.Store
        → FailsByFault (state S.Store conn.old) (state S.Store conn.new)
        (λ content. IsContent content (state S.Store conn.old).now) }
    ensures faults { KeepsFaults (state S.Store conn.old) (state S.Store conn.new) }
    ensures same { IsAsBefore (state S.Store conn.old) (state S.Store conn.new) }
{
    let mut tx = conn.transaction();
    let found = find_horizon(&mut tx, board);
    drop(tx);
    match found {
        Ok(row) => Ok(row),
        Err(error) => Err(StoreFault::before_commit(&error)),
    }
}

/// The reply that is kept under the number of a person and an identifier.
pub fn kept_row_at<S: Alter>(
    conn: &mut Connection<S>,
    person: u32,
    id: TaskId,
) -> Result<Option<KeptRow>, StoreFault>
    requires { conn.old.in_transaction ≡ false }
    ensures idle { conn.new.in_transaction ≡ false }
    ensures found { IfOk result (λ row. OfContent (state S.Store conn.old) (state S.Store conn.new)
        (λ content. IsOneOf (filter (is_kept person id) content.kept) row)) }
    ensures excused { result ≡ Err StoreFault.Store
        → FailsByFault (state S.Store conn.old) (state S.Store conn.new)
        (λ content. IsContent content (state S.Store conn.old).now) }
    ensures faults { KeepsFaults (state S.Store conn.old) (state S.Store conn.new) }
    ensures same { IsAsBefore (state S.Store conn.old) (state S.Store conn.new) }
{
    let mut tx = conn.transaction();
    let found = find_kept(&mut tx, person, id);
    drop(tx);
    match found {
        Ok(row) => Ok(row),
        Err(error) => Err(StoreFault::before_commit(&error)),
    }
}
