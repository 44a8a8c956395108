//! The rows of each table. Each query stands in a transaction that is dropped, and leaves everything as it was.

ghost use Rattle.std.specs.Prelude.{◌≡◌, ◌==◌, false, filter, IfOk, IsPermutation, Err};
ghost use Rattle.sqlite.specs.Held.{state};
ghost use Rattle.tb_sql.specs.Changes.{IsBoardBefore, IsGoneBefore, IsPersonBefore, IsRoleBefore, IsTaskBefore};
ghost use Rattle.tb_sql.specs.Opening.{IsAsBefore};
ghost use Rattle.tb_sql_tables.specs.Found.{AreFound};
ghost use Rattle.tb_sql_tables.specs.Content.{IsContent};
ghost use Rattle.tb_sql_tables.specs.Failing.{FailsByFault, KeepsFaults};
ghost use Rattle.tb_lookup.specs.Reopening.{OfContent};

use sqlite::{Alter, Connection};
use tb_sql::boards::select_boards;
use tb_sql::gone::select_gone;
use tb_sql::kept::select_kept;
use tb_sql::people::select_people;
use tb_sql::roles::select_roles;
use tb_sql::store::StoreFault;
use tb_sql::tasks::select_tasks;
use tb_sql_tables::rows::{BoardRow, GoneRow, KeptRow, PersonRow, RoleRow, TaskRow};
use tb_values::Items;

/// All people, in order of number.
pub fn people_rows<S: Alter>(conn: &mut Connection<S>) -> Result<Items<PersonRow>, StoreFault>
    requires { conn.old.in_transaction ≡ false }
    ensures idle { conn.new.in_transaction ≡ false }
    ensures found { IfOk result (λ rows. OfContent (state S.Store conn.old) (state S.Store conn.new)
        (λ content. AreFound IsPersonBefore content.people rows)) }
    ensures excused { result ≡ Err StoreFault.Store
        → FailsByFault (state S.Store conn.old) (state S.Store conn.new)
        (λ content. IsContent content (state S.Store conn.old).now) }
    ensures faults { KeepsFaults (state S.Store conn.old) (state S.Store conn.new) }
    ensures same { IsAsBefore (state S.Store conn.old) (state S.Store conn.new) }
{
    let mut tx = conn.transaction();
    let found = select_people(&mut tx);
    drop(tx);
    match found {
        Ok(rows) => Ok(rows),
        Err(error) => Err(StoreFault::before_commit(&error)),
    }
}

/// All boards, in order of number.
pub fn board_rows<S: Alter>(conn: &mut Connection<S>) -> Result<Items<BoardRow>, StoreFault>
    requires { conn.old.in_transaction ≡ false }
    ensures idle { conn.new.in_transaction ≡ false }
    ensures found { IfOk result (λ rows. OfContent (state S.Store conn.old) (state S.Store conn.new)
        (λ content. AreFound IsBoardBefore content.boards rows)) }
    ensures excused { result ≡ Err StoreFault.Store
        → FailsByFault (state S.Store conn.old) (state S.Store conn.new)
        (λ content. IsContent content (state S.Store conn.old).now) }
    ensures faults { KeepsFaults (state S.Store conn.old) (state S.Store conn.new) }
    ensures same { IsAsBefore (state S.Store conn.old) (state S.Store conn.new) }
{
    let mut tx = conn.transaction();
    let found = select_boards(&mut tx);
    drop(tx);
    match found {
        Ok(rows) => Ok(rows),
        Err(error) => Err(StoreFault::before_commit(&error)),
    }
}

/// The roles on a board, in order of person.
pub fn role_rows<S: Alter>(
    conn: &mut Connection<S>,
    board: u32,
) -> Result<Items<RoleRow>, StoreFault>
    requires { conn.old.in_transaction ≡ false }
    ensures idle { conn.new.in_transaction ≡ false }
    ensures found { IfOk result (λ rows. OfContent (state S.Store conn.old) (state S.Store conn.new)
        (λ content. AreFound IsRoleBefore
        (filter (λ row. row.board == board) content.roles) rows)) }
    ensures excused { result ≡ Err StoreFault.Store
        → FailsByFault (state S.Store conn.old) (state S.Store conn.new)
        (λ content. IsContent content (state S.Store conn.old).now) }
    ensures faults { KeepsFaults (state S.Store conn.old) (state S.Store conn.new) }
    ensures same { IsAsBefore (state S.Store conn.old) (state S.Store conn.new) }
{
    let mut tx = conn.transaction();
    let found = select_roles(&mut tx, board);
    drop(tx);
    match found {
        Ok(rows) => Ok(rows),
        Err(error) => Err(StoreFault::before_commit(&error)),
    }
}

/// The tasks of a board, in order of place.
pub fn task_rows<S: Alter>(
    conn: &mut Connection<S>,
    board: u32,
) -> Result<Items<TaskRow>, StoreFault>
    requires { conn.old.in_transaction ≡ false }
    ensures idle { conn.new.in_transaction ≡ false }
    ensures found { IfOk result (λ rows. OfContent (state S.Store conn.old) (state S.Store conn.new)
        (λ content. AreFound IsTaskBefore
        (filter (λ row. row.board == board) content.tasks) rows)) }
    ensures excused { result ≡ Err StoreFault.Store
        → FailsByFault (state S.Store conn.old) (state S.Store conn.new)
        (λ content. IsContent content (state S.Store conn.old).now) }
    ensures faults { KeepsFaults (state S.Store conn.old) (state S.Store conn.new) }
    ensures same { IsAsBefore (state S.Store conn.old) (state S.Store conn.new) }
{
    let mut tx = conn.transaction();
    let found = select_tasks(&mut tx, board);
    drop(tx);
    match found {
        Ok(rows) => Ok(rows),
        Err(error) => Err(StoreFault::before_commit(&error)),
    }
}

/// The instances that a board lacks, in order of template and number.
pub fn gone_rows<S: Alter>(
    conn: &mut Connection<S>,
    board: u32,
) -> Result<Items<GoneRow>, StoreFault>
    requires { conn.old.in_transaction ≡ false }
    ensures idle { conn.new.in_transaction ≡ false }
    ensures found { IfOk result (λ rows. OfContent (state S.Store conn.old) (state S.Store conn.new)
        (λ content. AreFound IsGoneBefore (filter (λ row. row.board == board) content.gone) rows)) }
    ensures excused { result ≡ Err StoreFault.Store
        → FailsByFault (state S.Store conn.old) (state S.Store conn.new)
        (λ content. IsContent content (state S.Store conn.old).now) }
    ensures faults { KeepsFaults (state S.Store conn.old) (state S.Store conn.new) }
    ensures same { IsAsBefore (state S.Store conn.old) (state S.Store conn.new) }
{
    let mut tx = conn.transaction();
    let found = select_gone(&mut tx, board);
    drop(tx);
    match found {
        Ok(rows) => Ok(rows),
        Err(error) => Err(StoreFault::before_commit(&error)),
    }
}

/// All kept replies, in no order.
pub fn kept_rows<S: Alter>(conn: &mut Connection<S>) -> Result<Items<KeptRow>, StoreFault>
    requires { conn.old.in_transaction ≡ false }
    ensures idle { conn.new.in_transaction ≡ false }
    ensures found { IfOk result (λ rows. OfContent (state S.Store conn.old) (state S.Store conn.new)
        (λ content. IsPermutation content.kept rows)) }
    ensures excused { result ≡ Err StoreFault.Store
        → FailsByFault (state S.Store conn.old) (state S.Store conn.new)
        (λ content. IsContent content (state S.Store conn.old).now) }
    ensures faults { KeepsFaults (state S.Store conn.old) (state S.Store conn.new) }
    ensures same { IsAsBefore (state S.Store conn.old) (state S.Store conn.new) }
{
    let mut tx = conn.transaction();
    let found = select_kept(&mut tx);
    drop(tx);
    match found {
        Ok(rows) => Ok(rows),
        Err(error) => Err(StoreFault::before_commit(&error)),
    }
}
