//! The rows of a board's history. Each query stands in a transaction that is dropped, and leaves everything as it was.

ghost use Rattle.std.specs.Prelude.{◌≡◌, ◌==◌, false, filter, map, IfOk};
ghost use Rattle.sqlite.specs.Held.{state};
ghost use Rattle.tb_sql.specs.Opening.{IsAsBefore};
ghost use Rattle.tb_sql_pages.specs.Entries.{is_entry_between, is_entry_of, IsBelow, IsEntryBefore};
ghost use Rattle.tb_sql_pages.specs.Last.{AreLast, listed};
ghost use Rattle.tb_sql_tables.specs.Found.{AreFound};
ghost use Rattle.tb_lookup.specs.Reopening.{OfContent};

use sqlite::{Alter, Connection};
use tb_sql::store::StoreFault;
use tb_sql_pages::histories::{entries_between, entries_of_task, last_number};
use tb_sql_tables::rows::HistoryRow;
use tb_values::Items;

/// The number of a board's last entry, if it has one.
pub fn last_number_on<S: Alter>(
    conn: &mut Connection<S>,
    board: u32,
) -> Result<Option<u32>, StoreFault>
    requires { conn.old.in_transaction ≡ false }
    ensures idle { conn.new.in_transaction ≡ false }
    ensures found { IfOk result (λ number. OfContent (state S.Store conn.old) (state S.Store conn.new)
        (λ content. AreLast IsBelow 1 (map (λ row. row.number)
        (filter (λ row. row.board == board) content.history)) (listed number))) }
    ensures same { IsAsBefore (state S.Store conn.old) (state S.Store conn.new) }
{
    let mut tx = conn.transaction();
    let found = last_number(&mut tx, board);
    drop(tx);
    match found {
        Ok(number) => Ok(number),
        Err(error) => Err(StoreFault::before_commit(&error)),
    }
}

/// The entries of a board from one number to another, both of them too, in order of number.
pub fn entry_rows_between<S: Alter>(
    conn: &mut Connection<S>,
    board: u32,
    first: u32,
    last: u32,
) -> Result<Items<HistoryRow>, StoreFault>
    requires { conn.old.in_transaction ≡ false }
    ensures idle { conn.new.in_transaction ≡ false }
    ensures found { IfOk result (λ rows. OfContent (state S.Store conn.old) (state S.Store conn.new)
        (λ content. AreFound IsEntryBefore
        (filter (is_entry_between board first last) content.history) rows)) }
    ensures same { IsAsBefore (state S.Store conn.old) (state S.Store conn.new) }
{
    let mut tx = conn.transaction();
    let found = entries_between(&mut tx, board, first, last);
    drop(tx);
    match found {
        Ok(rows) => Ok(rows),
        Err(error) => Err(StoreFault::before_commit(&error)),
    }
}

/// The last hundred entries of the task at a place of a board, which is counted from 1, in order of number.
pub fn entry_rows_of<S: Alter>(
    conn: &mut Connection<S>,
    board: u32,
    place: u32,
) -> Result<Items<HistoryRow>, StoreFault>
    requires { conn.old.in_transaction ≡ false }
    ensures idle { conn.new.in_transaction ≡ false }
    ensures found { IfOk result (λ rows. OfContent (state S.Store conn.old) (state S.Store conn.new)
        (λ content. AreLast IsEntryBefore 100
        (filter (is_entry_of board place) content.history) rows)) }
    ensures same { IsAsBefore (state S.Store conn.old) (state S.Store conn.new) }
{
    let mut tx = conn.transaction();
    let found = entries_of_task(&mut tx, board, place);
    drop(tx);
    match found {
        Ok(rows) => Ok(rows),
        Err(error) => Err(StoreFault::before_commit(&error)),
    }
}
