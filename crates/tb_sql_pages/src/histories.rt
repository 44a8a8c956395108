//! The statements on the histories of the boards.

ghost use Rattle.std.specs.Prelude.{◌≡◌, ◌==◌, IsTrue, IfOk, OnOk, filter, map};
ghost use Rattle.sqlite.specs.State.{HasCleanDisk, Survives};
ghost use Rattle.tb_sql_tables.specs.Inside.{seen, KeepsInside, KeepsOnErr};
ghost use Rattle.tb_sql_tables.specs.Statements.{Changes, Finds};
ghost use Rattle.tb_sql_tables.specs.Found.{AreFound};
ghost use Rattle.tb_sql_pages.specs.Entries.{with_entry, is_entry_between, is_entry_of, IsEntryBefore, IsBelow};
ghost use Rattle.tb_sql_pages.specs.Last.{AreLast, listed};

use crate::bind::{identifier_bytes, moment_number};
use crate::read::{number_in_first, read_entries};
use sqlite::{Alter, Error, Transaction, params};
use tb_sql_tables::fitting::entry_fits;
use tb_sql_tables::rows::HistoryRow;
use tb_sql_tables::run::{find_rows, run};
use tb_values::Items;

/// Adds an entry to its board's history. It fails where there is no such board or person, the board has an entry of this number, or the
/// moment is 2^63 seconds or more.
pub fn insert_entry<S: Alter>(tx: &mut Transaction<'_, S>, row: &HistoryRow) -> Result<(), Error>
    ensures same_reference { tx.new.conn.ghost_name ≡ tx.old.conn.ghost_name }
    ensures put { HasCleanDisk (seen S.Store tx.new)
        → IsTrue (seen S.Store tx.old).in_transaction
        → OnOk result (Changes (with_entry row.now) (seen S.Store tx.old) (seen S.Store tx.new)) }
    ensures kept { KeepsOnErr (seen S.Store tx.old) (seen S.Store tx.new) result }
    ensures survives { Survives (seen S.Store tx.old) (seen S.Store tx.new) (λ _. ⊥) }
{
    entry_fits(row);
    let moment = moment_number(row.moment)?;
    let call = identifier_bytes(row.call);
    let call = call.as_slice();
    run(
        tx,
        "INSERT INTO history (board, number, moment, person, call, what, task) VALUES (?1, ?2, ?3, ?4, ?5, ?6, ?7)",
        params![
            row.board, row.number, moment, row.person, call, row.what, row.task
        ],
    )
}

/// The number of a board's last entry, if it has one.
pub fn last_number<S: Alter>(tx: &mut Transaction<'_, S>, board: u32) -> Result<Option<u32>, Error>
    ensures same_reference { tx.new.conn.ghost_name ≡ tx.old.conn.ghost_name }
    ensures found { HasCleanDisk (seen S.Store tx.new)
        → IfOk result (λ number. Finds
        (λ content. AreLast IsBelow 1 (map (λ row. row.number)
        (filter (λ row. row.board == board) content.history)) (listed number))
        (seen S.Store tx.old)) }
    ensures kept { KeepsInside (seen S.Store tx.old) (seen S.Store tx.new) }
    ensures survives { Survives (seen S.Store tx.old) (seen S.Store tx.new) (λ _. ⊥) }
{
    let rows = find_rows(
        tx,
        "SELECT number FROM history WHERE board = ?1 ORDER BY number DESC LIMIT 1",
        params![board],
    )?;
    number_in_first(&rows)
}

/// The entries of a board from one number to another, both of them too, in order of number.
pub fn entries_between<S: Alter>(
    tx: &mut Transaction<'_, S>,
    board: u32,
    first: u32,
    last: u32,
) -> Result<Items<HistoryRow>, Error>
    ensures same_reference { tx.new.conn.ghost_name ≡ tx.old.conn.ghost_name }
    ensures found { HasCleanDisk (seen S.Store tx.new)
        → IfOk result (λ entries. Finds
        (λ content. AreFound IsEntryBefore
        (filter (is_entry_between board first last) content.history) entries)
        (seen S.Store tx.old)) }
    ensures kept { KeepsInside (seen S.Store tx.old) (seen S.Store tx.new) }
    ensures survives { Survives (seen S.Store tx.old) (seen S.Store tx.new) (λ _. ⊥) }
{
    let rows = find_rows(
        tx,
        "SELECT board, number, moment, person, call, what, task FROM history WHERE board = ?1 AND number >= ?2 AND number <= ?3 ORDER BY number",
        params![board, first, last],
    )?;
    read_entries(*rows.allocator(), &rows)
}

/// The last hundred entries of the task at a place of a board, in order of number.
pub fn entries_of_task<S: Alter>(
    tx: &mut Transaction<'_, S>,
    board: u32,
    place: u32,
) -> Result<Items<HistoryRow>, Error>
    ensures same_reference { tx.new.conn.ghost_name ≡ tx.old.conn.ghost_name }
    ensures found { HasCleanDisk (seen S.Store tx.new)
        → IfOk result (λ entries. Finds
        (λ content. AreLast IsEntryBefore 100
        (filter (is_entry_of board place) content.history) entries)
        (seen S.Store tx.old)) }
    ensures kept { KeepsInside (seen S.Store tx.old) (seen S.Store tx.new) }
    ensures survives { Survives (seen S.Store tx.old) (seen S.Store tx.new) (λ _. ⊥) }
{
    let mut rows = find_rows(
        tx,
        "SELECT board, number, moment, person, call, what, task FROM history WHERE board = ?1 AND task = ?2 ORDER BY number DESC LIMIT 100",
        params![board, place],
    )?;
    rows.reverse();
    read_entries(*rows.allocator(), &rows)
}
