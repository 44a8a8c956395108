//! The histories of boards, as the tables tell them.

ghost use Rattle.std.specs.Prelude.{◌≡◌, ◌+◌, ◌-◌, false, true, length, min, option_and_then, option_map, slice_get, IfOk};
ghost use Rattle.sqlite.specs.Held.{state};
ghost use Rattle.tb_board.specs.Tasks.{ids};
ghost use Rattle.tb_calls.specs.History.{history_seen};
ghost use Rattle.tb_history.specs.History.{entries_on};
ghost use Rattle.tb_history.specs.Pages.{with_content};
ghost use Rattle.tb_sql.specs.Opening.{IsAsBefore};
ghost use Rattle.tb_lookup.specs.Histories.{AreChosen, AreShown, IsImport, IsReadBy, IsShown};
ghost use Rattle.tb_lookup.specs.Reopening.{OfState};

use crate::gathering::put;
use crate::history_rows::{entry_rows_between, entry_rows_of, last_number_on};
use crate::people_on::stored_name;
use crate::replies::stored_reply;
use sqlite::{Alter, Connection};
use std::alloc::Global;
use tb_board::Board;
use tb_deeds::DeedKind;
use tb_history::{Entry, HistoryPage, ShownEntry, Which, shown_content};
use tb_sql::store::StoreFault;
use tb_sql_tables::rows::HistoryRow;
use tb_task::{Moment, TaskId};
use tb_values::Items;

/// How many entries a page shows at most.
const MOST_SHOWN: u32 = 100;

/// The number of a board's last entry, and 0 where it has none.
pub fn last_entry<S: Alter>(conn: &mut Connection<S>, board: u32) -> Result<u32, StoreFault>
    requires { conn.old.in_transaction ≡ false }
    ensures idle { conn.new.in_transaction ≡ false }
    ensures found { IfOk result (λ last. OfState (state S.Store conn.old) (state S.Store conn.new)
        (λ s. last ≡ length (entries_on s.history board))) }
    ensures same { IsAsBefore (state S.Store conn.old) (state S.Store conn.new) }
{
    let number = last_number_on(conn, board)?;
    Ok(number.unwrap_or(0))
}

/// A page of a board's history, as it is seen where the board has these tasks.
pub fn history_page<S: Alter>(
    alloc: Global,
    conn: &mut Connection<S>,
    board: &Board,
    which: Which,
) -> Result<HistoryPage, StoreFault>
    requires { conn.old.in_transaction ≡ false }
    ensures idle { conn.new.in_transaction ≡ false }
    ensures found { IfOk result (λ page. OfState (state S.Store conn.old) (state S.Store conn.new)
        (λ s. page ≡ history_seen s board.now which)) }
    ensures same { IsAsBefore (state S.Store conn.old) (state S.Store conn.new) }
{
    let last = last_entry(conn, board.number)?;
    let rows = chosen_rows(alloc, conn, board.number, which, last)?;
    let entries = shown_entries(alloc, conn, board, rows.as_slice())?;
    Ok(HistoryPage { last, entries })
}

/// The rows of those entries of a board that are looked at, where its last one has this number.
fn chosen_rows<S: Alter>(
    alloc: Global,
    conn: &mut Connection<S>,
    board: u32,
    which: Which,
    last: u32,
) -> Result<Items<HistoryRow>, StoreFault>
    requires { conn.old.in_transaction ≡ false }
    ensures idle { conn.new.in_transaction ≡ false }
    ensures found { IfOk result (λ rows. OfState (state S.Store conn.old) (state S.Store conn.new)
        (λ s. last ≡ length (entries_on s.history board) → AreChosen s board which rows)) }
    ensures same { IsAsBefore (state S.Store conn.old) (state S.Store conn.new) }
{
    match which {
        Which::Last => entry_rows_between(conn, board, first_of_last(last), last),
        Which::From(number) => rows_from(alloc, conn, board, number, last),
        Which::OfPlace(place) => rows_of_place(conn, board, place),
    }
}

/// The rows of the entries of a board from a number on. Above the last one there are none, and nothing is looked up.
fn rows_from<S: Alter>(
    alloc: Global,
    conn: &mut Connection<S>,
    board: u32,
    number: u32,
    last: u32,
) -> Result<Items<HistoryRow>, StoreFault>
    requires { conn.old.in_transaction ≡ false }
    ensures idle { conn.new.in_transaction ≡ false }
    ensures found { IfOk result (λ rows. OfState (state S.Store conn.old) (state S.Store conn.new)
        (λ s. last ≡ length (entries_on s.history board)
        → AreChosen s board (Which.From number) rows)) }
    ensures same { IsAsBefore (state S.Store conn.old) (state S.Store conn.new) }
{
    if number > last {
        return Ok(Items::new(alloc));
    }
    let first = number.max(1);
    entry_rows_between(conn, board, first, last_from(first))
}

/// The first number of a page that ends with this one, and 0 where all numbers up to it are on the page.
fn first_of_last(last: u32) -> u32
    ensures { result ≡ last - 99 }
{
    last.saturating_sub(MOST_SHOWN - 1)
}

/// The last number of a page that begins with this one.
fn last_from(first: u32) -> u32
    ensures { result ≡ min (first + 99) 4294967295 }
{
    first.saturating_add(MOST_SHOWN - 1)
}

/// The rows of the last entries about the task at a place, which is counted from 0.
fn rows_of_place<S: Alter>(
    conn: &mut Connection<S>,
    board: u32,
    place: usize,
) -> Result<Items<HistoryRow>, StoreFault>
    requires { conn.old.in_transaction ≡ false }
    ensures idle { conn.new.in_transaction ≡ false }
    ensures found { IfOk result (λ rows. OfState (state S.Store conn.old) (state S.Store conn.new)
        (λ s. AreChosen s board (Which.OfPlace place) rows)) }
    ensures same { IsAsBefore (state S.Store conn.old) (state S.Store conn.new) }
{
    let Ok(before) = u32::try_from(place) else {
        return Err(StoreFault::Store); // No task has such a place.
    };
    let Some(place) = before.checked_add(1) else {
        return Err(StoreFault::Store);
    };
    entry_rows_of(conn, board, place)
}

/// The entries of these rows, as they are shown on a board.
#[tactic(auto, using(crate::proofs::ShownEntries::none_shown))]
fn shown_entries<S: Alter>(
    alloc: Global,
    conn: &mut Connection<S>,
    board: &Board,
    rows: &[HistoryRow],
) -> Result<Items<ShownEntry>, StoreFault>
    requires { conn.old.in_transaction ≡ false }
    ensures idle { conn.new.in_transaction ≡ false }
    ensures found { IfOk result (λ entries. OfState (state S.Store conn.old) (state S.Store conn.new)
        (λ s. AreShown s board.now rows.now entries)) }
    ensures same { IsAsBefore (state S.Store conn.old) (state S.Store conn.new) }
{
    let mut entries = Items::new(alloc);
    for row in rows {
        let entry = shown_entry(alloc, conn, board, row)?;
        put(&mut entries, entry)?;
    }
    Ok(entries)
}

/// The entry of a row, as it is shown on a board. What an import brought isn't shown, so it isn't read. That an entry's person isn't
/// there, or the kept reply where it is read, is a failure of the store.
fn shown_entry<S: Alter>(
    alloc: Global,
    conn: &mut Connection<S>,
    board: &Board,
    row: &HistoryRow,
) -> Result<ShownEntry, StoreFault>
    requires { conn.old.in_transaction ≡ false }
    ensures idle { conn.new.in_transaction ≡ false }
    ensures found { IfOk result (λ shown. OfState (state S.Store conn.old) (state S.Store conn.new)
        (λ s. IsShown s board.now row.now shown)) }
    ensures same { IsAsBefore (state S.Store conn.old) (state S.Store conn.new) }
{
    let entry = stored_entry(alloc, conn, row)?;
    let task = task_at(board, entry.place);
    if is_import(entry.what) {
        return shown(alloc, row.number, &entry, task, None);
    }
    let Some(kept) = stored_reply(conn, row.person as usize, row.call)? else {
        return Err(StoreFault::Store);
    };
    let content = shown_content(kept.content.as_slice(), entry.what);
    shown(alloc, row.number, &entry, task, content)
}

fn is_import(what: DeedKind) -> bool
    ensures { result ≡ true → IsImport what }
{
    matches!(what, DeedKind::Import | DeedKind::ImportTodo)
}

/// The entry of this number, as it is shown with this task and content.
fn shown(
    alloc: Global,
    number: u32,
    entry: &Entry,
    task: Option<TaskId>,
    content: Option<&str>,
) -> Result<ShownEntry, StoreFault>
    ensures { IfOk result (λ shown. shown
        ≡ with_content number entry.now task (option_map (λ text. text.now) content.entry)) }
{
    match ShownEntry::of_entry(alloc, number, entry, task, content) {
        Ok(shown) => Ok(shown),
        Err(_) => Err(StoreFault::Memory),
    }
}

/// The entry of a row. A moment, a kind or a place that none has, and a person who isn't there, are failures of the store.
fn stored_entry<S: Alter>(
    alloc: Global,
    conn: &mut Connection<S>,
    row: &HistoryRow,
) -> Result<Entry, StoreFault>
    requires { conn.old.in_transaction ≡ false }
    ensures idle { conn.new.in_transaction ≡ false }
    ensures found { IfOk result (λ entry. OfState (state S.Store conn.old) (state S.Store conn.new)
        (λ s. IsReadBy s row.now entry)) }
    ensures same { IsAsBefore (state S.Store conn.old) (state S.Store conn.new) }
{
    let Some(moment) = Moment::from_seconds(row.moment) else {
        return Err(StoreFault::Store);
    };
    let Some(what) = DeedKind::of_number(row.what) else {
        return Err(StoreFault::Store);
    };
    let place = place_before(row.task)?;
    let member = stored_name(alloc, conn, row.person as usize)?;
    Ok(Entry {
        member,
        id: row.call,
        moment,
        what,
        place,
    })
}

/// A place counted from 0, of one that is counted from 1.
fn place_before(place: Option<u32>) -> Result<Option<usize>, StoreFault>
    ensures { IfOk result (λ before. place ≡ option_map (λ n. n + 1) before) }
{
    match place {
        Some(0) => Err(StoreFault::Store),
        Some(place) => Ok(Some((place - 1) as usize)),
        None => Ok(None),
    }
}

/// The identifier of the task at a place, which is counted from 0.
fn task_at(board: &Board, place: Option<usize>) -> Option<TaskId>
    ensures { result ≡ option_and_then (slice_get (ids board.now.tasks)) place }
{
    match board.tasks.get(place?) {
        Some(task) => Some(task.get().id),
        None => None,
    }
}
