//! Whether the history of a board is sound. It is read in steps, never all at once.

ghost use Rattle.std.specs.Prelude.{◌≡◌, ◌≢◌, ◌+◌, ◌↔◌, IfOk, IsTrue, [], false, filter, length};
ghost use Rattle.std.specs.List.{AllByRecursion};
ghost use Rattle.sqlite.specs.Held.{state};
ghost use Rattle.tb_sql.specs.Changes.{is_kept};
ghost use Rattle.tb_sql.specs.Opening.{IsAsBefore};
ghost use Rattle.tb_sql_pages.specs.Entries.{is_entry_between};
ghost use Rattle.tb_sql_pages.specs.Last.{AreNumberedFrom};
ghost use Rattle.tb_lookup.specs.Reopening.{OfContent};
ghost use Rattle.tb_keeper.specs.SoundHistories.{IsReadable, IsSoundEntry, IsSoundHistory};

use sqlite::{Alter, Connection};
use tb_deeds::DeedKind;
use tb_lookup::by_key::{has_person_at, kept_row_at};
use tb_lookup::history_rows::{entry_rows_between, last_number_on};
use tb_sql::store::StoreFault;
use tb_sql_tables::rows::HistoryRow;
use tb_task::{Moment, TaskId};

/// How many entries are read at once, at most.
const AT_ONCE: u32 = 1000;

/// So many steps reach each number of 32 bits.
const STEPS: u32 = 4_294_968;

/// Whether the entries of a board with so many tasks are numbered from 1 without a gap, and each is sound.
pub(crate) fn is_sound_history<S: Alter>(
    conn: &mut Connection<S>,
    board: u32,
    tasks: usize,
) -> Result<bool, StoreFault>
    requires { conn.old.in_transaction ≡ false }
    ensures idle { conn.new.in_transaction ≡ false }
    ensures tells { IfOk result (λ sound. OfContent (state S.Store conn.old) (state S.Store conn.new)
        (λ c. IsTrue sound ↔ IsSoundHistory c board tasks)) }
    ensures same { IsAsBefore (state S.Store conn.old) (state S.Store conn.new) }
{
    for step in 0..STEPS {
        let before = step * AT_ONCE;
        let last = before.saturating_add(AT_ONCE);
        let rows = entry_rows_between(conn, board, before + 1, last)?;
        let rows = rows.as_slice();
        let sound = are_sound(conn, rows, before, tasks)?;
        if !sound {
            return Ok(false);
        }
        let full = is_full_step(rows);
        if !full {
            return has_no_others(conn, board, last);
        }
    }
    Err(StoreFault::Store) // Never: the last step has fewer numbers.
}

fn is_full_step(rows: &[HistoryRow]) -> bool
    ensures { IsTrue result ↔ (length rows.now ≡ 1000) }
{
    rows.len() == AT_ONCE as usize
}

/// Whether entries are numbered without a gap after a number, and each is sound.
fn are_sound<S: Alter>(
    conn: &mut Connection<S>,
    rows: &[HistoryRow],
    before: u32,
    tasks: usize,
) -> Result<bool, StoreFault>
    requires { conn.old.in_transaction ≡ false }
    ensures idle { conn.new.in_transaction ≡ false }
    ensures tells { IfOk result (λ sound. OfContent (state S.Store conn.old) (state S.Store conn.new)
        (λ c. IsTrue sound ↔ AreNumberedFrom (λ row. row.number) (before + 1) rows.now
        × AllByRecursion (IsSoundEntry c tasks) rows.now)) }
    ensures same { IsAsBefore (state S.Store conn.old) (state S.Store conn.new) }
{
    if !are_numbered_after(rows, before) {
        return Ok(false);
    }
    for row in rows {
        let sound = is_sound_entry(conn, row, tasks)?;
        if !sound {
            return Ok(false);
        }
    }
    Ok(true)
}

fn are_numbered_after(rows: &[HistoryRow], before: u32) -> bool
    ensures { IsTrue result ↔ AreNumberedFrom (λ row. row.number) (before + 1) rows.now }
{
    let mut next = u64::from(before) + 1;
    for row in rows {
        if u64::from(row.number) != next {
            return false;
        }
        next = u64::from(row.number) + 1;
    }
    true
}

/// Whether an entry can be read, and its person and its kept reply are there.
fn is_sound_entry<S: Alter>(
    conn: &mut Connection<S>,
    row: &HistoryRow,
    tasks: usize,
) -> Result<bool, StoreFault>
    requires { conn.old.in_transaction ≡ false }
    ensures idle { conn.new.in_transaction ≡ false }
    ensures tells { IfOk result (λ sound. OfContent (state S.Store conn.old) (state S.Store conn.new)
        (λ c. IsTrue sound ↔ IsSoundEntry c tasks row.now)) }
    ensures same { IsAsBefore (state S.Store conn.old) (state S.Store conn.new) }
{
    if !is_readable(row, tasks) {
        return Ok(false);
    }
    let known = has_person_at(conn, row.person)?;
    if !known {
        return Ok(false);
    }
    has_kept(conn, row.person, row.call)
}

fn has_kept<S: Alter>(
    conn: &mut Connection<S>,
    person: u32,
    call: TaskId,
) -> Result<bool, StoreFault>
    requires { conn.old.in_transaction ≡ false }
    ensures idle { conn.new.in_transaction ≡ false }
    ensures tells { IfOk result (λ there. OfContent (state S.Store conn.old) (state S.Store conn.new)
        (λ c. IsTrue there ↔ (filter (is_kept person call) c.kept ≢ []))) }
    ensures same { IsAsBefore (state S.Store conn.old) (state S.Store conn.new) }
{
    let kept = kept_row_at(conn, person, call)?;
    Ok(kept.is_some())
}

fn is_readable(row: &HistoryRow, tasks: usize) -> bool
    ensures { IsTrue result ↔ IsReadable tasks row.now }
{
    if Moment::from_seconds(row.moment).is_none() || DeedKind::of_number(row.what).is_none() {
        return false;
    }
    match row.task {
        Some(place) => place >= 1 && place as usize <= tasks,
        None => true,
    }
}

/// Whether a board has no entry with number 0, and none past this one.
fn has_no_others<S: Alter>(
    conn: &mut Connection<S>,
    board: u32,
    last: u32,
) -> Result<bool, StoreFault>
    requires { conn.old.in_transaction ≡ false }
    ensures idle { conn.new.in_transaction ≡ false }
    ensures tells { IfOk result (λ none. OfContent (state S.Store conn.old) (state S.Store conn.new)
        (λ c. IsTrue none ↔ (filter (is_entry_between board 0 0) c.history ≡ [])
        × (filter (is_entry_between board (last + 1) 4294967295) c.history ≡ []))) }
    ensures same { IsAsBefore (state S.Store conn.old) (state S.Store conn.new) }
{
    let none = has_none_between(conn, board, 0, 0)?;
    if !none {
        return Ok(false);
    }
    match last.checked_add(1) {
        Some(first) => has_none_from(conn, board, first),
        None => Ok(true),
    }
}

/// Whether a board has no entry with this number or a higher one. Where it has, its last entry alone is read.
fn has_none_from<S: Alter>(
    conn: &mut Connection<S>,
    board: u32,
    first: u32,
) -> Result<bool, StoreFault>
    requires { conn.old.in_transaction ≡ false }
    ensures idle { conn.new.in_transaction ≡ false }
    ensures tells { IfOk result (λ none. OfContent (state S.Store conn.old) (state S.Store conn.new)
        (λ c. IsTrue none
        ↔ (filter (is_entry_between board first 4294967295) c.history ≡ []))) }
    ensures same { IsAsBefore (state S.Store conn.old) (state S.Store conn.new) }
{
    let last = last_number_on(conn, board)?.unwrap_or(0);
    if last >= first {
        let none = has_none_between(conn, board, last, last)?;
        if !none {
            return Ok(false);
        }
    }
    has_none_between(conn, board, first, u32::MAX)
}

fn has_none_between<S: Alter>(
    conn: &mut Connection<S>,
    board: u32,
    first: u32,
    last: u32,
) -> Result<bool, StoreFault>
    requires { conn.old.in_transaction ≡ false }
    ensures idle { conn.new.in_transaction ≡ false }
    ensures tells { IfOk result (λ none. OfContent (state S.Store conn.old) (state S.Store conn.new)
        (λ c. IsTrue none ↔ (filter (is_entry_between board first last) c.history ≡ []))) }
    ensures same { IsAsBefore (state S.Store conn.old) (state S.Store conn.new) }
{
    let rows = entry_rows_between(conn, board, first, last)?;
    Ok(rows.is_empty())
}
