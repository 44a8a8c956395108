//! What an audit asks of rows before it counts: rows that no state has are a failure of the store.

ghost use Rattle.std.specs.Prelude.{◌≡◌, ◌↔◌, false, IfOk, IsTrue, OnOk};
ghost use Rattle.std.specs.List.{list_all, list_any};
ghost use Rattle.sqlite.specs.Held.{state};
ghost use Rattle.tb_board.specs.Good.{IsGood};
ghost use Rattle.tb_sql.specs.Opening.{IsAsBefore};
ghost use Rattle.tb_keeper.specs.Auditing.{is_owners, IsOwned};
ghost use Rattle.tb_keeper.specs.SoundRows.{is_number_of, is_reply_row, is_role_row, AreNumbered, AreReadAs, HasPeople};
ghost use Rattle.tb_lookup.specs.Reopening.{OfContent};

use sqlite::{Alter, Connection};
use std::alloc::Global;
use tb_board::Board;
use tb_good::is_good_board;
use tb_lookup::faults::fault_of;
use tb_lookup::reading::{kept_rows, people_rows, role_rows};
use tb_rows::read_people;
use tb_sql::store::StoreFault;
use tb_sql_tables::fitting::kept_fits;
use tb_sql_tables::rows::{BoardRow, KeptRow, PersonRow, RoleRow};
use tb_task::MOST_PEOPLE;

const OWNER: u32 = 1;

const MEMBER: u32 = 2;

const READER: u32 = 3;

/// How many people are stored. They are numbered from 1 and can be read, and each kept reply is one of theirs.
pub(crate) fn hold_people<S: Alter>(
    alloc: Global,
    conn: &mut Connection<S>,
) -> Result<usize, StoreFault>
    requires { conn.old.in_transaction ≡ false }
    ensures idle { conn.new.in_transaction ≡ false }
    ensures people { IfOk result
        (λ people. OfContent (state S.Store conn.old) (state S.Store conn.new)
        (λ c. HasPeople c people)) }
    ensures same { IsAsBefore (state S.Store conn.old) (state S.Store conn.new) }
{
    let rows = people_rows(conn)?;
    let people = count_people(alloc, rows.as_slice())?;
    let kept = kept_rows(conn)?;
    if people <= MOST_PEOPLE && are_of_people(kept.as_slice(), people) {
        Ok(people)
    } else {
        Err(StoreFault::Store)
    }
}

/// How many people these rows are, which number them from 1.
fn count_people(alloc: Global, rows: &[PersonRow]) -> Result<usize, StoreFault>
    ensures { IfOk result (AreReadAs rows.now) }
{
    match read_people(alloc, rows) {
        Ok(people) => Ok(people.len()),
        Err(fault) => Err(fault_of(fault)),
    }
}

fn are_of_people(rows: &[KeptRow], people: usize) -> bool
    ensures { result ≡ list_all (is_reply_row people) rows.now }
{
    rows.iter().all(|row| is_reply_of(row, people))
}

/// Whether a row keeps a reply, with its number and status, of one of so many people.
fn is_reply_of(row: &KeptRow, people: usize) -> bool
    ensures { result ≡ is_reply_row people row.now }
{
    kept_fits(row);
    is_number_of(row.person, people)
}

fn is_number_of(person: u32, people: usize) -> bool
    ensures { result ≡ is_number_of people person }
{
    person > 0 && person as usize <= people
}

/// The roles on a board are those of so many people, and one of them is an owner.
pub(crate) fn hold_roles<S: Alter>(
    conn: &mut Connection<S>,
    board: u32,
    people: usize,
) -> Result<(), StoreFault>
    requires { conn.old.in_transaction ≡ false }
    ensures idle { conn.new.in_transaction ≡ false }
    ensures owned { OnOk result
        (OfContent (state S.Store conn.old) (state S.Store conn.new) (λ c. IsOwned c people board)) }
    ensures same { IsAsBefore (state S.Store conn.old) (state S.Store conn.new) }
{
    let rows = role_rows(conn, board)?;
    if has_owner(rows.as_slice()) && are_roles_of(rows.as_slice(), people) {
        Ok(())
    } else {
        Err(StoreFault::Store)
    }
}

fn has_owner(rows: &[RoleRow]) -> bool
    ensures { result ≡ list_any is_owners rows.now }
{
    rows.iter().any(|row| row.kind == OWNER)
}

fn are_roles_of(rows: &[RoleRow], people: usize) -> bool
    ensures { result ≡ list_all (is_role_row people) rows.now }
{
    rows.iter().all(|row| is_role_of(row, people))
}

fn is_role_of(row: &RoleRow, people: usize) -> bool
    ensures { result ≡ is_role_row people row.now }
{
    matches!(row.kind, OWNER | MEMBER | READER) && is_number_of(row.person, people)
}

/// Whether boards are numbered from 1.
pub(crate) fn are_numbered(rows: &[BoardRow]) -> bool
    ensures { IsTrue result ↔ AreNumbered rows.now }
{
    let mut next = 1u64;
    for row in rows {
        if u64::from(row.id) != next {
            return false;
        }
        next = u64::from(row.id) + 1;
    }
    true
}

/// The board is good by itself.
pub(crate) fn hold_board(alloc: Global, board: &Board) -> Result<(), StoreFault>
    ensures good { OnOk result (IsGood board.now) }
{
    match is_good_board(alloc, board) {
        Ok(true) => Ok(()),
        Ok(false) => Err(StoreFault::Store),
        Err(_) => Err(StoreFault::Memory),
    }
}
