//! What is written for a call: changes of rows, the row of its reply, and that of what it did on a board.

ghost use Rattle.std.specs.Prelude.{◌≡◌, ◌+◌, ◌++◌, Option, Err, IfOk, IsSome, OnErr, OnOk, false, length};
ghost use Rattle.std.specs.List.{AllByRecursion};
ghost use Rattle.std.specs.Option.{option_map, unwrap_or};
ghost use Rattle.sqlite.specs.Held.{state};
ghost use Rattle.tb_board.specs.Changing.{changed};
ghost use Rattle.tb_board.specs.World.{number_of};
ghost use Rattle.tb_calls.specs.Call.{name_of};
ghost use Rattle.tb_calls.specs.Keep.{MayCommit};
ghost use Rattle.tb_calls.specs.declared.call.Call.{Call as CallValue};
ghost use Rattle.tb_cache.specs.BoardCache.{AreOf};
ghost use Rattle.tb_deeds.specs.declared.deed.Deed.{Deed as DeedValue};
ghost use Rattle.tb_rows.specs.Part.{board_in, touched_board};
ghost use Rattle.tb_rows.specs.Steps.{Leads};
ghost use Rattle.tb_sql.specs.Opening.{IsAsBefore};
ghost use Rattle.tb_lookup.specs.Reopening.{OfState};
ghost use Rattle.tb_lookup.specs.Stored.{kept_row};
ghost use Rattle.tb_task.specs.Storable.{IsMoment};
ghost use Rattle.tb_keeper.specs.Committing.{deed_row, entry_changes};
ghost use Rattle.tb_keeper.specs.Forms.{HasChangeForm};
ghost use Rattle.tb_keeper.specs.PeopleAtHand.{AreStillKnown, IsKnownIn};
ghost use Rattle.tb_keeper.specs.Using.{found_in, used_by, IsUsed};

use crate::at_hand::board_at;
use crate::forms::have_forms;
use crate::people_at_hand::{People, person_at};
use sqlite::{Alter, Connection};
use std::alloc::{AllocError, Global};
use tb_board::{Board, Change};
use tb_cache::BoardCache;
use tb_calls::{Call, Reply};
use tb_deeds::Deed;
use tb_lookup::histories::last_entry;
use tb_rows::{part_changes, touched_board};
use tb_sql::changes::RowChange;
use tb_sql::store::StoreFault;
use tb_sql_tables::rows::{HistoryRow, KeptRow};
use tb_values::{Duplicate, Items, Shared};

/// Values have the forms of their types, and the tasks of a good world are taken.
pub(crate) fn hold_to_forms(changes: &[Change]) -> Result<(), StoreFault>
    ensures ok { OnOk result (AllByRecursion HasChangeForm changes.now) }
    ensures err { OnErr result (result ≡ Err StoreFault.Memory) }
{
    if have_forms(changes) {
        Ok(())
    } else {
        Err(StoreFault::Memory)
    }
}

/// The changes of rows that follow from changes.
pub(crate) fn rows_for<S: Alter>(
    alloc: Global,
    conn: &mut Connection<S>,
    cache: &mut BoardCache,
    people: usize,
    changes: &[Change],
) -> Result<Items<RowChange>, StoreFault>
    requires { conn.old.in_transaction ≡ false }
    ensures idle { conn.new.in_transaction ≡ false }
    ensures leads { IfOk result (λ rows. OfState (state S.Store conn.old) (state S.Store conn.new)
        (λ s. AreOf s.world cache.old.entries → people ≡ length s.world.people
        → (deed : Option DeedValue) (call : CallValue) → MayCommit s changes.now deed call
        → Leads rows s.world (changed s.world changes.now))) }
    ensures used { IsUsed cache.old (touched_board changes.now) cache.new.entries }
    ensures cached { OfState (state S.Store conn.old) (state S.Store conn.new)
        (λ s. AreOf s.world cache.old.entries → AreOf s.world cache.new.entries) }
    ensures same { IsAsBefore (state S.Store conn.old) (state S.Store conn.new) }
{
    let part = find_part(alloc, conn, cache, changes)?;
    match part_changes(alloc, people, board_of(&part), changes) {
        Ok(rows) => Ok(rows),
        Err(_) => Err(StoreFault::Memory),
    }
}

/// The board that changes touch, as it is before them.
fn find_part<S: Alter>(
    alloc: Global,
    conn: &mut Connection<S>,
    cache: &mut BoardCache,
    changes: &[Change],
) -> Result<Option<Shared<Board>>, StoreFault>
    requires { conn.old.in_transaction ≡ false }
    ensures idle { conn.new.in_transaction ≡ false }
    ensures found { IfOk result (λ part. OfState (state S.Store conn.old) (state S.Store conn.new)
        (λ s. AreOf s.world cache.old.entries
        → part ≡ board_in s.world (touched_board changes.now))) }
    ensures used { cache.new.entries
        ≡ used_by cache.old (touched_board changes.now) (found_in result) }
    ensures cached { OfState (state S.Store conn.old) (state S.Store conn.new)
        (λ s. AreOf s.world cache.old.entries → AreOf s.world cache.new.entries) }
    ensures same { IsAsBefore (state S.Store conn.old) (state S.Store conn.new) }
{
    let Some(number) = touched_board(changes) else {
        return Ok(None);
    };
    board_at(alloc, conn, cache, number)
}

fn board_of(part: &Option<Shared<Board>>) -> Option<&Board>
    ensures { option_map (λ b. b.now) result ≡ part.now }
{
    match part {
        Some(board) => Some(board.get()),
        None => None,
    }
}

/// The row of a reply, under the number of the call's person.
pub(crate) fn kept_row_for<S: Alter>(
    alloc: Global,
    conn: &mut Connection<S>,
    people: &mut People,
    call: &Call,
    reply: &Reply,
) -> Result<KeptRow, StoreFault>
    requires { conn.old.in_transaction ≡ false }
    ensures idle { conn.new.in_transaction ≡ false }
    ensures row { IfOk result (λ row. OfState (state S.Store conn.old) (state S.Store conn.new)
        (λ s. IsKnownIn s.world people.old.known → row ≡ kept_row s.world
        (name_of call.now, record { content = call.now.content; reply = reply.now }))) }
    ensures people { AreStillKnown (state S.Store conn.old) (state S.Store conn.new)
        people.old people.new }
    ensures same { IsAsBefore (state S.Store conn.old) (state S.Store conn.new) }
{
    let Some(person) = person_at(alloc, conn, people, &call.member)? else {
        return Err(StoreFault::Store); // Never: the caller of what may be committed is known.
    };
    let Ok(number) = u32::try_from(person.number) else {
        return Err(StoreFault::Store); // No person has such a number.
    };
    match row_of(number, call, reply) {
        Ok(row) => Ok(row),
        Err(_) => Err(StoreFault::Memory),
    }
}

fn row_of(person: u32, call: &Call, reply: &Reply) -> Result<KeptRow, AllocError>
    ensures { IfOk result
        (λ row. row ≡ record {
          person = person;
          id = call.now.id;
          content = call.now.content;
          number = reply.now.number;
          status = reply.now.status;
          body = reply.now.body;
        }) }
{
    let content = call.content.duplicate()?;
    let body = reply.body.duplicate()?;
    Ok(KeptRow {
        person,
        id: call.id,
        content,
        number: reply.number,
        status: reply.status,
        body,
    })
}

/// The row of what a call did on a board: the board's next entry, under the number of the call's person. Past entry 4,294,967,295 it is
/// Memory.
pub(crate) fn entry_row_for<S: Alter>(
    conn: &mut Connection<S>,
    deed: Option<Deed>,
    call: &Call,
    person: u32,
) -> Result<Option<HistoryRow>, StoreFault>
    requires { conn.old.in_transaction ≡ false }
    ensures idle { conn.new.in_transaction ≡ false }
    ensures row { IfOk result (λ row. OfState (state S.Store conn.old) (state S.Store conn.new)
        (λ s. person ≡ unwrap_or (number_of s.world call.now.member) 0
        → row ≡ option_map (deed_row s call.now) deed)) }
    ensures moment { IfOk result (λ row. IsSome deed → IsMoment call.now.moment) }
    ensures same { IsAsBefore (state S.Store conn.old) (state S.Store conn.new) }
{
    let Some(deed) = deed else {
        return Ok(None);
    };
    let last = last_entry(conn, deed.board)?;
    let Some(number) = last.checked_add(1) else {
        return Err(StoreFault::Memory);
    };
    let task = row_place(deed.place)?;
    Ok(Some(HistoryRow {
        board: deed.board,
        number,
        moment: call.moment.seconds(),
        person,
        call: call.id,
        what: deed.what.number(),
        task,
    }))
}

/// A place as rows count it, from 1.
fn row_place(place: Option<usize>) -> Result<Option<u32>, StoreFault>
    ensures { IfOk result (λ found. found ≡ option_map (λ p. p + 1) place) }
{
    let Some(place) = place else {
        return Ok(None);
    };
    match u32::try_from(place.saturating_add(1)) {
        Ok(place) => Ok(Some(place)),
        Err(_) => Err(StoreFault::Store), // No task stands at such a place.
    }
}

/// The changes, and then the row of a deed, if there is one.
pub(crate) fn with_entry(
    changes: Items<RowChange>,
    entry: Option<HistoryRow>,
) -> Result<Items<RowChange>, AllocError>
    ensures { IfOk result (λ all. all ≡ changes ++ entry_changes entry) }
{
    let mut all = changes;
    if let Some(entry) = entry {
        all.push(RowChange::AddEntry(entry))?;
    }
    Ok(all)
}
