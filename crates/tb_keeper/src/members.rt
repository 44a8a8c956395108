//! What is looked up for the views of roles.

ghost use Rattle.std.specs.Prelude.{◌≡◌, IfOk, false};
ghost use Rattle.sqlite.specs.Held.{state};
ghost use Rattle.tb_board.specs.World.{role_of};
ghost use Rattle.tb_calls.specs.Roles.{boards_of, people_for, people_on, where_some};
ghost use Rattle.tb_sql.specs.Opening.{IsAsBefore};
ghost use Rattle.tb_lookup.specs.Reopening.{OfState};

use sqlite::{Alter, Connection};
use std::alloc::Global;
use tb_board::Name;
use tb_calls::{BoardRole, PersonRole};
use tb_lookup::boards_of::stored_boards_of;
use tb_lookup::people::stored_person;
use tb_lookup::people_on::stored_people_on;
use tb_lookup::roles::roles_found;
use tb_sql::store::StoreFault;
use tb_values::Items;

/// The boards on which the person of a name has a role.
pub(crate) fn find_boards<S: Alter>(
    alloc: Global,
    conn: &mut Connection<S>,
    name: &Name,
) -> Result<Items<BoardRole>, StoreFault>
    ensures idle { conn.old.in_transaction ≡ false → conn.new.in_transaction ≡ false }
    ensures found { IfOk result
        (λ boards. OfState (state S.Store conn.old) (state S.Store conn.new)
        (λ s. boards ≡ boards_of s.world name.now)) }
    ensures same { IsAsBefore (state S.Store conn.old) (state S.Store conn.new) }
{
    if !conn.is_autocommit() {
        return Err(StoreFault::Store); // Never: each call ends its transaction.
    }
    match stored_person(alloc, conn, name)? {
        Some(person) => stored_boards_of(alloc, conn, person.number),
        None => Ok(Items::new(alloc)),
    }
}

/// Those who have a role on a board, where the person of a name has one.
pub(crate) fn find_people<S: Alter>(
    alloc: Global,
    conn: &mut Connection<S>,
    name: &Name,
    board: u32,
) -> Result<Option<Items<PersonRole>>, StoreFault>
    ensures idle { conn.old.in_transaction ≡ false → conn.new.in_transaction ≡ false }
    ensures found { IfOk result
        (λ people. OfState (state S.Store conn.old) (state S.Store conn.new)
        (λ s. people ≡ people_for s.world name.now board)) }
    ensures same { IsAsBefore (state S.Store conn.old) (state S.Store conn.new) }
{
    if !conn.is_autocommit() {
        return Err(StoreFault::Store);
    }
    let Some(person) = stored_person(alloc, conn, name)? else {
        return Ok(None);
    };
    people_seen_by(alloc, conn, board, person.number)
}

/// Those who have a role on a board, where the person of a number has one.
fn people_seen_by<S: Alter>(
    alloc: Global,
    conn: &mut Connection<S>,
    board: u32,
    person: usize,
) -> Result<Option<Items<PersonRole>>, StoreFault>
    requires { conn.old.in_transaction ≡ false }
    ensures idle { conn.new.in_transaction ≡ false }
    ensures found { IfOk result (λ people. OfState (state S.Store conn.old) (state S.Store conn.new)
        (λ s. people ≡ where_some (role_of s.world board person) (people_on s.world board))) }
    ensures same { IsAsBefore (state S.Store conn.old) (state S.Store conn.new) }
{
    let roles = roles_found(alloc, conn, board, person, None)?;
    match roles.caller {
        Some(_) => Ok(Some(stored_people_on(alloc, conn, board)?)),
        None => Ok(None),
    }
}
