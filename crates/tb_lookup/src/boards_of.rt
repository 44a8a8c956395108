//! The boards of a person, as the tables tell them.

ghost use Rattle.std.specs.Prelude.{◌≡◌, false, filter, IfOk};
ghost use Rattle.std.specs.List.{filter_map};
ghost use Rattle.sqlite.specs.Held.{state};
ghost use Rattle.tb_calls.specs.Roles.{board_role as board_role_in, boards_for, is_of};
ghost use Rattle.tb_sql.specs.Opening.{IsAsBefore};
ghost use Rattle.tb_lookup.specs.Reopening.{OfState};
ghost use Rattle.tb_lookup.specs.Named.{IsTitled};

use crate::by_key::board_row_at;
use crate::faults::fault_of;
use crate::gathering::put;
use crate::own_roles::role_rows_of;
use sqlite::{Alter, Connection};
use std::alloc::Global;
use tb_board::{RoleOn, Title};
use tb_calls::BoardRole;
use tb_rows::add_roles;
use tb_sql::store::StoreFault;
use tb_values::Items;

/// The boards on which the person of a number has a role, by number. Of a board its row alone is read.
pub fn stored_boards_of<S: Alter>(
    alloc: Global,
    conn: &mut Connection<S>,
    person: usize,
) -> Result<Items<BoardRole>, StoreFault>
    requires { conn.old.in_transaction ≡ false }
    ensures idle { conn.new.in_transaction ≡ false }
    ensures found { IfOk result (λ boards. OfState (state S.Store conn.old) (state S.Store conn.new)
        (λ s. boards ≡ boards_for s.world (Some person))) }
    ensures same { IsAsBefore (state S.Store conn.old) (state S.Store conn.new) }
{
    let Ok(person) = u32::try_from(person) else {
        return Err(StoreFault::Store); // No person has such a number.
    };
    let roles = roles_of(alloc, conn, person)?;
    with_titles(alloc, conn, roles.as_slice())
}

fn roles_of<S: Alter>(
    alloc: Global,
    conn: &mut Connection<S>,
    person: u32,
) -> Result<Items<RoleOn>, StoreFault>
    requires { conn.old.in_transaction ≡ false }
    ensures idle { conn.new.in_transaction ≡ false }
    ensures found { IfOk result (λ roles. OfState (state S.Store conn.old) (state S.Store conn.new)
        (λ s. roles ≡ filter (is_of person) s.world.roles)) }
    ensures same { IsAsBefore (state S.Store conn.old) (state S.Store conn.new) }
{
    let rows = role_rows_of(conn, person)?;
    match add_roles(Items::new(alloc), rows.as_slice()) {
        Ok(roles) => Ok(roles),
        Err(fault) => Err(fault_of(fault)),
    }
}

/// These roles, with the titles of their boards.
fn with_titles<S: Alter>(
    alloc: Global,
    conn: &mut Connection<S>,
    roles: &[RoleOn],
) -> Result<Items<BoardRole>, StoreFault>
    requires { conn.old.in_transaction ≡ false }
    ensures idle { conn.new.in_transaction ≡ false }
    ensures found { IfOk result (λ boards. OfState (state S.Store conn.old) (state S.Store conn.new)
        (λ s. boards ≡ filter_map (board_role_in s.world) roles.now)) }
    ensures same { IsAsBefore (state S.Store conn.old) (state S.Store conn.new) }
{
    let mut boards = Items::new(alloc);
    for role in roles {
        let board = board_role(alloc, conn, role)?;
        put(&mut boards, board)?;
    }
    Ok(boards)
}

/// A role, with the title of its board. That there is no such board, or that it has no title, is a failure of the store.
fn board_role<S: Alter>(
    alloc: Global,
    conn: &mut Connection<S>,
    role: &RoleOn,
) -> Result<BoardRole, StoreFault>
    requires { conn.old.in_transaction ≡ false }
    ensures idle { conn.new.in_transaction ≡ false }
    ensures found { IfOk result (λ board. OfState (state S.Store conn.old) (state S.Store conn.new)
        (λ s. IsTitled s.world role.now board)) }
    ensures same { IsAsBefore (state S.Store conn.old) (state S.Store conn.new) }
{
    let Some(row) = board_row_at(conn, role.board)? else {
        return Err(StoreFault::Store);
    };
    match Title::read(alloc, row.title.as_str()) {
        Ok(Some(title)) => Ok(BoardRole {
            board: role.board,
            title,
            role: role.role,
        }),
        Ok(None) => Err(StoreFault::Store),
        Err(_) => Err(StoreFault::Memory),
    }
}
