//! Roles, as the tables tell them.

ghost use Rattle.std.specs.Prelude.{◌≡◌, false, IfOk, Err};
ghost use Rattle.sqlite.specs.Held.{state};
ghost use Rattle.tb_sql.specs.Opening.{IsAsBefore};
ghost use Rattle.tb_sql_tables.specs.Failing.{KeepsFaults};
ghost use Rattle.tb_lookup.specs.Reopening.{OfState, FailsOfState};
ghost use Rattle.tb_lookup.specs.Roles.{AreRolesFound, role_for, roles_at};

use crate::faults::fault_of;
use crate::reading::role_rows;
use sqlite::{Alter, Connection};
use std::alloc::Global;
use tb_board::{Role, World};
use tb_rows::add_roles;
use tb_sql::store::StoreFault;
use tb_values::Items;

/// The roles of two people on a board, and how many owners it has.
#[derive(Clone, Copy, Debug, PartialEq, Eq)]
pub struct RolesFound {
    pub caller: Option<Role>,
    /// None, too, where no other person is asked for.
    pub other: Option<Role>,
    pub owners: usize,
}

/// What the tables tell of the roles on a board. Nobody has a role on a board that isn't there.
pub fn roles_found<S: Alter>(
    alloc: Global,
    conn: &mut Connection<S>,
    board: u32,
    caller: usize,
    other: Option<usize>,
) -> Result<RolesFound, StoreFault>
    requires { conn.old.in_transaction ≡ false }
    ensures idle { conn.new.in_transaction ≡ false }
    ensures found { IfOk result (λ roles. OfState (state S.Store conn.old) (state S.Store conn.new)
        (λ s. AreRolesFound s.world board caller other roles)) }
    ensures excused { result ≡ Err StoreFault.Store
        → FailsOfState (state S.Store conn.old) (state S.Store conn.new) }
    ensures faults { KeepsFaults (state S.Store conn.old) (state S.Store conn.new) }
    ensures same { IsAsBefore (state S.Store conn.old) (state S.Store conn.new) }
{
    let alone = roles_alone(alloc, conn, board)?;
    Ok(roles_in(&alone, board, caller, other))
}

/// A world of the roles on a board, and of nothing else.
fn roles_alone<S: Alter>(
    alloc: Global,
    conn: &mut Connection<S>,
    board: u32,
) -> Result<World, StoreFault>
    requires { conn.old.in_transaction ≡ false }
    ensures idle { conn.new.in_transaction ≡ false }
    ensures found { IfOk result (λ alone. OfState (state S.Store conn.old) (state S.Store conn.new)
        (λ s. alone.roles ≡ roles_at s.world board)) }
    ensures excused { result ≡ Err StoreFault.Store
        → FailsOfState (state S.Store conn.old) (state S.Store conn.new) }
    ensures faults { KeepsFaults (state S.Store conn.old) (state S.Store conn.new) }
    ensures same { IsAsBefore (state S.Store conn.old) (state S.Store conn.new) }
{
    let rows = role_rows(conn, board)?;
    match add_roles(Items::new(alloc), rows.as_slice()) {
        Ok(roles) => Ok(World {
            people: Items::new(alloc),
            boards: Items::new(alloc),
            roles,
        }),
        Err(fault) => Err(fault_of(fault)),
    }
}

fn roles_in(world: &World, board: u32, caller: usize, other: Option<usize>) -> RolesFound
    ensures { AreRolesFound world.now board caller other result }
{
    RolesFound {
        caller: world.role_of(board, caller),
        other: role_for(world, board, other),
        owners: world.owners(board),
    }
}

/// The role of a person, where one is asked for.
fn role_for(world: &World, board: u32, person: Option<usize>) -> Option<Role>
    ensures { result ≡ role_for world.now board person }
{
    match person {
        Some(person) => world.role_of(board, person),
        None => None,
    }
}
