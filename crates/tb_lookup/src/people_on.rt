//! The people on a board, as the tables tell them.

ghost use Rattle.std.specs.Prelude.{◌≡◌, false, filter, IfOk};
ghost use Rattle.std.specs.List.{filter_map};
ghost use Rattle.sqlite.specs.Held.{state};
ghost use Rattle.tb_calls.specs.Roles.{is_on, people_on, person_role as person_role_in};
ghost use Rattle.tb_sql.specs.Opening.{IsAsBefore};
ghost use Rattle.tb_lookup.specs.Reopening.{OfState};
ghost use Rattle.tb_lookup.specs.Named.{IsNameAt, IsNamed};

use crate::by_key::person_row_at;
use crate::faults::fault_of;
use crate::gathering::put;
use crate::reading::role_rows;
use sqlite::{Alter, Connection};
use std::alloc::Global;
use tb_board::{Name, RoleOn};
use tb_calls::PersonRole;
use tb_rows::add_roles;
use tb_sql::store::StoreFault;
use tb_values::Items;

/// Those who have a role on a board, in the order in which they came.
pub fn stored_people_on<S: Alter>(
    alloc: Global,
    conn: &mut Connection<S>,
    board: u32,
) -> Result<Items<PersonRole>, StoreFault>
    requires { conn.old.in_transaction ≡ false }
    ensures idle { conn.new.in_transaction ≡ false }
    ensures found { IfOk result (λ people. OfState (state S.Store conn.old) (state S.Store conn.new)
        (λ s. people ≡ people_on s.world board)) }
    ensures same { IsAsBefore (state S.Store conn.old) (state S.Store conn.new) }
{
    let roles = roles_on(alloc, conn, board)?;
    with_names(alloc, conn, roles.as_slice())
}

fn roles_on<S: Alter>(
    alloc: Global,
    conn: &mut Connection<S>,
    board: u32,
) -> Result<Items<RoleOn>, StoreFault>
    requires { conn.old.in_transaction ≡ false }
    ensures idle { conn.new.in_transaction ≡ false }
    ensures found { IfOk result (λ roles. OfState (state S.Store conn.old) (state S.Store conn.new)
        (λ s. roles ≡ filter (is_on board) s.world.roles)) }
    ensures same { IsAsBefore (state S.Store conn.old) (state S.Store conn.new) }
{
    let rows = role_rows(conn, board)?;
    match add_roles(Items::new(alloc), rows.as_slice()) {
        Ok(roles) => Ok(roles),
        Err(fault) => Err(fault_of(fault)),
    }
}

/// These roles, with the names of their people.
fn with_names<S: Alter>(
    alloc: Global,
    conn: &mut Connection<S>,
    roles: &[RoleOn],
) -> Result<Items<PersonRole>, StoreFault>
    requires { conn.old.in_transaction ≡ false }
    ensures idle { conn.new.in_transaction ≡ false }
    ensures found { IfOk result (λ people. OfState (state S.Store conn.old) (state S.Store conn.new)
        (λ s. people ≡ filter_map (person_role_in s.world) roles.now)) }
    ensures same { IsAsBefore (state S.Store conn.old) (state S.Store conn.new) }
{
    let mut people = Items::new(alloc);
    for role in roles {
        let person = person_role(alloc, conn, role)?;
        put(&mut people, person)?;
    }
    Ok(people)
}

/// A role, with the name of its person.
#[tactic(auto, using(crate::proofs::PeopleOn::role_named))]
fn person_role<S: Alter>(
    alloc: Global,
    conn: &mut Connection<S>,
    role: &RoleOn,
) -> Result<PersonRole, StoreFault>
    requires { conn.old.in_transaction ≡ false }
    ensures idle { conn.new.in_transaction ≡ false }
    ensures found { IfOk result (λ person. OfState (state S.Store conn.old) (state S.Store conn.new)
        (λ s. IsNamed s.world role.now person)) }
    ensures same { IsAsBefore (state S.Store conn.old) (state S.Store conn.new) }
{
    let name = stored_name(alloc, conn, role.person)?;
    Ok(PersonRole {
        name,
        role: role.role,
    })
}

/// The name of the person of a number. That there is no such person, or that it has no name, is a failure of the store.
pub fn stored_name<S: Alter>(
    alloc: Global,
    conn: &mut Connection<S>,
    number: usize,
) -> Result<Name, StoreFault>
    requires { conn.old.in_transaction ≡ false }
    ensures idle { conn.new.in_transaction ≡ false }
    ensures found { IfOk result (λ name. OfState (state S.Store conn.old) (state S.Store conn.new)
        (λ s. IsNameAt s.world number name)) }
    ensures same { IsAsBefore (state S.Store conn.old) (state S.Store conn.new) }
{
    let Ok(number) = u32::try_from(number) else {
        return Err(StoreFault::Store);
    };
    let Some(row) = person_row_at(conn, number)? else {
        return Err(StoreFault::Store);
    };
    match Name::read(alloc, row.name.as_str()) {
        Ok(Some(name)) => Ok(name),
        Ok(None) => Err(StoreFault::Store),
        Err(_) => Err(StoreFault::Memory),
    }
}
