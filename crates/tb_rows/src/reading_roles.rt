//! Roles and their rows.

ghost use Rattle.tb_rows.specs.Outcome.{Reads};
ghost use Rattle.tb_rows.specs.Reading.{role_of_kind, role_of, roles_in};

use crate::fault::ReopenFault;
use tb_board::{Role, RoleOn};
use tb_sql_tables::rows::RoleRow;
use tb_values::Items;

const OWNER: u32 = 1;

const MEMBER: u32 = 2;

const READER: u32 = 3;

fn read_kind(kind: u32) -> Result<Role, ReopenFault>
    ensures { Reads result (role_of_kind kind) }
{
    match kind {
        OWNER => Ok(Role::Owner),
        MEMBER => Ok(Role::Member),
        READER => Ok(Role::Reader),
        _ => Err(ReopenFault::NotRows),
    }
}

fn read_role(row: &RoleRow) -> Result<RoleOn, ReopenFault>
    ensures { Reads result (role_of row.now) }
{
    let role = read_kind(row.kind)?;
    Ok(RoleOn {
        board: row.board,
        person: row.person as usize,
        role,
    })
}

/// The roles with those of these rows after them.
pub fn add_roles(roles: Items<RoleOn>, rows: &[RoleRow]) -> Result<Items<RoleOn>, ReopenFault>
    ensures { Reads result (roles_in roles rows.now) }
{
    let mut roles = roles;
    for row in rows {
        roles.push(read_role(row)?)?;
    }
    Ok(roles)
}
