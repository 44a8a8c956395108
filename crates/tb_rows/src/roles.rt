ghost use Rattle.std.specs.Prelude.{◌≡◌, ◌++◌, OnOk};
ghost use Rattle.tb_rows.specs.Part.{role_set};
ghost use Rattle.tb_rows.specs.Rows.{role_kind};

use std::alloc::AllocError;
use tb_board::Role;
use tb_sql::changes::RowChange;
use tb_sql_tables::rows::RoleRow;
use tb_values::Items;

/// 1 for an owner, 2 for a member, 3 for a reader.
pub(crate) fn role_kind(role: Role) -> u32
    ensures { result ≡ role_kind role }
{
    match role {
        Role::Owner => 1,
        Role::Member => 2,
        Role::Reader => 3,
    }
}

/// A role that is set: any before goes, and the new one comes.
pub(crate) fn push_role(
    rows: &mut Items<RowChange>,
    board: u32,
    person: usize,
    role: Option<Role>,
) -> Result<(), AllocError>
    ensures { OnOk result (rows.new ≡ rows.old ++ role_set board person role) }
{
    if person > u32::MAX as usize {
        return Ok(());
    }
    let person = person as u32;
    rows.push(RowChange::RemoveRole { board, person })?;
    if let Some(role) = role {
        let kind = role_kind(role);
        rows.push(RowChange::AddRole(RoleRow {
            board,
            person,
            kind,
        }))?;
    }
    Ok(())
}
