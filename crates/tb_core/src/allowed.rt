ghost use Rattle.std.specs.Prelude.{◌≡◌};
ghost use Rattle.tb_board.specs.World.{is_owner, may_change};
ghost use Rattle.tb_core.specs.Allowed.{allows};

use crate::command::BoardCommand;
use tb_board::Role;

/// Whether the role suffices for the command on a board.
pub fn allows(role: Role, command: &BoardCommand) -> bool
    ensures { result ≡ allows role command.now }
{
    match command {
        BoardCommand::Add { .. }
        | BoardCommand::OnTask { .. }
        | BoardCommand::Modify { .. }
        | BoardCommand::Depend { .. }
        | BoardCommand::Undepend { .. }
        | BoardCommand::Import(_)
        | BoardCommand::Sweep => may_change(role),
        BoardCommand::SetAhead { .. } | BoardCommand::Retitle { .. } => is_owner_role(role),
    }
}

/// Whether it is an owner's.
pub fn is_owner_role(role: Role) -> bool
    ensures { result ≡ is_owner role }
{
    matches!(role, Role::Owner)
}

fn may_change(role: Role) -> bool
    ensures { result ≡ may_change role }
{
    matches!(role, Role::Owner | Role::Member)
}
