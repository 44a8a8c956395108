//! The owners of boards.

ghost use Rattle.std.specs.Prelude.{◌≡◌, ◌↔◌, IsTrue, IfOk, ℕ};
ghost use Rattle.std.specs.BTreeSet.{contains};
ghost use Rattle.std.specs.List.{AllByRecursion, list_all, list_any};
ghost use Rattle.std.specs.Ordering.{nat_cmp};
ghost use Rattle.tb_board.specs.World.{is_owner, owns};
ghost use Rattle.tb_core.specs.GoodWorld.{HasOwner};

use std::alloc::{AllocError, Global};
use std::collections::BTreeSet;
use tb_board::{Board, Role, RoleOn, World};
use tb_values::Shared;

/// Whether each board has an owner.
pub(crate) fn have_owners(alloc: Global, world: &World) -> Result<bool, AllocError>
    ensures { IfOk result
        (λ answer. IsTrue answer ↔ AllByRecursion (HasOwner world.now) world.now.boards) }
{
    let owned = owned_boards(alloc, world.roles.as_slice())?;
    Ok(are_among(&owned, world.boards.as_slice()))
}

/// The numbers of the boards that have an owner.
fn owned_boards(alloc: Global, roles: &[RoleOn]) -> Result<BTreeSet<u32>, AllocError>
    ensures { IfOk result
        (λ owned. (board : ℕ) → contains nat_cmp owned board ≡ list_any (owns board) roles.now) }
{
    let mut owned = BTreeSet::new(alloc);
    for role in roles {
        if is_owner(role) {
            owned.insert(role.board)?;
        }
    }
    Ok(owned)
}

fn is_owner(role: &RoleOn) -> bool
    ensures { result ≡ is_owner role.now.role }
{
    matches!(role.role, Role::Owner)
}

fn are_among(owned: &BTreeSet<u32>, boards: &[Shared<Board>]) -> bool
    ensures { result ≡ list_all (λ b. contains nat_cmp owned.now b.number) boards.now }
{
    boards
        .iter()
        .all(|board| owned.contains(&board.get().number))
}
