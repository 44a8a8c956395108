//! The roles of a world.

ghost use Rattle.std.specs.Prelude.{◌≡◌, ◌↔◌, IsTrue};
ghost use Rattle.std.specs.List.{list_all};
ghost use Rattle.std.specs.List.Sorted.{IsStrictlySortedBy};
ghost use Rattle.tb_board.specs.Roles.{comes_before, role_order};
ghost use Rattle.tb_good.specs.Parts.{HasGoodRoles, is_role_in};

use tb_board::{RoleOn, World};

/// Whether each role is of a person on a board, and they stand in their order.
pub(crate) fn has_good_roles(world: &World) -> bool
    ensures { IsTrue result ↔ HasGoodRoles world.now }
{
    if !are_known(world) {
        return false;
    }
    are_in_order(world.roles.as_slice())
}

fn are_known(world: &World) -> bool
    ensures { result ≡ list_all (is_role_in world.now) world.now.roles }
{
    world
        .roles
        .as_slice()
        .iter()
        .all(|role| is_known(world, role))
}

fn is_known(world: &World, role: &RoleOn) -> bool
    ensures { result ≡ is_role_in world.now role.now }
{
    let board = role.board as usize;
    let person = role.person;
    board >= 1 && board <= world.boards.len() && person >= 1 && person <= world.people.len()
}

fn are_in_order(roles: &[RoleOn]) -> bool
    ensures { IsTrue result ↔ IsStrictlySortedBy role_order roles.now }
{
    roles.is_sorted_by(|earlier, later| comes_before(earlier, later))
}

fn comes_before(earlier: &RoleOn, later: &RoleOn) -> bool
    ensures { result ≡ comes_before earlier.now later.now }
{
    earlier.board < later.board || (earlier.board == later.board && earlier.person < later.person)
}
