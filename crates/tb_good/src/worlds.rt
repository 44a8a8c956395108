//! Whole worlds.

ghost use Rattle.std.specs.Prelude.{◌≡◌, ◌↔◌, IsTrue, IfOk, length};
ghost use Rattle.std.specs.List.{AllByRecursion, range_with_len};
ghost use Rattle.tb_board.specs.Good.{IsGood};
ghost use Rattle.tb_core.specs.GoodWorld.{IsGoodWorld, numbers};
ghost use Rattle.tb_good.specs.Parts.{HasGoodBoards};

use crate::boards::is_good_board;
use crate::owners::have_owners;
use crate::people::has_good_people;
use crate::roles::has_good_roles;
use std::alloc::{AllocError, Global};
use tb_board::{Board, World};
use tb_task::MOST_BOARDS;
use tb_values::Shared;

/// Whether the world keeps all that every command keeps, in time that grows little faster than its people, roles, tasks and links.
pub fn is_good_world(alloc: Global, world: &World) -> Result<bool, AllocError>
    ensures { IfOk result (λ answer. IsTrue answer ↔ IsGoodWorld world.now) }
{
    if !has_good_roles(world) {
        return Ok(false);
    }
    if !has_good_people(alloc, world)? {
        return Ok(false);
    }
    has_good_boards(alloc, world)
}

/// Whether the boards are numbered and aren't too many, and each is good and has an owner.
fn has_good_boards(alloc: Global, world: &World) -> Result<bool, AllocError>
    ensures { IfOk result (λ answer. IsTrue answer ↔ HasGoodBoards world.now) }
{
    let boards = world.boards.as_slice();
    if boards.len() > MOST_BOARDS {
        return Ok(false);
    }
    if !are_numbered(boards) {
        return Ok(false);
    }
    if !have_owners(alloc, world)? {
        return Ok(false);
    }
    are_good(alloc, boards)
}

/// Whether the boards have the numbers from 1 on.
fn are_numbered(boards: &[Shared<Board>]) -> bool
    ensures { IsTrue result ↔ (numbers boards.now ≡ range_with_len 1 (length boards.now)) }
{
    for (place, board) in boards.iter().enumerate() {
        if board.get().number as usize != place + 1 {
            return false;
        }
    }
    true
}

fn are_good(alloc: Global, boards: &[Shared<Board>]) -> Result<bool, AllocError>
    ensures { IfOk result (λ answer. IsTrue answer ↔ AllByRecursion IsGood boards.now) }
{
    for board in boards {
        if !is_good_board(alloc, board.get())? {
            return Ok(false);
        }
    }
    Ok(true)
}
