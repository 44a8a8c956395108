//! Boards and people by their roles, as a world tells them.
ghost use Rattle.std.specs.Prelude.{◌≡◌, ◌++◌, ◌∷◌, [], IfOk, OnOk};
ghost use Rattle.std.specs.List.{filter_map};
ghost use Rattle.std.specs.Option.{option_map};
ghost use Rattle.tb_calls.specs.Roles.{board_role, boards_for as boards_for_number, boards_of as boards_of_name, people_for as people_for_name, people_on as people_on_board, person_at as person_at_number, person_role, role_on as role_on_board, where_some};

use crate::role_bodies::{BoardRole, PersonRole};
use std::alloc::{AllocError, Global};
use tb_board::{Name, Person, Role, RoleOn, World};
use tb_values::{Duplicate, Items};

/// The boards on which the person of that name has a role, by number.
pub fn boards_of(alloc: Global, world: &World, name: &Name) -> Result<Items<BoardRole>, AllocError>
    ensures { IfOk result (λ boards. boards ≡ boards_of_name world.now name.now) }
{
    boards_for(alloc, world, world.number_of(name))
}

fn boards_for(
    alloc: Global,
    world: &World,
    person: Option<usize>,
) -> Result<Items<BoardRole>, AllocError>
    ensures { IfOk result (λ boards. boards ≡ boards_for_number world.now person) }
{
    let mut boards = Items::new(alloc);
    let Some(number) = person else {
        return Ok(boards);
    };
    for role in world.roles.as_slice() {
        if role.person == number {
            push_board(&mut boards, world, role)?;
        }
    }
    Ok(boards)
}

/// Puts a role at the end, where its board is there.
fn push_board(boards: &mut Items<BoardRole>, world: &World, role: &RoleOn) -> Result<(), AllocError>
    ensures { OnOk result
        (boards.new ≡ boards.old ++ filter_map (board_role world.now) (role.now ∷ [])) }
{
    let Some(board) = world.board(role.board)? else {
        return Ok(());
    };
    let title = board.get().title.duplicate()?;
    boards.push(BoardRole {
        board: role.board,
        title,
        role: role.role,
    })
}

/// Those who have a role on a board, in the order in which they came, where the person of that name has one.
pub fn people_for(
    alloc: Global,
    world: &World,
    name: &Name,
    board: u32,
) -> Result<Option<Items<PersonRole>>, AllocError>
    ensures { IfOk result (λ people. people ≡ people_for_name world.now name.now board) }
{
    people_where(
        alloc,
        world,
        board,
        role_on(world, board, world.number_of(name)),
    )
}

/// Those who have a role on a board, where there is a role.
fn people_where(
    alloc: Global,
    world: &World,
    board: u32,
    role: Option<Role>,
) -> Result<Option<Items<PersonRole>>, AllocError>
    ensures { IfOk result (λ people. people ≡ where_some role (people_on_board world.now board)) }
{
    match role {
        Some(_) => Ok(Some(people_on(alloc, world, board)?)),
        None => Ok(None),
    }
}

fn role_on(world: &World, board: u32, person: Option<usize>) -> Option<Role>
    ensures { result ≡ role_on_board world.now board person }
{
    world.role_of(board, person?)
}

fn people_on(alloc: Global, world: &World, board: u32) -> Result<Items<PersonRole>, AllocError>
    ensures { IfOk result (λ people. people ≡ people_on_board world.now board) }
{
    let mut people = Items::new(alloc);
    for role in world.roles.as_slice() {
        if role.board == board {
            push_person(&mut people, world, role)?;
        }
    }
    Ok(people)
}

/// Puts a role at the end, where its person is there.
fn push_person(
    people: &mut Items<PersonRole>,
    world: &World,
    role: &RoleOn,
) -> Result<(), AllocError>
    ensures { OnOk result
        (people.new ≡ people.old ++ filter_map (person_role world.now) (role.now ∷ [])) }
{
    let Some(person) = person_at(world, role.person) else {
        return Ok(());
    };
    let name = person.name.duplicate()?;
    people.push(PersonRole {
        name,
        role: role.role,
    })
}

/// The person of a number, counted from 1.
fn person_at(world: &World, number: usize) -> Option<&Person>
    ensures { option_map (λ person. person.now) result ≡ person_at_number world.now number }
{
    if number == 0 {
        return None;
    }
    world.people.get(number - 1)
}
