ghost use Rattle.std.specs.Prelude.{◌≡◌, MatchOption, position};
ghost use Rattle.tb_board.specs.Tasks.{has_id};
ghost use Rattle.tb_board.specs.First.{IsFirst, IsNone};
ghost use Rattle.tb_board.specs.World.{has_name, has_number, is_role_of};

use crate::board::Board;
use crate::name::Name;
use crate::world::{Person, RoleOn};
use tb_task::{Task, TaskId};
use tb_values::Shared;

/// The place of the first person of that name.
pub fn place_of_person(people: &[Person], name: &Name) -> Option<usize>
    ensures place { result ≡ position (has_name name.now) people.now }
    ensures first { MatchOption result (IsNone (has_name name.now) people.now)
        (IsFirst (has_name name.now) people.now) }
{
    first_person(people, name)
}

fn first_person(people: &[Person], name: &Name) -> Option<usize>
    ensures { result ≡ position (has_name name.now) people.now }
{
    people
        .iter()
        .position(|person| person.name.as_str() == name.as_str())
}

/// The place of the first board of that number.
pub fn place_of_board(boards: &[Shared<Board>], number: u32) -> Option<usize>
    ensures { MatchOption result (IsNone (has_number number) boards.now)
        (IsFirst (has_number number) boards.now) }
{
    first_board(boards, number)
}

fn first_board(boards: &[Shared<Board>], number: u32) -> Option<usize>
    ensures { result ≡ position (has_number number) boards.now }
{
    boards.iter().position(|board| board.get().number == number)
}

/// The place of the first task of that identifier.
pub(crate) fn first_task(tasks: &[Shared<Task>], id: TaskId) -> Option<usize>
    ensures { result ≡ position (has_id id) tasks.now }
{
    tasks.iter().position(|task| task.get().id == id)
}

/// The place of the first role of that person on that board.
pub fn place_of_role(roles: &[RoleOn], board: u32, person: usize) -> Option<usize>
    ensures { MatchOption result (IsNone (is_role_of board person) roles.now)
        (IsFirst (is_role_of board person) roles.now) }
{
    first_role(roles, board, person)
}

fn first_role(roles: &[RoleOn], board: u32, person: usize) -> Option<usize>
    ensures { result ≡ position (is_role_of board person) roles.now }
{
    roles
        .iter()
        .position(|role| role.board == board && role.person == person)
}
