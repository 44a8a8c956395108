ghost use Rattle.std.specs.Prelude.{◌≡◌, Some, None, find, length, IfOk};
ghost use Rattle.tb_core.specs.Apply.{bare_person, board_for, board_taken, person_for, seen_of, taking_role};
ghost use Rattle.tb_board.specs.World.{has_name, number_of, owners};

use crate::command::Command;
use std::alloc::AllocError;
use tb_board::{Board, Name, Person, Role, World};
use tb_values::Shared;

/// The part of a world that a command looks at.
#[derive(Drop)]
pub struct Seen {
    /// The caller's number, if the caller is known.
    pub caller: Option<usize>,
    /// The caller, if the command is about that person's own key.
    pub own: Option<Person>,
    /// The board that the command names, if there is one that the caller takes or has a role on.
    pub board: Option<SeenBoard>,
    /// The other person whom the command names, if there is one.
    pub other: Option<SeenPerson>,
    /// How many owners the board has that the command names.
    pub owners: usize,
    pub people: usize,
    pub boards: usize,
}

/// A board, and the caller's role on it. Who takes a board sees it as an owner does.
#[derive(Drop)]
pub struct SeenBoard {
    pub board: Shared<Board>,
    pub role: Role,
}

/// A person's number, and that person's role on the board.
#[derive(Clone, Copy, Debug, PartialEq, Eq)]
pub struct SeenPerson {
    pub number: usize,
    pub role: Option<Role>,
}

/// What the command of a person looks at.
pub fn look_for(world: &World, name: &Name, command: &Command) -> Result<Seen, AllocError>
    ensures { IfOk result (λ seen. seen ≡ seen_of world.now name.now command.now) }
{
    match command {
        Command::NewPerson { name: other, .. } => Ok(look_at_people(world, name, other)),
        Command::NewBoard { .. } => Ok(look_at_counts(world, name)),
        Command::OwnKey { .. } => look_at_own(world, name),
        Command::SetKey { name: other, .. } => Ok(look_at_people(world, name, other)),
        Command::SetRole {
            board,
            name: other,
            ..
        } => look_at_person(world, name, *board, other),
        Command::Take { board } => look_at_taken(world, name, *board),
        Command::OnBoard { board, .. } => look_at_board(world, name, *board),
    }
}

fn look_at_board(world: &World, name: &Name, board: u32) -> Result<Seen, AllocError>
    ensures { IfOk result
        (λ seen. seen ≡ record {
          caller = number_of world.now name.now;
          own = None;
          board = board_for world.now (number_of world.now name.now) (Some board);
          other = None;
          owners = owners world.now board;
          people = length world.now.people;
          boards = length world.now.boards;
        }) }
{
    let caller = world.number_of(name);
    let found = board_for(world, caller, board)?;
    Ok(Seen {
        caller,
        own: None,
        board: found,
        other: None,
        owners: world.owners(board),
        people: world.people.len(),
        boards: world.boards.len(),
    })
}

fn look_at_taken(world: &World, name: &Name, board: u32) -> Result<Seen, AllocError>
    ensures { IfOk result
        (λ seen. seen ≡ record {
          caller = number_of world.now name.now;
          own = None;
          board = board_taken world.now (number_of world.now name.now) board;
          other = None;
          owners = owners world.now board;
          people = length world.now.people;
          boards = length world.now.boards;
        }) }
{
    let caller = world.number_of(name);
    let found = board_taken(world, caller, board)?;
    Ok(Seen {
        caller,
        own: None,
        board: found,
        other: None,
        owners: world.owners(board),
        people: world.people.len(),
        boards: world.boards.len(),
    })
}

fn look_at_own(world: &World, name: &Name) -> Result<Seen, AllocError>
    ensures { IfOk result
        (λ seen. seen ≡ record {
          caller = number_of world.now name.now;
          own = find (has_name name.now) world.now.people;
          board = None;
          other = None;
          owners = 0;
          people = length world.now.people;
          boards = length world.now.boards;
        }) }
{
    let mut seen = look_at_counts(world, name);
    seen.own = world.person(name)?;
    Ok(seen)
}

fn look_at_person(world: &World, name: &Name, board: u32, other: &Name) -> Result<Seen, AllocError>
    ensures { IfOk result
        (λ seen. seen ≡ record {
          caller = number_of world.now name.now;
          own = None;
          board = board_for world.now (number_of world.now name.now) (Some board);
          other = person_for world.now (Some board) (number_of world.now other.now);
          owners = owners world.now board;
          people = length world.now.people;
          boards = length world.now.boards;
        }) }
{
    let mut seen = look_at_board(world, name, board)?;
    seen.other = person_on(world, board, world.number_of(other));
    Ok(seen)
}

fn look_at_people(world: &World, name: &Name, other: &Name) -> Seen
    ensures { result
        ≡ record {
          caller = number_of world.now name.now;
          own = None;
          board = None;
          other = person_for world.now None (number_of world.now other.now);
          owners = 0;
          people = length world.now.people;
          boards = length world.now.boards;
        } }
{
    let mut seen = look_at_counts(world, name);
    seen.other = person_off(world.number_of(other));
    seen
}

fn look_at_counts(world: &World, name: &Name) -> Seen
    ensures { result
        ≡ record {
          caller = number_of world.now name.now;
          own = None;
          board = None;
          other = None;
          owners = 0;
          people = length world.now.people;
          boards = length world.now.boards;
        } }
{
    Seen {
        caller: world.number_of(name),
        own: None,
        board: None,
        other: None,
        owners: 0,
        people: world.people.len(),
        boards: world.boards.len(),
    }
}

fn person_on(world: &World, board: u32, person: Option<usize>) -> Option<SeenPerson>
    ensures { result ≡ person_for world.now (Some board) person }
{
    match person {
        Some(number) => Some(SeenPerson {
            number,
            role: world.role_of(board, number),
        }),
        None => None,
    }
}

fn board_for(
    world: &World,
    caller: Option<usize>,
    board: u32,
) -> Result<Option<SeenBoard>, AllocError>
    ensures { IfOk result (λ seen. seen ≡ board_for world.now caller (Some board)) }
{
    let Some(caller) = caller else {
        return Ok(None);
    };
    let Some(role) = world.role_of(board, caller) else {
        return Ok(None);
    };
    match world.board(board)? {
        Some(board) => Ok(Some(SeenBoard { board, role })),
        None => Ok(None),
    }
}

fn board_taken(
    world: &World,
    caller: Option<usize>,
    board: u32,
) -> Result<Option<SeenBoard>, AllocError>
    ensures { IfOk result (λ seen. seen ≡ board_taken world.now caller board) }
{
    let Some(caller) = caller else {
        return Ok(None);
    };
    let Some(role) = taking_role(world, board, caller) else {
        return Ok(None);
    };
    match world.board(board)? {
        Some(board) => Ok(Some(SeenBoard { board, role })),
        None => Ok(None),
    }
}

fn taking_role(world: &World, board: u32, caller: usize) -> Option<Role>
    ensures { result ≡ taking_role world.now board caller }
{
    if caller == 1 {
        Some(Role::Owner)
    } else {
        world.role_of(board, caller)
    }
}

fn person_off(person: Option<usize>) -> Option<SeenPerson>
    ensures { result ≡ bare_person person }
{
    match person {
        Some(number) => Some(SeenPerson { number, role: None }),
        None => None,
    }
}
