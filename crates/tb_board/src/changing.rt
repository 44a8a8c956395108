ghost use Rattle.std.specs.Prelude.{◌≡◌, ◌≤◌, [], ◌∷◌, ◌++◌, Some, None, IfOk, OnOk, insert, length, position};
ghost use Rattle.tb_board.specs.Changing.{change_board, changed, changed_by, put, set_key, with_ahead, with_gone, with_key, with_task_at, with_title, without_gone};
ghost use Rattle.tb_board.specs.Roles.{comes_before, set_role, with_new_role};
ghost use Rattle.tb_board.specs.World.{empty_board};

use crate::ahead::Ahead;
use crate::board::Board;
use crate::change::Change;
use crate::first::{place_of_board, place_of_person, place_of_role};
use crate::gone::{Gone, gone_without};
use crate::key::Key;
use crate::name::Name;
use crate::task_list::TaskList;
use crate::title::Title;
use crate::world::{Person, Role, RoleOn, World};
use std::alloc::{AllocError, Global};
use tb_task::{Task, TaskId};
use tb_values::{Duplicate, Items, Shared};

impl World {
    /// The world after the changes, one after the other. It shares with this one whatever stays.
    pub fn changed(&self, alloc: Global, changes: &[Change]) -> Result<World, AllocError>
        ensures { IfOk result (λ world. world ≡ changed self.now changes.now) }
    {
        let mut world = self.duplicate()?;
        for change in changes {
            world = changed_world(alloc, world, change)?;
        }
        Ok(world)
    }
}

fn changed_world(alloc: Global, world: World, change: &Change) -> Result<World, AllocError>
    ensures { IfOk result (λ later. later ≡ changed_by world change.now) }
{
    match change {
        Change::PutTask { board, place, task } => put_task(alloc, world, *board, *place, task),
        Change::AddPerson { name, key } => add_person(world, name, key),
        Change::SetKey { name, key } => set_key(world, name, key),
        Change::AddBoard { number, title } => add_board(alloc, world, *number, title),
        Change::SetTitle { board, title } => set_title(alloc, world, *board, title),
        Change::SetRole {
            board,
            person,
            role,
        } => set_role(world, *board, *person, *role),
        Change::SetGone { board, gone } => set_gone(alloc, world, *board, *gone),
        Change::TakeGone {
            board,
            template,
            place,
        } => take_gone(alloc, world, *board, *template, *place),
        Change::SetAhead { board, ahead } => set_ahead(alloc, world, *board, *ahead),
    }
}

fn add_person(mut world: World, name: &Name, key: &Key) -> Result<World, AllocError>
    ensures { IfOk result
        (λ later. later ≡ record world {
          people = world.people
              ++ record { name = name.now; key = Some key.now } ∷ [];
        }) }
{
    let name = name.duplicate()?;
    let key = key.duplicate()?;
    world.people.push(Person {
        name,
        key: Some(key),
    })?;
    Ok(world)
}

fn set_key(world: World, name: &Name, key: &Option<Key>) -> Result<World, AllocError>
    ensures { IfOk result
        (λ later. later ≡ record world { people = set_key name.now key.now world.people }) }
{
    let World {
        people,
        boards,
        roles,
    } = world;
    let people = people_with_key(people, name, key)?;
    Ok(World {
        people,
        boards,
        roles,
    })
}

/// Gives the first person of this name a key, or none.
fn people_with_key(
    mut people: Items<Person>,
    name: &Name,
    key: &Option<Key>,
) -> Result<Items<Person>, AllocError>
    ensures { IfOk result (λ later. later ≡ set_key name.now key.now people) }
{
    let Some(place) = place_of_person(people.as_slice(), name) else {
        return Ok(people);
    };
    let person = person_with_key(&people.as_slice()[place], key)?;
    people.set(place, person);
    Ok(people)
}

fn person_with_key(person: &Person, key: &Option<Key>) -> Result<Person, AllocError>
    ensures { IfOk result (λ later. later ≡ with_key key.now person.now) }
{
    let name = person.name.duplicate()?;
    let key = key.duplicate()?;
    Ok(Person { name, key })
}

fn add_board(
    alloc: Global,
    mut world: World,
    number: u32,
    title: &Title,
) -> Result<World, AllocError>
    ensures { IfOk result
        (λ later. later ≡ record world { boards = world.boards ++ empty_board number title.now ∷ [] }) }
{
    let board = Board::new(alloc, number, title.duplicate()?);
    world.boards.push(Shared::new(alloc, board)?)?;
    Ok(world)
}

fn set_role(
    world: World,
    board: u32,
    person: usize,
    role: Option<Role>,
) -> Result<World, AllocError>
    ensures { IfOk result
        (λ later. later ≡ record world { roles = set_role world.roles board person role }) }
{
    let World {
        people,
        boards,
        roles,
    } = world;
    let roles = match role {
        Some(role) => roles_with(roles, board, person, role)?,
        None => roles_without(roles, board, person),
    };
    Ok(World {
        people,
        boards,
        roles,
    })
}

/// The roles, where the person has this one on the board.
pub fn roles_with(
    mut roles: Items<RoleOn>,
    board: u32,
    person: usize,
    role: Role,
) -> Result<Items<RoleOn>, AllocError>
    ensures { IfOk result (λ later. later ≡ set_role roles board person (Some role)) }
{
    let Some(place) = place_of_role(roles.as_slice(), board, person) else {
        return with_new_role(
            roles,
            RoleOn {
                board,
                person,
                role,
            },
        );
    };
    let item = with_role(roles.as_slice()[place], role);
    roles.set(place, item);
    Ok(roles)
}

/// The roles with one more, at its place in their order.
fn with_new_role(roles: Items<RoleOn>, role: RoleOn) -> Result<Items<RoleOn>, AllocError>
    ensures { IfOk result (λ later. later ≡ with_new_role roles role) }
{
    let place = place_of_new(roles.as_slice(), role);
    let mut roles = roles.into_vec();
    roles.insert(place, role)?;
    Ok(Items::from_vec(roles))
}

/// How many roles stand before the first that comes after this one.
fn place_of_new(roles: &[RoleOn], role: RoleOn) -> usize
    ensures within { result ≤ length roles.now }
    ensures place { insert roles.now result role ≡ with_new_role roles.now role }
{
    match first_after(roles, role) {
        Some(place) => place,
        None => roles.len(),
    }
}

fn first_after(roles: &[RoleOn], role: RoleOn) -> Option<usize>
    ensures { result ≡ position (comes_before role) roles.now }
{
    roles.iter().position(|other| comes_before(&role, other))
}

fn comes_before(role: &RoleOn, other: &RoleOn) -> bool
    ensures { result ≡ comes_before role.now other.now }
{
    role.board
        .cmp(&other.board)
        .then(role.person.cmp(&other.person))
        .is_lt()
}

fn with_role(item: RoleOn, role: Role) -> RoleOn
    ensures { result ≡ record item { role = role } }
{
    RoleOn {
        board: item.board,
        person: item.person,
        role,
    }
}

/// The roles, where the person has none on the board.
pub fn roles_without(mut roles: Items<RoleOn>, board: u32, person: usize) -> Items<RoleOn>
    ensures { result ≡ set_role roles board person None }
{
    let Some(place) = place_of_role(roles.as_slice(), board, person) else {
        return roles;
    };
    roles.remove(place);
    roles
}

fn put_task(
    alloc: Global,
    world: World,
    number: u32,
    place: usize,
    task: &Shared<Task>,
) -> Result<World, AllocError>
    ensures { IfOk result
        (λ later. later ≡ record world {
          boards = change_board number
              (with_task_at place task.now) world.boards;
        }) }
{
    let World {
        people,
        boards,
        roles,
    } = world;
    let boards = boards_with_task(alloc, boards, number, place, task.share()?)?;
    Ok(World {
        people,
        boards,
        roles,
    })
}

/// Puts a task on the first board with this number.
fn boards_with_task(
    alloc: Global,
    boards: Items<Shared<Board>>,
    number: u32,
    place: usize,
    task: Shared<Task>,
) -> Result<Items<Shared<Board>>, AllocError>
    ensures { IfOk result (λ later. later ≡ change_board number (with_task_at place task) boards) }
{
    let Some(index) = place_of_board(boards.as_slice(), number) else {
        return Ok(boards);
    };
    let mut boards = boards.into_vec();
    let board = boards.remove(index);
    let board = board_with(board, place, task)?;
    boards.insert(index, Shared::new(alloc, board)?)?;
    Ok(Items::from_vec(boards))
}

/// The board with a task at its place. It is copied only where somebody else looks at it.
fn board_with(board: Shared<Board>, place: usize, task: Shared<Task>) -> Result<Board, AllocError>
    ensures { IfOk result (λ b. b ≡ with_task_at place task board) }
{
    let Ok(mut board) = board.into_value() else {
        return Err(AllocError);
    };
    put_at(&mut board.tasks, place, task)?;
    Ok(board)
}

pub(crate) fn put_at(
    tasks: &mut TaskList,
    place: usize,
    task: Shared<Task>,
) -> Result<(), AllocError>
    ensures { OnOk result (tasks.new ≡ put tasks.old place task) }
{
    if place < tasks.len() {
        tasks.set(place, task);
        Ok(())
    } else {
        tasks.push(task)
    }
}

fn set_gone(alloc: Global, world: World, number: u32, gone: Gone) -> Result<World, AllocError>
    ensures { IfOk result
        (λ later. later ≡ record world {
          boards = change_board number
              (with_gone gone) world.boards;
        }) }
{
    let World {
        people,
        boards,
        roles,
    } = world;
    let boards = boards_with_gone(alloc, boards, number, &gone)?;
    Ok(World {
        people,
        boards,
        roles,
    })
}

/// A place more is gone on the first board with this number.
fn boards_with_gone(
    alloc: Global,
    boards: Items<Shared<Board>>,
    number: u32,
    gone: &Gone,
) -> Result<Items<Shared<Board>>, AllocError>
    ensures { IfOk result (λ later. later ≡ change_board number (with_gone gone.now) boards) }
{
    let Some(index) = place_of_board(boards.as_slice(), number) else {
        return Ok(boards);
    };
    let mut boards = boards.into_vec();
    let board = boards.remove(index);
    let board = board_with_gone(board, gone)?;
    boards.insert(index, Shared::new(alloc, board)?)?;
    Ok(Items::from_vec(boards))
}

fn board_with_gone(board: Shared<Board>, gone: &Gone) -> Result<Board, AllocError>
    ensures { IfOk result (λ b. b ≡ with_gone gone.now board) }
{
    let Ok(mut board) = board.into_value() else {
        return Err(AllocError);
    };
    board.gone.push(*gone)?;
    Ok(board)
}

fn take_gone(
    alloc: Global,
    world: World,
    number: u32,
    template: TaskId,
    place: u32,
) -> Result<World, AllocError>
    ensures { IfOk result
        (λ later. later ≡ record world {
          boards = change_board number
              (without_gone template place) world.boards;
        }) }
{
    let World {
        people,
        boards,
        roles,
    } = world;
    let boards = boards_without_gone(alloc, boards, number, template, place)?;
    Ok(World {
        people,
        boards,
        roles,
    })
}

/// A place isn't gone any more on the first board with this number.
fn boards_without_gone(
    alloc: Global,
    boards: Items<Shared<Board>>,
    number: u32,
    template: TaskId,
    place: u32,
) -> Result<Items<Shared<Board>>, AllocError>
    ensures { IfOk result
        (λ later. later ≡ change_board number (without_gone template place) boards) }
{
    let Some(index) = place_of_board(boards.as_slice(), number) else {
        return Ok(boards);
    };
    let mut boards = boards.into_vec();
    let board = boards.remove(index);
    let board = board_without(alloc, board, template, place)?;
    boards.insert(index, Shared::new(alloc, board)?)?;
    Ok(Items::from_vec(boards))
}

fn board_without(
    alloc: Global,
    board: Shared<Board>,
    template: TaskId,
    place: u32,
) -> Result<Board, AllocError>
    ensures { IfOk result (λ b. b ≡ without_gone template place board) }
{
    let Ok(mut board) = board.into_value() else {
        return Err(AllocError);
    };
    board.gone = gone_without(alloc, board.gone.as_slice(), template, place)?;
    Ok(board)
}

fn set_ahead(alloc: Global, world: World, number: u32, ahead: Ahead) -> Result<World, AllocError>
    ensures { IfOk result
        (λ later. later ≡ record world {
          boards = change_board number
              (with_ahead ahead) world.boards;
        }) }
{
    let World {
        people,
        boards,
        roles,
    } = world;
    let boards = boards_with_ahead(alloc, boards, number, ahead)?;
    Ok(World {
        people,
        boards,
        roles,
    })
}

/// The first board with this number looks so many instances ahead.
fn boards_with_ahead(
    alloc: Global,
    boards: Items<Shared<Board>>,
    number: u32,
    ahead: Ahead,
) -> Result<Items<Shared<Board>>, AllocError>
    ensures { IfOk result (λ later. later ≡ change_board number (with_ahead ahead) boards) }
{
    let Some(index) = place_of_board(boards.as_slice(), number) else {
        return Ok(boards);
    };
    let mut boards = boards.into_vec();
    let board = boards.remove(index);
    let board = board_with_ahead(board, ahead)?;
    boards.insert(index, Shared::new(alloc, board)?)?;
    Ok(Items::from_vec(boards))
}

fn board_with_ahead(board: Shared<Board>, ahead: Ahead) -> Result<Board, AllocError>
    ensures { IfOk result (λ b. b ≡ with_ahead ahead board) }
{
    let Ok(mut board) = board.into_value() else {
        return Err(AllocError);
    };
    board.ahead = ahead;
    Ok(board)
}

fn set_title(alloc: Global, world: World, number: u32, title: &Title) -> Result<World, AllocError>
    ensures { IfOk result
        (λ later. later ≡ record world {
          boards = change_board number
              (with_title title.now) world.boards;
        }) }
{
    let World {
        people,
        boards,
        roles,
    } = world;
    let boards = boards_with_title(alloc, boards, number, title)?;
    Ok(World {
        people,
        boards,
        roles,
    })
}

/// The first board with this number has this title.
fn boards_with_title(
    alloc: Global,
    boards: Items<Shared<Board>>,
    number: u32,
    title: &Title,
) -> Result<Items<Shared<Board>>, AllocError>
    ensures { IfOk result (λ later. later ≡ change_board number (with_title title.now) boards) }
{
    let Some(index) = place_of_board(boards.as_slice(), number) else {
        return Ok(boards);
    };
    let mut boards = boards.into_vec();
    let board = boards.remove(index);
    let board = board_with_title(board, title)?;
    boards.insert(index, Shared::new(alloc, board)?)?;
    Ok(Items::from_vec(boards))
}

fn board_with_title(board: Shared<Board>, title: &Title) -> Result<Board, AllocError>
    ensures { IfOk result (λ b. b ≡ with_title title.now board) }
{
    let Ok(mut board) = board.into_value() else {
        return Err(AllocError);
    };
    board.title = title.duplicate()?;
    Ok(board)
}
