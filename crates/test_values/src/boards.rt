//! Boards and worlds, whose tasks are given as the JSON texts that store them, with tabs between them.

use crate::finding::{Finding, missing, show};
use crate::given::{halves, moment_at, read_count};
use crate::tasks::read;
use std::alloc::Global;
use std::io;
use tb_board::{Board, Key, Name, Person, Role, RoleOn, Title, World};
use tb_good::is_good_world;
use tb_report::urgency;
use tb_values::{Items, Shared};
use test_scenes::Owner;

pub(crate) fn empty_board(alloc: Global) -> io::Result<Board> {
    let title = Title::read(alloc, "board")?.ok_or(missing())?;
    Ok(Board::new(alloc, 1, title))
}

fn board_with(alloc: Global, tasks: &str) -> io::Result<Board> {
    let mut board = empty_board(alloc)?;
    if tasks.is_empty() {
        return Ok(board);
    }
    for json in tasks.split('\t') {
        board.tasks.push(Shared::new(alloc, read(alloc, json)?)?)?;
    }
    Ok(board)
}

/// The urgency at a moment of the task at a place.
pub(crate) fn urgency_in(alloc: Global, given: &str) -> Finding {
    let (at, rest) = halves(given);
    let (place, tasks) = halves(rest);
    let (at, place) = (moment_at(at)?, read_count(place));
    let board = board_with(alloc, tasks)?;
    if place == 0 || place > board.tasks.len() {
        return Err(missing());
    }
    show(alloc, &urgency(&board, place, at))
}

pub(crate) fn ann(alloc: Global) -> io::Result<Owner> {
    let name = Name::read(alloc, "ann")?.ok_or(missing())?;
    let key = Key::read(alloc, "password")?.ok_or(missing())?;
    Ok(Owner { alloc, name, key })
}

/// The same person, as one of a world.
fn twin(alloc: Global) -> io::Result<Person> {
    let Owner { name, key, .. } = ann(alloc)?;
    Ok(Person {
        name,
        key: Some(key),
    })
}

/// The world that a person begins with.
pub(crate) fn opened(alloc: Global) -> io::Result<World> {
    let ann = ann(alloc)?;
    Ok(World::opening(alloc, &ann.name, &ann.key)?)
}

/// Whether the world is good that a person begins with, with these tasks on its board.
pub(crate) fn is_good(alloc: Global, tasks: &str) -> Finding {
    let mut boards = Items::new(alloc);
    boards.push(Shared::new(alloc, board_with(alloc, tasks)?)?)?;
    let mut world = opened(alloc)?;
    world.boards = boards;
    show(alloc, &is_good_world(alloc, &world)?)
}

/// Whether it is good with its person twice, as a reader, or without a role.
pub(crate) fn is_good_otherwise(alloc: Global, word: &str) -> Finding {
    let mut world = opened(alloc)?;
    match word {
        "good_with_twin" => world.people.push(twin(alloc)?)?,
        "good_with_reader" => world.roles = reading(alloc)?,
        _ => world.roles = Items::new(alloc),
    }
    show(alloc, &is_good_world(alloc, &world)?)
}

/// The roles where the first person is a reader of board 1.
fn reading(alloc: Global) -> io::Result<Items<RoleOn>> {
    let mut roles = Items::new(alloc);
    roles.push(RoleOn {
        board: 1,
        person: 1,
        role: Role::Reader,
    })?;
    Ok(roles)
}
