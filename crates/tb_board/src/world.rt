ghost use Rattle.std.specs.Prelude.{◌≡◌, IfOk, codes, find};
ghost use Rattle.tb_board.specs.World.{find_board, has_name, number_of, opening, owners, owns, role_of};

use crate::board::Board;
use crate::first::{place_of_board, place_of_person};
use crate::key::Key;
use crate::name::Name;
use crate::title::Title;
use std::alloc::{AllocError, Global};
use tb_values::{Duplicate, Items, Shared};

/// What a person may do on a board: all, all but giving roles and saying how far ahead it looks, or only look at it.
#[derive(Clone, Copy, Debug, PartialEq, Eq)]
pub enum Role {
    Owner,
    Member,
    Reader,
}

/// A person, and the key by which the person is known. Nobody is known as a person without a key.
#[derive(Drop)]
pub struct Person {
    pub name: Name,
    pub key: Option<Key>,
}

/// The role of a person on a board, both by their numbers. People count from 1.
#[derive(Clone, Copy, Debug, PartialEq, Eq)]
pub struct RoleOn {
    pub board: u32,
    pub person: usize,
    pub role: Role,
}

/// The people, the boards, and who may use them.
#[derive(Drop)]
pub struct World {
    pub people: Items<Person>,
    pub boards: Items<Shared<Board>>,
    pub roles: Items<RoleOn>,
}

impl World {
    /// The world that a person begins with: the one person, who owns the one board, titled `board`.
    pub fn opening(alloc: Global, name: &Name, key: &Key) -> Result<World, AllocError>
        ensures { IfOk result (λ world. world ≡ opening name.now key.now) }
    {
        let name = name.duplicate()?;
        let key = key.duplicate()?;
        let board = Board::new(alloc, 1, first_title(alloc)?);
        let mut people = Items::new(alloc);
        people.push(Person {
            name,
            key: Some(key),
        })?;
        let mut boards = Items::new(alloc);
        boards.push(Shared::new(alloc, board)?)?;
        let mut roles = Items::new(alloc);
        roles.push(RoleOn {
            board: 1,
            person: 1,
            role: Role::Owner,
        })?;
        Ok(World {
            people,
            boards,
            roles,
        })
    }

    /// The number of the person of that name.
    pub fn number_of(&self, name: &Name) -> Option<usize>
        ensures { result ≡ number_of self.now name.now }
    {
        match place_of_person(self.people.as_slice(), name) {
            Some(place) => Some(place + 1),
            None => None,
        }
    }

    /// The person of that name.
    pub fn person(&self, name: &Name) -> Result<Option<Person>, AllocError>
        ensures { IfOk result (λ person. person ≡ find (has_name name.now) self.now.people) }
    {
        match place_of_person(self.people.as_slice(), name) {
            Some(place) => Ok(Some(self.people.as_slice()[place].duplicate()?)),
            None => Ok(None),
        }
    }

    /// The board of that number, shared.
    pub fn board(&self, number: u32) -> Result<Option<Shared<Board>>, AllocError>
        ensures { IfOk result (λ board. board ≡ find_board self.now number) }
    {
        match place_of_board(self.boards.as_slice(), number) {
            Some(place) => Ok(Some(self.boards.as_slice()[place].share()?)),
            None => Ok(None),
        }
    }

    /// The role of a person on a board, both by their numbers.
    pub fn role_of(&self, board: u32, person: usize) -> Option<Role>
        ensures { result ≡ role_of self.now board person }
    {
        match self
            .roles
            .as_slice()
            .iter()
            .find(|role| role.board == board && role.person == person)
        {
            Some(role) => Some(role.role),
            None => None,
        }
    }

    /// How many owners a board has.
    pub fn owners(&self, board: u32) -> usize
        ensures { result ≡ owners self.now board }
    {
        self.roles
            .as_slice()
            .iter()
            .filter(|role| is_owned(role, board))
            .count()
    }
}

fn is_owned(role: &RoleOn, board: u32) -> bool
    ensures { result ≡ owns board role.now }
{
    role.board == board && matches!(role.role, Role::Owner)
}

#[tactic(auto, unfolding(crate::specs::Names::is_title))]
fn first_title(alloc: Global) -> Result<Title, AllocError>
    ensures { IfOk result (λ title. title ≡ codes "board") }
{
    match Title::read(alloc, "board")? {
        Some(title) => Ok(title),
        None => unreachable!(),
    }
}

impl Duplicate for Role {
    fn duplicate(&self) -> Result<Role, AllocError> {
        Ok(*self)
    }
}

impl Duplicate for Person {
    fn duplicate(&self) -> Result<Person, AllocError> {
        let name = self.name.duplicate()?;
        let key = self.key.duplicate()?;
        Ok(Person { name, key })
    }
}

impl Duplicate for RoleOn {
    fn duplicate(&self) -> Result<RoleOn, AllocError> {
        Ok(*self)
    }
}

/// The boards are shared with the world that is duplicated.
impl Duplicate for World {
    fn duplicate(&self) -> Result<World, AllocError> {
        let people = self.people.duplicate()?;
        let boards = self.boards.duplicate()?;
        let roles = self.roles.duplicate()?;
        Ok(World {
            people,
            boards,
            roles,
        })
    }
}
