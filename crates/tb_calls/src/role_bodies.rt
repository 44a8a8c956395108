//! What people are told of roles, as JSON.
ghost use Rattle.std.specs.Prelude.{◌≡◌, IfOk, map};
ghost use Rattle.serde_json.specs.View.{view};
ghost use Rattle.tb_calls.specs.RoleBodies.{board_role_data, me_body, me_text, people_body, people_text, person_role_data, role_word};

use serde_json::{Map, Value, put};
use std::alloc::{AllocError, Global};
use tb_board::{Name, Role, Title};
use tb_values::Text;

/// A person's role on a board.
#[derive(Drop)]
pub struct BoardRole {
    pub board: u32,
    pub title: Title,
    pub role: Role,
}

/// The role of a person on a board.
#[derive(Drop)]
pub struct PersonRole {
    pub name: Name,
    pub role: Role,
}

/// A person and the boards on which that person has a role, as JSON without a space.
pub fn write_me(alloc: Global, name: &Name, boards: &[BoardRole]) -> Result<Text, AllocError>
    ensures { IfOk result (λ text. text ≡ me_text name.now boards.now) }
{
    let value = me_value(alloc, name, boards)?;
    Ok(Text::from_string(value.to_string(alloc)?))
}

/// A board and the people who have a role on it, as JSON without a space.
pub fn write_people(alloc: Global, board: u32, people: &[PersonRole]) -> Result<Text, AllocError>
    ensures { IfOk result (λ text. text ≡ people_text board people.now) }
{
    let value = people_value(alloc, board, people)?;
    Ok(Text::from_string(value.to_string(alloc)?))
}

fn me_value(alloc: Global, name: &Name, boards: &[BoardRole]) -> Result<Value, AllocError>
    ensures { IfOk result (λ value. view value ≡ me_body name.now boards.now) }
{
    let boards = board_roles(alloc, boards)?;
    let name = Value::try_from_str(alloc, name.as_str())?;
    let mut object = Map::new(alloc);
    put(&mut object, alloc, "boards", Value::Array(boards))?;
    put(&mut object, alloc, "name", name)?;
    Ok(Value::Object(object))
}

fn board_roles(alloc: Global, boards: &[BoardRole]) -> Result<Vec<Value>, AllocError>
    ensures { IfOk result (λ list. map view list.items ≡ map board_role_data boards.now) }
{
    let mut list = Vec::new(alloc);
    for board in boards {
        list.push(board_role(alloc, board)?)?;
    }
    Ok(list)
}

#[tactic(auto, unfolding(crate::specs::RoleBodies::board_role_data))]
fn board_role(alloc: Global, board: &BoardRole) -> Result<Value, AllocError>
    ensures { IfOk result (λ value. view value ≡ board_role_data board.now) }
{
    let role = Value::try_from_str(alloc, role_word(board.role))?;
    let title = Value::try_from_str(alloc, board.title.as_str())?;
    let mut object = Map::new(alloc);
    put(&mut object, alloc, "board", Value::from(board.board))?;
    put(&mut object, alloc, "role", role)?;
    put(&mut object, alloc, "title", title)?;
    Ok(Value::Object(object))
}

fn people_value(alloc: Global, board: u32, people: &[PersonRole]) -> Result<Value, AllocError>
    ensures { IfOk result (λ value. view value ≡ people_body board people.now) }
{
    let people = person_roles(alloc, people)?;
    let mut object = Map::new(alloc);
    put(&mut object, alloc, "board", Value::from(board))?;
    put(&mut object, alloc, "people", Value::Array(people))?;
    Ok(Value::Object(object))
}

fn person_roles(alloc: Global, people: &[PersonRole]) -> Result<Vec<Value>, AllocError>
    ensures { IfOk result (λ list. map view list.items ≡ map person_role_data people.now) }
{
    let mut list = Vec::new(alloc);
    for person in people {
        list.push(person_role(alloc, person)?)?;
    }
    Ok(list)
}

#[tactic(auto, unfolding(crate::specs::RoleBodies::person_role_data))]
fn person_role(alloc: Global, person: &PersonRole) -> Result<Value, AllocError>
    ensures { IfOk result (λ value. view value ≡ person_role_data person.now) }
{
    let name = Value::try_from_str(alloc, person.name.as_str())?;
    let role = Value::try_from_str(alloc, role_word(person.role))?;
    let mut object = Map::new(alloc);
    put(&mut object, alloc, "name", name)?;
    put(&mut object, alloc, "role", role)?;
    Ok(Value::Object(object))
}

fn role_word(role: Role) -> &'static str
    ensures { result.now ≡ role_word role }
{
    match role {
        Role::Owner => "owner",
        Role::Member => "member",
        Role::Reader => "reader",
    }
}
