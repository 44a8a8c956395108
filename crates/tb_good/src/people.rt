//! The people of a world.

ghost use Rattle.std.specs.Prelude.{◌≡◌, ◌↔◌, IsTrue, IfOk, map};
ghost use Rattle.tb_good.specs.Parts.{HasGoodPeople};

use crate::distinct::are_distinct;
use std::alloc::{AllocError, Global};
use tb_board::{Person, World};
use tb_task::MOST_PEOPLE;

/// Whether no two people have one name, and there aren't too many.
pub(crate) fn has_good_people(alloc: Global, world: &World) -> Result<bool, AllocError>
    ensures { IfOk result (λ answer. IsTrue answer ↔ HasGoodPeople world.now) }
{
    if world.people.len() > MOST_PEOPLE {
        return Ok(false);
    }
    let names = names_of(alloc, world.people.as_slice())?;
    are_distinct(alloc, names.as_slice())
}

fn names_of(alloc: Global, people: &[Person]) -> Result<Vec<&str>, AllocError>
    ensures { IfOk result
        (λ names. map (λ name. name.now) names.items ≡ map (λ person. person.name) people.now) }
{
    let mut names = Vec::with_capacity(alloc, people.len())?;
    for person in people {
        names.push(person.name.as_str())?;
    }
    Ok(names)
}
