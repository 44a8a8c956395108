//! People and their rows.

ghost use Rattle.std.specs.Prelude.{[]};
ghost use Rattle.tb_rows.specs.Outcome.{Reads};
ghost use Rattle.tb_rows.specs.Reading.{person_at, people_in, secret_in};

use crate::fault::ReopenFault;
use std::alloc::Global;
use tb_board::{Key, Name, Person};
use tb_sql_tables::rows::PersonRow;
use tb_values::{Items, Text};

/// The key that is stored as this text, where the empty text is none.
pub fn read_secret(alloc: Global, secret: &Text) -> Result<Option<Key>, ReopenFault>
    ensures { Reads result (secret_in secret.now) }
{
    if secret.is_empty() {
        return Ok(None);
    }
    let key = Key::read(alloc, secret.as_str())?.ok_or(ReopenFault::NotRows)?;
    Ok(Some(key))
}

/// The person of a row, who has this number.
fn read_person(alloc: Global, number: usize, row: &PersonRow) -> Result<Person, ReopenFault>
    ensures { Reads result (person_at number row.now) }
{
    if row.id as usize != number {
        return Err(ReopenFault::NotRows);
    }
    let name = Name::read(alloc, row.name.as_str())?.ok_or(ReopenFault::NotRows)?;
    let key = read_secret(alloc, &row.secret)?;
    Ok(Person { name, key })
}

/// The people of these rows, which number them in order from 1.
pub fn read_people(alloc: Global, rows: &[PersonRow]) -> Result<Items<Person>, ReopenFault>
    ensures { Reads result (people_in [] rows.now) }
{
    let mut people = Items::new(alloc);
    for row in rows {
        let person = read_person(alloc, people.len() + 1, row)?;
        people.push(person)?;
    }
    Ok(people)
}
