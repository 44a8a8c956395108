//! The statements on the people.

ghost use Rattle.std.specs.Prelude.{◌≡◌, IsTrue, IfErr, IfOk, OnOk, filter};
ghost use Rattle.std.specs.List.{list_any};
ghost use Rattle.sqlite.specs.State.{HasCleanDisk, Survives};
ghost use Rattle.tb_sql_tables.specs.Inside.{seen, KeepsInside, KeepsOnErr};
ghost use Rattle.tb_sql_tables.specs.Statements.{Changes, Finds};
ghost use Rattle.tb_sql_tables.specs.Failing.{IsExcused};
ghost use Rattle.tb_sql_tables.specs.Found.{AreFound, IsOneOf};
ghost use Rattle.tb_sql.specs.Changes.{with_person, with_secret, is_named, is_person, IsPersonBefore};

use sqlite::{Alter, Error, Transaction, params};
use tb_sql_tables::fitting::{person_fits, text_fits};
use tb_sql_tables::read::{read_all, read_first};
use tb_sql_tables::rows::PersonRow;
use tb_sql_tables::run::{find_rows, run};
use tb_values::Items;

/// Adds a person. It fails where the number or the name is taken.
pub fn insert_person<S: Alter>(tx: &mut Transaction<'_, S>, person: &PersonRow) -> Result<(), Error>
    ensures same_reference { tx.new.conn.ghost_name ≡ tx.old.conn.ghost_name }
    ensures put { HasCleanDisk (seen S.Store tx.new)
        → IsTrue (seen S.Store tx.old).in_transaction
        → OnOk result (Changes (with_person person.now) (seen S.Store tx.old)
        (seen S.Store tx.new)) }
    ensures kept { KeepsOnErr (seen S.Store tx.old) (seen S.Store tx.new) result }
    ensures survives { Survives (seen S.Store tx.old) (seen S.Store tx.new) (λ _. ⊥) }
{
    person_fits(person);
    let name = person.name.as_str();
    let secret = person.secret.as_str();
    run(
        tx,
        "INSERT INTO person (id, name, secret) VALUES (?1, ?2, ?3)",
        params![person.id, name, secret],
    )
}

/// Sets the secret of the person of a name, if there is one.
pub fn update_secret<S: Alter>(
    tx: &mut Transaction<'_, S>,
    name: &str,
    secret: &str,
) -> Result<(), Error>
    ensures same_reference { tx.new.conn.ghost_name ≡ tx.old.conn.ghost_name }
    ensures put { HasCleanDisk (seen S.Store tx.new)
        → IsTrue (seen S.Store tx.old).in_transaction
        → OnOk result (Changes (with_secret name.now secret.now) (seen S.Store tx.old)
        (seen S.Store tx.new)) }
    ensures kept { KeepsOnErr (seen S.Store tx.old) (seen S.Store tx.new) result }
    ensures survives { Survives (seen S.Store tx.old) (seen S.Store tx.new) (λ _. ⊥) }
{
    text_fits(secret);
    run(
        tx,
        "UPDATE person SET secret = ?2 WHERE name = ?1",
        params![name, secret],
    )
}

/// All people, in order of number.
pub fn select_people<S: Alter>(tx: &mut Transaction<'_, S>) -> Result<Items<PersonRow>, Error>
    ensures same_reference { tx.new.conn.ghost_name ≡ tx.old.conn.ghost_name }
    ensures found { HasCleanDisk (seen S.Store tx.new)
        → IfOk result (λ people. Finds (λ content. AreFound IsPersonBefore content.people people)
        (seen S.Store tx.old)) }
    ensures looks { HasCleanDisk (seen S.Store tx.new)
        → IsTrue (seen S.Store tx.old).in_transaction
        → OnOk result (Changes (λ content. content) (seen S.Store tx.old) (seen S.Store tx.new)) }
    ensures excused { HasCleanDisk (seen S.Store tx.new)
        → IfErr result (IsExcused (seen S.Store tx.old) (seen S.Store tx.new)) }
    ensures kept { KeepsInside (seen S.Store tx.old) (seen S.Store tx.new) }
    ensures survives { Survives (seen S.Store tx.old) (seen S.Store tx.new) (λ _. ⊥) }
{
    let rows = find_rows(tx, "SELECT id, name, secret FROM person ORDER BY id", &[])?;
    read_all(*rows.allocator(), &rows)
}

/// The person of a name.
pub fn find_person<S: Alter>(
    tx: &mut Transaction<'_, S>,
    name: &str,
) -> Result<Option<PersonRow>, Error>
    ensures same_reference { tx.new.conn.ghost_name ≡ tx.old.conn.ghost_name }
    ensures found { HasCleanDisk (seen S.Store tx.new)
        → IfOk result (λ person. Finds
        (λ content. IsOneOf (filter (is_named name.now) content.people) person)
        (seen S.Store tx.old)) }
    ensures excused { HasCleanDisk (seen S.Store tx.new)
        → IfErr result (IsExcused (seen S.Store tx.old) (seen S.Store tx.new)) }
    ensures kept { KeepsInside (seen S.Store tx.old) (seen S.Store tx.new) }
    ensures survives { Survives (seen S.Store tx.old) (seen S.Store tx.new) (λ _. ⊥) }
{
    let rows = find_rows(
        tx,
        "SELECT id, name, secret FROM person WHERE name = ?1",
        params![name],
    )?;
    read_first(&rows)
}

/// The person of a number.
pub fn find_person_at<S: Alter>(
    tx: &mut Transaction<'_, S>,
    id: u32,
) -> Result<Option<PersonRow>, Error>
    ensures same_reference { tx.new.conn.ghost_name ≡ tx.old.conn.ghost_name }
    ensures found { HasCleanDisk (seen S.Store tx.new)
        → IfOk result (λ person. Finds
        (λ content. IsOneOf (filter (is_person id) content.people) person) (seen S.Store tx.old)) }
    ensures excused { HasCleanDisk (seen S.Store tx.new)
        → IfErr result (IsExcused (seen S.Store tx.old) (seen S.Store tx.new)) }
    ensures kept { KeepsInside (seen S.Store tx.old) (seen S.Store tx.new) }
    ensures survives { Survives (seen S.Store tx.old) (seen S.Store tx.new) (λ _. ⊥) }
{
    let rows = find_rows(
        tx,
        "SELECT id, name, secret FROM person WHERE id = ?1",
        params![id],
    )?;
    read_first(&rows)
}

/// Whether there is a person of a number. Nothing of the row is read.
pub fn has_person<S: Alter>(tx: &mut Transaction<'_, S>, id: u32) -> Result<bool, Error>
    ensures same_reference { tx.new.conn.ghost_name ≡ tx.old.conn.ghost_name }
    ensures found { HasCleanDisk (seen S.Store tx.new)
        → IfOk result (λ there. Finds (λ content. there ≡ list_any (is_person id) content.people)
        (seen S.Store tx.old)) }
    ensures excused { HasCleanDisk (seen S.Store tx.new)
        → IfErr result (IsExcused (seen S.Store tx.old) (seen S.Store tx.new)) }
    ensures kept { KeepsInside (seen S.Store tx.old) (seen S.Store tx.new) }
    ensures survives { Survives (seen S.Store tx.old) (seen S.Store tx.new) (λ _. ⊥) }
{
    let rows = find_rows(tx, "SELECT id FROM person WHERE id = ?1", params![id])?;
    Ok(!rows.is_empty())
}
