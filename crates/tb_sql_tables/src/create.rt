//! The statements that make the tables of an empty database, in their one order.

ghost use Rattle.std.specs.Prelude.{◌≡◌, IsTrue, OnOk};
ghost use Rattle.sqlite.specs.State.{HasCleanDisk, Survives};
ghost use Rattle.tb_sql_tables.specs.Inside.{seen, KeepsOnErr};
ghost use Rattle.tb_sql_tables.specs.Tables.{no_schema, meta_schema, person_schema, board_schema, role_schema, task_schema, link_schema, instance_schema, gone_schema, old_schema, second_schema, store_schema};
ghost use Rattle.tb_sql_tables.specs.Content.{nothing, without_history, Content, IsContent};
ghost use Rattle.tb_sql_tables.specs.Statements.{AreEmpty, Turns};
ghost use Rattle.tb_sql_tables.specs.Standing.{HasNoTables, IsHalfway, IsQuarterway, IsOldContent, IsSecondContent};

use crate::run::run;
use sqlite::{Alter, Error, Transaction};

/// The table of what the file is, and in which version.
fn create_meta<S: Alter>(tx: &mut Transaction<'_, S>) -> Result<(), Error>
    ensures same_reference { tx.new.conn.ghost_name ≡ tx.old.conn.ghost_name }
    ensures made { HasCleanDisk (seen S.Store tx.new)
        → IsTrue (seen S.Store tx.old).in_transaction
        → OnOk result (Turns (AreEmpty no_schema) (AreEmpty meta_schema)
        (seen S.Store tx.old) (seen S.Store tx.new)) }
    ensures kept { KeepsOnErr (seen S.Store tx.old) (seen S.Store tx.new) result }
    ensures survives { Survives (seen S.Store tx.old) (seen S.Store tx.new) (λ _. ⊥) }
{
    run(
        tx,
        "CREATE TABLE meta(one INTEGER PRIMARY KEY CHECK(one = 1), kind TEXT NOT NULL, version INTEGER NOT NULL) STRICT",
        &[],
    )
}

/// The table of the people.
fn create_person<S: Alter>(tx: &mut Transaction<'_, S>) -> Result<(), Error>
    ensures same_reference { tx.new.conn.ghost_name ≡ tx.old.conn.ghost_name }
    ensures made { HasCleanDisk (seen S.Store tx.new)
        → IsTrue (seen S.Store tx.old).in_transaction
        → OnOk result (Turns (AreEmpty meta_schema) (AreEmpty person_schema)
        (seen S.Store tx.old) (seen S.Store tx.new)) }
    ensures kept { KeepsOnErr (seen S.Store tx.old) (seen S.Store tx.new) result }
    ensures survives { Survives (seen S.Store tx.old) (seen S.Store tx.new) (λ _. ⊥) }
{
    run(
        tx,
        "CREATE TABLE person(id INTEGER PRIMARY KEY, name TEXT NOT NULL UNIQUE, secret TEXT NOT NULL) STRICT",
        &[],
    )
}

/// The table of the boards.
fn create_board<S: Alter>(tx: &mut Transaction<'_, S>) -> Result<(), Error>
    ensures same_reference { tx.new.conn.ghost_name ≡ tx.old.conn.ghost_name }
    ensures made { HasCleanDisk (seen S.Store tx.new)
        → IsTrue (seen S.Store tx.old).in_transaction
        → OnOk result (Turns (AreEmpty person_schema) (AreEmpty board_schema)
        (seen S.Store tx.old) (seen S.Store tx.new)) }
    ensures kept { KeepsOnErr (seen S.Store tx.old) (seen S.Store tx.new) result }
    ensures survives { Survives (seen S.Store tx.old) (seen S.Store tx.new) (λ _. ⊥) }
{
    run(
        tx,
        "CREATE TABLE board(id INTEGER PRIMARY KEY, title TEXT NOT NULL, low INTEGER NOT NULL) STRICT",
        &[],
    )
}

/// The table of the roles of people on boards.
fn create_role<S: Alter>(tx: &mut Transaction<'_, S>) -> Result<(), Error>
    ensures same_reference { tx.new.conn.ghost_name ≡ tx.old.conn.ghost_name }
    ensures made { HasCleanDisk (seen S.Store tx.new)
        → IsTrue (seen S.Store tx.old).in_transaction
        → OnOk result (Turns (AreEmpty board_schema) (AreEmpty role_schema)
        (seen S.Store tx.old) (seen S.Store tx.new)) }
    ensures kept { KeepsOnErr (seen S.Store tx.old) (seen S.Store tx.new) result }
    ensures survives { Survives (seen S.Store tx.old) (seen S.Store tx.new) (λ _. ⊥) }
{
    run(
        tx,
        "CREATE TABLE role(board INTEGER NOT NULL REFERENCES board(id), person INTEGER NOT NULL REFERENCES person(id), kind INTEGER NOT NULL, PRIMARY KEY(board, person)) STRICT",
        &[],
    )
}

/// The table of the tasks.
fn create_task<S: Alter>(tx: &mut Transaction<'_, S>) -> Result<(), Error>
    ensures same_reference { tx.new.conn.ghost_name ≡ tx.old.conn.ghost_name }
    ensures made { HasCleanDisk (seen S.Store tx.new)
        → IsTrue (seen S.Store tx.old).in_transaction
        → OnOk result (Turns (AreEmpty role_schema) (AreEmpty task_schema)
        (seen S.Store tx.old) (seen S.Store tx.new)) }
    ensures kept { KeepsOnErr (seen S.Store tx.old) (seen S.Store tx.new) result }
    ensures survives { Survives (seen S.Store tx.old) (seen S.Store tx.new) (λ _. ⊥) }
{
    run(
        tx,
        "CREATE TABLE task(board INTEGER NOT NULL REFERENCES board(id), place INTEGER NOT NULL, uuid BLOB NOT NULL, body TEXT NOT NULL, mask TEXT, PRIMARY KEY(board, place), UNIQUE(board, uuid)) STRICT",
        &[],
    )
}

/// The table of the links between tasks.
fn create_link<S: Alter>(tx: &mut Transaction<'_, S>) -> Result<(), Error>
    ensures same_reference { tx.new.conn.ghost_name ≡ tx.old.conn.ghost_name }
    ensures made { HasCleanDisk (seen S.Store tx.new)
        → IsTrue (seen S.Store tx.old).in_transaction
        → OnOk result (Turns (AreEmpty task_schema) (AreEmpty link_schema)
        (seen S.Store tx.old) (seen S.Store tx.new)) }
    ensures kept { KeepsOnErr (seen S.Store tx.old) (seen S.Store tx.new) result }
    ensures survives { Survives (seen S.Store tx.old) (seen S.Store tx.new) (λ _. ⊥) }
{
    run(
        tx,
        "CREATE TABLE link(board INTEGER NOT NULL, place INTEGER NOT NULL, target INTEGER NOT NULL, PRIMARY KEY(board, place, target)) STRICT",
        &[],
    )
}

/// The table of the instances of templates.
fn create_instance<S: Alter>(tx: &mut Transaction<'_, S>) -> Result<(), Error>
    ensures same_reference { tx.new.conn.ghost_name ≡ tx.old.conn.ghost_name }
    ensures made { HasCleanDisk (seen S.Store tx.new)
        → IsTrue (seen S.Store tx.old).in_transaction
        → OnOk result (Turns (AreEmpty link_schema) (AreEmpty instance_schema)
        (seen S.Store tx.old) (seen S.Store tx.new)) }
    ensures kept { KeepsOnErr (seen S.Store tx.old) (seen S.Store tx.new) result }
    ensures survives { Survives (seen S.Store tx.old) (seen S.Store tx.new) (λ _. ⊥) }
{
    run(
        tx,
        "CREATE TABLE instance(board INTEGER NOT NULL, template INTEGER NOT NULL, imask INTEGER NOT NULL, place INTEGER NOT NULL, PRIMARY KEY(board, template, imask), UNIQUE(board, place)) STRICT",
        &[],
    )
}

/// The table of the instances that are not on the board.
fn create_gone<S: Alter>(tx: &mut Transaction<'_, S>) -> Result<(), Error>
    ensures same_reference { tx.new.conn.ghost_name ≡ tx.old.conn.ghost_name }
    ensures made { HasCleanDisk (seen S.Store tx.new)
        → IsTrue (seen S.Store tx.old).in_transaction
        → OnOk result (Turns (AreEmpty instance_schema) (AreEmpty gone_schema)
        (seen S.Store tx.old) (seen S.Store tx.new)) }
    ensures kept { KeepsOnErr (seen S.Store tx.old) (seen S.Store tx.new) result }
    ensures survives { Survives (seen S.Store tx.old) (seen S.Store tx.new) (λ _. ⊥) }
{
    run(
        tx,
        "CREATE TABLE gone(board INTEGER NOT NULL, template INTEGER NOT NULL, imask INTEGER NOT NULL, mark TEXT NOT NULL, PRIMARY KEY(board, template, imask)) STRICT",
        &[],
    )
}

/// The table of the kept replies.
fn create_kept<S: Alter>(tx: &mut Transaction<'_, S>) -> Result<(), Error>
    ensures same_reference { tx.new.conn.ghost_name ≡ tx.old.conn.ghost_name }
    ensures made { HasCleanDisk (seen S.Store tx.new)
        → IsTrue (seen S.Store tx.old).in_transaction
        → OnOk result (Turns (AreEmpty gone_schema) (AreEmpty old_schema)
        (seen S.Store tx.old) (seen S.Store tx.new)) }
    ensures kept { KeepsOnErr (seen S.Store tx.old) (seen S.Store tx.new) result }
    ensures survives { Survives (seen S.Store tx.old) (seen S.Store tx.new) (λ _. ⊥) }
{
    run(
        tx,
        "CREATE TABLE kept(person INTEGER NOT NULL REFERENCES person(id), id BLOB NOT NULL, content BLOB NOT NULL, number INTEGER NOT NULL, status INTEGER NOT NULL, body TEXT NOT NULL, PRIMARY KEY(person, id)) STRICT",
        &[],
    )
}

/// The table of what a board has ahead. It may stand beside tables of the first version that have rows.
pub fn create_horizon<S: Alter>(tx: &mut Transaction<'_, S>) -> Result<(), Error>
    ensures same_reference { tx.new.conn.ghost_name ≡ tx.old.conn.ghost_name }
    ensures made { HasCleanDisk (seen S.Store tx.new)
        → IsTrue (seen S.Store tx.old).in_transaction
        → OnOk result (Turns (AreEmpty old_schema) (AreEmpty second_schema)
        (seen S.Store tx.old) (seen S.Store tx.new)) }
    ensures added { HasCleanDisk (seen S.Store tx.new)
        → IsTrue (seen S.Store tx.old).in_transaction
        → OnOk result ((content : Content)
        → Turns (IsOldContent content) (IsQuarterway content) (seen S.Store tx.old)
        (seen S.Store tx.new)) }
    ensures kept { KeepsOnErr (seen S.Store tx.old) (seen S.Store tx.new) result }
    ensures survives { Survives (seen S.Store tx.old) (seen S.Store tx.new) (λ _. ⊥) }
{
    run(
        tx,
        "CREATE TABLE horizon(board INTEGER PRIMARY KEY REFERENCES board(id), ahead INTEGER NOT NULL CHECK(ahead >= 1 AND ahead <= 12)) STRICT",
        &[],
    )
}

/// The table of what was done on the boards. It may stand beside tables of the first or the second version that have rows.
pub fn create_history<S: Alter>(tx: &mut Transaction<'_, S>) -> Result<(), Error>
    ensures same_reference { tx.new.conn.ghost_name ≡ tx.old.conn.ghost_name }
    ensures made { HasCleanDisk (seen S.Store tx.new)
        → IsTrue (seen S.Store tx.old).in_transaction
        → OnOk result (Turns (AreEmpty second_schema) (AreEmpty store_schema)
        (seen S.Store tx.old) (seen S.Store tx.new)) }
    ensures both { HasCleanDisk (seen S.Store tx.new)
        → IsTrue (seen S.Store tx.old).in_transaction
        → OnOk result ((content : Content)
        → Turns (IsQuarterway content) (IsHalfway content) (seen S.Store tx.old)
        (seen S.Store tx.new)) }
    ensures added { HasCleanDisk (seen S.Store tx.new)
        → IsTrue (seen S.Store tx.old).in_transaction
        → OnOk result ((content : Content)
        → Turns (IsSecondContent content) (IsContent (without_history content))
        (seen S.Store tx.old) (seen S.Store tx.new)) }
    ensures kept { KeepsOnErr (seen S.Store tx.old) (seen S.Store tx.new) result }
    ensures survives { Survives (seen S.Store tx.old) (seen S.Store tx.new) (λ _. ⊥) }
{
    run(
        tx,
        "CREATE TABLE history(board INTEGER NOT NULL REFERENCES board(id), number INTEGER NOT NULL, moment INTEGER NOT NULL, person INTEGER NOT NULL REFERENCES person(id), call BLOB NOT NULL, what INTEGER NOT NULL, task INTEGER, PRIMARY KEY(board, number), UNIQUE(board, task, number)) STRICT",
        &[],
    )
}

/// The one row of the first table.
fn insert_meta<S: Alter>(tx: &mut Transaction<'_, S>) -> Result<(), Error>
    ensures same_reference { tx.new.conn.ghost_name ≡ tx.old.conn.ghost_name }
    ensures made { HasCleanDisk (seen S.Store tx.new)
        → IsTrue (seen S.Store tx.old).in_transaction
        → OnOk result (Turns (AreEmpty store_schema) (IsContent nothing)
        (seen S.Store tx.old) (seen S.Store tx.new)) }
    ensures kept { KeepsOnErr (seen S.Store tx.old) (seen S.Store tx.new) result }
    ensures survives { Survives (seen S.Store tx.old) (seen S.Store tx.new) (λ _. ⊥) }
{
    run(
        tx,
        "INSERT INTO meta (one, kind, version) VALUES (1, 'taskboard', 2)",
        &[],
    )
}

/// The one row of the first table in the first version.
fn insert_old_meta<S: Alter>(tx: &mut Transaction<'_, S>) -> Result<(), Error>
    ensures same_reference { tx.new.conn.ghost_name ≡ tx.old.conn.ghost_name }
    ensures made { HasCleanDisk (seen S.Store tx.new)
        → IsTrue (seen S.Store tx.old).in_transaction
        → OnOk result (Turns (AreEmpty old_schema) (IsOldContent nothing)
        (seen S.Store tx.old) (seen S.Store tx.new)) }
    ensures kept { KeepsOnErr (seen S.Store tx.old) (seen S.Store tx.new) result }
    ensures survives { Survives (seen S.Store tx.old) (seen S.Store tx.new) (λ _. ⊥) }
{
    run(
        tx,
        "INSERT INTO meta (one, kind, version) VALUES (1, 'taskboard', 1)",
        &[],
    )
}

/// The tables that the others refer to, and the first.
fn create_parents<S: Alter>(tx: &mut Transaction<'_, S>) -> Result<(), Error>
    ensures same_reference { tx.new.conn.ghost_name ≡ tx.old.conn.ghost_name }
    ensures made { HasCleanDisk (seen S.Store tx.new)
        → IsTrue (seen S.Store tx.old).in_transaction
        → OnOk result (Turns (AreEmpty no_schema) (AreEmpty board_schema)
        (seen S.Store tx.old) (seen S.Store tx.new)) }
    ensures kept { KeepsOnErr (seen S.Store tx.old) (seen S.Store tx.new) result }
    ensures survives { Survives (seen S.Store tx.old) (seen S.Store tx.new) (λ _. ⊥) }
{
    create_meta(tx)?;
    create_person(tx)?;
    create_board(tx)
}

/// The tables of what is on the boards.
fn create_board_tables<S: Alter>(tx: &mut Transaction<'_, S>) -> Result<(), Error>
    ensures same_reference { tx.new.conn.ghost_name ≡ tx.old.conn.ghost_name }
    ensures made { HasCleanDisk (seen S.Store tx.new)
        → IsTrue (seen S.Store tx.old).in_transaction
        → OnOk result (Turns (AreEmpty board_schema) (AreEmpty gone_schema)
        (seen S.Store tx.old) (seen S.Store tx.new)) }
    ensures kept { KeepsOnErr (seen S.Store tx.old) (seen S.Store tx.new) result }
    ensures survives { Survives (seen S.Store tx.old) (seen S.Store tx.new) (λ _. ⊥) }
{
    create_role(tx)?;
    create_task(tx)?;
    create_link(tx)?;
    create_instance(tx)?;
    create_gone(tx)
}

/// The tables of the first version.
fn create_tables<S: Alter>(tx: &mut Transaction<'_, S>) -> Result<(), Error>
    ensures same_reference { tx.new.conn.ghost_name ≡ tx.old.conn.ghost_name }
    ensures made { HasCleanDisk (seen S.Store tx.new)
        → IsTrue (seen S.Store tx.old).in_transaction
        → OnOk result (Turns (AreEmpty no_schema) (AreEmpty old_schema)
        (seen S.Store tx.old) (seen S.Store tx.new)) }
    ensures kept { KeepsOnErr (seen S.Store tx.old) (seen S.Store tx.new) result }
    ensures survives { Survives (seen S.Store tx.old) (seen S.Store tx.new) (λ _. ⊥) }
{
    create_parents(tx)?;
    create_board_tables(tx)?;
    create_kept(tx)
}

/// Makes the tables of the first version in an empty database, with nothing in them but what the file is.
pub fn create_old<S: Alter>(tx: &mut Transaction<'_, S>) -> Result<(), Error>
    ensures same_reference { tx.new.conn.ghost_name ≡ tx.old.conn.ghost_name }
    ensures made { HasCleanDisk (seen S.Store tx.new)
        → IsTrue (seen S.Store tx.old).in_transaction
        → OnOk result (Turns HasNoTables (IsOldContent nothing) (seen S.Store tx.old)
        (seen S.Store tx.new)) }
    ensures kept { KeepsOnErr (seen S.Store tx.old) (seen S.Store tx.new) result }
    ensures survives { Survives (seen S.Store tx.old) (seen S.Store tx.new) (λ _. ⊥) }
{
    create_tables(tx)?;
    insert_old_meta(tx)
}

/// Makes the tables of an empty database, with nothing in them but what the file is.
pub fn create_all<S: Alter>(tx: &mut Transaction<'_, S>) -> Result<(), Error>
    ensures same_reference { tx.new.conn.ghost_name ≡ tx.old.conn.ghost_name }
    ensures made { HasCleanDisk (seen S.Store tx.new)
        → IsTrue (seen S.Store tx.old).in_transaction
        → OnOk result (Turns HasNoTables (IsContent nothing) (seen S.Store tx.old)
        (seen S.Store tx.new)) }
    ensures kept { KeepsOnErr (seen S.Store tx.old) (seen S.Store tx.new) result }
    ensures survives { Survives (seen S.Store tx.old) (seen S.Store tx.new) (λ _. ⊥) }
{
    create_tables(tx)?;
    create_horizon(tx)?;
    create_history(tx)?;
    insert_meta(tx)
}
