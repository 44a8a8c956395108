//! Makes a store of the first version one of today's.

ghost use Rattle.std.specs.Prelude.{◌≡◌, false, map, IsTrue, IfErr, IfOk, OnOk, Err};
ghost use Rattle.sqlite.specs.Held.{state};
ghost use Rattle.sqlite.specs.State.{HasCleanDisk, Survives};
ghost use Rattle.tb_sql_tables.specs.Inside.{seen, KeepsOnErr};
ghost use Rattle.tb_sql_tables.specs.Content.{old_part, AreRows, Content, IsContent, StandsBy};
ghost use Rattle.tb_sql_tables.specs.Standing.{IsOldContent, StandsOld, StandsOldOr};
ghost use Rattle.tb_sql_tables.specs.Statements.{Turns};
ghost use Rattle.tb_sql.specs.Opening.{IsAsBefore};
ghost use Rattle.tb_sql.specs.Migrating.{horizon_changes, migrated, IsMigrated};

use crate::boards::select_boards;
use crate::changes::{RowChange, apply_changes};
use crate::meta::update_version;
use crate::people::select_people;
use crate::store::StoreFault;
use sqlite::{Alter, Connection, Error, Transaction};
use std::alloc::{AllocError, Global};
use tb_sql_tables::create::{create_history, create_horizon};
use tb_sql_tables::rows::{BoardRow, HorizonRow};
use tb_values::Items;

/// How many people and boards a store has.
#[derive(Clone, Copy, Debug, PartialEq, Eq)]
pub struct Counts {
    pub people: usize,
    pub boards: usize,
}

/// The rows of what boards have ahead at first.
fn horizon_changes(alloc: Global, boards: &[BoardRow]) -> Result<Items<RowChange>, AllocError>
    ensures { IfOk result (λ rows. rows ≡ horizon_changes boards.now) }
{
    let mut rows = Items::new(alloc);
    'boards: for board in boards {
        rows.push(RowChange::AddHorizon(HorizonRow {
            board: board.id,
            ahead: 1,
        }))?;
    }
    Ok(rows)
}

/// Makes the tables that are missing, and tells the version.
fn widen<S: Alter>(tx: &mut Transaction<'_, S>) -> Result<(), Error>
    ensures same_reference { tx.new.conn.ghost_name ≡ tx.old.conn.ghost_name }
    ensures made { HasCleanDisk (seen S.Store tx.new)
        → IsTrue (seen S.Store tx.old).in_transaction
        → OnOk result ((content : Content)
        → Turns (IsOldContent content) (IsContent (old_part content))
        (seen S.Store tx.old) (seen S.Store tx.new)) }
    ensures kept { KeepsOnErr (seen S.Store tx.old) (seen S.Store tx.new) result }
    ensures survives { Survives (seen S.Store tx.old) (seen S.Store tx.new) (λ _. ⊥) }
{
    create_horizon(tx)?;
    create_history(tx)?;
    update_version(tx)
}

/// Puts the row of each board into the table.
fn fill<S: Alter>(alloc: Global, tx: &mut Transaction<'_, S>) -> Result<Counts, Error>
    ensures same_reference { tx.new.conn.ghost_name ≡ tx.old.conn.ghost_name }
    ensures made { HasCleanDisk (seen S.Store tx.new)
        → IsTrue (seen S.Store tx.old).in_transaction
        → IfOk result (λ counts. (content : Content)
        → Turns (IsContent (old_part content)) (IsMigrated content counts)
        (seen S.Store tx.old) (seen S.Store tx.new)) }
    ensures kept { KeepsOnErr (seen S.Store tx.old) (seen S.Store tx.new) result }
    ensures survives { Survives (seen S.Store tx.old) (seen S.Store tx.new) (λ _. ⊥) }
{
    let people = select_people(tx)?;
    let boards = select_boards(tx)?;
    let rows = horizon_changes(alloc, boards.as_slice())?;
    apply_changes(tx, rows.as_slice())?;
    Ok(Counts {
        people: people.len(),
        boards: boards.len(),
    })
}

/// Makes the tables those of today, with the row of each board.
fn put_third<S: Alter>(alloc: Global, tx: &mut Transaction<'_, S>) -> Result<Counts, Error>
    ensures same_reference { tx.new.conn.ghost_name ≡ tx.old.conn.ghost_name }
    ensures made { HasCleanDisk (seen S.Store tx.new)
        → IsTrue (seen S.Store tx.old).in_transaction
        → IfOk result (λ counts. (content : Content)
        → Turns (IsOldContent content) (IsMigrated content counts) (seen S.Store tx.old)
        (seen S.Store tx.new)) }
    ensures kept { KeepsOnErr (seen S.Store tx.old) (seen S.Store tx.new) result }
    ensures survives { Survives (seen S.Store tx.old) (seen S.Store tx.new) (λ _. ⊥) }
{
    widen(tx)?;
    fill(alloc, tx)
}

/// Makes a store of the first version one of today's, at once: each board has one instance ahead, there is no history, and all else stays.
pub fn migrate<S: Alter>(alloc: Global, conn: &mut Connection<S>) -> Result<Counts, StoreFault>
    requires { conn.old.in_transaction ≡ false }
    ensures idle { conn.new.in_transaction ≡ false }
    ensures clean { HasCleanDisk (state S.Store conn.new) → HasCleanDisk (state S.Store conn.old) }
    ensures usable { OnOk result
        (HasCleanDisk (state S.Store conn.new) → IsTrue (state S.Store conn.new).is_open) }
    ensures done { IfOk result
        (λ counts. (content : Content) → StandsOld content (state S.Store conn.old)
        → StandsBy (IsMigrated content counts) (AreRows (migrated content))
        (state S.Store conn.new)) }
    ensures memory { result ≡ Err StoreFault.Memory
        → IsAsBefore (state S.Store conn.old) (state S.Store conn.new) }
    ensures store { result ≡ Err StoreFault.Store → (content : Content)
        → StandsOld content (state S.Store conn.old)
        → StandsOldOr content (migrated content) (state S.Store conn.new) }
{
    let mut tx = conn.transaction();
    let counts = match put_third(alloc, &mut tx) {
        Ok(counts) => counts,
        Err(error) => return Err(StoreFault::before_commit(&error)),
    };
    match tx.commit() {
        Ok(()) => Ok(counts),
        Err(_) => Err(StoreFault::Store), // A stop may leave either version.
    }
}
