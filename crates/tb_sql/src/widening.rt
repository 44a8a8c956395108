//! Makes a store of the second version one of today's.

ghost use Rattle.std.specs.Prelude.{◌≡◌, false, IsTrue, IfOk, OnOk, Err};
ghost use Rattle.sqlite.specs.Held.{state};
ghost use Rattle.sqlite.specs.State.{HasCleanDisk, Survives};
ghost use Rattle.tb_sql_tables.specs.Inside.{seen, KeepsOnErr};
ghost use Rattle.tb_sql_tables.specs.Content.{without_history, AreRows, Content, IsContent, StandsBy};
ghost use Rattle.tb_sql_tables.specs.Standing.{IsSecondContent, StandsSecond, StandsSecondOr};
ghost use Rattle.tb_sql_tables.specs.Statements.{Turns};
ghost use Rattle.tb_sql.specs.Opening.{IsAsBefore};
ghost use Rattle.tb_sql.specs.Migrating.{IsWidened};

use crate::boards::select_boards;
use crate::migrating::Counts;
use crate::people::select_people;
use crate::store::StoreFault;
use sqlite::{Alter, Connection, Error, Transaction};
use tb_sql_tables::create::create_history;

/// Counts the people and the boards.
fn count<S: Alter>(tx: &mut Transaction<'_, S>) -> Result<Counts, Error>
    ensures same_reference { tx.new.conn.ghost_name ≡ tx.old.conn.ghost_name }
    ensures made { HasCleanDisk (seen S.Store tx.new)
        → IsTrue (seen S.Store tx.old).in_transaction
        → IfOk result (λ counts. (content : Content)
        → Turns (IsContent (without_history content)) (IsWidened content counts)
        (seen S.Store tx.old) (seen S.Store tx.new)) }
    ensures kept { KeepsOnErr (seen S.Store tx.old) (seen S.Store tx.new) result }
    ensures survives { Survives (seen S.Store tx.old) (seen S.Store tx.new) (λ _. ⊥) }
{
    let people = select_people(tx)?;
    let boards = select_boards(tx)?;
    Ok(Counts {
        people: people.len(),
        boards: boards.len(),
    })
}

/// Makes the table that is missing, and counts.
fn put_history<S: Alter>(tx: &mut Transaction<'_, S>) -> Result<Counts, Error>
    ensures same_reference { tx.new.conn.ghost_name ≡ tx.old.conn.ghost_name }
    ensures made { HasCleanDisk (seen S.Store tx.new)
        → IsTrue (seen S.Store tx.old).in_transaction
        → IfOk result (λ counts. (content : Content)
        → Turns (IsSecondContent content) (IsWidened content counts) (seen S.Store tx.old)
        (seen S.Store tx.new)) }
    ensures kept { KeepsOnErr (seen S.Store tx.old) (seen S.Store tx.new) result }
    ensures survives { Survives (seen S.Store tx.old) (seen S.Store tx.new) (λ _. ⊥) }
{
    create_history(tx)?;
    count(tx)
}

/// Makes a store of the second version one of today's, at once: there is no history, and all else stays.
pub fn widen<S: Alter>(conn: &mut Connection<S>) -> Result<Counts, StoreFault>
    requires { conn.old.in_transaction ≡ false }
    ensures idle { conn.new.in_transaction ≡ false }
    ensures clean { HasCleanDisk (state S.Store conn.new) → HasCleanDisk (state S.Store conn.old) }
    ensures usable { OnOk result
        (HasCleanDisk (state S.Store conn.new) → IsTrue (state S.Store conn.new).is_open) }
    ensures done { IfOk result
        (λ counts. (content : Content) → StandsSecond content (state S.Store conn.old)
        → StandsBy (IsWidened content counts) (AreRows (without_history content))
        (state S.Store conn.new)) }
    ensures memory { result ≡ Err StoreFault.Memory
        → IsAsBefore (state S.Store conn.old) (state S.Store conn.new) }
    ensures store { result ≡ Err StoreFault.Store → (content : Content)
        → StandsSecond content (state S.Store conn.old)
        → StandsSecondOr content (without_history content) (state S.Store conn.new) }
{
    let mut tx = conn.transaction();
    let counts = match put_history(&mut tx) {
        Ok(counts) => counts,
        Err(error) => return Err(StoreFault::before_commit(&error)),
    };
    match tx.commit() {
        Ok(()) => Ok(counts),
        Err(_) => Err(StoreFault::Store), // A stop may leave the second version or today's.
    }
}
