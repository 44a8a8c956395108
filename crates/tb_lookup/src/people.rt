//! People, as the tables tell them.

ghost use Rattle.std.specs.Prelude.{◌≡◌, false, length, Err, IfOk};
ghost use Rattle.sqlite.specs.Held.{state};
ghost use Rattle.tb_sql.specs.Opening.{IsAsBefore};
ghost use Rattle.tb_sql_tables.specs.Content.{Stands};
ghost use Rattle.tb_sql_tables.specs.Failing.{FailsByFault, KeepsFaults};
ghost use Rattle.tb_lookup.specs.Reopening.{OfState, FailsOfState};
ghost use Rattle.tb_lookup.specs.People.{IsPersonFound};

use crate::by_key::{has_person_at, person_row_named};
use crate::faults::fault_of;
use crate::halves::{ABOVE_MOST, middle_of};
use sqlite::{Alter, Connection};
use std::alloc::Global;
use tb_board::{Key, Name};
use tb_rows::read_secret;
use tb_sql::store::StoreFault;

/// A person, by the number under which the tables name them, counted from 1. The person may have no key.
#[derive(Drop)]
pub struct StoredPerson {
    pub number: usize,
    pub key: Option<Key>,
}

/// The person of a name, if there is one. The empty secret is no key, and any other that no person has is a failure of the store.
pub fn stored_person<S: Alter>(
    alloc: Global,
    conn: &mut Connection<S>,
    name: &Name,
) -> Result<Option<StoredPerson>, StoreFault>
    requires { conn.old.in_transaction ≡ false }
    ensures idle { conn.new.in_transaction ≡ false }
    ensures found { IfOk result (λ person. OfState (state S.Store conn.old) (state S.Store conn.new)
        (λ s. IsPersonFound s.world name.now person)) }
    ensures excused { result ≡ Err StoreFault.Store
        → FailsOfState (state S.Store conn.old) (state S.Store conn.new) }
    ensures faults { KeepsFaults (state S.Store conn.old) (state S.Store conn.new) }
    ensures same { IsAsBefore (state S.Store conn.old) (state S.Store conn.new) }
{
    let Some(row) = person_row_named(conn, name.as_str())? else {
        return Ok(None);
    };
    match read_secret(alloc, &row.secret) {
        Ok(key) => Ok(Some(StoredPerson {
            number: row.id as usize,
            key,
        })),
        Err(fault) => Err(fault_of(fault)),
    }
}

/// How many people there are. They are numbered from 1, so that their number is found by halves.
pub fn count_people<S: Alter>(conn: &mut Connection<S>) -> Result<usize, StoreFault>
    requires { conn.old.in_transaction ≡ false }
    ensures idle { conn.new.in_transaction ≡ false }
    ensures found { IfOk result (λ count. OfState (state S.Store conn.old) (state S.Store conn.new)
        (λ s. count ≡ length s.world.people)) }
    ensures excused { result ≡ Err StoreFault.Store
        → FailsByFault (state S.Store conn.old) (state S.Store conn.new)
        (λ content. Stands content (state S.Store conn.old)) }
    ensures faults { KeepsFaults (state S.Store conn.old) (state S.Store conn.new) }
    ensures same { IsAsBefore (state S.Store conn.old) (state S.Store conn.new) }
{
    let mut low = 0;
    let mut above = ABOVE_MOST;
    while low + 1 < above {
        let middle = middle_of(low, above);
        if has_person_at(conn, middle)? {
            low = middle;
        } else {
            above = middle;
        }
    }
    Ok(low as usize)
}
