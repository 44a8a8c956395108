ghost use Rattle.std.specs.Prelude.{◌≡◌, ◌≢◌, ◌⊎◌, Err, IfErr, IfOk, MatchResult, Ok, false, true};
ghost use Rattle.sqlite.specs.Held.{state};
ghost use Rattle.sqlite.specs.State.{HasCleanDisk};
ghost use Rattle.tb_calls.specs.Call.{State};
ghost use Rattle.tb_sql.specs.Opening.{has_meta, has_tables, is_old, is_second, HidesNone, IsAnswered, IsAsBefore};
ghost use Rattle.tb_sql_tables.specs.Content.{AreRows, AreVersionRows, Content, Stands};
ghost use Rattle.tb_sql_tables.specs.Failing.{FailsByFault, KeepsFaults, IsAtRest};
ghost use Rattle.tb_lookup.specs.Reopening.{OfState};
ghost use Rattle.tb_lookup.specs.Stored.{AreOldTreesOf, AreTreesOf};
ghost use Rattle.tb_lookup.specs.Migrating.{IsStoredInEither, IsStoredInFirst, IsStoredInSecond, IsStoredOld, IsStoredSecond};
ghost use Rattle.tb_keeper.specs.Holds.{Holds, IsAtHand};
ghost use Rattle.tb_keeper.specs.Versions.{OfFirstState, OfSecondState};

use crate::people_at_hand::People;
use crate::sql_keep::SqlKeep;
use crate::written_bytes::NO_BYTES;
use sqlite::{Alter, Connection};
use std::alloc::Global;
use tb_cache::BoardCache;
use tb_lookup::boards::count_boards;
use tb_lookup::people::count_people;
use tb_sql::migrating::migrate;
use tb_sql::opening::{OpenFault, Version, accept};
use tb_sql::store::StoreFault;
use tb_sql::widening::widen;

impl<S: Alter> SqlKeep<S> {
    /// Takes a database as the store that it is. Of its rows it looks at some of the numbers of people and boards alone. A store of a
    /// version before it makes one of today's, at once and last of all; where that fails as `Store`, either is there, whole.
    pub fn open(
        alloc: Global,
        mut conn: Connection<S>,
    ) -> Result<SqlKeep<S>, (Connection<S>, OpenFault)>
        requires { conn.in_transaction ≡ false }
        ensures fresh { IfOk result (λ keep. keep.failed ≡ false) }
        ensures tables { IfOk result
            (λ keep. has_tables keep.found (state S.Store conn).now.schema ≡ true) }
        ensures version { has_meta (state S.Store conn).now.schema.tables ≡ true
            → IfOk result (λ keep. HasCleanDisk (state S.Store keep.conn)
            → IsAnswered S.Store conn (Ok keep.found)) }
        ensures holds { IfOk result
            (λ keep. keep.found ≡ Version.Third → OfState (state S.Store conn) (state S.Store keep.conn)
            (λ s. Holds keep.failed keep.people keep.boards keep.cache.entries
            (state S.Store keep.conn) s)) }
        ensures opened { IfOk result
            (λ keep. HasCleanDisk (state S.Store keep.conn) → IsAtRest (state S.Store conn)
            → (s : State) → AreTreesOf s (state S.Store conn).now.trees
            → Holds keep.failed keep.people keep.boards keep.cache.entries
            (state S.Store keep.conn) s) }
        ensures migrated { IfOk result
            (λ keep. HasCleanDisk (state S.Store keep.conn) → IsAtRest (state S.Store conn)
            → (s : State) → AreOldTreesOf s (state S.Store conn).now.trees
            → Holds keep.failed keep.people keep.boards keep.cache.entries
            (state S.Store keep.conn) s) }
        ensures same { IfOk result
            (λ keep. keep.found ≡ Version.Third
            → IsAsBefore (state S.Store conn) (state S.Store keep.conn)) }
        ensures refused { IfErr result
            (λ e. (e.1 ≢ OpenFault.Store) ⊎ ((is_old (state S.Store conn).now.schema ≡ false)
            × (is_second (state S.Store conn).now.schema ≡ false))
            → IsAsBefore (state S.Store conn) (state S.Store e.0)) }
        ensures stopped { IfErr result
            (λ e. IsAtRest (state S.Store conn) → (s : State)
            → AreOldTreesOf s (state S.Store conn).now.trees
            → IsStoredInEither s (state S.Store e.0)) }
        ensures foreign { IfErr result
            (λ e. (e.1 ≡ OpenFault.NotOurs) ⊎ (e.1 ≡ OpenFault.WrongVersion)
            → HasCleanDisk (state S.Store e.0) → IsAtRest (state S.Store conn)
            → (content : Content) → AreVersionRows content (state S.Store conn).now.trees → ⊥) }
        ensures unmarked { has_meta (state S.Store conn).now.schema.tables ≡ false
            → MatchResult result (λ keep. ⊥) (λ e. e.1 ≡ OpenFault.NotOurs) }
        ensures shown { IfErr result
            (λ e. (e.1 ≡ OpenFault.NotOurs) ⊎ (e.1 ≡ OpenFault.WrongVersion)
            → HasCleanDisk (state S.Store e.0)
            → has_meta (state S.Store conn).now.schema.tables ≡ true
            → IsAnswered S.Store conn (Err e.1)) }
        ensures excused { IfErr result (λ e. e.1 ≡ OpenFault.Store → IsAtRest (state S.Store conn)
            → FailsByFault (state S.Store conn) (state S.Store e.0)
            (λ content. AreRows content (state S.Store conn).now.trees)) }
        ensures hides { IfErr result (λ e. e.1 ≡ OpenFault.Store
            → HidesNone (state S.Store conn) (state S.Store e.0)) }
        ensures ready { IfOk result (λ keep. keep.conn.in_transaction ≡ false) }
        ensures idle { IfErr result (λ e. e.0.in_transaction ≡ false) }
    {
        let version = match accept(&mut conn) {
            Ok(version) => version,
            Err(fault) => return Err((conn, fault)),
        };
        match version {
            Version::First => match migrated(alloc, &mut conn) {
                Ok(hand) => Ok(hand.into_keep(conn, version)),
                Err(StoreFault::Memory) => Err((conn, OpenFault::Memory)),
                Err(StoreFault::Store) => Err((conn, OpenFault::Store)),
            },
            Version::Second => match widened(alloc, &mut conn) {
                Ok(hand) => Ok(hand.into_keep(conn, version)),
                Err(StoreFault::Memory) => Err((conn, OpenFault::Memory)),
                Err(StoreFault::Store) => Err((conn, OpenFault::Store)),
            },
            Version::Third => match at_hand(alloc, &mut conn) {
                Ok(hand) => Ok(hand.into_keep(conn, version)),
                Err(StoreFault::Memory) => Err((conn, OpenFault::Memory)),
                Err(StoreFault::Store) => Err((conn, OpenFault::Store)),
            },
        }
    }

    /// The version that the store was of before it was opened.
    pub fn found(&self) -> Version
        ensures { result ≡ self.now.found }
    {
        self.found
    }
}

/// What a keeper has at hand at first: how many people and boards there are, but no person and no board.
#[derive(Drop)]
struct AtHand {
    people: People,
    boards: usize,
    cache: BoardCache,
}

impl AtHand {
    /// The keeper that has this at hand, of a store that was of this version.
    fn into_keep<S: Alter>(self, conn: Connection<S>, found: Version) -> SqlKeep<S>
        ensures { result ≡ record {
          conn = conn;
          people = self.people;
          boards = self.boards;
          cache = self.cache;
          failed = false;
          found = found;
          written = record { own = 0; swept = 0 };
        } }
    {
        SqlKeep {
            conn,
            people: self.people,
            boards: self.boards,
            cache: self.cache,
            failed: false,
            found,
            written: NO_BYTES,
        }
    }
}

fn at_hand<S: Alter>(alloc: Global, conn: &mut Connection<S>) -> Result<AtHand, StoreFault>
    requires { conn.old.in_transaction ≡ false }
    ensures idle { conn.new.in_transaction ≡ false }
    ensures held { IfOk result (λ hand. OfState (state S.Store conn.old) (state S.Store conn.new)
        (λ s. IsAtHand hand.people hand.boards hand.cache.entries s.world)) }
    ensures excused { result ≡ Err StoreFault.Store
        → FailsByFault (state S.Store conn.old) (state S.Store conn.new)
        (λ content. Stands content (state S.Store conn.old)) }
    ensures faults { KeepsFaults (state S.Store conn.old) (state S.Store conn.new) }
    ensures same { IsAsBefore (state S.Store conn.old) (state S.Store conn.new) }
{
    let Ok(cache) = BoardCache::new(alloc) else {
        return Err(StoreFault::Memory);
    };
    let people = count_people(conn)?;
    let boards = count_boards(conn)?;
    Ok(AtHand {
        people: People {
            count: people,
            known: None,
        },
        boards,
        cache,
    })
}

/// Makes a store of the first version one of today's. All that is needed of memory is taken before that is done.
fn migrated<S: Alter>(alloc: Global, conn: &mut Connection<S>) -> Result<AtHand, StoreFault>
    requires { conn.old.in_transaction ≡ false }
    ensures idle { conn.new.in_transaction ≡ false }
    ensures clean { HasCleanDisk (state S.Store conn.new) → HasCleanDisk (state S.Store conn.old) }
    ensures held { IfOk result (λ hand. OfFirstState (state S.Store conn.old) (state S.Store conn.new)
        (λ s. Holds false hand.people hand.boards hand.cache.entries (state S.Store conn.new) s)) }
    ensures store { result ≡ Err StoreFault.Store → (s : State)
        → IsStoredOld s (state S.Store conn.old) → IsStoredInFirst s (state S.Store conn.new) }
    ensures memory { result ≡ Err StoreFault.Memory
        → IsAsBefore (state S.Store conn.old) (state S.Store conn.new) }
{
    let Ok(cache) = BoardCache::new(alloc) else {
        return Err(StoreFault::Memory);
    };
    let counts = migrate(alloc, conn)?;
    Ok(AtHand {
        people: People {
            count: counts.people,
            known: None,
        },
        boards: counts.boards,
        cache,
    })
}

/// Makes a store of the second version one of today's. All that is needed of memory is taken before that is done.
fn widened<S: Alter>(alloc: Global, conn: &mut Connection<S>) -> Result<AtHand, StoreFault>
    requires { conn.old.in_transaction ≡ false }
    ensures idle { conn.new.in_transaction ≡ false }
    ensures clean { HasCleanDisk (state S.Store conn.new) → HasCleanDisk (state S.Store conn.old) }
    ensures held { IfOk result (λ hand. OfSecondState (state S.Store conn.old) (state S.Store conn.new)
        (λ s. Holds false hand.people hand.boards hand.cache.entries (state S.Store conn.new) s)) }
    ensures store { result ≡ Err StoreFault.Store → (s : State)
        → IsStoredSecond s (state S.Store conn.old) → IsStoredInSecond s (state S.Store conn.new) }
    ensures memory { result ≡ Err StoreFault.Memory
        → IsAsBefore (state S.Store conn.old) (state S.Store conn.new) }
{
    let Ok(cache) = BoardCache::new(alloc) else {
        return Err(StoreFault::Memory);
    };
    let counts = widen(conn)?;
    Ok(AtHand {
        people: People {
            count: counts.people,
            known: None,
        },
        boards: counts.boards,
        cache,
    })
}
