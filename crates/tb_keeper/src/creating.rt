ghost use Rattle.std.specs.Prelude.{◌≡◌, [], false, IfErr, IfOk, MatchResult};
ghost use Rattle.sqlite.specs.Held.{state};
ghost use Rattle.tb_sql_tables.specs.Failing.{IsAtRest};
ghost use Rattle.tb_calls.specs.Call.{opening};
ghost use Rattle.tb_sql.specs.Writing.{opening as content_of};
ghost use Rattle.tb_sql_tables.specs.Standing.{StandsEmpty};
ghost use Rattle.tb_sql_tables.specs.Tables.{no_schema};
ghost use Rattle.tb_lookup.specs.Stored.{AreRowsOf};
ghost use Rattle.tb_lookup.specs.Migrating.{IsEmptyOrStored};
ghost use Rattle.tb_keeper.specs.Holds.{Holds};

use crate::people_at_hand::People;
use crate::sql_keep::SqlKeep;
use crate::written_bytes::NO_BYTES;
use sqlite::{Alter, Connection};
use std::alloc::{AllocError, Global};
use tb_board::{Key, Name};
use tb_cache::BoardCache;
use tb_rows::laws::rows_are_apart;
use tb_rows::opening_rows;
use tb_sql::changes::RowChange;
use tb_sql::opening::{Version, is_empty};
use tb_sql::store::{StoreFault, create};
use tb_values::Items;

/// Why no store is made.
#[derive(Clone, Copy, Debug, PartialEq, Eq)]
pub enum CreateFault {
    /// The database has a table, an index or a view. It is as it was.
    NotEmpty,
    /// The database failed. It is as it was, or it is a store that holds the opening world.
    Store,
    /// For want of memory. The database is as it was.
    Memory,
}

impl<S: Alter> SqlKeep<S> {
    /// Makes a store in an empty database, for one person, who owns the one board.
    pub fn create(
        alloc: Global,
        mut conn: Connection<S>,
        name: &Name,
        key: &Key,
    ) -> Result<SqlKeep<S>, (Connection<S>, CreateFault)>
        requires { conn.in_transaction ≡ false }
        ensures created { IfOk result (λ keep. IsAtRest (state S.Store conn)
            → Holds keep.failed keep.people keep.boards keep.cache.entries (state S.Store keep.conn)
            (opening name.now key.now)) }
        ensures fresh { IfOk result (λ keep. keep.failed ≡ false) }
        ensures empty { ((state S.Store conn).now.schema ≡ no_schema → ⊥)
            → MatchResult result (λ keep. ⊥) (λ e. (e.0 ≡ conn) × (e.1 ≡ CreateFault.NotEmpty)) }
        ensures taken { IfErr result
            (λ e. e.1 ≡ CreateFault.NotEmpty
            → (e.0 ≡ conn) × ((state S.Store conn).now.schema ≡ no_schema → ⊥)) }
        ensures memory { IfErr result (λ e. e.1 ≡ CreateFault.Memory → IsAtRest (state S.Store conn)
            → StandsEmpty (state S.Store e.0)) }
        ensures store { IfErr result (λ e. e.1 ≡ CreateFault.Store → IsAtRest (state S.Store conn)
            → IsEmptyOrStored (opening name.now key.now) (state S.Store e.0)) }
        ensures idle { IfErr result (λ e. e.0.in_transaction ≡ false) }
    {
        if !is_empty(&conn) {
            return Err((conn, CreateFault::NotEmpty));
        }
        let Ok(first) = first_state(alloc, name, key) else {
            return Err((conn, CreateFault::Memory));
        };
        match create(&mut conn, first.rows.as_slice()) {
            Ok(()) => Ok(SqlKeep {
                conn,
                people: People {
                    count: 1,
                    known: None,
                },
                boards: 1,
                cache: first.cache,
                failed: false,
                found: Version::Third,
                written: NO_BYTES,
            }),
            Err(StoreFault::Memory) => Err((conn, CreateFault::Memory)),
            Err(StoreFault::Store) => Err((conn, CreateFault::Store)),
        }
    }
}

/// The changes that put the rows of the opening world into empty tables, and a cache with no board at hand.
#[derive(Drop)]
struct First {
    rows: Items<RowChange>,
    cache: BoardCache,
}

fn first_state(alloc: Global, name: &Name, key: &Key) -> Result<First, AllocError>
    ensures rows { IfOk result
        (λ first. AreRowsOf (opening name.now key.now) (content_of first.rows)) }
    ensures cache { IfOk result (λ first. first.cache.entries ≡ []) }
{
    rows_are_apart();
    let rows = opening_rows(alloc, name, key)?;
    let cache = BoardCache::new(alloc)?;
    name.has_form();
    key.has_form();
    Ok(First { rows, cache })
}
