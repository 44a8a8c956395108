//! What a call writes: changes of rows, the row of its reply, and that of its deed, all at once.

ghost use Rattle.std.specs.Prelude.{◌≡◌, ◌⊎◌, Err, IfOk, OnOk, false};
ghost use Rattle.sqlite.specs.Held.{state};
ghost use Rattle.sqlite.specs.State.{HasCleanDisk};
ghost use Rattle.tb_calls.specs.Keep.{MayCommit, with_reply};
ghost use Rattle.tb_cache.specs.BoardCache.{AreOf};
ghost use Rattle.tb_sql.specs.Opening.{IsAsBefore};
ghost use Rattle.tb_lookup.specs.Reopening.{OfState};
ghost use Rattle.tb_lookup.specs.Stored.{IsStored, IsStoredAsEither};
ghost use Rattle.tb_keeper.specs.Committing.{LeadTo};
ghost use Rattle.tb_keeper.specs.Holds.{IsAtHand};
ghost use Rattle.tb_keeper.specs.PeopleAtHand.{AreStillKnown};
ghost use Rattle.tb_keeper.specs.WrittenBytes.{bytes_of_call};
ghost use Rattle.tb_keeper.specs.declared.writing.CallRows.{CallRows};
ghost use Rattle.tb_keeper.specs.Using.{IsUsed};
ghost use Rattle.tb_rows.specs.Part.{touched_board};

use crate::row_changes::{entry_row_for, hold_to_forms, kept_row_for, rows_for, with_entry};
use crate::sql_keep::SqlKeep;
use crate::written_bytes::bytes_of_call;
use sqlite::Alter;
use std::alloc::Global;
use tb_board::Change;
use tb_calls::{Call, Reply, Written};
use tb_deeds::Deed;
use tb_sql::changes::RowChange;
use tb_sql::store::{StoreFault, write_rows};
use tb_sql_tables::rows::KeptRow;
use tb_values::Items;

/// What is written for a call.
#[derive(Drop)]
pub(crate) struct CallRows {
    pub changes: Items<RowChange>,
    pub kept: KeptRow,
}

impl<S: Alter> SqlKeep<S> {
    /// What a call writes. The board that the changes touch may enter the cache.
    fn call_rows(
        &mut self,
        alloc: Global,
        changes: &[Change],
        deed: Option<Deed>,
        call: &Call,
        reply: &Reply,
    ) -> Result<CallRows, StoreFault>
        requires { self.old.conn.in_transaction ≡ false }
        ensures idle { self.new.conn.in_transaction ≡ false }
        ensures people { AreStillKnown (state S.Store self.old.conn) (state S.Store self.new.conn)
            self.old.people self.new.people }
        ensures boards { self.new.boards ≡ self.old.boards }
        ensures failed { self.new.failed ≡ self.old.failed }
        ensures used { IsUsed self.old.cache (touched_board changes.now) self.new.cache.entries }
        ensures cached { OfState (state S.Store self.old.conn) (state S.Store self.new.conn)
            (λ s. AreOf s.world self.old.cache.entries → AreOf s.world self.new.cache.entries) }
        ensures leads { IfOk result
            (λ rows. OfState (state S.Store self.old.conn) (state S.Store self.new.conn)
            (λ s. IsAtHand self.old.people self.old.boards self.old.cache.entries s.world
            → MayCommit s changes.now deed call.now
            → LeadTo s (with_reply s changes.now deed call.now reply.now) rows)) }
        ensures same { IsAsBefore (state S.Store self.old.conn) (state S.Store self.new.conn) }
    {
        hold_to_forms(changes)?;
        let people = self.people.count;
        let rows = rows_for(alloc, &mut self.conn, &mut self.cache, people, changes)?;
        let kept = kept_row_for(alloc, &mut self.conn, &mut self.people, call, reply)?;
        let entry = entry_row_for(&mut self.conn, deed, call, kept.person)?;
        match with_entry(rows, entry) {
            Ok(changes) => Ok(CallRows { changes, kept }),
            Err(_) => Err(StoreFault::Memory),
        }
    }

    /// Writes what a call changes, its reply and its deed in one transaction, and returns how many bytes that is. The board that the
    /// changes touch may enter the cache; nothing follows the changes yet.
    pub(crate) fn write_call(
        &mut self,
        alloc: Global,
        changes: &[Change],
        deed: Option<Deed>,
        call: &Call,
        reply: &Reply,
    ) -> Result<Written, StoreFault>
        ensures people { AreStillKnown (state S.Store self.old.conn) (state S.Store self.new.conn)
            self.old.people self.new.people }
        ensures boards { self.new.boards ≡ self.old.boards }
        ensures failed { self.new.failed ≡ self.old.failed }
        ensures clean { HasCleanDisk (state S.Store self.new.conn)
            → HasCleanDisk (state S.Store self.old.conn) }
        ensures used { IsUsed self.old.cache (touched_board changes.now) self.new.cache.entries }
        ensures cached { OfState (state S.Store self.old.conn) (state S.Store self.new.conn)
            (λ s. AreOf s.world self.old.cache.entries → AreOf s.world self.new.cache.entries) }
        ensures ok { OnOk result
            (OfState (state S.Store self.old.conn) (state S.Store self.new.conn)
            (λ s. IsAtHand self.old.people self.old.boards self.old.cache.entries s.world
            → MayCommit s changes.now deed call.now
            → IsStored (with_reply s changes.now deed call.now reply.now)
            (state S.Store self.new.conn))) }
        ensures bytes { IfOk result
            (λ written. (rows : CallRows) × (written ≡ bytes_of_call rows deed)
            × OfState (state S.Store self.old.conn) (state S.Store self.new.conn)
            (λ s. IsAtHand self.old.people self.old.boards self.old.cache.entries s.world
            → MayCommit s changes.now deed call.now
            → LeadTo s (with_reply s changes.now deed call.now reply.now) rows)) }
        ensures memory { result ≡ Err StoreFault.Memory
            → OfState (state S.Store self.old.conn) (state S.Store self.new.conn)
            (λ s. IsStored s (state S.Store self.new.conn)) }
        ensures store { result ≡ Err StoreFault.Store
            → OfState (state S.Store self.old.conn) (state S.Store self.new.conn)
            (λ s. IsAtHand self.old.people self.old.boards self.old.cache.entries s.world
            → MayCommit s changes.now deed call.now
            → IsStored s (state S.Store self.new.conn)
            ⊎ IsStoredAsEither s (with_reply s changes.now deed call.now reply.now)
            (state S.Store self.new.conn)) }
    {
        if !self.conn.is_autocommit() {
            return Err(StoreFault::Store); // Never: each call ends its transaction.
        }
        let rows = self.call_rows(alloc, changes, deed, call, reply)?;
        match write_rows(&mut self.conn, rows.changes.as_slice(), &rows.kept) {
            Ok(()) => Ok(bytes_of_call(&rows, deed)),
            Err(fault) => Err(fault),
        }
    }
}
