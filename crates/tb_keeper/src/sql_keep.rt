ghost use Rattle.std.specs.Prelude.{◌≡◌, ◌||◌, ℕ, None, Some, IfOk, IfSome, IsErrOf, IsSome, OnOk, false, if◌then◌else◌, nat_eq, true};
ghost use Rattle.std.specs.FinMap.{get};
ghost use Rattle.std.specs.Map.{lookup};
ghost use Rattle.std.specs.Option.{option_map};
ghost use Rattle.sqlite.specs.Held.{state};
ghost use Rattle.sqlite.specs.State.{HasCleanDisk};
ghost use Rattle.tb_board.specs.World.{find_board, key_of};
ghost use Rattle.tb_calls.specs.Call.{State};
ghost use Rattle.tb_calls.specs.Keep.{HoldsEither, IsStill, MayCommit, is_store, with_reply};
ghost use Rattle.tb_core.specs.Apply.{board_of, seen_of};
ghost use Rattle.tb_lookup.specs.Stored.{IsStored, IsStoredAsEither, MayLeave};
ghost use Rattle.tb_keeper.specs.Failing.{FailsOf};
ghost use Rattle.tb_keeper.specs.Ending.{ended};
ghost use Rattle.tb_keeper.specs.Holds.{Holds};
ghost use Rattle.tb_keeper.specs.Looking.{IsSeenAtHand};
ghost use Rattle.tb_keeper.specs.Using.{IsUsedToCommit};

use crate::histories::find_history;
use crate::looking::{find_key, find_reply, look_up};
use crate::members::{find_boards, find_people};
use crate::people_at_hand::People;
use crate::written_bytes::with_more;
use sqlite::{Alter, Connection};
use std::alloc::Global;
use tb_board::{Board, Change, Key, Name};
use tb_cache::BoardCache;
use tb_calls::{BoardRole, Call, Keep, KeepFault, KeptReply, PersonRole, Reply, Written};
use tb_core::{Command, Seen};
use tb_deeds::Deed;
use tb_history::{HistoryPage, Which};
use tb_sql::opening::Version;
use tb_sql::store::StoreFault;
use tb_task::TaskId;
use tb_values::Items;

/// Keeps a world and the replies given in one SQLite file. It has at hand how many people and boards there are, the person that was
/// found last, and the boards that were used last; all else it looks up at each call.
#[derive(Drop)]
pub struct SqlKeep<S: Alter> {
    pub(crate) conn: Connection<S>,
    pub(crate) people: People,
    pub(crate) boards: usize,
    pub(crate) cache: BoardCache,
    pub(crate) failed: bool,
    pub(crate) found: Version,
    pub(crate) written: Written,
}

impl<S: Alter> SqlKeep<S> {
    /// The connection, with what is stored. It closes no file.
    pub fn close(self) -> Connection<S>
        ensures conn { result ≡ self.conn }
        ensures stored { (s : State)
            → Holds self.failed self.people self.boards self.cache.entries
            (state S.Store self.conn) s → self.failed ≡ false
            → HasCleanDisk (state S.Store result) → IsStored s (state S.Store result) }
        ensures failed { (s : State)
            → Holds self.failed self.people self.boards self.cache.entries
            (state S.Store self.conn) s → self.failed ≡ true
            → HasCleanDisk (state S.Store result)
            → (t : State) × IsStoredAsEither s t (state S.Store result) }
    {
        let SqlKeep { conn, .. } = self;
        conn
    }

    /// The board of this number, if it is at hand. This is no use of it, and nothing is looked up.
    pub fn cached(&self, board: u32) -> Option<&Board>
        ensures told { option_map (λ found. found.now) result
            ≡ (if self.now.failed then None else lookup (nat_eq board) self.now.cache.entries) }
        ensures of { HasCleanDisk (state S.Store self.now.conn) → (s : State)
            → Holds self.now.failed self.now.people self.now.boards self.now.cache.entries
            (state S.Store self.now.conn) s
            → IfSome result (λ found. find_board s.world board ≡ Some found.now) }
    {
        if self.failed {
            return None;
        }
        self.cache.cached(board)
    }

    /// Tells how a look or a write ended. Where the store failed, the keeper has failed from then on.
    pub(crate) fn settle<T>(&mut self, end: Result<T, StoreFault>) -> Result<T, KeepFault>
        ensures told { result ≡ ended end }
        ensures left { self.new ≡ record self.old { failed = self.old.failed || is_store result } }
    {
        match end {
            Ok(found) => Ok(found),
            Err(StoreFault::Memory) => Err(KeepFault::Memory),
            Err(StoreFault::Store) => {
                self.failed = true;
                Err(KeepFault::Store)
            }
        }
    }
}

impl<S: Alter> Keep for SqlKeep<S> {
    ghost use Rattle.sqlite.specs.Held.{state};
    ghost use Rattle.tb_keeper.specs.Holds.{Holds};
    ghost use Rattle.tb_keeper.specs.Laws.{alone as held_alone, given as held_given, good as held_good, leaves as honest_leaves};
    ghost use Rattle.tb_lookup.specs.Stored.{MayLeave};

    ghost holds = { λ k s. Holds k.failed k.people k.boards k.cache.entries
        (state S.Store k.conn) s };

    ghost after_stop = { λ k t. MayLeave (state S.Store k.conn) t };

    ghost has_failed = { λ k. k.failed };

    ghost is_honest = { λ k. (state S.Store k.conn).is_clean };

    ghost given = { λ k s good held. held_given _ _ _ _ _ s good held };

    ghost leaves = { λ k t left. honest_leaves _ t left };

    ghost alone = { λ k s held fine t left. held_alone _ _ _ _ _ s t held fine left };

    ghost good = { λ k s held. held_good _ _ _ _ _ s held };

    fn failures(&self) -> u64 {
        if self.failed { 1 } else { 0 }
    }

    fn person(&mut self, alloc: Global, name: &Name) -> Result<Option<Key>, KeepFault> {
        if self.failed {
            return Err(KeepFault::Store);
        }
        let end = find_key(alloc, &mut self.conn, &mut self.people, name);
        self.settle(end)
    }

    fn kept(
        &mut self,
        alloc: Global,
        name: &Name,
        id: TaskId,
    ) -> Result<Option<KeptReply>, KeepFault>
        ensures answer { (state S.Store self.new.conn).is_clean ≡ true → (s : State)
            → Holds self.old.failed self.old.people self.old.boards self.old.cache.entries
            (state S.Store self.old.conn) s
            → IfOk result (λ kept. kept ≡ get s.kept (name.now, id)) }
        ensures excused { IsErrOf result KeepFault.Store → self.old.failed ≡ false
            → FailsOf (state S.Store self.old.conn) (state S.Store self.new.conn)
            (λ s. Holds self.old.failed self.old.people self.old.boards self.old.cache.entries
            (state S.Store self.old.conn) s) }
        ensures same { IsStill
            (λ s. Holds self.old.failed self.old.people self.old.boards self.old.cache.entries
            (state S.Store self.old.conn) s)
            (λ t. MayLeave (state S.Store self.old.conn) t)
            (λ s. Holds self.new.failed self.new.people self.new.boards self.new.cache.entries
            (state S.Store self.new.conn) s)
            (λ t. MayLeave (state S.Store self.new.conn) t) }
        ensures failed { self.new.failed ≡ is_store result }
        ensures honest { (state S.Store self.new.conn).is_clean ≡ true
            → (state S.Store self.old.conn).is_clean ≡ true }
        ensures closed { self.old.failed ≡ true → IsErrOf result KeepFault.Store }
    {
        if self.failed {
            return Err(KeepFault::Store);
        }
        let end = find_reply(alloc, &mut self.conn, &mut self.people, name, id);
        self.settle(end)
    }

    /// A board that is seen is at hand from then on.
    fn look(&mut self, alloc: Global, name: &Name, command: &Command) -> Result<Seen, KeepFault>
        ensures answer { (state S.Store self.new.conn).is_clean ≡ true → (s : State)
            → Holds self.old.failed self.old.people self.old.boards self.old.cache.entries
            (state S.Store self.old.conn) s
            → IsSome (key_of s.world name.now)
            → IfOk result (λ seen. seen ≡ seen_of s.world name.now command.now) }
        ensures excused { IsErrOf result KeepFault.Store → self.old.failed ≡ false
            → FailsOf (state S.Store self.old.conn) (state S.Store self.new.conn)
            (λ s. Holds self.old.failed self.old.people self.old.boards self.old.cache.entries
            (state S.Store self.old.conn) s) }
        ensures at_hand { IfOk result
            (λ seen. (n : ℕ) → board_of command.now ≡ Some n
            → IsSeenAtHand self.new.cache.entries n seen.board) }
        ensures same { IsStill
            (λ s. Holds self.old.failed self.old.people self.old.boards self.old.cache.entries
            (state S.Store self.old.conn) s)
            (λ t. MayLeave (state S.Store self.old.conn) t)
            (λ s. Holds self.new.failed self.new.people self.new.boards self.new.cache.entries
            (state S.Store self.new.conn) s)
            (λ t. MayLeave (state S.Store self.new.conn) t) }
        ensures failed { self.new.failed ≡ is_store result }
        ensures honest { (state S.Store self.new.conn).is_clean ≡ true
            → (state S.Store self.old.conn).is_clean ≡ true }
        ensures closed { self.old.failed ≡ true → IsErrOf result KeepFault.Store }
    {
        if self.failed {
            return Err(KeepFault::Store);
        }
        match look_up(
            alloc,
            &mut self.conn,
            &mut self.cache,
            &mut self.people,
            name,
            command,
        ) {
            Ok(glance) => Ok(glance.seen(self.people.count, self.boards)),
            Err(StoreFault::Memory) => Err(KeepFault::Memory),
            Err(StoreFault::Store) => {
                self.failed = true;
                Err(KeepFault::Store)
            }
        }
    }

    fn boards_of(&mut self, alloc: Global, name: &Name) -> Result<Items<BoardRole>, KeepFault> {
        if self.failed {
            return Err(KeepFault::Store);
        }
        let end = find_boards(alloc, &mut self.conn, name);
        self.settle(end)
    }

    fn people_for(
        &mut self,
        alloc: Global,
        name: &Name,
        board: u32,
    ) -> Result<Option<Items<PersonRole>>, KeepFault> {
        if self.failed {
            return Err(KeepFault::Store);
        }
        let end = find_people(alloc, &mut self.conn, name, board);
        self.settle(end)
    }

    fn history(
        &mut self,
        alloc: Global,
        board: &Board,
        which: Which,
    ) -> Result<HistoryPage, KeepFault> {
        if self.failed {
            return Err(KeepFault::Store);
        }
        let end = find_history(alloc, &mut self.conn, board, which);
        self.settle(end)
    }

    fn written(&self) -> Written {
        self.written
    }

    /// The board that the changes touch is at hand from then on, where there is memory for it.
    fn commit(
        &mut self,
        alloc: Global,
        changes: &[Change],
        deed: Option<Deed>,
        call: &Call,
        reply: &Reply,
    ) -> Result<(), KeepFault>
        ensures ok { (s : State)
            → Holds self.old.failed self.old.people self.old.boards self.old.cache.entries
            (state S.Store self.old.conn) s
            → MayCommit s changes.now deed call.now
            → OnOk result
            (Holds self.new.failed self.new.people self.new.boards self.new.cache.entries
            (state S.Store self.new.conn)
            (with_reply s changes.now deed call.now reply.now)) }
        ensures memory { (s : State)
            → Holds self.old.failed self.old.people self.old.boards self.old.cache.entries
            (state S.Store self.old.conn) s
            → MayCommit s changes.now deed call.now → IsErrOf result KeepFault.Memory
            → Holds self.new.failed self.new.people self.new.boards self.new.cache.entries
            (state S.Store self.new.conn) s }
        ensures store { (s : State)
            → Holds self.old.failed self.old.people self.old.boards self.old.cache.entries
            (state S.Store self.old.conn) s
            → MayCommit s changes.now deed call.now → self.old.failed ≡ false
            → HoldsEither s (with_reply s changes.now deed call.now reply.now)
            (λ t. Holds self.new.failed self.new.people self.new.boards self.new.cache.entries
            (state S.Store self.new.conn) t)
            (λ t. MayLeave (state S.Store self.new.conn) t) }
        ensures stays { (s : State)
            → Holds self.old.failed self.old.people self.old.boards self.old.cache.entries
            (state S.Store self.old.conn) s
            → MayCommit s changes.now deed call.now → self.old.failed ≡ true
            → IsStill
            (λ s. Holds self.old.failed self.old.people self.old.boards self.old.cache.entries
            (state S.Store self.old.conn) s)
            (λ t. MayLeave (state S.Store self.old.conn) t)
            (λ s. Holds self.new.failed self.new.people self.new.boards self.new.cache.entries
            (state S.Store self.new.conn) s)
            (λ t. MayLeave (state S.Store self.new.conn) t) }
        ensures used { IsUsedToCommit self.old.cache changes.now result self.new.cache.entries }
        ensures failed { self.new.failed ≡ is_store result }
        ensures honest { (state S.Store self.new.conn).is_clean ≡ true
            → (state S.Store self.old.conn).is_clean ≡ true }
        ensures closed { self.old.failed ≡ true → IsErrOf result KeepFault.Store }
    {
        if self.failed {
            return Err(KeepFault::Store);
        }
        match self.write_call(alloc, changes, deed, call, reply) {
            Ok(more) => {
                self.written = with_more(self.written, more);
                self.follow(alloc, changes);
                Ok(())
            }
            Err(StoreFault::Memory) => Err(KeepFault::Memory),
            Err(StoreFault::Store) => {
                self.failed = true; // A stop may leave what was before or what was written.
                Err(KeepFault::Store)
            }
        }
    }
}
