//! The boards at hand, and what follows changes there.

ghost use Rattle.std.specs.Prelude.{◌≡◌, ◌+◌, ◌≤◌, ℕ, Err, None, Ok, Some, IfOk, IfSome, IsSome, OnErr, OnOk, false, nat_eq};
ghost use Rattle.std.specs.List.{count_by};
ghost use Rattle.std.specs.Map.{lookup};
ghost use Rattle.sqlite.specs.Held.{state};
ghost use Rattle.tb_board.specs.Changing.{changed};
ghost use Rattle.tb_board.specs.World.{find_board};
ghost use Rattle.tb_board.specs.declared.world.World.{World};
ghost use Rattle.tb_cache.specs.BoardCache.{AreOf};
ghost use Rattle.tb_cache.specs.Following.{TouchesNone};
ghost use Rattle.tb_core.specs.GoodWorld.{IsGoodWorld};
ghost use Rattle.tb_sql.specs.Opening.{IsAsBefore};
ghost use Rattle.tb_sql_tables.specs.Failing.{KeepsFaults};
ghost use Rattle.tb_lookup.specs.Reopening.{FailsOfState, OfState};
ghost use Rattle.tb_keeper.specs.Counts.{is_new_board, is_new_person, one_if};
ghost use Rattle.tb_keeper.specs.Holds.{IsAtHand};
ghost use Rattle.tb_keeper.specs.Using.{found_in, put_by, used_at};
ghost use Rattle.tb_task.specs.Limits.{most_boards, most_people};

use crate::sql_keep::SqlKeep;
use sqlite::{Alter, Connection};
use std::alloc::{AllocError, Global};
use tb_board::{Board, Change};
use tb_cache::BoardCache;
use tb_lookup::boards::stored_board;
use tb_sql::store::StoreFault;
use tb_values::Shared;

/// The board of a number, if there is one: the one at hand, or else the one that is stored, which is at hand from then on. For one at
/// hand no table is read.
pub(crate) fn board_at<S: Alter>(
    alloc: Global,
    conn: &mut Connection<S>,
    cache: &mut BoardCache,
    number: u32,
) -> Result<Option<Shared<Board>>, StoreFault>
    requires { conn.old.in_transaction ≡ false }
    ensures idle { conn.new.in_transaction ≡ false }
    ensures found { IfOk result (λ board. OfState (state S.Store conn.old) (state S.Store conn.new)
        (λ s. AreOf s.world cache.old.entries → board ≡ find_board s.world number)) }
    ensures at_hand { IfOk result (λ board. board ≡ lookup (nat_eq number) cache.new.entries) }
    ensures used { cache.new.entries ≡ used_at cache.old number (found_in result) }
    ensures unread { IsSome (lookup (nat_eq number) cache.old.entries) → conn.new ≡ conn.old }
    ensures cached { OfState (state S.Store conn.old) (state S.Store conn.new)
        (λ s. AreOf s.world cache.old.entries → AreOf s.world cache.new.entries) }
    ensures excused { result ≡ Err StoreFault.Store
        → FailsOfState (state S.Store conn.old) (state S.Store conn.new) }
    ensures faults { KeepsFaults (state S.Store conn.old) (state S.Store conn.new) }
    ensures same { IsAsBefore (state S.Store conn.old) (state S.Store conn.new) }
{
    if let Some(board) = cached_board(cache, number)? {
        return Ok(Some(board));
    }
    let found = stored_board(alloc, conn, number)?;
    match put_at_hand(cache, &found) {
        Ok(()) => Ok(found),
        Err(_) => Err(StoreFault::Memory),
    }
}

/// One owner more of the board of a number, if it is at hand. It is the last used one then.
fn cached_board(cache: &mut BoardCache, number: u32) -> Result<Option<Shared<Board>>, StoreFault>
    ensures found { IfOk result (λ found. found ≡ lookup (nat_eq number) cache.old.entries) }
    ensures there { IfOk result (λ found. found ≡ lookup (nat_eq number) cache.new.entries) }
    ensures used { cache.new.entries ≡ used_at cache.old number (found_in result) }
    ensures none { result ≡ Ok None → cache.new ≡ cache.old }
    ensures fault { result ≡ Err StoreFault.Store → ⊥ }
    ensures of { (w : World) → AreOf w cache.old.entries → AreOf w cache.new.entries }
{
    if cache.cached(number).is_none() {
        return Ok(None);
    }
    match cache.look(number) {
        Ok(board) => Ok(board),
        Err(_) => Err(StoreFault::Memory),
    }
}

/// Puts a board at hand, if there is one.
fn put_at_hand(cache: &mut BoardCache, board: &Option<Shared<Board>>) -> Result<(), AllocError>
    ensures there { OnOk result
        (IfSome board.now (λ b. lookup (nat_eq b.number) cache.new.entries ≡ Some b)) }
    ensures put { OnOk result (cache.new.entries ≡ put_by cache.old board.now) }
    ensures same { OnErr result (cache.new.entries ≡ cache.old.entries) }
    ensures of { (w : World) → AreOf w cache.old.entries
        → IfSome board.now (λ b. find_board w b.number ≡ Some b)
        → AreOf w cache.new.entries }
{
    match board {
        Some(board) => cache.put(board.share()?),
        None => Ok(()),
    }
}

impl<S: Alter> SqlKeep<S> {
    /// Lets what is at hand follow changes that were written. A board that they touch goes where there is no memory for it.
    pub(crate) fn follow(&mut self, alloc: Global, changes: &[Change])
        ensures conn { self.new.conn ≡ self.old.conn }
        ensures failed { self.new.failed ≡ self.old.failed }
        ensures hand { (w : World)
            → IsAtHand self.old.people self.old.boards self.old.cache.entries w
            → IsGoodWorld (changed w changes.now)
            → IsAtHand self.new.people self.new.boards self.new.cache.entries
            (changed w changes.now) }
        ensures others { (n : ℕ) → TouchesNone n changes.now
            → lookup (nat_eq n) self.new.cache.entries ≡ lookup (nat_eq n) self.old.cache.entries }
    {
        self.people.follow(changes);
        self.boards = boards_with(self.boards, changes);
        let _whole = self.cache.follow(alloc, changes);
    }
}

/// So many people, and those who come in. A good world has no more than its limit.
pub(crate) fn people_with(people: usize, changes: &[Change]) -> usize
    ensures { people + count_by is_new_person changes.now ≤ most_people
        → result ≡ people + count_by is_new_person changes.now }
{
    let mut count = people;
    for change in changes {
        count = with_one(count, is_new_person(change));
    }
    count
}

/// So many boards, and those that begin. A good world has no more than its limit.
fn boards_with(boards: usize, changes: &[Change]) -> usize
    ensures { boards + count_by is_new_board changes.now ≤ most_boards
        → result ≡ boards + count_by is_new_board changes.now }
{
    let mut count = boards;
    for change in changes {
        count = with_one(count, is_new_board(change));
    }
    count
}

fn with_one(count: usize, more: bool) -> usize
    ensures { count + one_if more ≤ 10000 → result ≡ count + one_if more }
{
    if more { count.saturating_add(1) } else { count }
}

#[tactic(auto, unfolding(crate::specs::Counts::is_new_person))]
fn is_new_person(change: &Change) -> bool
    ensures { result ≡ is_new_person change.now }
{
    matches!(change, Change::AddPerson { .. })
}

#[tactic(auto, unfolding(crate::specs::Counts::is_new_board))]
fn is_new_board(change: &Change) -> bool
    ensures { result ≡ is_new_board change.now }
{
    matches!(change, Change::AddBoard { .. })
}
