ghost use Rattle.std.specs.Prelude.{◌≡◌, ◌≢◌, ◌≤◌, ℕ, [], IfOk, OnErr, OnOk, Some, length, nat_eq};
ghost use Rattle.std.specs.Map.{lookup};
ghost use Rattle.std.specs.Option.{option_map};
ghost use Rattle.lru.specs.LruCache.{lru_cache, promoted, put_entries};
ghost use Rattle.tb_board.specs.Changing.{changed, changed_by};
ghost use Rattle.tb_board.specs.World.{find_board};
ghost use Rattle.tb_board.specs.declared.world.World.{World as WorldValue};
ghost use Rattle.tb_cache.specs.BoardCache.{AreOf};
ghost use Rattle.tb_cache.specs.Following.{TouchesNone, followed, followed_by, touched as touched_by};

use crate::following::{follow, settled, touched};
use lru::LruCache;
use std::alloc::{AllocError, Global};
use std::marker::Model;
use std::num::NonZeroUsize;
use tb_board::{Board, Change};
use tb_values::Shared;

/// How many boards are at hand at most.
pub const MOST_BOARDS_AT_HAND: usize = 16;

/// The boards that were used last. A contract sees them with their numbers, the last used first.
#[derive(Drop)]
pub struct BoardCache {
    boards: LruCache<u32, Shared<Board>>,
}

impl Model for BoardCache {
    ghost use Rattle.std.specs.Prelude.{ℕ, ◌≡◌};
    ghost use Rattle.lru.specs.LruCache.{LruCache as Entries};
    ghost use Rattle.tb_board.specs.declared.board.Board.{Board as BoardValue};

    ghost Value = { Entries ℕ BoardValue };

    ghost view = { λ c. c.boards };

    ghost invariant = { λ c. c.boards.cap ≡ 16 };
}

impl BoardCache {
    /// No board is at hand yet.
    pub fn new(alloc: Global) -> Result<BoardCache, AllocError>
        ensures { IfOk result (λ c. c.entries ≡ []) }
    {
        let Some(size) = NonZeroUsize::new(MOST_BOARDS_AT_HAND) else {
            return Err(AllocError);
        };
        Ok(BoardCache {
            boards: LruCache::new(alloc, size)?,
        })
    }

    /// How many boards are at hand.
    pub fn len(&self) -> usize
        ensures len { result ≡ length self.now.entries }
        ensures few { result ≤ 16 }
    {
        self.boards.len()
    }

    /// The board of this number, if it is at hand. This is no use of it.
    pub fn cached(&self, number: u32) -> Option<&Board>
        ensures { option_map (λ b. b.now) result ≡ lookup (nat_eq number) self.now.entries }
    {
        match self.boards.peek(&number) {
            Some(board) => Some(board.get()),
            None => None,
        }
    }

    /// One owner more of the board of this number, if it is at hand. It is the last used one now.
    pub fn look(&mut self, number: u32) -> Result<Option<Shared<Board>>, AllocError>
        ensures found { IfOk result (λ found. found ≡ lookup (nat_eq number) self.old.entries) }
        ensures there { IfOk result (λ found. found ≡ lookup (nat_eq number) self.new.entries) }
        ensures used { OnOk result (self.new.entries ≡ promoted (nat_eq number) self.old.entries) }
        ensures same { OnErr result (self.new ≡ self.old) }
        ensures of { (w : WorldValue) → AreOf w self.old.entries → AreOf w self.new.entries }
    {
        let found = self.shared(number)?;
        let _there = self.boards.promote(&number);
        Ok(found)
    }

    fn shared(&self, number: u32) -> Result<Option<Shared<Board>>, AllocError>
        ensures { IfOk result (λ found. found ≡ lookup (nat_eq number) self.now.entries) }
    {
        match self.boards.peek(&number) {
            Some(board) => Ok(Some(board.share()?)),
            None => Ok(None),
        }
    }

    /// Puts a board at hand, as the last used one. Where it is one too many, the one that was used longest ago goes.
    pub fn put(&mut self, board: Shared<Board>) -> Result<(), AllocError>
        ensures put { OnOk result
            (self.new.entries ≡ put_entries nat_eq self.old board.number board) }
        ensures there { OnOk result (lookup (nat_eq board.number) self.new.entries ≡ Some board) }
        ensures same { OnErr result (self.new ≡ self.old) }
        ensures of { (w : WorldValue) → AreOf w self.old.entries
            → find_board w board.number ≡ Some board → AreOf w self.new.entries }
    {
        let number = board.get().number;
        self.put_under(number, board)
    }

    fn put_under(&mut self, number: u32, board: Shared<Board>) -> Result<(), AllocError>
        ensures put { OnOk result
            (self.new ≡ lru_cache (put_entries nat_eq self.old number board) self.old.cap) }
        ensures same { OnErr result (self.new ≡ self.old) }
    {
        match self.boards.put(number, board) {
            Ok(_) => Ok(()),
            Err(_) => Err(AllocError),
        }
    }

    /// Makes changes of the world on the boards that are at hand, each of which is then the last used one. Where there is no memory
    /// for one of them it goes, the others follow all the same, and the answer says so.
    pub fn follow(&mut self, alloc: Global, changes: &[Change]) -> Result<(), AllocError>
        ensures all { OnOk result (self.new.entries ≡ followed self.old.entries changes.now) }
        ensures others { (n : ℕ) → TouchesNone n changes.now
            → lookup (nat_eq n) self.new.entries ≡ lookup (nat_eq n) self.old.entries }
        ensures of { (w : WorldValue) → AreOf w self.old.entries
            → AreOf (changed w changes.now) self.new.entries }
    {
        let is_single = changes.len() == 1;
        let mut ended = Ok(());
        for change in changes {
            ended = ended.and(self.follow_one(alloc, change, is_single));
        }
        ended
    }

    /// The board that the change touches is taken out and put back. Behind many changes its index isn't tightened: the next single one does it.
    fn follow_one(
        &mut self,
        alloc: Global,
        change: &Change,
        is_single: bool,
    ) -> Result<(), AllocError>
        ensures all { OnOk result (self.new.entries ≡ followed_by self.old.entries change.now) }
        ensures others { (n : ℕ) → touched_by change.now ≢ Some n
            → lookup (nat_eq n) self.new.entries ≡ lookup (nat_eq n) self.old.entries }
        ensures of { (w : WorldValue) → AreOf w self.old.entries
            → AreOf (changed_by w change.now) self.new.entries }
    {
        let Some(number) = touched(change) else {
            return Ok(());
        };
        let _apart = self.boards.len();
        let Some(board) = self.boards.pop(&number) else {
            return Ok(());
        };
        let later = follow(alloc, board, change)?;
        let later = Shared::new(alloc, settled(later, is_single))?;
        self.put_under(number, later)
    }
}
