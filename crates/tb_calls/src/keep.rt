ghost use Rattle.std.specs.Prelude.{◌≡◌, Bool, true, false, if◌then◌else◌, IfOk, OnOk, IsErrOf, IsSome};
ghost use Rattle.std.specs.FinMap.{get};
ghost use Rattle.tb_core.specs.Apply.{seen_of};
ghost use Rattle.tb_core.specs.GoodWorld.{IsGoodWorld};
ghost use Rattle.tb_board.specs.World.{key_of};
ghost use Rattle.tb_calls.specs.declared.fault.KeepFault.TheVariants.{Memory, Store};
ghost use Rattle.tb_calls.specs.Call.{State};
ghost use Rattle.tb_calls.specs.History.{history_seen};
ghost use Rattle.tb_calls.specs.Keep.{HoldsEither, IsStill, MayCommit, is_store, with_reply};
ghost use Rattle.tb_calls.specs.Leaving.{Only};
ghost use Rattle.tb_calls.specs.Roles.{boards_of, people_for};

use crate::call::{Call, KeptReply};
use crate::fault::KeepFault;
use crate::reply::Reply;
use crate::role_bodies::{BoardRole, PersonRole};
use std::alloc::Global;
use tb_board::{Board, Change, Key, Name};
use tb_core::{Command, Seen};
use tb_deeds::Deed;
use tb_history::{HistoryPage, Which};
use tb_task::TaskId;
use tb_values::Items;

/// How many bytes calls have written since a keeper was made.
#[derive(Clone, Copy, Debug, PartialEq, Eq)]
pub struct Written {
    /// The calls themselves: their contents, their replies, and the tasks that they name.
    pub own: u64,
    /// Instances that came by sweeps.
    pub swept: u64,
}

/// Keeps people, boards and roles, the replies given, and each board's history. A keeper is sound where it holds a state, and its content is the state that
/// it holds: what is promised is promised for each state that it holds. A keeper may look in a store at each call: what it answers is
/// true where the store has given back, to the end of the call, what was put into it.
pub trait Keep {
    /// What is stored stands for this state.
    ghost holds: { Self → State → Type 0 };

    /// A stop now may leave this state.
    ghost after_stop: { Self → State → Type 0 };

    /// The store has failed.
    ghost has_failed: { Self → Bool };

    /// So far the store has given back what was put into it, wherever one looked.
    ghost is_honest: { Self → Bool };

    /// 0, and 1 from the first failure of the store on.
    fn failures(&self) -> u64
        ensures { result ≡ (if has_failed self.now then 1 else 0) };

    /// The key of the person of that name, who may have none.
    fn person(&mut self, alloc: Global, name: &Name) -> Result<Option<Key>, KeepFault>
        ensures answer { is_honest self.new ≡ true → (s : State) → holds self.old s
            → IfOk result (λ key. key ≡ key_of s.world name.now) }
        ensures same { IsStill (holds self.old) (after_stop self.old) (holds self.new)
            (after_stop self.new) }
        ensures failed { has_failed self.new ≡ is_store result }
        ensures honest { is_honest self.new ≡ true → is_honest self.old ≡ true }
        ensures closed { has_failed self.old ≡ true → IsErrOf result Store };

    /// What is kept under the name of a call.
    fn kept(
        &mut self,
        alloc: Global,
        name: &Name,
        id: TaskId,
    ) -> Result<Option<KeptReply>, KeepFault>
        ensures answer { is_honest self.new ≡ true → (s : State) → holds self.old s
            → IfOk result (λ kept. kept ≡ get s.kept (name.now, id)) }
        ensures same { IsStill (holds self.old) (after_stop self.old) (holds self.new)
            (after_stop self.new) }
        ensures failed { has_failed self.new ≡ is_store result }
        ensures honest { is_honest self.new ≡ true → is_honest self.old ≡ true }
        ensures closed { has_failed self.old ≡ true → IsErrOf result Store };

    /// What the command of a person who is known looks at.
    fn look(&mut self, alloc: Global, name: &Name, command: &Command) -> Result<Seen, KeepFault>
        ensures answer { is_honest self.new ≡ true → (s : State) → holds self.old s
            → IsSome (key_of s.world name.now)
            → IfOk result (λ seen. seen ≡ seen_of s.world name.now command.now) }
        ensures same { IsStill (holds self.old) (after_stop self.old) (holds self.new)
            (after_stop self.new) }
        ensures failed { has_failed self.new ≡ is_store result }
        ensures honest { is_honest self.new ≡ true → is_honest self.old ≡ true }
        ensures closed { has_failed self.old ≡ true → IsErrOf result Store };

    /// The boards on which the person of that name has a role, by number.
    fn boards_of(&mut self, alloc: Global, name: &Name) -> Result<Items<BoardRole>, KeepFault>
        ensures answer { is_honest self.new ≡ true → (s : State) → holds self.old s
            → IfOk result (λ boards. boards ≡ boards_of s.world name.now) }
        ensures same { IsStill (holds self.old) (after_stop self.old) (holds self.new)
            (after_stop self.new) }
        ensures failed { has_failed self.new ≡ is_store result }
        ensures honest { is_honest self.new ≡ true → is_honest self.old ≡ true }
        ensures closed { has_failed self.old ≡ true → IsErrOf result Store };

    /// Those who have a role on a board, in the order in which they came. None where the person of that name has none there.
    fn people_for(
        &mut self,
        alloc: Global,
        name: &Name,
        board: u32,
    ) -> Result<Option<Items<PersonRole>>, KeepFault>
        ensures answer { is_honest self.new ≡ true → (s : State) → holds self.old s
            → IfOk result (λ people. people ≡ people_for s.world name.now board) }
        ensures same { IsStill (holds self.old) (after_stop self.old) (holds self.new)
            (after_stop self.new) }
        ensures failed { has_failed self.new ≡ is_store result }
        ensures honest { is_honest self.new ≡ true → is_honest self.old ≡ true }
        ensures closed { has_failed self.old ≡ true → IsErrOf result Store };

    /// A page of a board's history. Its entries name the tasks that the board has at their places.
    fn history(
        &mut self,
        alloc: Global,
        board: &Board,
        which: Which,
    ) -> Result<HistoryPage, KeepFault>
        ensures answer { is_honest self.new ≡ true → (s : State) → holds self.old s
            → IfOk result (λ page. page ≡ history_seen s board.now which) }
        ensures same { IsStill (holds self.old) (after_stop self.old) (holds self.new)
            (after_stop self.new) }
        ensures failed { has_failed self.new ≡ is_store result }
        ensures honest { is_honest self.new ≡ true → is_honest self.old ≡ true }
        ensures closed { has_failed self.old ≡ true → IsErrOf result Store };

    /// How many bytes calls have written so far. Nothing is promised of it: by it, who writes much is made to wait.
    fn written(&self) -> Written;

    /// Makes the changes of a call, keeps its reply and notes its deed, if it has one, all at once. A refusal has no changes and no deed.
    fn commit(
        &mut self,
        alloc: Global,
        changes: &[Change],
        deed: Option<Deed>,
        call: &Call,
        reply: &Reply,
    ) -> Result<(), KeepFault>
        ensures ok { (s : State) → holds self.old s → MayCommit s changes.now deed call.now
            → OnOk result (holds self.new (with_reply s changes.now deed call.now reply.now)) }
        ensures memory { (s : State) → holds self.old s → MayCommit s changes.now deed call.now
            → IsErrOf result Memory → holds self.new s }
        ensures store { (s : State) → holds self.old s → MayCommit s changes.now deed call.now
            → has_failed self.old ≡ false
            → HoldsEither s (with_reply s changes.now deed call.now reply.now) (holds self.new)
            (after_stop self.new) }
        ensures stays { (s : State) → holds self.old s → MayCommit s changes.now deed call.now
            → has_failed self.old ≡ true
            → IsStill (holds self.old) (after_stop self.old) (holds self.new)
            (after_stop self.new) }
        ensures failed { has_failed self.new ≡ is_store result }
        ensures honest { is_honest self.new ≡ true → is_honest self.old ≡ true }
        ensures closed { has_failed self.old ≡ true → IsErrOf result Store };

    /// What an honest store alone would hold is held.
    ghost given: { (k : Self) (s : State) → IsGoodWorld s.world → (is_honest k ≡ true → holds k s)
        → holds k s };

    /// A stop leaves something that can be said of an honest store alone.
    ghost leaves: { (k : Self) (s : State) → after_stop k s → is_honest k ≡ true };

    /// Until the store fails, a stop leaves what is held.
    ghost alone: { (k : Self) (s : State) → holds k s → has_failed k ≡ false
        → Only s (after_stop k) };

    /// The world of a state that is held is good.
    ghost good: { (k : Self) (s : State) → holds k s → IsGoodWorld s.world };
}
