//! Whether a view is accepted, over any keeper.
ghost use Rattle.std.specs.Prelude.{◌≡◌, ℕ, IfOk, IsErrOf, IsSome, false, find, true};
ghost use Rattle.tb_board.specs.Tasks.{has_id, ids, place_in};
ghost use Rattle.tb_board.specs.World.{has_key, key_of, number_of};
ghost use Rattle.tb_calls.specs.declared.fault.KeepFault.TheVariants.{Store};
ghost use Rattle.tb_calls.specs.Call.{State};
ghost use Rattle.tb_calls.specs.Keep.{IsStill, is_store};
ghost use Rattle.tb_calls.specs.Roles.{role_on};
ghost use Rattle.tb_desk.specs.Admitting.{admission, refusal_in, refusal_without};
ghost use Rattle.tb_desk.specs.Viewing.{one_text, page_about, seen_on, shown_in, view_of};

use crate::desk::Desk;
use crate::viewing::see;
use std::alloc::Global;
use tb_board::{Board, Key, Name};
use tb_calls::{Keep, KeepFault, Reply, View, reply_to_refused};
use tb_core::{Refusal, SeenBoard};
use tb_task::TaskId;

impl<K: Keep> Desk<K> {
    /// What a person with a key is told whose view is refused, and None where it is accepted. That is the same at each moment.
    pub fn admits(
        &mut self,
        alloc: Global,
        name: &Name,
        key: &Key,
        view: &View,
    ) -> Result<Option<Reply>, KeepFault>
        ensures told { K.is_honest self.new ≡ true → (s : State) → K.holds self.old s → (at : ℕ)
            → IfOk result
            (λ refused. refused ≡ admission (shown_in s name.now key.now view.now at)) }
        ensures same { IsStill (K.holds self.old) (K.after_stop self.old) (K.holds self.new)
            (K.after_stop self.new) }
        ensures honest { K.is_honest self.new ≡ true → K.is_honest self.old ≡ true }
        ensures failed { K.has_failed self.new ≡ is_store result }
        ensures closed { K.has_failed self.old ≡ true → IsErrOf result Store }
    {
        if !is_known(&mut self.keep, alloc, name, key)? {
            return Ok(Some(reply_to_refused(alloc, Refusal::UnknownCaller)?));
        }
        match find_refusal(&mut self.keep, alloc, name, view)? {
            Some(refusal) => Ok(Some(reply_to_refused(alloc, refusal)?)),
            None => Ok(None),
        }
    }
}

/// Whether there is a person of that name with that key.
fn is_known<K: Keep>(keep: &mut K, alloc: Global, name: &Name, key: &Key) -> Result<bool, KeepFault>
    ensures told { K.is_honest keep.new ≡ true → (s : State) → K.holds keep.old s
        → IfOk result (λ known. known ≡ has_key (key_of s.world name.now) key.now) }
    ensures same { IsStill (K.holds keep.old) (K.after_stop keep.old) (K.holds keep.new)
        (K.after_stop keep.new) }
    ensures honest { K.is_honest keep.new ≡ true → K.is_honest keep.old ≡ true }
    ensures failed { K.has_failed keep.new ≡ is_store result }
    ensures closed { K.has_failed keep.old ≡ true → IsErrOf result Store }
{
    match keep.person(alloc, name)? {
        Some(known) => Ok(known.as_str() == key.as_str()),
        None => Ok(false),
    }
}

/// Why a view of a person who is known is refused, if it is. Only for one task are the tasks of its board read.
fn find_refusal<K: Keep>(
    keep: &mut K,
    alloc: Global,
    name: &Name,
    view: &View,
) -> Result<Option<Refusal>, KeepFault>
    ensures told { K.is_honest keep.new ≡ true → (s : State) → K.holds keep.old s
        → IsSome (key_of s.world name.now) → (at : ℕ)
        → IfOk result
        (λ refusal. refusal ≡ refusal_in (view_of s name.now view.now at)) }
    ensures same { IsStill (K.holds keep.old) (K.after_stop keep.old) (K.holds keep.new)
        (K.after_stop keep.new) }
    ensures honest { K.is_honest keep.new ≡ true → K.is_honest keep.old ≡ true }
    ensures failed { K.has_failed keep.old ≡ false → K.has_failed keep.new ≡ is_store result }
{
    match view {
        View::Listing(board)
        | View::Export(board)
        | View::Todo(board)
        | View::People(board)
        | View::History(board)
        | View::HistoryFrom(board, _) => refusal_on(keep, alloc, name, *board),
        View::One(board, id) | View::HistoryOf(board, id) => {
            let seen = see(keep, alloc, name, *board)?;
            Ok(refusal_of_one(&seen, *id))
        }
        View::Me => Ok(None),
    }
}

/// A board is shown to those who have a role on it.
fn refusal_on<K: Keep>(
    keep: &mut K,
    alloc: Global,
    name: &Name,
    board: u32,
) -> Result<Option<Refusal>, KeepFault>
    ensures told { K.is_honest keep.new ≡ true → (s : State) → K.holds keep.old s
        → IfOk result (λ refusal. refusal
        ≡ refusal_without (role_on s.world board (number_of s.world name.now))) }
    ensures same { IsStill (K.holds keep.old) (K.after_stop keep.old) (K.holds keep.new)
        (K.after_stop keep.new) }
    ensures honest { K.is_honest keep.new ≡ true → K.is_honest keep.old ≡ true }
    ensures failed { K.has_failed keep.new ≡ is_store result }
{
    match keep.people_for(alloc, name, board)? {
        Some(_) => Ok(None),
        None => Ok(Some(Refusal::NoBoard)),
    }
}

/// Why a view of a task or of its history is refused, if it is.
fn refusal_of_one(seen: &Option<SeenBoard>, id: TaskId) -> Option<Refusal>
    ensures one { (at : ℕ) → result
        ≡ refusal_in (seen_on seen.now (λ b. one_text b (find (has_id id) b.tasks) at)) }
    ensures history { (s : State) → result
        ≡ refusal_in (seen_on seen.now (λ b. page_about s b (place_in (ids b.tasks) id))) }
{
    match seen {
        Some(seen) => refusal_of_task(seen.board.get(), id),
        None => Some(Refusal::NoBoard),
    }
}

#[tactic(auto, using(crate::proofs::Admitted::task_there, crate::proofs::Admitted::task_missing, crate::proofs::Admitted::history_there, crate::proofs::Admitted::history_missing))]
fn refusal_of_task(board: &Board, id: TaskId) -> Option<Refusal>
    ensures one { (at : ℕ) → result
        ≡ refusal_in (one_text board.now (find (has_id id) board.now.tasks) at) }
    ensures history { (s : State) → result
        ≡ refusal_in (page_about s board.now (place_in (ids board.now.tasks) id)) }
{
    if board.has(id) {
        None
    } else {
        Some(Refusal::NoTask)
    }
}
