//! How one call is handled, over any keeper.
ghost use Rattle.std.specs.Prelude.{◌≡◌, ◌⊎◌, ◌∷◌, [], true, false, Some, IfOk, OnOk, IsErrOf, MatchOption, if◌then◌else◌, is_ok};
ghost use Rattle.tb_board.specs.World.{key_of};
ghost use Rattle.tb_core.specs.GoodLaws.{own_keys};
ghost use Rattle.tb_calls.specs.declared.fault.KeepFault.TheVariants.{Memory, Store};
ghost use Rattle.tb_calls.specs.Call.{State, after_call, changes_key, is_known, once, outcome, plain, reply};
ghost use Rattle.tb_calls.specs.Reply.{reply_of};
ghost use Rattle.tb_calls.specs.Keep.{HoldsEither, IsNew, IsSettled, IsStill, is_store};
ghost use Rattle.tb_calls.specs.Leaving.{Only, StandsAfter};

use crate::desk::Desk;
use std::alloc::Global;
use tb_board::Key;
use tb_calls::{Call, Keep, KeepFault, Reply, reply_to, reply_to_refused};
use tb_core::{Command, Refusal, decide};
use tb_deeds::deed_of;

impl<K: Keep> Desk<K> {
    /// Handles one call: it acts where its name is new, and is told what is kept for it otherwise.
    pub fn handle(&mut self, alloc: Global, call: &Call) -> Result<Reply, KeepFault>
        ensures told { K.is_honest self.new ≡ true → (s : State) → K.holds self.old s
            → IfOk result (λ r. r ≡ reply s [] call.now) }
        ensures left { (s : State) → K.holds self.old s
            → OnOk result (K.holds self.new (plain s (once s (call.now ∷ [])))) }
        ensures memory { (s : State) → K.holds self.old s → IsErrOf result Memory
            → K.holds self.new s }
        ensures held { (s : State) → K.holds self.old s
            → K.holds self.new s ⊎ K.holds self.new (plain s (once s (call.now ∷ []))) }
        ensures stands { (s : State) → K.holds self.old s → Only s (K.after_stop self.old)
            → StandsAfter s (call.now ∷ []) (if is_ok result then 1 else 0) (K.holds self.new)
            (K.after_stop self.new) }
        ensures honest { K.is_honest self.new ≡ true → K.is_honest self.old ≡ true }
        ensures still { K.has_failed self.old ≡ true
            → IsStill (K.holds self.old) (K.after_stop self.old) (K.holds self.new)
            (K.after_stop self.new) }
        ensures failed { K.has_failed self.new ≡ is_store result }
        ensures closed { K.has_failed self.old ≡ true → IsErrOf result Store }
    {
        match find_settled(&mut self.keep, alloc, call)? {
            Some(reply) => Ok(reply),
            None => answer_new(&mut self.keep, alloc, call),
        }
    }
}

/// What a call is told that doesn't act: its caller isn't known, or its name is kept.
fn find_settled<K: Keep>(
    keep: &mut K,
    alloc: Global,
    call: &Call,
) -> Result<Option<Reply>, KeepFault>
    ensures found { K.is_honest keep.new ≡ true → (s : State) → K.holds keep.old s
        → IfOk result (λ found. MatchOption found (IsNew s call.now) (IsSettled s call.now)) }
    ensures same { IsStill (K.holds keep.old) (K.after_stop keep.old) (K.holds keep.new)
        (K.after_stop keep.new) }
    ensures honest { K.is_honest keep.new ≡ true → K.is_honest keep.old ≡ true }
    ensures failed { K.has_failed keep.new ≡ is_store result }
    ensures closed { K.has_failed keep.old ≡ true → IsErrOf result Store }
{
    let Some(key) = keep.person(alloc, &call.member)? else {
        return Ok(Some(reply_to_refused(alloc, Refusal::UnknownCaller)?));
    };
    if key.as_str() == call.key.as_str() {
        return find_kept(keep, alloc, call);
    }
    if changes_key(&call.command, &call.key, &key) {
        return find_own_change(keep, alloc, call);
    }
    Ok(Some(reply_to_refused(alloc, Refusal::UnknownCaller)?))
}

/// What a call of a known caller is told that doesn't act: its name is kept.
fn find_kept<K: Keep>(keep: &mut K, alloc: Global, call: &Call) -> Result<Option<Reply>, KeepFault>
    ensures found { K.is_honest keep.new ≡ true → (s : State) → K.holds keep.old s
        → is_known s call.now ≡ true
        → IfOk result (λ found. MatchOption found (IsNew s call.now) (IsSettled s call.now)) }
    ensures same { IsStill (K.holds keep.old) (K.after_stop keep.old) (K.holds keep.new)
        (K.after_stop keep.new) }
    ensures honest { K.is_honest keep.new ≡ true → K.is_honest keep.old ≡ true }
    ensures failed { K.has_failed keep.new ≡ is_store result }
    ensures closed { K.has_failed keep.old ≡ true → IsErrOf result Store }
{
    let Some(kept) = keep.kept(alloc, &call.member, call.id)? else {
        return Ok(None);
    };
    if kept.content.is(&call.content) {
        return Ok(Some(kept.reply));
    }
    Ok(Some(reply_to_refused(alloc, Refusal::IdReused)?))
}

/// What a call is told whose caller has the key to which it changes its own: the reply that is kept for it, if one is.
fn find_own_change<K: Keep>(
    keep: &mut K,
    alloc: Global,
    call: &Call,
) -> Result<Option<Reply>, KeepFault>
    ensures found { K.is_honest keep.new ≡ true → (s : State) → K.holds keep.old s
        → is_known s call.now ≡ false
        → changes_key (own_keys call.now.command) call.now.key (key_of s.world call.now.member)
        ≡ true
        → IfOk result (λ found. MatchOption found (IsNew s call.now) (IsSettled s call.now)) }
    ensures same { IsStill (K.holds keep.old) (K.after_stop keep.old) (K.holds keep.new)
        (K.after_stop keep.new) }
    ensures honest { K.is_honest keep.new ≡ true → K.is_honest keep.old ≡ true }
    ensures failed { K.has_failed keep.new ≡ is_store result }
    ensures closed { K.has_failed keep.old ≡ true → IsErrOf result Store }
{
    match keep.kept(alloc, &call.member, call.id)? {
        Some(kept) if kept.content.is(&call.content) => Ok(Some(kept.reply)),
        _ => Ok(Some(reply_to_refused(alloc, Refusal::UnknownCaller)?)),
    }
}

/// Whether the command changes the caller's own key, from the key of the call to the one that the caller has.
fn changes_key(command: &Command, key: &Key, own: &Key) -> bool
    ensures { result ≡ changes_key (own_keys command.now) key.now (Some own.now) }
{
    match command {
        Command::OwnKey { old, new } => {
            old.as_str() == key.as_str() && own.as_str() == new.as_str()
        }
        _ => false,
    }
}

/// Answers a call whose caller is known and whose name is new. The reply is whole before it is kept, and the board that was seen is let
/// go, so that a keeper can change its own in place.
fn answer_new<K: Keep>(keep: &mut K, alloc: Global, call: &Call) -> Result<Reply, KeepFault>
    ensures told { K.is_honest keep.new ≡ true → (s : State) → K.holds keep.old s → IsNew s call.now
        → IfOk result (λ r. r ≡ reply_of (outcome s call.now).answer) }
    ensures left { (s : State) → K.holds keep.old s → IsNew s call.now
        → OnOk result (K.holds keep.new (after_call s call.now)) }
    ensures memory { (s : State) → K.holds keep.old s → IsNew s call.now → IsErrOf result Memory
        → K.holds keep.new s }
    ensures held { (s : State) → K.holds keep.old s → IsNew s call.now
        → K.holds keep.new s ⊎ K.holds keep.new (after_call s call.now) }
    ensures store { (s : State) → K.holds keep.old s → IsNew s call.now
        → Only s (K.after_stop keep.old) → IsErrOf result Store
        → HoldsEither s (after_call s call.now) (K.holds keep.new) (K.after_stop keep.new) }
    ensures honest { K.is_honest keep.new ≡ true → K.is_honest keep.old ≡ true }
    ensures failed { K.has_failed keep.new ≡ is_store result }
    ensures closed { K.has_failed keep.old ≡ true → IsErrOf result Store }
{
    let seen = keep.look(alloc, &call.member, &call.command)?;
    let decision = decide(alloc, &seen, &call.command, call.moment)?;
    let reply = reply_to(alloc, &decision.answer)?;
    let deed = deed_of(&seen, &call.command, call.moment, &decision);
    drop(seen);
    keep.commit(alloc, decision.changes.as_slice(), deed, call, &reply)?;
    Ok(reply)
}
