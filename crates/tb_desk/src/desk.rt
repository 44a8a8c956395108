ghost use Rattle.std.specs.Prelude.{◌≡◌, ◌≢◌, ◌+◌, ◌++◌, ◌∷◌, ◌<◌, ◌≤◌, [], Some, None, IsErr, IsErrOf, IsSome, OnErr, OnOk, false, if◌then◌else◌, is_ok, length, take, true};
ghost use Rattle.tb_calls.specs.declared.fault.KeepFault.TheVariants.{Memory, Store};
ghost use Rattle.tb_calls.specs.Call.{State, once, plain, replies_to, reply};
ghost use Rattle.tb_calls.specs.Keep.{IsStill, is_store};
ghost use Rattle.tb_calls.specs.Leaving.{Only, StandsAfter};

use std::alloc::Global;
use std::marker::Model;
use tb_calls::{Call, Keep, KeepFault, Reply, Written};
use tb_values::Items;

/// Handles calls over a keeper. A contract sees the keeper.
#[derive(Drop)]
pub struct Desk<K: Keep> {
    pub(crate) keep: K,
}

impl<K: Keep> Model for Desk<K> {
    ghost Value = { K };

    ghost view = { λ desk. desk.keep };
}

/// The replies to the first calls of a list, in order, and why there are no more.
#[derive(Drop)]
pub struct RunEnd {
    pub replies: Items<Reply>,
    pub fault: Option<KeepFault>,
}

impl<K: Keep> Desk<K> {
    pub fn new(keep: K) -> Desk<K>
        ensures { result ≡ keep }
    {
        Desk { keep }
    }

    pub fn into_keep(self) -> K
        ensures { result ≡ self }
    {
        let Desk { keep } = self;
        keep
    }

    /// How many bytes calls have written so far.
    pub fn written(&self) -> Written {
        self.keep.written()
    }

    /// Handles calls in order, up to the first fault. The place of a reply is made before its call is handled, so a keeper that has
    /// failed may still meet the want of memory first. It changes nothing then, as with Store.
    pub fn run(&mut self, alloc: Global, calls: &[Call]) -> RunEnd
        ensures count { length result.replies ≤ length calls.now }
        ensures all { result.fault ≡ None → length result.replies ≡ length calls.now }
        ensures told { K.is_honest self.new ≡ true → (s : State) → K.holds self.old s
            → result.replies ≡ replies_to s (take (length result.replies) calls.now) }
        ensures left { (s : State) → K.holds self.old s → result.fault ≢ Some Store
            → K.holds self.new (plain s (once s (take (length result.replies) calls.now))) }
        ensures stands { (s : State) → K.holds self.old s → Only s (K.after_stop self.old)
            → StandsAfter s calls.now (length result.replies) (K.holds self.new)
            (K.after_stop self.new) }
        ensures honest { K.is_honest self.new ≡ true → K.is_honest self.old ≡ true }
        ensures failed { result.fault ≡ Some Store → K.has_failed self.new ≡ true }
        ensures fine { result.fault ≢ Some Store → K.has_failed self.new ≡ K.has_failed self.old }
        ensures closed { K.has_failed self.old ≡ true → 0 < length calls.now → IsSome result.fault }
        ensures none { K.has_failed self.old ≡ true → length result.replies ≡ 0 }
        ensures still { K.has_failed self.old ≡ true
            → IsStill (K.holds self.old) (K.after_stop self.old) (K.holds self.new)
            (K.after_stop self.new) }
    {
        let mut replies = Vec::new(alloc);
        for call in calls {
            if let Err(fault) = self.run_one(alloc, &mut replies, call) {
                return RunEnd {
                    replies: Items::from_vec(replies),
                    fault: Some(fault),
                };
            }
        }
        RunEnd {
            replies: Items::from_vec(replies),
            fault: None,
        }
    }

    // Makes the reply's place, and then handles the call.
    fn run_one(
        &mut self,
        alloc: Global,
        replies: &mut Vec<Reply>,
        call: &Call,
    ) -> Result<(), KeepFault>
        ensures ok { K.is_honest self.new ≡ true → (s : State) → K.holds self.old s
            → OnOk result (replies.new.items ≡ replies.old.items ++ reply s [] call.now ∷ []) }
        ensures count { OnOk result (length replies.new.items ≡ length replies.old.items + 1) }
        ensures err { OnErr result (replies.new.items ≡ replies.old.items) }
        ensures left { (s : State) → K.holds self.old s
            → OnOk result (K.holds self.new (plain s (once s (call.now ∷ [])))) }
        ensures memory { (s : State) → K.holds self.old s → IsErrOf result Memory
            → K.holds self.new s }
        ensures stands { (s : State) → K.holds self.old s → Only s (K.after_stop self.old)
            → StandsAfter s (call.now ∷ []) (if is_ok result then 1 else 0) (K.holds self.new)
            (K.after_stop self.new) }
        ensures honest { K.is_honest self.new ≡ true → K.is_honest self.old ≡ true }
        ensures failed { is_store result ≡ true → K.has_failed self.new ≡ true }
        ensures fine { OnOk result (K.has_failed self.new ≡ false) }
        ensures unchanged { IsErrOf result Memory → K.has_failed self.new ≡ K.has_failed self.old }
        ensures closed { K.has_failed self.old ≡ true → IsErr result }
        ensures still { K.has_failed self.old ≡ true
            → IsStill (K.holds self.old) (K.after_stop self.old) (K.holds self.new)
            (K.after_stop self.new) }
    {
        if replies.reserve(1).is_err() {
            return Err(KeepFault::Memory);
        }
        let reply = self.handle(alloc, call)?;
        replies.push(reply).unwrap();
        Ok(())
    }
}
