//! The next message of a connection, handled and answered.
ghost use Rattle.std.specs.Prelude.{◌≡◌, ◌≤◌, ◌+◌, ◌++◌, ◌∷◌, [], List, ℕ, length, take, drop, if◌then◌else◌, IfNone, IfSome, Some, false, true};
ghost use Rattle.tb_calls.specs.Call.{State};
ghost use Rattle.tb_calls.specs.Leaving.{Only};
ghost use Rattle.tb_http.specs.Inbox.{HasFault, IsUnfinished};
ghost use Rattle.tb_http.specs.declared.fault.WireFault.{WireFault};
ghost use Rattle.tb_serve.specs.Exchanging as exchanging;
ghost use Rattle.tb_serve.specs.Following.{Follows, has_stopped};
ghost use Rattle.tb_serve.specs.Serving.{Exchanges, Turns, reads_one};
ghost use Rattle.tb_serve.specs.Turns.{sent_of};

use crate::serving::{Exchange, MessageOutcome, ServeFault, handle_message, send_unread};
use crate::tools::Tools;
use std::alloc::Global;
use tb_calls::{Keep, KeepFault};
use tb_desk::Desk;
use tb_http::Inbox;
use tb_site::Paths;
use tb_task::Moment;

// Takes the next message and handles it, if it is whole.
fn exchange_next<K: Keep>(
    alloc: Global,
    tools: &mut Tools,
    paths: &Paths,
    inbox: &mut Inbox,
    out: &mut Vec<u8>,
    desk: &mut Desk<K>,
    at: Option<Moment>,
) -> Option<Exchange>
    requires { inbox.old.is_closing ≡ false }
    ensures waits { IfNone result (IsUnfinished inbox.old.bytes
        × (inbox.new ≡ inbox.old) × (out.new.items ≡ out.old.items) × (desk.new ≡ desk.old)) }
    ensures exchanges { K.is_honest desk.new ≡ true → (s : State) → K.holds desk.old s
        → Only s (K.after_stop desk.old) → IfSome result (λ exchange.
        Exchanges paths.now.site s (at ∷ []) inbox.old.messages inbox.old.bytes (Some out.old.items)
        (Some out.new.items) exchange
        (K.holds desk.new) (K.after_stop desk.new) (Some inbox.new.bytes) inbox.new.is_closing) }
    ensures follows { IfSome result (λ exchange.
        Follows (has_stopped (exchanging.outcome exchange.turn exchange.is_whole))
        (K.holds desk.old) (K.after_stop desk.old) (K.holds desk.new) (K.after_stop desk.new)) }
    ensures refused { IfSome result
        (λ exchange. (fault : WireFault) → exchange.turn ≡ MessageOutcome.Unread fault
        → HasFault inbox.old.bytes fault × (inbox.new.bytes ≡ inbox.old.bytes)
        × (inbox.new.is_closing ≡ true)) }
    ensures counted { IfSome result (λ exchange.
        inbox.new.messages ≡ inbox.old.messages + reads_one exchange.turn) }
    ensures honest { K.is_honest desk.new ≡ true → K.is_honest desk.old ≡ true }
    ensures failed { IfSome result (λ exchange.
        exchange.turn ≡ MessageOutcome.Failed KeepFault.Store → K.has_failed desk.new ≡ true) }
{
    match inbox.next_message(alloc, &mut tools.fields) {
        Ok(None) => None,
        Ok(Some(message)) => {
            let is_last = inbox.closing();
            Some(handle_message(
                alloc,
                paths,
                &mut tools.head,
                out,
                desk,
                &message,
                at,
                is_last,
            ))
        }
        Err(fault) => Some(Exchange {
            turn: MessageOutcome::Unread(fault),
            is_whole: send_unread(&mut tools.head, out, fault),
        }),
    }
}

// Lets go of what was written of an answer that isn't whole.
fn keep_whole(out: &mut Vec<u8>, kept: usize, is_whole: bool)
    ensures { out.new.items ≡ (if is_whole then out.old.items else take kept out.old.items) }
{
    if !is_whole {
        out.truncate(kept);
    }
}

/// Takes the next message and handles it, if it is whole, and puts its whole answer behind what is to be sent, or
/// nothing of it.
pub(crate) fn answer_whole<K: Keep>(
    alloc: Global,
    tools: &mut Tools,
    paths: &Paths,
    inbox: &mut Inbox,
    out: &mut Vec<u8>,
    desk: &mut Desk<K>,
    at: Option<Moment>,
) -> Option<Exchange>
    requires { inbox.old.is_closing ≡ false }
    ensures waits { IfNone result (IsUnfinished inbox.old.bytes
        × (inbox.new ≡ inbox.old) × (out.new.items ≡ out.old.items) × (desk.new ≡ desk.old)) }
    ensures answers { K.is_honest desk.new ≡ true → (s : State) → K.holds desk.old s
        → Only s (K.after_stop desk.old) → IfSome result (λ exchange.
        (text : List ℕ) × (out.new.items ≡ out.old.items ++ sent_of exchange.is_whole text)
        × Turns paths.now.site s (at ∷ []) inbox.old.messages inbox.old.bytes exchange.turn text
        (K.holds desk.new) (K.after_stop desk.new) (Some inbox.new.bytes) inbox.new.is_closing) }
    ensures follows { IfSome result (λ exchange.
        Follows (has_stopped (exchanging.outcome exchange.turn exchange.is_whole))
        (K.holds desk.old) (K.after_stop desk.old) (K.holds desk.new) (K.after_stop desk.new)) }
    ensures refused { IfSome result
        (λ exchange. (fault : WireFault) → exchange.turn ≡ MessageOutcome.Unread fault
        → HasFault inbox.old.bytes fault × (inbox.new.bytes ≡ inbox.old.bytes)
        × (inbox.new.is_closing ≡ true)) }
    ensures counted { IfSome result (λ exchange.
        inbox.new.messages ≡ inbox.old.messages + reads_one exchange.turn) }
    ensures honest { K.is_honest desk.new ≡ true → K.is_honest desk.old ≡ true }
    ensures failed { IfSome result (λ exchange.
        exchange.turn ≡ MessageOutcome.Failed KeepFault.Store → K.has_failed desk.new ≡ true) }
{
    let kept = out.len();
    let exchange = exchange_next(alloc, tools, paths, inbox, out, desk, at)?;
    keep_whole(out, kept, exchange.is_whole);
    Some(exchange)
}

/// Whether the connection takes no more behind an exchange, where it closes by its messages or not.
pub(crate) fn takes_no_more(is_closing: bool, exchange: Exchange) -> bool
    ensures { result ≡ exchanging.takes_no_more is_closing exchange.turn exchange.is_whole }
{
    match exchange.turn {
        MessageOutcome::Replied => is_closing || !exchange.is_whole,
        _ => true,
    }
}

/// Why a connection is served no further behind an exchange, if it isn't by its messages.
pub(crate) fn outcome(exchange: Exchange) -> Result<(), ServeFault>
    ensures { result ≡ exchanging.outcome exchange.turn exchange.is_whole }
{
    if let MessageOutcome::Failed(KeepFault::Store) = exchange.turn {
        return Err(ServeFault::Store);
    }
    if exchange.is_whole {
        Ok(())
    } else {
        Err(ServeFault::WriteFailed)
    }
}
