//! What a message that was read is told: the desk handles its call, or shows its view.
ghost use Rattle.std.specs.Prelude.{◌≡◌, ◌∷◌, [], IfOk, IsErrOf, None, Ok, true};
ghost use Rattle.tb_calls.specs.Call.{State, reply, unknown_caller};
ghost use Rattle.tb_calls.specs.Leaving.{Only};
ghost use Rattle.tb_desk.specs.Viewing.{shown_in};
ghost use Rattle.tb_http.specs.declared.message.Message.{Message};
ghost use Rattle.tb_asking.specs.Asking.{asked_of};
ghost use Rattle.tb_serve.specs.Telling.{ReachesAt, called_by, calls_in, told_asked, told_at, told_by, told_reply, told_view};

use crate::response::Response;
use std::alloc::{AllocError, Global};
use tb_asking::{Asked, CallFault, Sender, ask};
use tb_calls::{Call, Keep, KeepFault, View, reply_to_refused};
use tb_core::Refusal;
use tb_desk::Desk;
use tb_http::{ContentType, Message, Routes, WireFault};
use tb_task::Moment;
use tb_values::Text;

/// What a message is told that the clock gave a moment, or none.
pub(crate) fn tell<K: Keep>(
    alloc: Global,
    routes: &Routes,
    desk: &mut Desk<K>,
    message: &Message,
    at: Option<Moment>,
) -> Result<Response, KeepFault>
    ensures told { K.is_honest desk.new ≡ true → (s : State) → K.holds desk.old s
        → IfOk result (λ told. told ≡ told_at s message.now at) }
    ensures stands { (s : State) → K.holds desk.old s → Only s (K.after_stop desk.old)
        → ReachesAt result s (calls_in message.now at) (K.holds desk.new) (K.after_stop desk.new) }
    ensures honest { K.is_honest desk.new ≡ true → K.is_honest desk.old ≡ true }
    ensures failed { IsErrOf result KeepFault.Store → K.has_failed desk.new ≡ true }
{
    match at {
        Some(at) => tell_at(alloc, routes, desk, message, at),
        None => Ok(without_clock(alloc)?),
    }
}

fn without_clock(alloc: Global) -> Result<Response, AllocError>
    ensures { IfOk result
        (λ told. (s : State) → (message : Message) → told ≡ told_at s message None) }
{
    let body = Text::from_str(alloc, WireFault::NoClock.body())?;
    Ok(Response::fault(WireFault::NoClock, None, body))
}

fn tell_at<K: Keep>(
    alloc: Global,
    routes: &Routes,
    desk: &mut Desk<K>,
    message: &Message,
    at: Moment,
) -> Result<Response, KeepFault>
    ensures told { K.is_honest desk.new ≡ true → (s : State) → K.holds desk.old s
        → IfOk result (λ told. told ≡ told_by s at (asked_of message.now at)) }
    ensures stands { (s : State) → K.holds desk.old s → Only s (K.after_stop desk.old)
        → ReachesAt result s (called_by (asked_of message.now at)) (K.holds desk.new)
        (K.after_stop desk.new) }
    ensures honest { K.is_honest desk.new ≡ true → K.is_honest desk.old ≡ true }
    ensures failed { IsErrOf result KeepFault.Store → K.has_failed desk.new ≡ true }
{
    match ask(alloc, routes, message, at) {
        Ok(asked) => tell_asked(alloc, desk, &asked, at),
        Err(CallFault::Rejected(rejection)) => Ok(Response::rejection(alloc, &rejection)?),
        Err(CallFault::Memory) => Err(KeepFault::Memory),
    }
}

fn tell_asked<K: Keep>(
    alloc: Global,
    desk: &mut Desk<K>,
    asked: &Asked,
    at: Moment,
) -> Result<Response, KeepFault>
    ensures told { K.is_honest desk.new ≡ true → (s : State) → K.holds desk.old s
        → IfOk result (λ told. told ≡ told_asked s at asked.now) }
    ensures stands { (s : State) → K.holds desk.old s → Only s (K.after_stop desk.old)
        → ReachesAt result s (called_by (Ok asked.now)) (K.holds desk.new) (K.after_stop desk.new) }
    ensures honest { K.is_honest desk.new ≡ true → K.is_honest desk.old ≡ true }
    ensures failed { IsErrOf result KeepFault.Store → K.has_failed desk.new ≡ true }
{
    match asked {
        Asked::Call(call) => tell_call(alloc, desk, call),
        Asked::View(sender, view) => tell_view(alloc, desk, sender, view, at),
        Asked::Unknown => Ok(unknown_sender(alloc)?),
    }
}

fn unknown_sender(alloc: Global) -> Result<Response, AllocError>
    ensures { IfOk result (λ told. told ≡ told_reply ContentType.Json unknown_caller) }
{
    let reply = reply_to_refused(alloc, Refusal::UnknownCaller)?;
    Ok(Response::reply(ContentType::Json, reply))
}

fn tell_call<K: Keep>(alloc: Global, desk: &mut Desk<K>, call: &Call) -> Result<Response, KeepFault>
    ensures told { K.is_honest desk.new ≡ true → (s : State) → K.holds desk.old s
        → IfOk result (λ told. told ≡ told_reply ContentType.Json (reply s [] call.now)) }
    ensures stands { (s : State) → K.holds desk.old s → Only s (K.after_stop desk.old)
        → ReachesAt result s (call.now ∷ []) (K.holds desk.new) (K.after_stop desk.new) }
    ensures honest { K.is_honest desk.new ≡ true → K.is_honest desk.old ≡ true }
    ensures failed { IsErrOf result KeepFault.Store → K.has_failed desk.new ≡ true }
{
    let reply = desk.handle(alloc, call)?;
    Ok(Response::reply(ContentType::Json, reply))
}

fn tell_view<K: Keep>(
    alloc: Global,
    desk: &mut Desk<K>,
    sender: &Sender,
    view: &View,
    at: Moment,
) -> Result<Response, KeepFault>
    ensures told { K.is_honest desk.new ≡ true → (s : State) → K.holds desk.old s
        → IfOk result (λ told. told
        ≡ told_view view.now (shown_in s sender.now.name sender.now.key view.now at)) }
    ensures stands { (s : State) → K.holds desk.old s → Only s (K.after_stop desk.old)
        → ReachesAt result s [] (K.holds desk.new) (K.after_stop desk.new) }
    ensures honest { K.is_honest desk.new ≡ true → K.is_honest desk.old ≡ true }
    ensures failed { IsErrOf result KeepFault.Store → K.has_failed desk.new ≡ true }
{
    match desk.view(alloc, &sender.name, &sender.key, view, at) {
        Ok(reply) => Ok(Response::view(view, reply)),
        Err(fault) => Err(fault),
    }
}
