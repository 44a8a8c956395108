//! The answer to a line.
ghost use Rattle.std.specs.Prelude.{◌≡◌, ◌⊎◌, ◌||◌, ◌∷◌, ◌++◌, [], true, false, IfOk, OnOk, MatchOption};
ghost use Rattle.tb_calls.specs.Call.{State, once, plain, reply};
ghost use Rattle.tb_desk.specs.Viewing.{shown_in};
ghost use Rattle.tb_script.specs.Answering.{answered, carried_out, is_readable, request_of, view_text};
ghost use Rattle.tb_script.specs.Fault.{is_store, is_unread, is_unwritten};
ghost use Rattle.tb_script.specs.Outcome.{Reads};
ghost use Rattle.tb_script.specs.Replies.{reply_text};

use crate::asked::{Asked, Look};
use crate::fault::LinesFault;
use crate::line_fault::LineFault;
use crate::reading::read_line;
use crate::replies::{write_reply, write_unreadable};
use std::alloc::{AllocError, Global};
use tb_calls::{Call, Keep, Reply, View};
use tb_desk::Desk;
use tb_task::LONGEST_BODY;
use tb_values::Text;

/// Answers a line that isn't empty.
pub(crate) fn answer_line<K: Keep>(
    alloc: Global,
    desk: &mut Desk<K>,
    line: &[u8],
) -> Result<Text, LinesFault>
    ensures told { K.is_honest desk.new ≡ true → (s : State) → K.holds desk.old s
        → IfOk result (λ text. text ≡ (answered s (request_of line.now)).text) }
    ensures left { K.is_honest desk.new ≡ true → (s : State) → K.holds desk.old s
        → OnOk result (K.holds desk.new (answered s (request_of line.now)).state) }
    ensures held { K.is_honest desk.new ≡ true → (s : State) → K.holds desk.old s
        → K.holds desk.new s ⊎ K.holds desk.new (answered s (request_of line.now)).state }
    ensures honest { K.is_honest desk.new ≡ true → K.is_honest desk.old ≡ true }
    ensures failed { K.has_failed desk.new ≡ (is_store result || K.has_failed desk.old) }
    ensures read { is_unread result ≡ false }
    ensures written { is_unwritten result ≡ false }
{
    match read_request(alloc, line) {
        Ok(asked) => carry_out(alloc, desk, &asked),
        Err(LineFault::Refused(fault)) => Ok(write_unreadable(alloc, &fault)?),
        Err(LineFault::Memory) => Err(LinesFault::Memory),
    }
}

/// What a line asks, if it can be read.
#[tactic(auto, unfolding(crate::specs::Answering::request_of))]
fn read_request(alloc: Global, line: &[u8]) -> Result<Asked, LineFault>
    ensures { Reads result (request_of line.now) }
{
    match readable(line) {
        Some(text) => read_line(alloc, text),
        None => Err(LineFault::bad_line()),
    }
}

/// The line as text, where it is one and isn't too long.
fn readable(line: &[u8]) -> Option<&str>
    ensures { MatchOption result (is_readable line.now ≡ false)
        (λ text. (text.now ≡ line.now) × (is_readable line.now ≡ true)) }
{
    if line.len() > LONGEST_BODY {
        return None;
    }
    match str::from_utf8(line) {
        Ok(text) => Some(text),
        Err(_) => None,
    }
}

#[tactic(auto, unfolding(crate::specs::Answering::carried_out))]
fn carry_out<K: Keep>(alloc: Global, desk: &mut Desk<K>, asked: &Asked) -> Result<Text, LinesFault>
    ensures told { K.is_honest desk.new ≡ true → (s : State) → K.holds desk.old s
        → IfOk result (λ text. text ≡ (carried_out s asked.now).text) }
    ensures left { K.is_honest desk.new ≡ true → (s : State) → K.holds desk.old s
        → OnOk result (K.holds desk.new (carried_out s asked.now).state) }
    ensures held { K.is_honest desk.new ≡ true → (s : State) → K.holds desk.old s
        → K.holds desk.new s ⊎ K.holds desk.new (carried_out s asked.now).state }
    ensures honest { K.is_honest desk.new ≡ true → K.is_honest desk.old ≡ true }
    ensures failed { K.has_failed desk.new ≡ (is_store result || K.has_failed desk.old) }
    ensures read { is_unread result ≡ false }
    ensures written { is_unwritten result ≡ false }
{
    match asked {
        Asked::Call(call) => answer_call(alloc, desk, call),
        Asked::View(look) => answer_view(alloc, desk, look),
    }
}

fn answer_call<K: Keep>(alloc: Global, desk: &mut Desk<K>, call: &Call) -> Result<Text, LinesFault>
    ensures told { K.is_honest desk.new ≡ true → (s : State) → K.holds desk.old s
        → IfOk result (λ text. text ≡ reply_text (reply s [] call.now)) }
    ensures left { K.is_honest desk.new ≡ true → (s : State) → K.holds desk.old s
        → OnOk result (K.holds desk.new (plain s (once s (call.now ∷ [])))) }
    ensures held { K.is_honest desk.new ≡ true → (s : State) → K.holds desk.old s
        → K.holds desk.new s ⊎ K.holds desk.new (plain s (once s (call.now ∷ []))) }
    ensures honest { K.is_honest desk.new ≡ true → K.is_honest desk.old ≡ true }
    ensures failed { K.has_failed desk.new ≡ (is_store result || K.has_failed desk.old) }
    ensures read { is_unread result ≡ false }
    ensures written { is_unwritten result ≡ false }
{
    let reply = desk.handle(alloc, call)?;
    Ok(write_reply(alloc, &reply)?)
}

fn answer_view<K: Keep>(alloc: Global, desk: &mut Desk<K>, look: &Look) -> Result<Text, LinesFault>
    ensures told { K.is_honest desk.new ≡ true → (s : State) → K.holds desk.old s
        → IfOk result (λ text. text
        ≡ view_text look.now.view
        (shown_in s look.now.member look.now.key look.now.view look.now.at)) }
    ensures same { K.is_honest desk.new ≡ true → (s : State) → K.holds desk.old s
        → K.holds desk.new s }
    ensures honest { K.is_honest desk.new ≡ true → K.is_honest desk.old ≡ true }
    ensures failed { K.has_failed desk.new ≡ (is_store result || K.has_failed desk.old) }
    ensures read { is_unread result ≡ false }
    ensures written { is_unwritten result ≡ false }
{
    let reply = desk.view(alloc, &look.member, &look.key, &look.view, look.at)?;
    Ok(write_view(alloc, &look.view, reply)?)
}

/// A view's text, or the reply that refuses it.
fn write_view(alloc: Global, view: &View, reply: Reply) -> Result<Text, AllocError>
    ensures { IfOk result (λ text. text ≡ view_text view.now reply) }
{
    if reply.number != 0 {
        return write_reply(alloc, &reply);
    }
    match view {
        View::One(_, _)
        | View::People(_)
        | View::History(_)
        | View::HistoryFrom(_, _)
        | View::HistoryOf(_, _)
        | View::Me => end_line(reply.body),
        View::Listing(_) | View::Export(_) | View::Todo(_) => Ok(reply.body),
    }
}

fn end_line(text: Text) -> Result<Text, AllocError>
    ensures { IfOk result (λ line. line ≡ text ++ 10 ∷ []) }
{
    let mut line = text.into_string();
    line.push('\n')?;
    Ok(Text::from_string(line))
}
