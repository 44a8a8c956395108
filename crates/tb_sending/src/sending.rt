//! Orders that are sent to a server until they are answered.
ghost use Rattle.std.specs.Prelude.{◌≡◌, ◌⊎◌, IfErr, IfNone, IfOk, IfSome, OnErr, true};
ghost use Rattle.tb_program.specs.declared.fault.Fault.TheVariants.{Memory};
ghost use Rattle.tb_client.specs.Request.{request_of};
ghost use Rattle.tb_sending.specs.Changing.{Sends, SendsNot};
ghost use Rattle.tb_sending.specs.Faults.{is_of_sending};
ghost use Rattle.tb_sending.specs.Lines.{IsLineTo};
ghost use Rattle.tb_sending.specs.Sending.{AreNamed, AreRefused, AreReplied, AreUnnamed, ComesTo, Fails, IsMessage, IsNoMessage, IsReplied, IsSent, IsUnsent, Lacks, is_too_long};

use crate::dial::Dial;
use crate::key::key_of;
use crate::places::take_reply;
use crate::printing::print_reply;
use crate::server_line::ServerLine;
use crate::settling::settle;
use std::io::Write;
use tb_client::{
    AskFault, Line, Reply, Request, Sender, ask_until_answered, export_of, message_of, places_of,
    request_of,
};
use tb_command_line::SendOrder;
use tb_orders::{Chance, Ending};
use tb_program::Fault;
use tb_task::LONGEST_BODY;
use tb_values::{Duplicate, Text};

/// Sends a call or a view until it is answered, and prints the reply. A change of the own key that was begun is made before anything else
/// is sent under that key. The server is first asked for the tasks of places, which stand in the order's words from then on. Each message and each answer is of a connection that the dial made to the order's server.
pub fn send_order<D: Dial + Drop, G: Chance, W: Write>(
    rt: &HostRuntime,
    order: &mut SendOrder,
    dial: D,
    chance: &mut G,
    writer: &mut W,
) -> Result<Ending, Fault>
    ensures sent { IfOk result (λ ending. (old : _) × (new : _) × IsLineTo order.old dial old
        × Sends ⟦<ServerLine<D> as Line>⟧.follows W.contents
        order.old order.new old new writer.old writer.new ending) }
    ensures unsent { IfErr result (λ fault. ((old : _) × (new : _) × IsLineTo order.old dial old
        × SendsNot ⟦<ServerLine<D> as Line>⟧.follows W.contents
        order.old order.new old new writer.old writer.new fault)
        ⊎ ((fault ≡ Memory) × (writer.new ≡ writer.old))) }
    ensures others { order.new ≡ record order.old { words = order.new.words } }
    ensures fault { IfErr result (λ fault. is_of_sending fault ≡ true) }
{
    let Ok(mut line) = ServerLine::new(dial, order) else {
        return Err(Fault::Memory);
    };
    send_settled(rt, order, &mut line, chance, writer)
}

/// The same over a line to the server: a change of the key that was begun comes first.
fn send_settled<L: Line, G: Chance, W: Write>(
    rt: &HostRuntime,
    order: &mut SendOrder,
    line: &mut L,
    chance: &mut G,
    writer: &mut W,
) -> Result<Ending, Fault>
    ensures sent { IfOk result (Sends L.follows W.contents
        order.old order.new line.old line.new writer.old writer.new) }
    ensures unsent { IfErr result (SendsNot L.follows W.contents
        order.old order.new line.old line.new writer.old writer.new) }
    ensures others { order.new ≡ record order.old { words = order.new.words } }
    ensures fault { IfErr result (λ fault. is_of_sending fault ≡ true) }
{
    match settle(rt, order, line, chance, writer) {
        Ok(None) => send_over(rt, order, line, writer),
        Ok(Some(ending)) => Ok(ending),
        Err(fault) => Err(fault),
    }
}

/// The order itself.
fn send_over<L: Line, W: Write>(
    rt: &HostRuntime,
    order: &mut SendOrder,
    line: &mut L,
    writer: &mut W,
) -> Result<Ending, Fault>
    ensures sent { IfOk result (ComesTo L.follows W.contents
        order.old order.new line.old line.new writer.old writer.new) }
    ensures unsent { IfErr result (Fails L.follows W.contents
        order.old order.new line.old line.new writer.old writer.new) }
    ensures others { order.new ≡ record order.old { words = order.new.words } }
{
    let places = places_of(rt.alloc(), order.words.as_slice())?;
    if places.is_empty() {
        return send_words(rt, order, line, writer);
    }
    match take_tasks(rt, order, line, places.as_slice(), writer) {
        Ok(None) => send_words(rt, order, line, writer),
        Ok(Some(ending)) => Ok(ending),
        Err(fault) => Err(fault),
    }
}

/// Asks for the tasks of the board, and takes what they make of the order.
fn take_tasks<L: Line, W: Write>(
    rt: &HostRuntime,
    order: &mut SendOrder,
    line: &mut L,
    places: &[u32],
    writer: &mut W,
) -> Result<Option<Ending>, Fault>
    ensures named { IfOk result
        (λ end. IfNone end (AreNamed L.follows order.old order.new line.old line.new)) }
    ensures still { IfOk result (λ end. IfNone end (writer.new ≡ writer.old)) }
    ensures refused { IfOk result (λ end. IfSome end (AreRefused L.follows W.contents order.old
        line.old line.new writer.old writer.new)) }
    ensures same { IfOk result (λ end. IfSome end (λ ending. order.new ≡ order.old)) }
    ensures unnamed { IfErr result (AreUnnamed L.follows W.contents order.old
        line.old line.new writer.old writer.new) }
    ensures kept { OnErr result (order.new ≡ order.old) }
{
    let Some(request) = export_of(rt.alloc(), order.words.as_slice())? else {
        return Err(Fault::Bad);
    };
    match ask(rt, order, line, &request) {
        Ok(reply) => take_reply(rt, order, places, &reply, writer),
        Err(fault) => Err(fault),
    }
}

/// Sends what the words ask for.
fn send_words<L: Line, W: Write>(
    rt: &HostRuntime,
    order: &SendOrder,
    line: &mut L,
    writer: &mut W,
) -> Result<Ending, Fault>
    ensures sent { IfOk result (IsSent L.follows W.contents order.now
        line.old line.new writer.old writer.new) }
    ensures unsent { IfErr result (IsUnsent L.follows W.contents order.now
        line.old line.new writer.old writer.new) }
{
    let Some(request) = request_of(rt.alloc(), order.words.as_slice())? else {
        return Err(Fault::Bad);
    };
    match ask(rt, order, line, &request) {
        Ok(reply) => print_reply(writer, order.words.as_slice(), &reply),
        Err(fault) => Err(fault),
    }
}

/// Sends what the words ask for, until it is answered.
pub(crate) fn ask_words<L: Line>(
    rt: &HostRuntime,
    order: &SendOrder,
    line: &mut L,
) -> Result<Reply, Fault>
    ensures replied { IfOk result (AreReplied L.follows (request_of order.now.words) order.now
        line.old line.new) }
    ensures fault { IfErr result (λ fault. is_of_sending fault ≡ true) }
{
    let Some(request) = request_of(rt.alloc(), order.words.as_slice())? else {
        return Err(Fault::Bad);
    };
    ask(rt, order, line, &request)
}

/// Sends the message of a request until it is answered.
fn ask<L: Line>(
    rt: &HostRuntime,
    order: &SendOrder,
    line: &mut L,
    request: &Request,
) -> Result<Reply, Fault>
    ensures replied { IfOk result
        (IsReplied L.follows order.now request.now line.old line.new) }
    ensures lacks { IfErr result (Lacks L.follows order.now request.now line.old line.new) }
{
    match message_for(rt, order, request) {
        Ok(message) => match ask_until_answered(rt.alloc(), line, message.as_bytes()) {
            Ok(reply) => Ok(reply),
            Err(AskFault::NoAnswer) => Err(Fault::NoAnswer),
            Err(AskFault::Memory) => Err(Fault::Memory),
        },
        Err(fault) => Err(fault),
    }
}

/// The message of a request, from the order's sender and under its identifier.
fn message_for(rt: &HostRuntime, order: &SendOrder, request: &Request) -> Result<Text, Fault>
    ensures is { IfOk result (IsMessage order.now request.now) }
    ensures none { IfErr result (IsNoMessage order.now request.now) }
{
    if is_too_long(request) {
        return Err(Fault::BadBody);
    }
    let Some(id) = order.id else {
        return Err(Fault::ReadFailed); // The machine gave no random bytes.
    };
    let Some(key) = key_of(rt, order)? else {
        return Err(Fault::NoKey);
    };
    let server = order.server.duplicate()?;
    let member = order.member.duplicate()?;
    let sender = Sender {
        server,
        member,
        key,
    };
    Ok(message_of(rt.alloc(), &sender, id, request)?)
}

/// Whether no server takes the body.
fn is_too_long(request: &Request) -> bool
    ensures { result ≡ is_too_long request.now }
{
    match &request.body {
        Some(body) => body.len() > LONGEST_BODY,
        None => false,
    }
}
