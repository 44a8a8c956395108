//! What a message asks for, by its route, its fields and its body.
ghost use Rattle.std.specs.Prelude.{◌≡◌, IfOk, option_map};
ghost use Rattle.tb_asking.specs.Asking.{asked_at, asked_by, asked_of, board_view as board_view_so, call_from, key_in, name_in, sender_of, view_from};
ghost use Rattle.tb_asking.specs.Rejection.{Asks};

use crate::asked::{Asked, Sender};
use crate::body_fault::BodyFault;
use crate::command::read_command;
use crate::rejection::{CallFault, Rejection};
use std::alloc::{AllocError, Global};
use tb_board::{Key, Name};
use tb_calls::{Call, View};
use tb_core::Command;
use tb_http::{BoardView, CallTarget, Message, Resource, Routes};
use tb_task::{Moment, TaskId};

/// What a message that came at a moment asks for.
pub fn call_of(alloc: Global, message: &Message, at: Moment) -> Result<Asked, CallFault>
    ensures { Asks result (asked_of message.now at) }
{
    let routes = Routes::new(alloc)?;
    ask(alloc, &routes, message, at)
}

/// The same, by a table of routes that is there.
#[tactic(auto, unfolding(crate::specs::Asking::asked_of))]
pub fn ask(
    alloc: Global,
    routes: &Routes,
    message: &Message,
    at: Moment,
) -> Result<Asked, CallFault>
    ensures { Asks result (asked_of message.now at) }
{
    match routes.resource(&message.method, message.target.as_str()) {
        Ok(resource) => ask_for(alloc, resource, message, at),
        Err(fault) => Err(CallFault::Rejected(Rejection::Route(fault))),
    }
}

fn ask_for(
    alloc: Global,
    resource: Resource<'_>,
    message: &Message,
    at: Moment,
) -> Result<Asked, CallFault>
    ensures { Asks result (asked_at resource.entry message.now at) }
{
    let view = match resource {
        Resource::Me => View::Me,
        Resource::Board(board, view) => board_view(board, view),
        Resource::Task(board, id) => View::One(board, id),
        Resource::HistoryFrom(board, number) => View::HistoryFrom(board, number),
        Resource::TaskHistory(board, id) => View::HistoryOf(board, id),
        Resource::Call(target) => return ask_call(alloc, target, message, at),
    };
    Ok(ask_view(alloc, view, message)?)
}

fn board_view(board: u32, view: BoardView) -> View
    ensures { result ≡ board_view_so board view }
{
    match view {
        BoardView::List => View::Listing(board),
        BoardView::Export => View::Export(board),
        BoardView::Todo => View::Todo(board),
        BoardView::People => View::People(board),
        BoardView::History => View::History(board),
    }
}

fn ask_view(alloc: Global, view: View, message: &Message) -> Result<Asked, AllocError>
    ensures { IfOk result (λ asked. asked ≡ view_from view (sender_of message.now)) }
{
    match read_sender(alloc, message)? {
        Some(sender) => Ok(Asked::View(sender, view)),
        None => Ok(Asked::Unknown),
    }
}

fn ask_call(
    alloc: Global,
    target: CallTarget<'_>,
    message: &Message,
    at: Moment,
) -> Result<Asked, CallFault>
    ensures { Asks result (asked_by target.entry message.now at) }
{
    let Some(id) = message.request_id() else {
        return Err(CallFault::Rejected(Rejection::NoId));
    };
    match read_command(alloc, target, message.body.as_slice(), at) {
        Ok(command) => Ok(make_call(alloc, message, id, at, command)?),
        Err(BodyFault::Refused(fault)) => Err(CallFault::Rejected(Rejection::Body(fault))),
        Err(BodyFault::Memory) => Err(CallFault::Memory),
    }
}

fn make_call(
    alloc: Global,
    message: &Message,
    id: TaskId,
    at: Moment,
    command: Command,
) -> Result<Asked, AllocError>
    ensures { IfOk result
        (λ asked. asked ≡ call_from message.now id at command (sender_of message.now)) }
{
    let Some(sender) = read_sender(alloc, message)? else {
        return Ok(Asked::Unknown);
    };
    let content = message.content(alloc)?;
    Ok(Asked::Call(Call {
        member: sender.name,
        key: sender.key,
        id,
        moment: at,
        content,
        command,
    }))
}

fn read_sender(alloc: Global, message: &Message) -> Result<Option<Sender>, AllocError>
    ensures { IfOk result (λ sender. sender ≡ sender_of message.now) }
{
    let Some(name) = read_member(alloc, message.member())? else {
        return Ok(None);
    };
    let Some(key) = read_secret(alloc, message.key())? else {
        return Ok(None);
    };
    Ok(Some(Sender { name, key }))
}

fn read_member(alloc: Global, text: Option<&str>) -> Result<Option<Name>, AllocError>
    ensures { IfOk result (λ name. name ≡ name_in (option_map (λ text. text.now) text.entry)) }
{
    match text {
        Some(text) => Name::read(alloc, text),
        None => Ok(None),
    }
}

fn read_secret(alloc: Global, text: Option<&str>) -> Result<Option<Key>, AllocError>
    ensures { IfOk result (λ key. key ≡ key_in (option_map (λ text. text.now) text.entry)) }
{
    match text {
        Some(text) => Key::read(alloc, text),
        None => Ok(None),
    }
}
