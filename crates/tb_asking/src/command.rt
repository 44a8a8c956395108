//! The commands that the bodies of messages hold.
ghost use Rattle.std.specs.Prelude.{◌≡◌, IfOk, option_map};
ghost use Rattle.std.specs.Result.{result_map_both};
ghost use Rattle.serde_json.specs.View.{view};
ghost use Rattle.tb_asking.specs.BodyFault.{Reads};
ghost use Rattle.tb_asking.specs.Bodies.{text_in};
ghost use Rattle.tb_asking.specs.Command as commands;

use crate::bodies::{read_edits, read_imported, read_incoming, read_text, read_todo};
use crate::body_fault::{BadBody, BodyFault};
use serde_json::Value;
use std::alloc::{AllocError, Global};
use tb_board::{Ahead, Key, Name, Role, Title};
use tb_core::{Action, BoardCommand, Command, Import};
use tb_http::{
    BoardCall, CallTarget, PersonName, TaskCall, is_empty_object, read_ahead, read_description,
    read_key, read_link, read_own_key, read_person, read_role, read_title,
};
use tb_json::parse;
use tb_task::{Moment, TaskId};
use tb_values::Text;

/// The command of a body at a moment.
pub(crate) fn read_command(
    alloc: Global,
    target: CallTarget<'_>,
    body: &[u8],
    at: Moment,
) -> Result<Command, BodyFault>
    ensures { Reads result (commands.command_in target.entry (text_in body.now) at) }
{
    match read_text(body) {
        Some(text) => command_of(alloc, target, text, at),
        None => Err(BodyFault::Refused(BadBody::Whole)),
    }
}

#[tactic(auto, unfolding(crate::specs::Command::command_of))]
fn command_of(
    alloc: Global,
    target: CallTarget<'_>,
    text: &str,
    at: Moment,
) -> Result<Command, BodyFault>
    ensures { Reads result (commands.command_of target.entry text.now at) }
{
    let (board, command) = match target {
        CallTarget::People => return new_person(alloc, text),
        CallTarget::OwnKey => return own_key(alloc, text),
        CallTarget::PersonKey(name) => return set_key(alloc, &name, text),
        CallTarget::Boards => return new_board(alloc, text),
        CallTarget::Roles(board) => return set_role(alloc, board, text),
        CallTarget::Take(board) => return take(alloc, board, text),
        CallTarget::Board(board, call) => (board, on_board(alloc, board, call, text, at)?),
        CallTarget::Task(board, id, call) => (board, on_task(alloc, id, call, text)?),
    };
    Ok(Command::OnBoard { board, command })
}

// What a call does to the board of this number.
fn on_board(
    alloc: Global,
    board: u32,
    call: BoardCall,
    text: &str,
    at: Moment,
) -> Result<BoardCommand, BodyFault>
    ensures { Reads result (commands.on_board board call text.now at) }
{
    match call {
        BoardCall::Add => add(alloc, text, at),
        BoardCall::Sweep => bare(alloc, BoardCommand::Sweep, text),
        BoardCall::Ahead => set_ahead(alloc, text),
        BoardCall::Title => retitle(alloc, text),
        BoardCall::Import => import(alloc, text, at),
        BoardCall::ImportTodo => import_todo(alloc, board, text, at),
    }
}

// What a call does to the task of this identifier.
fn on_task(alloc: Global, id: TaskId, call: TaskCall, text: &str) -> Result<BoardCommand, BodyFault>
    ensures { Reads result (commands.on_task id call text.now) }
{
    match call {
        TaskCall::Done => bare(alloc, acting(id, Action::Done), text),
        TaskCall::Delete => bare(alloc, acting(id, Action::Delete), text),
        TaskCall::Reopen => bare(alloc, acting(id, Action::Reopen), text),
        TaskCall::Start => bare(alloc, acting(id, Action::Start), text),
        TaskCall::Stop => bare(alloc, acting(id, Action::Stop), text),
        TaskCall::Modify => modify(alloc, id, text),
        TaskCall::Annotate => annotate(alloc, id, text),
        TaskCall::Denotate => denotate(alloc, id, text),
        TaskCall::Depend => depend(alloc, id, text),
        TaskCall::Undepend => undepend(alloc, id, text),
    }
}

fn acting(id: TaskId, action: Action) -> BoardCommand
    ensures { result ≡ BoardCommand.OnTask id action }
{
    BoardCommand::OnTask { id, action }
}

// Whether a body is empty, or an object without members.
fn is_bare(alloc: Global, text: &str) -> Result<bool, AllocError>
    ensures { IfOk result (λ is. is ≡ commands.is_bare text.now) }
{
    if text.len() == 0 {
        return Ok(true);
    }
    match parse(alloc, text)? {
        Some(value) => Ok(is_empty_object(&value)),
        None => Ok(false),
    }
}

// A command of which the body says no more than the path.
fn bare(alloc: Global, command: BoardCommand, text: &str) -> Result<BoardCommand, BodyFault>
    ensures { Reads result (commands.bare command text.now) }
{
    if is_bare(alloc, text)? {
        Ok(command)
    } else {
        Err(BodyFault::Refused(BadBody::Whole))
    }
}

// The JSON that a body is.
fn read_json(alloc: Global, text: &str) -> Result<Value, BodyFault>
    ensures { Reads (result_map_both view (λ fault. fault) result) (commands.json_in text.now) }
{
    match parse(alloc, text)? {
        Some(value) => Ok(value),
        None => Err(BodyFault::Refused(BadBody::Whole)),
    }
}

fn new_person(alloc: Global, text: &str) -> Result<Command, BodyFault>
    ensures { Reads result (commands.new_person text.now) }
{
    let value = read_json(alloc, text)?;
    match read_person(&value) {
        Some(body) => person_named(alloc, body.name, body.key),
        None => Err(BodyFault::Refused(BadBody::Whole)),
    }
}

fn person_named(alloc: Global, name: &str, key: &str) -> Result<Command, BodyFault>
    ensures { Reads result (commands.person_named name.now key.now) }
{
    let Some(name) = Name::read(alloc, name)? else {
        return Err(BodyFault::Refused(BadBody::Whole));
    };
    let Some(key) = Key::read(alloc, key)? else {
        return Err(BodyFault::Refused(BadBody::Whole));
    };
    Ok(Command::NewPerson { name, key })
}

fn own_key(alloc: Global, text: &str) -> Result<Command, BodyFault>
    ensures { Reads result (commands.own_key text.now) }
{
    let value = read_json(alloc, text)?;
    match read_own_key(&value) {
        Some(body) => own_key_named(alloc, body.old, body.key),
        None => Err(BodyFault::Refused(BadBody::Whole)),
    }
}

fn own_key_named(alloc: Global, old: &str, key: &str) -> Result<Command, BodyFault>
    ensures { Reads result (commands.own_key_named old.now key.now) }
{
    let Some(old) = Key::read(alloc, old)? else {
        return Err(BodyFault::Refused(BadBody::Whole));
    };
    let Some(new) = Key::read(alloc, key)? else {
        return Err(BodyFault::Refused(BadBody::Whole));
    };
    Ok(Command::OwnKey { old, new })
}

fn key_or_none(alloc: Global, key: Option<&str>) -> Result<Option<Key>, BodyFault>
    ensures { Reads result (commands.key_or_none (option_map (λ text. text.now) key.entry)) }
{
    let Some(text) = key else {
        return Ok(None);
    };
    match Key::read(alloc, text)? {
        Some(key) => Ok(Some(key)),
        None => Err(BodyFault::Refused(BadBody::Whole)),
    }
}

fn set_key(alloc: Global, name: &PersonName<'_>, text: &str) -> Result<Command, BodyFault>
    ensures { Reads result (commands.set_key name.now text.now) }
{
    let value = read_json(alloc, text)?;
    let Some(body) = read_key(&value) else {
        return Err(BodyFault::Refused(BadBody::Whole));
    };
    let key = key_or_none(alloc, body)?;
    let name = name.name(alloc)?;
    Ok(Command::SetKey { name, key })
}

fn take(alloc: Global, board: u32, text: &str) -> Result<Command, BodyFault>
    ensures { Reads result (commands.take board text.now) }
{
    if is_bare(alloc, text)? {
        Ok(Command::Take { board })
    } else {
        Err(BodyFault::Refused(BadBody::Whole))
    }
}

fn new_board(alloc: Global, text: &str) -> Result<Command, BodyFault>
    ensures { Reads result (commands.new_board text.now) }
{
    let value = read_json(alloc, text)?;
    let Some(title) = read_title(&value) else {
        return Err(BodyFault::Refused(BadBody::Whole));
    };
    match Title::read(alloc, title)? {
        Some(title) => Ok(Command::NewBoard { title }),
        None => Err(BodyFault::Refused(BadBody::Whole)),
    }
}

fn role_named(word: &str) -> Role
    ensures { result ≡ commands.role_named word.now }
{
    match word {
        "owner" => Role::Owner,
        "member" => Role::Member,
        _ => Role::Reader,
    }
}

fn role_or_none(word: Option<&str>) -> Option<Role>
    ensures { result ≡ option_map commands.role_named (option_map (λ word. word.now) word.entry) }
{
    match word {
        Some(word) => Some(role_named(word)),
        None => None,
    }
}

fn set_role(alloc: Global, board: u32, text: &str) -> Result<Command, BodyFault>
    ensures { Reads result (commands.set_role board text.now) }
{
    let value = read_json(alloc, text)?;
    let Some(body) = read_role(&value) else {
        return Err(BodyFault::Refused(BadBody::Whole));
    };
    match Name::read(alloc, body.member)? {
        Some(name) => Ok(Command::SetRole {
            board,
            name,
            role: role_or_none(body.role),
        }),
        None => Err(BodyFault::Refused(BadBody::Whole)),
    }
}

fn add(alloc: Global, text: &str, at: Moment) -> Result<BoardCommand, BodyFault>
    ensures { Reads result (commands.add text.now at) }
{
    let incoming = read_incoming(alloc, text, at)?;
    Ok(BoardCommand::Add { incoming })
}

fn set_ahead(alloc: Global, text: &str) -> Result<BoardCommand, BodyFault>
    ensures { Reads result (commands.set_ahead text.now) }
{
    let value = read_json(alloc, text)?;
    let Some(number) = read_ahead(&value) else {
        return Err(BodyFault::Refused(BadBody::Whole));
    };
    match Ahead::read(number) {
        Some(ahead) => Ok(BoardCommand::SetAhead { ahead }),
        None => Err(BodyFault::Refused(BadBody::Whole)),
    }
}

fn retitle(alloc: Global, text: &str) -> Result<BoardCommand, BodyFault>
    ensures { Reads result (commands.retitle text.now) }
{
    let value = read_json(alloc, text)?;
    let Some(title) = read_title(&value) else {
        return Err(BodyFault::Refused(BadBody::Whole));
    };
    match Title::read(alloc, title)? {
        Some(title) => Ok(BoardCommand::Retitle { title }),
        None => Err(BodyFault::Refused(BadBody::Whole)),
    }
}

fn import(alloc: Global, text: &str, at: Moment) -> Result<BoardCommand, BodyFault>
    ensures { Reads result (commands.import text.now at) }
{
    let tasks = read_imported(alloc, text, at)?;
    Ok(BoardCommand::Import(Import::Json { tasks }))
}

fn import_todo(alloc: Global, board: u32, text: &str, at: Moment) -> Result<BoardCommand, BodyFault>
    ensures { Reads result (commands.import_todo board text.now at) }
{
    let tasks = read_todo(alloc, text, at, board)?;
    Ok(BoardCommand::Import(Import::Todo { tasks }))
}

fn modify(alloc: Global, id: TaskId, text: &str) -> Result<BoardCommand, BodyFault>
    ensures { Reads result (commands.modify id text.now) }
{
    let edits = read_edits(alloc, text)?;
    Ok(BoardCommand::Modify { id, edits })
}

fn annotate(alloc: Global, id: TaskId, text: &str) -> Result<BoardCommand, BodyFault>
    ensures { Reads result (commands.annotate id text.now) }
{
    let value = read_json(alloc, text)?;
    let Some(text) = read_description(&value) else {
        return Err(BodyFault::Refused(BadBody::Whole));
    };
    let text = Text::from_str(alloc, text)?;
    Ok(acting(id, Action::Annotate(text)))
}

fn denotate(alloc: Global, id: TaskId, text: &str) -> Result<BoardCommand, BodyFault>
    ensures { Reads result (commands.denotate id text.now) }
{
    let value = read_json(alloc, text)?;
    let Some(text) = read_description(&value) else {
        return Err(BodyFault::Refused(BadBody::Whole));
    };
    let text = Text::from_str(alloc, text)?;
    Ok(acting(id, Action::Denotate(text)))
}

fn depend(alloc: Global, id: TaskId, text: &str) -> Result<BoardCommand, BodyFault>
    ensures { Reads result (commands.depend id text.now) }
{
    let value = read_json(alloc, text)?;
    match read_link(&value) {
        Some(on) => Ok(BoardCommand::Depend { id, on }),
        None => Err(BodyFault::Refused(BadBody::Whole)),
    }
}

fn undepend(alloc: Global, id: TaskId, text: &str) -> Result<BoardCommand, BodyFault>
    ensures { Reads result (commands.undepend id text.now) }
{
    let value = read_json(alloc, text)?;
    match read_link(&value) {
        Some(on) => Ok(BoardCommand::Undepend { id, on }),
        None => Err(BodyFault::Refused(BadBody::Whole)),
    }
}
