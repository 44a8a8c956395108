//! What the words of a script ask a server for.
ghost use Rattle.std.specs.Prelude.{◌≡◌, ◌++◌, ◌∷◌, IfOk, codes, false, option_map};
ghost use Rattle.serde_json.specs.View.{view};
ghost use Rattle.serde_json.specs.Written.{compact_text, has_float};
ghost use Rattle.tb_client.specs.Request.{add_call, ahead_call, ahead_data, ahead_request, bare_call, board_call, board_target, board_view, history_target, history_view, call_at, key_call, key_data, key_target, lines_call, lines_text, link_body, link_data, me_view, note_body, note_data, own_key_call, own_key_data, person_call, person_data, request_for, request_named, request_of, retitle_call, role_call, role_data, task_call, task_call_with, task_target, task_view, title_call, title_data, view_at};

use crate::line::add_body;
use serde_json::{Value, json};
use std::alloc::{AllocError, Global};
use tb_board::{Ahead, Name};
use tb_calls::Word;
use tb_task::TaskId;
use tb_values::{Text, read_number};

/// A target, and the body of a call; a view has none.
#[derive(Drop)]
pub struct Request {
    pub target: Text,
    pub body: Option<Text>,
}

/// What the words of a script ask a server for, if they are in one of its forms. Bodies that hold tasks are the arguments as they are.
pub fn request_of(alloc: Global, words: &[Text]) -> Result<Option<Request>, AllocError>
    ensures { IfOk result (λ found. found ≡ request_of words.now) }
{
    match words.split_first() {
        Some((word, arguments)) => request_named(alloc, word.as_str(), arguments),
        None => Ok(None),
    }
}

#[tactic(auto, unfolding(crate::specs::Request::request_named))]
fn request_named(
    alloc: Global,
    name: &str,
    arguments: &[Text],
) -> Result<Option<Request>, AllocError>
    ensures { IfOk result (λ found. found ≡ request_named name.now arguments.now) }
{
    match Word::read(name) {
        Some(word) => request_for(alloc, word, arguments),
        None => Ok(None),
    }
}

#[tactic(auto, unfolding(crate::specs::Request::request_for))]
fn request_for(alloc: Global, word: Word, arguments: &[Text]) -> Result<Option<Request>, AllocError>
    ensures { IfOk result (λ found. found ≡ request_for word arguments.now) }
{
    match word {
        Word::List => board_view(alloc, "/list", arguments),
        Word::Export => board_view(alloc, "/export", arguments),
        Word::Todo => board_view(alloc, "/todo", arguments),
        Word::People => board_view(alloc, "/people", arguments),
        Word::Me => me_view(alloc, arguments),
        Word::History => history_view(alloc, arguments),
        Word::HistoryOf => task_view(alloc, "/history", arguments),
        Word::Task => task_view(alloc, "", arguments),
        Word::Add => add_call(alloc, arguments),
        Word::Import => board_call(alloc, "/import", arguments),
        Word::ImportTodo => lines_call(alloc, arguments),
        Word::Done => task_call(alloc, "/done", arguments),
        Word::Delete => task_call(alloc, "/delete", arguments),
        Word::Reopen => task_call(alloc, "/reopen", arguments),
        Word::Start => task_call(alloc, "/start", arguments),
        Word::Stop => task_call(alloc, "/stop", arguments),
        Word::Annotate => note_call(alloc, "/annotate", arguments),
        Word::Denotate => note_call(alloc, "/denotate", arguments),
        Word::Modify => modify_call(alloc, arguments),
        Word::Depend => link_call(alloc, "/depend", arguments),
        Word::Undepend => link_call(alloc, "/undepend", arguments),
        Word::Sweep => bare_call(alloc, "/sweep", arguments),
        Word::Person => person_call(alloc, arguments),
        Word::Board => title_call(alloc, arguments),
        Word::Role => role_call(alloc, arguments),
        Word::OwnKey => own_key_call(alloc, arguments),
        Word::Key => key_call(alloc, arguments),
        Word::Take => bare_call(alloc, "/take", arguments),
        Word::Title => retitle_call(alloc, arguments),
        Word::Ahead => ahead_call(alloc, arguments),
    }
}

fn board_view(
    alloc: Global,
    suffix: &str,
    arguments: &[Text],
) -> Result<Option<Request>, AllocError>
    ensures { IfOk result (λ found. found ≡ board_view suffix.now arguments.now) }
{
    let [board] = arguments else {
        return Ok(None);
    };
    let target = board_target(alloc, board, suffix)?;
    Ok(view_at(target))
}

fn me_view(alloc: Global, arguments: &[Text]) -> Result<Option<Request>, AllocError>
    ensures { IfOk result (λ found. found ≡ me_view arguments.now) }
{
    if !arguments.is_empty() {
        return Ok(None);
    }
    let target = Text::from_str(alloc, "/me")?;
    Ok(view_at(Some(target)))
}

/// The last entries of a board's history, or those from a number on.
fn history_view(alloc: Global, arguments: &[Text]) -> Result<Option<Request>, AllocError>
    ensures { IfOk result (λ found. found ≡ history_view arguments.now) }
{
    let target = match arguments {
        [board] => board_target(alloc, board, "/history")?,
        [board, first] => history_target(alloc, board, first)?,
        _ => return Ok(None),
    };
    Ok(view_at(target))
}

fn task_view(alloc: Global, suffix: &str, arguments: &[Text]) -> Result<Option<Request>, AllocError>
    ensures { IfOk result (λ found. found ≡ task_view suffix.now arguments.now) }
{
    let [board, uuid] = arguments else {
        return Ok(None);
    };
    let target = task_target(alloc, board, uuid, suffix)?;
    Ok(view_at(target))
}

fn board_call(
    alloc: Global,
    suffix: &str,
    arguments: &[Text],
) -> Result<Option<Request>, AllocError>
    ensures { IfOk result (λ found. found ≡ board_call suffix.now arguments.now) }
{
    let [board, body] = arguments else {
        return Ok(None);
    };
    let target = board_target(alloc, board, suffix)?;
    let body = Text::from_str(alloc, body.as_str())?;
    Ok(call_at(target, body))
}

fn add_call(alloc: Global, arguments: &[Text]) -> Result<Option<Request>, AllocError>
    ensures { IfOk result (λ found. found ≡ add_call arguments.now) }
{
    let Some((board, words)) = arguments.split_first() else {
        return Ok(None);
    };
    let Some(body) = add_body(alloc, words)? else {
        return Ok(None);
    };
    let target = board_target(alloc, board, "/tasks")?;
    Ok(call_at(target, body))
}

fn lines_call(alloc: Global, arguments: &[Text]) -> Result<Option<Request>, AllocError>
    ensures { IfOk result (λ found. found ≡ lines_call arguments.now) }
{
    let Some((board, lines)) = arguments.split_first() else {
        return Ok(None);
    };
    let target = board_target(alloc, board, "/import-todo")?;
    let body = lines_text(alloc, lines)?;
    Ok(call_at(target, body))
}

fn bare_call(alloc: Global, suffix: &str, arguments: &[Text]) -> Result<Option<Request>, AllocError>
    ensures { IfOk result (λ found. found ≡ bare_call suffix.now arguments.now) }
{
    let [board] = arguments else {
        return Ok(None);
    };
    let target = board_target(alloc, board, suffix)?;
    Ok(call_at(target, Text::new(alloc)))
}

fn task_call(alloc: Global, suffix: &str, arguments: &[Text]) -> Result<Option<Request>, AllocError>
    ensures { IfOk result (λ found. found ≡ task_call suffix.now arguments.now) }
{
    let [board, uuid] = arguments else {
        return Ok(None);
    };
    let target = task_target(alloc, board, uuid, suffix)?;
    Ok(call_at(target, Text::new(alloc)))
}

fn note_call(alloc: Global, suffix: &str, arguments: &[Text]) -> Result<Option<Request>, AllocError>
    ensures { IfOk result (λ found. found ≡ task_call_with note_body suffix.now arguments.now) }
{
    let [board, uuid, note] = arguments else {
        return Ok(None);
    };
    let target = task_target(alloc, board, uuid, suffix)?;
    let body = note_value(alloc, note.as_str())?;
    let body = body_text(alloc, &body)?;
    Ok(call_at(target, body))
}

fn modify_call(alloc: Global, arguments: &[Text]) -> Result<Option<Request>, AllocError>
    ensures { IfOk result
        (λ found. found ≡ task_call_with (λ body. body) (codes "/modify") arguments.now) }
{
    let [board, uuid, body] = arguments else {
        return Ok(None);
    };
    let target = task_target(alloc, board, uuid, "/modify")?;
    let body = Text::from_str(alloc, body.as_str())?;
    Ok(call_at(target, body))
}

fn link_call(alloc: Global, suffix: &str, arguments: &[Text]) -> Result<Option<Request>, AllocError>
    ensures { IfOk result (λ found. found ≡ task_call_with link_body suffix.now arguments.now) }
{
    let [board, uuid, other] = arguments else {
        return Ok(None);
    };
    let target = task_target(alloc, board, uuid, suffix)?;
    let body = link_value(alloc, other.as_str())?;
    let body = body_text(alloc, &body)?;
    Ok(call_at(target, body))
}

fn person_call(alloc: Global, arguments: &[Text]) -> Result<Option<Request>, AllocError>
    ensures { IfOk result (λ found. found ≡ person_call arguments.now) }
{
    let [name, key] = arguments else {
        return Ok(None);
    };
    let body = person_value(alloc, name.as_str(), key.as_str())?;
    let body = body_text(alloc, &body)?;
    Ok(call_at(Some(Text::from_str(alloc, "/people")?), body))
}

fn own_key_call(alloc: Global, arguments: &[Text]) -> Result<Option<Request>, AllocError>
    ensures { IfOk result (λ found. found ≡ own_key_call arguments.now) }
{
    let [old, key] = arguments else {
        return Ok(None);
    };
    let body = own_key_value(alloc, old.as_str(), key.as_str())?;
    let body = body_text(alloc, &body)?;
    Ok(call_at(Some(Text::from_str(alloc, "/me/key")?), body))
}

fn key_call(alloc: Global, arguments: &[Text]) -> Result<Option<Request>, AllocError>
    ensures { IfOk result (λ found. found ≡ key_call arguments.now) }
{
    let [name, word] = arguments else {
        return Ok(None);
    };
    let target = key_target(alloc, name)?;
    let body = key_value(alloc, word.as_str())?;
    let body = body_text(alloc, &body)?;
    Ok(call_at(target, body))
}

fn title_call(alloc: Global, arguments: &[Text]) -> Result<Option<Request>, AllocError>
    ensures { IfOk result (λ found. found ≡ title_call arguments.now) }
{
    let [title] = arguments else {
        return Ok(None);
    };
    let body = title_value(alloc, title.as_str())?;
    let body = body_text(alloc, &body)?;
    Ok(call_at(Some(Text::from_str(alloc, "/boards")?), body))
}

fn retitle_call(alloc: Global, arguments: &[Text]) -> Result<Option<Request>, AllocError>
    ensures { IfOk result (λ found. found ≡ retitle_call arguments.now) }
{
    let [board, title] = arguments else {
        return Ok(None);
    };
    let target = board_target(alloc, board, "/title")?;
    let body = title_value(alloc, title.as_str())?;
    let body = body_text(alloc, &body)?;
    Ok(call_at(target, body))
}

fn role_call(alloc: Global, arguments: &[Text]) -> Result<Option<Request>, AllocError>
    ensures { IfOk result (λ found. found ≡ role_call arguments.now) }
{
    let [board, name, word] = arguments else {
        return Ok(None);
    };
    let target = board_target(alloc, board, "/roles")?;
    let body = role_body(alloc, name.as_str(), word.as_str())?;
    let body = body_text(alloc, &body)?;
    Ok(call_at(target, body))
}

fn ahead_call(alloc: Global, arguments: &[Text]) -> Result<Option<Request>, AllocError>
    ensures { IfOk result (λ found. found ≡ ahead_call arguments.now) }
{
    let [board, number] = arguments else {
        return Ok(None);
    };
    let Some(number) = read_number(number.as_str(), u32::MAX) else {
        return Ok(None);
    };
    match Ahead::read(number as u64) {
        Some(ahead) => ahead_request(alloc, board, ahead),
        None => Ok(None),
    }
}

fn ahead_request(alloc: Global, board: &Text, ahead: Ahead) -> Result<Option<Request>, AllocError>
    ensures { IfOk result (λ found. found ≡ ahead_request board.now ahead) }
{
    let target = board_target(alloc, board, "/ahead")?;
    let body = ahead_value(alloc, ahead.number())?;
    let body = body_text(alloc, &body)?;
    Ok(call_at(target, body))
}

fn note_value(alloc: Global, note: &str) -> Result<Value, AllocError>
    ensures { IfOk result (λ body. view body ≡ note_data note.now) }
{
    json!(in alloc; {"description": note})
}

fn link_value(alloc: Global, other: &str) -> Result<Value, AllocError>
    ensures { IfOk result (λ body. view body ≡ link_data other.now) }
{
    json!(in alloc; {"on": other})
}

fn person_value(alloc: Global, name: &str, key: &str) -> Result<Value, AllocError>
    ensures { IfOk result (λ body. view body ≡ person_data name.now key.now) }
{
    json!(in alloc; {"key": key, "name": name})
}

fn own_key_value(alloc: Global, old: &str, key: &str) -> Result<Value, AllocError>
    ensures { IfOk result (λ body. view body ≡ own_key_data old.now key.now) }
{
    json!(in alloc; {"key": key, "old": old})
}

/// The body of a key, which `none` takes.
fn key_value(alloc: Global, word: &str) -> Result<Value, AllocError>
    ensures { IfOk result (λ body. view body ≡ key_data word.now) }
{
    if word == "none" {
        json!(in alloc; {"key": null})
    } else {
        json!(in alloc; {"key": word})
    }
}

fn title_value(alloc: Global, title: &str) -> Result<Value, AllocError>
    ensures { IfOk result (λ body. view body ≡ title_data title.now) }
{
    json!(in alloc; {"title": title})
}

/// The body of a role, which `none` ends.
fn role_body(alloc: Global, name: &str, word: &str) -> Result<Value, AllocError>
    ensures { IfOk result (λ body. view body ≡ role_data name.now word.now) }
{
    if word == "none" {
        json!(in alloc; {"member": name, "role": null})
    } else {
        json!(in alloc; {"member": name, "role": word})
    }
}

fn ahead_value(alloc: Global, number: u8) -> Result<Value, AllocError>
    ensures { IfOk result (λ body. view body ≡ ahead_data number) }
{
    json!(in alloc; {"ahead": number})
}

fn body_text(alloc: Global, body: &Value) -> Result<Text, AllocError>
    requires { has_float (view body.now) ≡ false }
    ensures { IfOk result (λ text. text ≡ compact_text (view body.now)) }
{
    Ok(Text::from_string(body.to_string(alloc)?))
}

pub(crate) fn view_at(target: Option<Text>) -> Option<Request>
    ensures { result ≡ option_map view_at target }
{
    match target {
        Some(target) => Some(Request { target, body: None }),
        None => None,
    }
}

fn call_at(target: Option<Text>, body: Text) -> Option<Request>
    ensures { result ≡ option_map (call_at body) target }
{
    match target {
        Some(target) => Some(Request {
            target,
            body: Some(body),
        }),
        None => None,
    }
}

/// A path below a board.
pub(crate) fn board_target(
    alloc: Global,
    board: &Text,
    suffix: &str,
) -> Result<Option<Text>, AllocError>
    ensures { IfOk result (λ target. target ≡ board_target board.now suffix.now) }
{
    let board = board.as_str();
    if read_number(board, u32::MAX).is_none() {
        return Ok(None);
    }
    let mut target = String::new(alloc);
    write!(target, "/boards/{board}{suffix}")?;
    Ok(Some(Text::from_string(target)))
}

/// The path of a board's history from a number on.
fn history_target(alloc: Global, board: &Text, first: &Text) -> Result<Option<Text>, AllocError>
    ensures { IfOk result (λ target. target ≡ history_target board.now first.now) }
{
    let board = board.as_str();
    let first = first.as_str();
    if read_number(board, u32::MAX).is_none() || read_number(first, u32::MAX).is_none() {
        return Ok(None);
    }
    let mut target = String::new(alloc);
    write!(target, "/boards/{board}/history/{first}")?;
    Ok(Some(Text::from_string(target)))
}

/// The path of the key of a person.
fn key_target(alloc: Global, name: &Text) -> Result<Option<Text>, AllocError>
    ensures { IfOk result (λ target. target ≡ key_target name.now) }
{
    let name = name.as_str();
    if !Name::fits(name) {
        return Ok(None);
    }
    let mut target = String::new(alloc);
    write!(target, "/people/{name}/key")?;
    Ok(Some(Text::from_string(target)))
}

/// A path below a task of a board.
fn task_target(
    alloc: Global,
    board: &Text,
    uuid: &Text,
    suffix: &str,
) -> Result<Option<Text>, AllocError>
    ensures { IfOk result (λ target. target ≡ task_target board.now uuid.now suffix.now) }
{
    let board = board.as_str();
    let uuid = uuid.as_str();
    if read_number(board, u32::MAX).is_none() || TaskId::read(uuid).is_none() {
        return Ok(None);
    }
    let mut target = String::new(alloc);
    write!(target, "/boards/{board}/tasks/{uuid}{suffix}")?;
    Ok(Some(Text::from_string(target)))
}

/// The lines, each with its line feed.
fn lines_text(alloc: Global, lines: &[Text]) -> Result<Text, AllocError>
    ensures { IfOk result (λ text. text ≡ lines_text lines.now) }
{
    let mut text = Text::new(alloc);
    for line in lines {
        text.push_str(line.as_str())?;
        text.push_str("\n")?;
    }
    Ok(text)
}
