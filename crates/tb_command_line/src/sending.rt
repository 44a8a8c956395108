//! The order to send a call or a view: its words begin with options, and end with the words of a script, which begin with anything.
ghost use Rattle.std.specs.Prelude.{◌≡◌, ◌∷◌, IfOk, Bool, List, codes, drop, false, map, option_map, true, ℕ, if◌then◌else◌};
ghost use Rattle.tb_command_line.specs.Outcome.{Reads, or_bad};
ghost use Rattle.tb_command_line.specs.Sending.{behind, key_in, my_of, option_in, option_value, seconds_in, send_of, sent_with, server_in};
ghost use Rattle.tb_task.specs.TaskId.{read_id};
ghost use Rattle.tb_board.specs.Names.{read_name};

use crate::order::{MyOrder, Order, SendOrder, WordsFault};
use crate::server::is_server;
use std::alloc::{AllocError, Global};
use tb_board::{Key, Name};
use tb_task::TaskId;
use tb_values::{Items, Text, read_number};

/// The longest time that a call is sent again, in seconds.
pub const MOST_SECONDS: u32 = 86_400;

const USUAL_SECONDS: u32 = 60;

/// The order that the words after `send` are.
#[tactic(auto, unfolding(crate::specs::Sending::send_of))]
pub(crate) fn read_send(alloc: Global, words: &[&str]) -> Result<Order, WordsFault>
    ensures { Reads result (send_of (map (λ word. word.now) words.entry.now)) }
{
    let id = id_option(words)?;
    let words = behind(words, id.is_some());
    let seconds = seconds_option(words)?;
    let words = behind(words, seconds.is_some());
    read_sent(alloc, id, seconds, words)
}

/// The order that the words after `my` are.
pub(crate) fn read_my(alloc: Global, words: &[&str]) -> Result<Order, WordsFault>
    ensures { Reads result (my_of (map (λ word. word.now) words.entry.now)) }
{
    let words = texts_of(alloc, words)?;
    Ok(Order::My(MyOrder { words }))
}

fn id_option(words: &[&str]) -> Result<Option<TaskId>, WordsFault>
    ensures { result ≡ option_in (codes "--id") read_id (map (λ word. word.now) words.entry.now) }
{
    let Some(value) = option_value(words, "--id") else {
        return Ok(None);
    };
    match TaskId::read(value) {
        Some(id) => Ok(Some(id)),
        None => Err(WordsFault::Bad),
    }
}

fn seconds_option(words: &[&str]) -> Result<Option<u32>, WordsFault>
    ensures { result
        ≡ option_in (codes "--for") seconds_in (map (λ word. word.now) words.entry.now) }
{
    let Some(value) = option_value(words, "--for") else {
        return Ok(None);
    };
    match read_number(value, MOST_SECONDS) {
        Some(seconds) => Ok(Some(seconds)),
        None => Err(WordsFault::Bad),
    }
}

/// The word behind an option, where that is in front of the words.
pub fn option_value<'t>(words: &[&'t str], name: &str) -> Option<&'t str>
    ensures { option_map (λ value. value.now) result
        ≡ option_value name.now (map (λ word. word.now) words.entry.now) }
{
    let [first, value, ..] = words else {
        return None;
    };
    if *first == name { Some(*value) } else { None }
}

/// The words behind an option, where it was in front of them.
fn behind<'w, 't>(words: &'w [&'t str], is_given: bool) -> &'w [&'t str]
    ensures { map (λ word. word.now) result.now
        ≡ (if is_given then drop 2 (map (λ word. word.now) words.entry.now)
        else map (λ word. word.now) words.entry.now) }
{
    if !is_given {
        return words;
    }
    match words {
        [_, _, rest @ ..] => rest,
        _ => &[],
    }
}

fn read_sent(
    alloc: Global,
    id: Option<TaskId>,
    seconds: Option<u32>,
    words: &[&str],
) -> Result<Order, WordsFault>
    ensures { Reads result (sent_with id seconds (map (λ word. word.now) words.entry.now)) }
{
    let [server, member, key, script @ ..] = words else {
        return Err(WordsFault::Bad);
    };
    if script.is_empty() {
        return Err(WordsFault::Bad);
    }
    let server = read_server(alloc, server)?;
    let member = read_member(alloc, member)?;
    let key = read_key_or_none(alloc, key)?;
    Ok(Order::Send(SendOrder {
        server,
        member,
        key,
        id,
        seconds: seconds.unwrap_or(USUAL_SECONDS),
        words: texts_of(alloc, script)?,
    }))
}

fn read_server(alloc: Global, text: &str) -> Result<Text, WordsFault>
    ensures { Reads result (or_bad (server_in text.now)) }
{
    if !is_server(text) {
        return Err(WordsFault::Bad);
    }
    Ok(Text::from_str(alloc, text)?)
}

fn read_member(alloc: Global, text: &str) -> Result<Name, WordsFault>
    ensures { Reads result (or_bad (read_name text.now)) }
{
    match Name::read(alloc, text)? {
        Some(name) => Ok(name),
        None => Err(WordsFault::Bad),
    }
}

fn read_key_or_none(alloc: Global, text: &str) -> Result<Option<Key>, WordsFault>
    ensures { Reads result (or_bad (key_in text.now)) }
{
    if text == "-" {
        return Ok(None);
    }
    match Key::read(alloc, text)? {
        Some(key) => Ok(Some(key)),
        None => Err(WordsFault::Bad),
    }
}

fn texts_of(alloc: Global, words: &[&str]) -> Result<Items<Text>, AllocError>
    ensures { IfOk result (λ texts. texts ≡ map (λ word. word.now) words.entry.now) }
{
    let mut texts = Items::with_capacity(alloc, words.len())?;
    for word in words {
        texts.push(Text::from_str(alloc, word)?)?;
    }
    Ok(texts)
}
