//! Messages of HTTP: what is read of bytes, and the resources that paths name.
use crate::finding::{Finding, missing, push_other, say, show};
use crate::given::{bytes_of, halves, read_count};
use bstr::ByteVec;
use http::Method;
use std::alloc::{AllocError, Global};
use std::io;
use tb_http::{Message, Reader, Routes, WireFault, find_field};
use test_scenes::ends::Pieces;

/// What comes of reading a message.
type Read = Result<Message, WireFault>;

/// The names of what is read first and next, and whether the connection was closed between them.
type Names = (&'static str, &'static str, bool);

/// What is asked of bytes.
pub(crate) fn asked(alloc: Global, word: &str, first: &str, rest: &str) -> Finding {
    let bytes = bytes_of(alloc, rest)?;
    match word {
        "message" => message(alloc, first, bytes.as_slice()),
        "field" => field(alloc, first, bytes.as_slice()),
        _ => Ok(fronts(alloc, first, bytes.as_slice())?),
    }
}

/// What is read first of bytes in pieces of each of the sizes, told once where it is the same.
fn message(alloc: Global, sizes: &str, bytes: &[u8]) -> Finding {
    let mut told = String::new(alloc);
    for size in sizes.split(',') {
        let one = match first_of(alloc, bytes, read_count(size))? {
            Ok(message) => parts_told(alloc, &message)?,
            Err(fault) => String::from_str(alloc, fault.name())?,
        };
        push_other(&mut told, one.as_str())?;
    }
    Ok(told)
}

fn first_of(alloc: Global, bytes: &[u8], size: usize) -> Result<Read, AllocError> {
    let mut reader = Reader::new(alloc, Pieces::of(bytes, size, false))?;
    Ok(reader.read_message(alloc))
}

/// The message that bytes begin with.
pub fn message_of(alloc: Global, bytes: &[u8]) -> io::Result<Message> {
    first_of(alloc, bytes, 4096)?.ok().ok_or(missing())
}

/// A message's content, and what it is known by, a line each.
fn parts_told(alloc: Global, message: &Message) -> Result<String, AllocError> {
    let content = Vec::from_slice(alloc, message.content(alloc)?.as_slice())?;
    let mut told = format!(in alloc; "{:?}\n", content.into_string_lossy()?)?;
    writeln!(told, "{} fields", message.fields.len())?;
    push_named(&mut told, "member", message.member())?;
    push_named(&mut told, "key", message.key())?;
    if let Some(id) = message.request_id() {
        push_named(&mut told, "id", Some(id.text(alloc)?.as_str()))?;
    }
    if message.takes_body() {
        told.push_str("takes a body\n")?;
    }
    Ok(told)
}

fn push_named(told: &mut String, name: &str, value: Option<&str>) -> Result<(), AllocError> {
    match value {
        Some(value) => writeln!(told, "{name} {value}"),
        None => Ok(()),
    }
}

/// The first value of a name in a message's head.
fn field(alloc: Global, name: &str, bytes: &[u8]) -> Finding {
    let message = message_of(alloc, bytes)?;
    let field = find_field(message.fields.as_slice(), name).ok_or(missing())?;
    Ok(Vec::from_slice(alloc, field.value.as_slice())?.into_string_lossy()?)
}

/// What is read of each front of the bytes, where it isn't the same as of the front before it.
fn fronts(alloc: Global, end: &str, bytes: &[u8]) -> Result<String, AllocError> {
    let mut told = String::new(alloc);
    let mut last = ("", "", false);
    for len in 0..=bytes.len() {
        let read = first_names(alloc, &bytes[..len], end == "fails")?;
        if read != last {
            push_names(&mut told, len, read)?;
            last = read;
        }
    }
    Ok(told)
}

fn push_names(told: &mut String, len: usize, names: Names) -> Result<(), AllocError> {
    let (first, next, closes) = names;
    let closed = if closes { ", closed" } else { "" };
    writeln!(told, "{len}: {first}{closed}, {next}")
}

fn first_names(alloc: Global, bytes: &[u8], fails: bool) -> Result<Names, AllocError> {
    let mut reader = Reader::new(alloc, Pieces::of(bytes, 4096, fails))?;
    let first = name_of(&reader.read_message(alloc));
    let closes = reader.closing();
    Ok((first, name_of(&reader.read_message(alloc)), closes))
}

fn name_of(read: &Read) -> &'static str {
    match read {
        Ok(_) => "Message",
        Err(fault) => fault.name(),
    }
}

pub(crate) fn resource(alloc: Global, method: &str, path: &str) -> Finding {
    let routes = Routes::new(alloc)?;
    match Method::from_bytes(alloc, method.as_bytes()) {
        Ok(method) => show(alloc, &routes.resource(&method, path)),
        Err(_) => say(alloc, "no method"),
    }
}
