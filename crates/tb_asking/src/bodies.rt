//! Bodies that hold tasks.
ghost use Rattle.std.specs.Prelude.{◌≡◌, Some, option_map};
ghost use Rattle.serde_json.specs.View.{view};
ghost use Rattle.tb_asking.specs.BodyFault.{Reads};
ghost use Rattle.tb_asking.specs.Bodies.{edits_in, edits_of, import_in, incoming_in, incoming_of, text_in, todo_in};

use crate::body_fault::{BadBody, BodyFault};
use serde_json::Value;
use std::alloc::Global;
use tb_json::{ImportFault, JsonFault, parse, read_import, read_modify, read_task};
use tb_task::{Edit, Incoming, Moment, Task};
use tb_todotxt::{FileFault, read_file};
use tb_values::Items;

/// The text that bytes are, if they are UTF-8.
pub fn read_text(bytes: &[u8]) -> Option<&str>
    ensures { option_map (λ text. text.now) result ≡ text_in bytes.now }
{
    match str::from_utf8(bytes) {
        Ok(text) => Some(text),
        Err(_) => None,
    }
}

/// The task that a text is when it comes in at a moment.
pub fn read_incoming(alloc: Global, text: &str, at: Moment) -> Result<Incoming, BodyFault>
    ensures { Reads result (incoming_in text.now at) }
{
    match parse(alloc, text)? {
        Some(value) => incoming_from(alloc, &value, at),
        None => Err(BodyFault::Refused(BadBody::Whole)),
    }
}

fn incoming_from(alloc: Global, value: &Value, at: Moment) -> Result<Incoming, BodyFault>
    ensures { Reads result (incoming_of (Some (view value.now)) at) }
{
    match read_task(alloc, value, at) {
        Ok(incoming) => Ok(incoming),
        Err(JsonFault::NotObject) => Err(BodyFault::Refused(BadBody::Whole)),
        Err(JsonFault::BadField(name)) => Err(BodyFault::Refused(BadBody::Field(name))),
        Err(JsonFault::Memory) => Err(BodyFault::Memory),
    }
}

/// The edits that a text asks for.
pub fn read_edits(alloc: Global, text: &str) -> Result<Items<Edit>, BodyFault>
    ensures { Reads result (edits_in text.now) }
{
    match parse(alloc, text)? {
        Some(value) => edits_from(alloc, &value),
        None => Err(BodyFault::Refused(BadBody::Whole)),
    }
}

fn edits_from(alloc: Global, value: &Value) -> Result<Items<Edit>, BodyFault>
    ensures { Reads result (edits_of (Some (view value.now))) }
{
    match read_modify(alloc, value) {
        Ok(edits) => Ok(edits),
        Err(JsonFault::NotObject) => Err(BodyFault::Refused(BadBody::Whole)),
        Err(JsonFault::BadField(name)) => Err(BodyFault::Refused(BadBody::Field(name))),
        Err(JsonFault::Memory) => Err(BodyFault::Memory),
    }
}

/// The tasks of an import's text at a moment.
pub fn read_imported(alloc: Global, text: &str, at: Moment) -> Result<Items<Incoming>, BodyFault>
    ensures { Reads result (import_in text.now at) }
{
    match read_import(alloc, text.as_bytes(), at) {
        Ok(tasks) => Ok(tasks),
        Err(ImportFault::NotJson) => Err(BodyFault::Refused(BadBody::Whole)),
        Err(ImportFault::TooMany) => Err(BodyFault::Refused(BadBody::Whole)),
        Err(ImportFault::BadTask(at, name)) => Err(BodyFault::Refused(BadBody::Item(at, name))),
        Err(ImportFault::Memory) => Err(BodyFault::Memory),
    }
}

/// The tasks that lines of todo.txt make on a board at a moment.
pub fn read_todo(
    alloc: Global,
    text: &str,
    at: Moment,
    board: u32,
) -> Result<Items<Task>, BodyFault>
    ensures { Reads result (todo_in text.now at board) }
{
    match read_file(alloc, text, at, board) {
        Ok(tasks) => Ok(tasks),
        Err(FileFault::TooMany) => Err(BodyFault::Refused(BadBody::Whole)),
        Err(FileFault::Memory) => Err(BodyFault::Memory),
    }
}
