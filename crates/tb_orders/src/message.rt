//! The message of an import.
ghost use Rattle.std.specs.Prelude.{◌≡◌, IfOk};
ghost use Rattle.tb_orders.specs.Message.{field, fields_under, message_of, message_under, target_of};

use http::Method;
use std::alloc::{AllocError, Global};
use tb_command_line::{ImportKind, ImportOrder};
use tb_http::{Field, Message};
use tb_task::TaskId;
use tb_values::{Items, Text};

/// The message by which the same import comes over HTTP.
pub fn import_message(
    alloc: Global,
    order: &ImportOrder,
    text: Items<u8>,
) -> Result<Message, AllocError>
    ensures { IfOk result (λ message. message ≡ message_of order.now text) }
{
    message_under(alloc, order, order.id, text)
}

/// The same message, but under another identifier.
pub(crate) fn message_under(
    alloc: Global,
    order: &ImportOrder,
    id: TaskId,
    text: Items<u8>,
) -> Result<Message, AllocError>
    ensures { IfOk result (λ message. message ≡ message_under order.now id text) }
{
    let target = target_of(alloc, order)?;
    let fields = fields_under(alloc, order, id)?;
    Ok(Message {
        method: Method::POST,
        target,
        fields,
        body: text,
    })
}

fn target_of(alloc: Global, order: &ImportOrder) -> Result<Text, AllocError>
    ensures { IfOk result (λ target. target ≡ target_of order.now) }
{
    let board = order.board;
    let mut target = String::new(alloc);
    match order.kind {
        ImportKind::Json => write!(target, "/boards/{board}/import")?,
        ImportKind::Todo => write!(target, "/boards/{board}/import-todo")?,
    }
    Ok(Text::from_string(target))
}

fn fields_under(alloc: Global, order: &ImportOrder, id: TaskId) -> Result<Items<Field>, AllocError>
    ensures { IfOk result (λ fields. fields ≡ fields_under order.now id) }
{
    let member = field(alloc, "x-member", order.member.as_str().as_bytes())?;
    let key = field(alloc, "x-key", order.key.as_str().as_bytes())?;
    let id = field(alloc, "x-request-id", &id.write())?;
    let mut fields = Vec::new(alloc);
    fields.push(member)?;
    fields.push(key)?;
    fields.push(id)?;
    Ok(Items::from_vec(fields))
}

fn field(alloc: Global, name: &str, value: &[u8]) -> Result<Field, AllocError>
    ensures { IfOk result (λ made. made ≡ field name.now value.now) }
{
    Ok(Field {
        name: Items::from_vec(Vec::from_slice(alloc, name.as_bytes())?),
        value: Items::from_vec(Vec::from_slice(alloc, value)?),
    })
}
