//! The bytes of a message.
ghost use Rattle.std.specs.Prelude.{◌≡◌, IfOk};
ghost use Rattle.std.specs.String.{string_bytes};
ghost use Rattle.tb_client.specs.Request.{call_message, message_of, sender_lines, view_message};

use crate::request::Request;
use std::alloc::{AllocError, Global};
use tb_board::{Key, Name};
use tb_task::TaskId;
use tb_values::Text;

/// Who sends a message, and to which server.
#[derive(Drop)]
pub struct Sender {
    /// An address and a port.
    pub server: Text,
    pub member: Name,
    pub key: Key,
}

/// The message of a request. A call's is known by its identifier, and a view's has none.
pub fn message_of(
    alloc: Global,
    sender: &Sender,
    id: TaskId,
    request: &Request,
) -> Result<Text, AllocError>
    ensures { IfOk result (λ text. text ≡ message_of sender.now id request.now) }
{
    let target = request.target.as_str();
    match &request.body {
        None => view_message(alloc, sender, target),
        Some(body) => call_message(alloc, sender, id, target, body.as_str()),
    }
}

fn view_message(alloc: Global, sender: &Sender, target: &str) -> Result<Text, AllocError>
    ensures { IfOk result (λ text. text ≡ view_message sender.now target.now) }
{
    let lines = sender_lines(alloc, sender)?;
    let lines = lines.as_str();
    let mut text = String::new(alloc);
    write!(text, "GET {target} HTTP/1.1\r\n{lines}\r\n")?;
    Ok(Text::from_string(text))
}

fn call_message(
    alloc: Global,
    sender: &Sender,
    id: TaskId,
    target: &str,
    body: &str,
) -> Result<Text, AllocError>
    ensures { IfOk result (λ text. text ≡ call_message sender.now id target.now body.now) }
{
    let lines = sender_lines(alloc, sender)?;
    let lines = lines.as_str();
    let id = id.text(alloc)?;
    let id = id.as_str();
    let size = body.len();
    let mut text = String::new(alloc);
    write!(
        text,
        "POST {target} HTTP/1.1\r\n{lines}x-request-id: {id}\r\ncontent-length: {size}\r\n\r\n{body}"
    )?;
    Ok(Text::from_string(text))
}

/// The host, who sends the message, and that the connection ends with the answer.
#[tactic(auto, unfolding(crate::specs::Request::sender_lines))]
fn sender_lines(alloc: Global, sender: &Sender) -> Result<Text, AllocError>
    ensures { IfOk result (λ text. text ≡ sender_lines sender.now) }
{
    let server = sender.server.as_str();
    let member = sender.member.as_str();
    let key = sender.key.as_str();
    let mut text = String::new(alloc);
    write!(
        text,
        "host: {server}\r\nx-member: {member}\r\nx-key: {key}\r\nconnection: close\r\n"
    )?;
    Ok(Text::from_string(text))
}
