//! The texts of replies.
ghost use Rattle.std.specs.Prelude.{◌≡◌, IfOk};
ghost use Rattle.serde_json.specs.View.{view};
ghost use Rattle.tb_script.specs.Replies.{reply_text, unreadable_body, unreadable_text};

use crate::line_fault::Unreadable;
use serde_json::{Value, json};
use std::alloc::{AllocError, Global};
use tb_calls::Reply;
use tb_values::Text;

/// What is written for a line that can't be read.
pub(crate) fn write_unreadable(alloc: Global, fault: &Unreadable) -> Result<Text, AllocError>
    ensures { IfOk result (λ text. text ≡ unreadable_text fault.now) }
{
    let body = body_of_fault(alloc, fault)?;
    let body = body.to_string(alloc)?;
    let text = format!(in alloc; "400 - {body}\n")?;
    Ok(Text::from_string(text))
}

/// The reply to a call, or to a view that is refused.
pub(crate) fn write_reply(alloc: Global, reply: &Reply) -> Result<Text, AllocError>
    ensures { IfOk result (λ text. text ≡ reply_text reply.now) }
{
    let status = reply.status;
    let number = reply.number;
    let body = reply.body.as_str();
    let text = format!(in alloc; "{status} {number} {body}\n")?;
    Ok(Text::from_string(text))
}

fn body_of_fault(alloc: Global, fault: &Unreadable) -> Result<Value, AllocError>
    ensures { IfOk result (λ body. view body ≡ unreadable_body fault.now) }
{
    match fault {
        Unreadable::BadLine => json!(in alloc; {"name": "BadLine"}),
        Unreadable::BadBody(fault) => fault.to_json(alloc),
    }
}
