//! The reply to a command, from its answer.
ghost use Rattle.std.specs.Prelude.{◌≡◌, false, Err, IfOk};
ghost use Rattle.serde_json.specs.View.{view};
ghost use Rattle.serde_json.specs.Written.{compact_text, has_float};
ghost use Rattle.tb_calls.specs.Reply.{reply_of};

use crate::bodies::{body_of_answer, body_of_refusal};
use crate::reply::Reply;
use serde_json::Value;
use std::alloc::{AllocError, Global};
use tb_core::{Answer, Refusal};
use tb_values::Text;

/// The reply to a command.
#[tactic(auto, unfolding(crate::specs::Reply::reply_of))]
pub fn reply_to(alloc: Global, answer: &Result<Answer, Refusal>) -> Result<Reply, AllocError>
    ensures { IfOk result (λ reply. reply ≡ reply_of answer.now) }
{
    match answer {
        Ok(answer) => {
            let body = body_of_answer(alloc, answer)?;
            write_reply(alloc, 0, 200, &body)
        }
        Err(refusal) => reply_to_refused(alloc, *refusal),
    }
}

/// The reply to what is refused.
#[tactic(auto, unfolding(crate::specs::Reply::reply_of))]
pub fn reply_to_refused(alloc: Global, refusal: Refusal) -> Result<Reply, AllocError>
    ensures { IfOk result (λ reply. reply ≡ reply_of (Err refusal)) }
{
    let body = body_of_refusal(alloc, refusal)?;
    write_reply(alloc, refusal.number(), refusal.status(), &body)
}

fn write_reply(alloc: Global, number: u8, status: u16, body: &Value) -> Result<Reply, AllocError>
    requires { has_float (view body.now) ≡ false }
    ensures { IfOk result
        (λ reply. reply ≡ record {
          number = number;
          status = status;
          body = compact_text (view body.now);
        }) }
{
    let body = Text::from_string(body.to_string(alloc)?);
    Ok(Reply {
        number,
        status,
        body,
    })
}
