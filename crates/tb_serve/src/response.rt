//! What answers a message that was read.
ghost use Rattle.std.specs.Prelude.{◌≡◌, IfOk};
ghost use Rattle.tb_serve.specs.Telling.{answer_of, told_fault, told_rejection, told_reply, told_view};

use std::alloc::{AllocError, Global};
use tb_asking::Rejection;
use tb_calls::{Reply, View};
use tb_http::{Answer, ContentType, Verb, WireFault};
use tb_values::Text;

/// An answer, but for what the connection adds to it.
#[derive(Drop)]
pub struct Response {
    pub status: u16,
    pub content_type: ContentType,
    /// The method that the path has, where it was asked for another.
    pub allow: Option<Verb>,
    pub body: Text,
}

impl Response {
    pub(crate) fn reply(content_type: ContentType, reply: Reply) -> Response
        ensures { result ≡ told_reply content_type reply }
    {
        Response {
            status: reply.status,
            content_type,
            allow: None,
            body: reply.body,
        }
    }

    /// A listing and lines of todo.txt are plain text, where they aren't refused.
    pub(crate) fn view(view: &View, reply: Reply) -> Response
        ensures { result ≡ told_view view.now reply }
    {
        match view {
            View::Listing(_) | View::Todo(_) if reply.number == 0 => Response::reply(
                ContentType::PlainText,
                reply,
            ),
            _ => Response::reply(ContentType::Json, reply),
        }
    }

    pub(crate) fn fault(fault: WireFault, allow: Option<Verb>, body: Text) -> Response
        ensures { result ≡ told_fault fault allow body }
    {
        Response {
            status: fault.status().unwrap_or(500),
            content_type: ContentType::Json,
            allow,
            body,
        }
    }

    pub(crate) fn rejection(alloc: Global, rejection: &Rejection) -> Result<Response, AllocError>
        ensures { IfOk result (λ told. told ≡ told_rejection rejection.now) }
    {
        let body = rejection.body(alloc)?;
        Ok(Response::fault(rejection.fault(), rejection.allow(), body))
    }

    pub(crate) fn answer(&self, is_last: bool, sends_body: bool) -> Answer
        ensures { result ≡ answer_of self.now is_last sends_body }
    {
        Answer {
            status: self.status,
            content_type: self.content_type,
            allow: self.allow,
            is_last,
            sends_body,
        }
    }
}
