//! The answer to a message. Its head is written into room that was made before, so that it takes no memory.
ghost use Rattle.std.specs.Prelude.{◌≡◌, ◌≤◌, ◌<◌, ◌+◌, ◌++◌, length, take, codes, decimal, IfOk, OnOk, IfErr, vec_len, vec_capacity};
ghost use Rattle.std.specs.Io.KnownBytes.{Appends};
ghost use Rattle.tb_http.specs.Answer.{phrase_of, media_text, type_text, status_line, field_line, connection_text, allow_line, content_policy, policy_lines, answer_head, answer_text, fault_answer};

use crate::fault::WireFault;
use crate::route::Verb;
use itoa::Buffer;
use std::alloc::{AllocError, Global};
use std::io::Write;
use tb_values::{WriteFault, write_whole};

/// What a file of a page is.
#[derive(Clone, Copy, Debug, PartialEq, Eq)]
pub enum MediaType {
    Html,
    Css,
    JavaScript,
    Svg,
    Png,
    Icon,
    Manifest,
}

/// What a body is.
#[derive(Clone, Copy, Debug, PartialEq, Eq)]
pub enum ContentType {
    Json,
    PlainText,
    /// A file of a page. Its answer says beside the type what a browser may do with it.
    File(MediaType),
}

/// An answer but for its body.
#[derive(Clone, Copy, Debug, PartialEq, Eq)]
pub struct Answer {
    pub status: u16,
    pub content_type: ContentType,
    /// The method that the path has, where it was asked for another.
    pub allow: Option<Verb>,
    /// Whether the connection is closed after it.
    pub is_last: bool,
    /// Whether the body is sent: a message of the method HEAD is answered without it.
    pub sends_body: bool,
}

// The longest head is shorter.
const HEAD_ROOM: usize = 1024;

// What a browser may do with a file of a page: its scripts, styles, pictures and manifest are files of the page too, it talks to
// this server alone, and no other page shows it within itself.
const CONTENT_POLICY: &str =
    "default-src 'none'; script-src 'self'; style-src 'self'; img-src 'self'; connect-src 'self'; manifest-src 'self'; base-uri 'none'; form-action 'none'; frame-ancestors 'none'";

// The phrase of a status that the server answers.
#[tactic(auto, unfolding(crate::specs::Answer::phrase_of))]
fn phrase(status: u16) -> &'static str
    ensures value { result.now ≡ phrase_of status }
    ensures short { length result.now ≤ 31 }
{
    match status {
        200 => "OK",
        400 => "Bad Request",
        401 => "Unauthorized",
        403 => "Forbidden",
        404 => "Not Found",
        405 => "Method Not Allowed",
        409 => "Conflict",
        411 => "Length Required",
        413 => "Content Too Large",
        422 => "Unprocessable Content",
        431 => "Request Header Fields Too Large",
        500 => "Internal Server Error",
        501 => "Not Implemented",
        503 => "Service Unavailable",
        _ => "",
    }
}

fn push(head: &mut Vec<u8>, text: &str)
    requires { vec_len head.old + length text.now ≤ vec_capacity head.old }
    ensures items { head.new.items ≡ head.old.items ++ text.now }
    ensures len { vec_len head.new ≡ vec_len head.old + length text.now }
    ensures capacity { vec_capacity head.old ≤ vec_capacity head.new }
{
    head.extend_from_slice(text.as_bytes()).unwrap();
}

fn push_number(head: &mut Vec<u8>, number: u64)
    requires { vec_len head.old + 20 ≤ vec_capacity head.old }
    ensures items { head.new.items ≡ head.old.items ++ decimal number }
    ensures len { vec_len head.new ≤ vec_len head.old + 20 }
    ensures capacity { vec_capacity head.old ≤ vec_capacity head.new }
{
    let mut buffer = Buffer::new();
    push(head, buffer.format(number));
}

#[tactic(auto, unfolding(crate::specs::Answer::status_line))]
fn push_status(head: &mut Vec<u8>, status: u16)
    requires { vec_len head.old + 64 ≤ vec_capacity head.old }
    ensures items { head.new.items ≡ head.old.items ++ status_line status }
    ensures len { vec_len head.new ≤ vec_len head.old + 64 }
    ensures capacity { vec_capacity head.old ≤ vec_capacity head.new }
{
    push(head, "HTTP/1.1 ");
    push_number(head, u64::from(status));
    push(head, " ");
    push(head, phrase(status));
    push(head, "\r\n");
}

// One field line of at most 64 bytes.
#[tactic(auto, unfolding(crate::specs::Answer::field_line))]
fn push_field(head: &mut Vec<u8>, name: &str, value: &str)
    requires short { length name.now + length value.now ≤ 60 }
    requires room { vec_len head.old + 64 ≤ vec_capacity head.old }
    ensures items { head.new.items ≡ head.old.items ++ field_line name.now value.now }
    ensures len { vec_len head.new ≤ vec_len head.old + 64 }
    ensures capacity { vec_capacity head.old ≤ vec_capacity head.new }
{
    push(head, name);
    push(head, ": ");
    push(head, value);
    push(head, "\r\n");
}

#[tactic(auto, unfolding(crate::specs::Answer::field_line))]
fn push_length(head: &mut Vec<u8>, size: u64)
    requires { vec_len head.old + 64 ≤ vec_capacity head.old }
    ensures items { head.new.items
        ≡ head.old.items ++ field_line (codes "content-length") (decimal size) }
    ensures len { vec_len head.new ≤ vec_len head.old + 64 }
    ensures capacity { vec_capacity head.old ≤ vec_capacity head.new }
{
    push(head, "content-length");
    push(head, ": ");
    push_number(head, size);
    push(head, "\r\n");
}

fn push_allow(head: &mut Vec<u8>, allow: Option<Verb>)
    requires { vec_len head.old + 64 ≤ vec_capacity head.old }
    ensures items { head.new.items ≡ head.old.items ++ allow_line allow }
    ensures len { vec_len head.new ≤ vec_len head.old + 64 }
    ensures capacity { vec_capacity head.old ≤ vec_capacity head.new }
{
    match allow {
        None => {}
        Some(verb) => push_field(head, "allow", verb.name()),
    }
}

fn media_name(media: MediaType) -> &'static str
    ensures value { result.now ≡ media_text media }
    ensures short { length result.now ≤ 30 }
{
    match media {
        MediaType::Html => "text/html; charset=utf-8",
        MediaType::Css => "text/css; charset=utf-8",
        MediaType::JavaScript => "text/javascript; charset=utf-8",
        MediaType::Svg => "image/svg+xml",
        MediaType::Png => "image/png",
        MediaType::Icon => "image/x-icon",
        MediaType::Manifest => "application/manifest+json",
    }
}

// The value of `content-type`.
fn type_of(content_type: ContentType) -> &'static str
    ensures value { result.now ≡ type_text content_type }
    ensures short { length result.now ≤ 30 }
{
    match content_type {
        ContentType::Json => "application/json",
        ContentType::PlainText => "text/plain; charset=utf-8",
        ContentType::File(media) => media_name(media),
    }
}

#[tactic(auto, unfolding(crate::specs::Answer::field_line, crate::specs::Answer::content_policy))]
fn push_content_policy(head: &mut Vec<u8>)
    requires { vec_len head.old + 256 ≤ vec_capacity head.old }
    ensures items { head.new.items
        ≡ head.old.items ++ field_line (codes "content-security-policy") content_policy }
    ensures len { vec_len head.new ≤ vec_len head.old + 256 }
    ensures capacity { vec_capacity head.old ≤ vec_capacity head.new }
{
    push(head, "content-security-policy");
    push(head, ": ");
    push(head, CONTENT_POLICY);
    push(head, "\r\n");
}

// What the answer to a file of a page says of it.
fn push_policy(head: &mut Vec<u8>, content_type: ContentType)
    requires { vec_len head.old + 448 ≤ vec_capacity head.old }
    ensures items { head.new.items ≡ head.old.items ++ policy_lines content_type }
    ensures len { vec_len head.new ≤ vec_len head.old + 448 }
    ensures capacity { vec_capacity head.old ≤ vec_capacity head.new }
{
    match content_type {
        ContentType::Json | ContentType::PlainText => {}
        ContentType::File(_) => {
            push_field(head, "cache-control", "no-cache");
            push_content_policy(head);
            push_field(head, "referrer-policy", "no-referrer");
            push_field(head, "x-content-type-options", "nosniff");
        }
    }
}

// The value of `connection`.
fn connection_of(is_last: bool) -> &'static str
    ensures value { result.now ≡ connection_text is_last }
    ensures short { length result.now ≤ 10 }
{
    if is_last { "close" } else { "keep-alive" }
}

#[tactic(auto, unfolding(crate::specs::Answer::answer_head))]
fn push_head(head: &mut Vec<u8>, answer: Answer, size: u64)
    requires { vec_len head.old + HEAD_ROOM ≤ vec_capacity head.old }
    ensures items { head.new.items ≡ head.old.items ++ answer_head answer size }
    ensures capacity { vec_capacity head.old ≤ vec_capacity head.new }
{
    push_status(head, answer.status);
    push_field(head, "content-type", type_of(answer.content_type));
    push_length(head, size);
    push_allow(head, answer.allow);
    push_policy(head, answer.content_type);
    push_field(head, "connection", connection_of(answer.is_last));
    push(head, "\r\n");
}

/// Room for the head of an answer. It is made before a message is handled, so that the answer takes no memory.
#[derive(Drop)]
pub struct HeadRoom {
    text: Vec<u8>,
    ghost room: { 1024 ≤ vec_capacity text },
}

impl HeadRoom {
    pub fn new(alloc: Global) -> Result<HeadRoom, AllocError>
        ensures { IfOk result (λ room. 1024 ≤ vec_capacity room.text) }
    {
        Ok(HeadRoom {
            text: Vec::with_capacity(alloc, HEAD_ROOM)?,
        })
    }

    /// Writes the head of an answer whose body has this length.
    pub fn head(&mut self, answer: Answer, size: u64) -> &[u8]
        ensures { result.now ≡ answer_head answer size }
    {
        self.text.clear();
        push_head(&mut self.text, answer, size);
        self.text.as_slice()
    }

    /// Sends an answer whole, or a front of it that is known.
    #[tactic(auto, unfolding(crate::specs::Answer::answer_text))]
    pub fn send<W: Write>(
        &mut self,
        writer: &mut W,
        answer: Answer,
        body: &[u8],
    ) -> Result<(), WriteFault>
        ensures whole { OnOk result
            (Appends (W.contents writer.old) (W.contents writer.new)
            (answer_text answer body.now)) }
        ensures cut { IfErr result (λ fault. (fault.written < length (answer_text answer body.now))
            × Appends (W.contents writer.old) (W.contents writer.new)
            (take fault.written (answer_text answer body.now))) }
    {
        let head = self.head(answer, body.len() as u64);
        write_both(writer, head, if answer.sends_body { body } else { &[] })
    }
}

// Writes two texts one after the other.
fn write_both<W: Write>(writer: &mut W, front: &[u8], behind: &[u8]) -> Result<(), WriteFault>
    ensures whole { OnOk result
        (Appends (W.contents writer.old) (W.contents writer.new) (front.now ++ behind.now)) }
    ensures cut { IfErr result (λ fault. (fault.written < length (front.now ++ behind.now))
        × Appends (W.contents writer.old) (W.contents writer.new)
        (take fault.written (front.now ++ behind.now))) }
{
    write_whole(writer, front)?;
    match write_whole(writer, behind) {
        Ok(()) => Ok(()),
        Err(fault) => Err(WriteFault {
            written: front.len() + fault.written,
        }),
    }
}

impl WireFault {
    /// The answer to a fault, but for its body, which names it; None where nothing is answered. `allow` is the
    /// method that the path has, and `is_closing` is that of the reader.
    pub fn answer(self, allow: Option<Verb>, is_closing: bool, sends_body: bool) -> Option<Answer>
        ensures { result ≡ fault_answer self allow is_closing sends_body }
    {
        match self.status() {
            Some(status) => Some(Answer {
                status,
                content_type: ContentType::Json,
                allow,
                is_last: is_closing || self.closes(),
                sends_body,
            }),
            None => None,
        }
    }
}
