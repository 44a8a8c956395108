//! How long a message's body is, by its head (RFC 9112, section 6).
ghost use Rattle.std.specs.Prelude.{◌≡◌, ◌<◌, ◌≤◌, ◌^◌, ℕ, List, length, IfOk, find, MatchOption, IsTrue, codes};
ghost use Rattle.std.specs.List.{list_all, list_any};
ghost use Rattle.std.specs.Str.{bytes_eq};
ghost use Rattle.tb_http.specs.Framing as framing;
ghost use Rattle.tb_http.specs.Message.{is_named as is_named_so, count_named as count_of};

use crate::fault::WireFault;
use crate::message::{Field, Head, find_field, is_named};
use crate::numerals::{bounded_number, is_number, same_number};
use http::Method;

/// The longest body.
pub const BODY_LIMIT: u64 = 1_048_576;

/// The most fields.
pub const FIELD_LIMIT: usize = 64;

const CONTENT_LENGTH: &str = "content-length";

/// How many fields have this name.
pub fn count_named(fields: &[Field], name: &str) -> usize
    ensures { result ≡ count_of name.now fields.now }
{
    fields.iter().filter(|field| is_named(field, name)).count()
}

#[tactic(auto, unfolding(crate::specs::Framing::agrees))]
fn agrees(first: &[u8], line: &Field) -> bool
    ensures { result ≡ framing.agrees first.now line.now }
{
    !is_named(line, CONTENT_LENGTH)
        || (is_number(line.value.as_slice()) && same_number(first, line.value.as_slice()))
}

#[tactic(auto, unfolding(crate::specs::Framing::is_long))]
fn is_long(line: &Field) -> bool
    ensures { result ≡ framing.is_long line.now }
{
    is_named(line, CONTENT_LENGTH) && line.value.len() > 18
}

// Whether each Content-Length line has the number of the first.
fn all_agree(first: &[u8], fields: &[Field]) -> bool
    ensures { result ≡ list_all (framing.agrees first.now) fields.now }
{
    fields.iter().all(|line| agrees(first, line))
}

fn any_is_long(fields: &[Field]) -> bool
    ensures { result ≡ list_any framing.is_long fields.now }
{
    fields.iter().any(|line| is_long(line))
}

// The length that the Content-Length lines give.
#[tactic(auto, unfolding(crate::specs::Framing::length_of))]
fn length_of(first: &[u8], fields: &[Field]) -> Result<usize, WireFault>
    ensures value { result ≡ framing.length_of first.now fields.now }
    ensures bound { IfOk result (λ length. length ≤ BODY_LIMIT) }
{
    if !(is_number(first) && all_agree(first, fields)) {
        return Err(WireFault::BadHead);
    }
    if any_is_long(fields) {
        return Err(WireFault::BodyTooLong);
    }
    match bounded_number(first, BODY_LIMIT) {
        Some(length) => Ok(length as usize),
        None => Err(WireFault::BodyTooLong),
    }
}

fn is_post(method: &Method) -> bool
    ensures { result ≡ bytes_eq method.now (codes "POST") }
{
    method.as_str() == "POST"
}

#[tactic(auto, unfolding(crate::specs::Framing::declared_length))]
fn declared_length(method: &Method, fields: &[Field]) -> Result<usize, WireFault>
    ensures value { result
        ≡ framing.declared_length method.now
        (find (is_named_so (codes "content-length")) fields.now) fields.now }
    ensures bound { IfOk result (λ length. length ≤ BODY_LIMIT) }
{
    match find_field(fields, CONTENT_LENGTH) {
        Some(line) => length_of(line.value.as_slice(), fields),
        None => {
            if is_post(method) {
                Err(WireFault::NoLength)
            } else {
                Ok(0)
            }
        }
    }
}

/// How many bytes of body follow a head, or why the head is refused.
#[tactic(auto, unfolding(crate::specs::Framing::body_length, crate::specs::Framing::has_bad_hosts))]
pub fn body_length(head: &Head) -> Result<usize, WireFault>
    ensures value { result ≡ framing.body_length head.now }
    ensures bound { IfOk result (λ length. length ≤ BODY_LIMIT) }
{
    let hosts = count_named(head.fields.as_slice(), "host");
    if hosts > 1 || (hosts == 0 && head.minor == 1) {
        return Err(WireFault::BadHead);
    }
    if head.fields.len() > FIELD_LIMIT {
        return Err(WireFault::HeadTooLong);
    }
    if count_named(head.fields.as_slice(), "transfer-encoding") > 0 {
        return Err(WireFault::Coding);
    }
    declared_length(&head.method, head.fields.as_slice())
}
