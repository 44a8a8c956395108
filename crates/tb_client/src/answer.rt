//! An answer, read off the bytes that came on a connection.
ghost use Rattle.std.specs.Prelude.{◌≡◌, All, IfNone, IfOk, IfSome, OnOk, length, map, option_map};
ghost use Rattle.std.specs.Str.{str_eq_ignore_ascii_case};
ghost use Rattle.httparse.specs.Spans.{IsHeaderWithin, header_bytes};
ghost use Rattle.tb_client.specs.Answer.{IsWholeAnswer, only_size, size_in, size_of, size_text, text_in, values_named, with_field};

use httparse::Status;
use httparse::spans::{EMPTY_HEADER_SPAN, HeaderSpan, parse_response};
use std::alloc::{AllocError, Global};
use tb_values::{Items, read_number};

/// A status and a body.
#[derive(Drop)]
pub struct Reply {
    pub status: u16,
    pub body: Items<u8>,
}

const FIELD_LIMIT: usize = 64;

/// The answer that the bytes are, if they are a whole one with nothing behind it.
pub fn read_reply(alloc: Global, bytes: &[u8]) -> Result<Option<Reply>, AllocError>
    ensures whole { IfOk result (λ found. IfSome found (IsWholeAnswer bytes.now)) }
    ensures none { IfOk result
        (λ found. IfNone found ((reply : Reply) → IsWholeAnswer bytes.now reply → ⊥)) }
{
    let mut room = [EMPTY_HEADER_SPAN; FIELD_LIMIT];
    let Ok(Status::Complete(spans)) = parse_response(bytes, &mut room) else {
        return Ok(None);
    };
    let Some(size) = size_at(alloc, bytes, &room[..spans.headers])? else {
        return Ok(None);
    };
    let body = &bytes[spans.len..];
    if body.len() != size as usize {
        return Ok(None);
    }
    Ok(Some(Reply {
        status: spans.code,
        body: Items::from_vec(Vec::from_slice(alloc, body)?),
    }))
}

/// How long the fields say that the body is.
#[tactic(auto, unfolding(crate::specs::Answer::size_of))]
fn size_at(alloc: Global, bytes: &[u8], spans: &[HeaderSpan]) -> Result<Option<u32>, AllocError>
    requires { All (IsHeaderWithin (length bytes.now)) spans.now }
    ensures { IfOk result (λ size. size ≡ size_of (map (header_bytes bytes.now) spans.now)) }
{
    let codings = values_named(alloc, bytes, spans, "transfer-encoding")?;
    let lengths = values_named(alloc, bytes, spans, "content-length")?;
    if !codings.is_empty() {
        return Ok(None);
    }
    Ok(only_size(lengths.as_slice()))
}

fn only_size(lengths: &[&[u8]]) -> Option<u32>
    ensures { result ≡ only_size (map (λ value. value.now) lengths.entry.now) }
{
    let [value] = lengths else {
        return None;
    };
    size_in(value)
}

fn size_in(value: &[u8]) -> Option<u32>
    ensures { result ≡ size_in value.now }
{
    size_text(text_in(value)?)
}

fn size_text(text: &str) -> Option<u32>
    ensures { result ≡ size_text text.now }
{
    if text == "0" {
        return Some(0);
    }
    read_number(text, u32::MAX)
}

/// A value, if it is text.
pub(crate) fn text_in(value: &[u8]) -> Option<&str>
    ensures { option_map (λ text. text.now) result ≡ text_in value.now }
{
    match str::from_utf8(value) {
        Ok(text) => Some(text),
        Err(_) => None,
    }
}

/// The values of the fields of a name.
fn values_named<'b>(
    alloc: Global,
    bytes: &'b [u8],
    spans: &[HeaderSpan],
    name: &str,
) -> Result<Vec<&'b [u8]>, AllocError>
    requires { All (IsHeaderWithin (length bytes.now)) spans.now }
    ensures { IfOk result
        (λ values. map (λ value. value.now) values.items
        ≡ values_named name.now (map (header_bytes bytes.now) spans.now)) }
{
    let mut values = Vec::new(alloc);
    for span in spans {
        push_named(&mut values, bytes, span, name)?;
    }
    Ok(values)
}

/// Puts the value of a field at the end, if it is one of the name.
fn push_named<'b>(
    values: &mut Vec<&'b [u8]>,
    bytes: &'b [u8],
    span: &HeaderSpan,
    name: &str,
) -> Result<(), AllocError>
    requires { IsHeaderWithin (length bytes.now) span.now }
    ensures { OnOk result
        (map (λ value. value.now) values.new.items
        ≡ with_field (map (λ value. value.now) values.old.items) name.now
        (header_bytes bytes.now span.now)) }
{
    if !is_named(bytes, span, name) {
        return Ok(());
    }
    values.push(span.value.of(bytes))?;
    Ok(())
}

/// Whether a field has a name, in any case of letters.
fn is_named(bytes: &[u8], span: &HeaderSpan, name: &str) -> bool
    requires { IsHeaderWithin (length bytes.now) span.now }
    ensures { result ≡ str_eq_ignore_ascii_case (header_bytes bytes.now span.now).0 name.now }
{
    span.name.of(bytes).eq_ignore_ascii_case(name.as_bytes())
}
