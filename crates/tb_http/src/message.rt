//! Heads and messages.
ghost use Rattle.std.specs.Prelude.{◌≡◌, ◌<◌, ◌≤◌, ◌-◌, ◌+◌, ◌*◌, ℕ, List, length, map, take, All, IfOk, IfSome, IsUtf8, find};
ghost use Rattle.std.specs.Option.{option_copied};
ghost use Rattle.httparse.specs.Grammar.{RequestHead, IsToken};
ghost use Rattle.httparse.specs.Spans.{IsHeaderWithin, header_bytes, IsRequestOf, IsRequestWithin, IsRequestAt};
ghost use Rattle.tb_http.specs.Message.{field_from, head_from, content_of, takes_body as takes_body_so, is_named as is_named_so};

use http::Method;
use http::method::MethodError;
use httparse::spans::{HeaderSpan, RequestSpans};
use std::alloc::{AllocError, Global};
use tb_values::{Items, Text};

/// A field of a head: its name, and its value without the white space around it.
#[derive(Drop)]
pub struct Field {
    pub name: Items<u8>,
    pub value: Items<u8>,
}

/// A whole head.
#[derive(Drop)]
pub struct Head {
    pub method: Method,
    pub target: Text,
    /// The minor version: 0 or 1.
    pub minor: u8,
    pub fields: Items<Field>,
}

/// A whole message.
#[derive(Drop)]
pub struct Message {
    pub method: Method,
    pub target: Text,
    pub fields: Items<Field>,
    pub body: Items<u8>,
}

/// Whether the field has this name, in any case of letters.
pub fn is_named(field: &Field, name: &str) -> bool
    ensures { result ≡ is_named_so name.now field.now }
{
    field.name.as_slice().eq_ignore_ascii_case(name.as_bytes())
}

/// The first field of this name.
pub fn find_field<'a>(fields: &'a [Field], name: &str) -> Option<&'a Field>
    ensures { option_copied result ≡ find (is_named_so name.now) fields.now }
{
    fields.iter().find(|field| is_named(field, name))
}

// The field that a span covers.
fn field_at(alloc: Global, bytes: &[u8], span: HeaderSpan) -> Result<Field, AllocError>
    requires { IsHeaderWithin (length bytes.now) span }
    ensures { IfOk result (λ field. field ≡ field_from (header_bytes bytes.now span)) }
{
    Ok(Field {
        name: Items::from_vec(Vec::from_slice(alloc, span.name.of(bytes))?),
        value: Items::from_vec(Vec::from_slice(alloc, span.value.of(bytes))?),
    })
}

// The fields that the spans cover.
fn fields_at(alloc: Global, bytes: &[u8], spans: &[HeaderSpan]) -> Result<Items<Field>, AllocError>
    requires { All (IsHeaderWithin (length bytes.now)) spans.now }
    ensures { IfOk result
        (λ fields. fields ≡ map field_from (map (header_bytes bytes.now) spans.now)) }
{
    let mut fields = Vec::with_capacity(alloc, spans.len())?;
    for span in spans {
        fields.push(field_at(alloc, bytes, *span)?)?;
    }
    Ok(Items::from_vec(fields))
}

// The method that these bytes name.
fn method_at(alloc: Global, text: &[u8]) -> Result<Method, AllocError>
    requires { IsToken text.now }
    ensures { IfOk result (λ method. method ≡ text.now) }
{
    match Method::from_bytes(alloc, text) {
        Ok(method) => Ok(method),
        Err(MethodError::OutOfMemory) => Err(AllocError),
        Err(MethodError::Invalid) => unreachable!(),
    }
}

// The target of these bytes.
fn target_at(alloc: Global, text: &[u8]) -> Result<Text, AllocError>
    requires { IsUtf8 text.now }
    ensures { IfOk result (λ target. target ≡ text.now) }
{
    let bytes = Vec::from_slice(alloc, text)?;
    Ok(Text::from_string(String::from_utf8(bytes).unwrap()))
}

/// The head that the spans cover. Only want of memory keeps it from being made.
pub fn head_at(
    alloc: Global,
    bytes: &[u8],
    headers: &[HeaderSpan],
    spans: RequestSpans,
) -> Result<Head, AllocError>
    requires within { IsRequestWithin bytes.now headers.now spans }
    requires found { IsRequestOf bytes.now headers.now spans }
    ensures { IfOk result
        (λ head. (tree : RequestHead) → IsRequestAt bytes.now headers.now spans tree
        → head ≡ head_from tree) }
{
    let method = spans.method.of(bytes);
    let target = spans.path.of(bytes);
    Ok(Head {
        method: method_at(alloc, method)?,
        target: target_at(alloc, target)?,
        minor: spans.version,
        fields: fields_at(alloc, bytes, &headers[..spans.headers])?,
    })
}

impl Message {
    /// What a call is known by, beside its identifier: the method, a space, the target, a line feed and the body.
    pub fn content(&self, alloc: Global) -> Result<Items<u8>, AllocError>
        ensures { IfOk result (λ content. content ≡ content_of self.now) }
    {
        let mut content = Vec::from_slice(alloc, self.method.as_str().as_bytes())?;
        content.extend_from_slice(b" ")?;
        content.extend_from_slice(self.target.as_str().as_bytes())?;
        content.extend_from_slice(b"\n")?;
        content.extend_from_slice(self.body.as_slice())?;
        Ok(Items::from_vec(content))
    }

    /// Whether the answer to it is sent with its body: a message of the method HEAD is answered by the head alone.
    pub fn takes_body(&self) -> bool
        ensures { result ≡ takes_body_so self.now }
    {
        self.method.as_str() != "HEAD"
    }
}
