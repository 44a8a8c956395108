//! What the log tells of a message.
ghost use Rattle.std.specs.Prelude.{◌≡◌};
ghost use Rattle.std.specs.Option.{option_copied};
ghost use Rattle.tb_event_loop.specs.RequestLine as said;

use crate::head::{behind, is_blank, line_of, target_in, trimmed, trimmed_start, up_to};

/// The first line of a message, and the member that it names.
#[derive(Clone, Copy)]
pub(crate) struct RequestLine<'a> {
    pub(crate) method: &'a [u8],
    pub(crate) target: &'a [u8],
    pub(crate) member: Option<&'a [u8]>,
}

/// The first words of a head, and the value of its field `x-member`.
pub(crate) fn read_request_line(head: &[u8]) -> RequestLine<'_>
    ensures method { result.method.now ≡ said.method_in head.now }
    ensures target { result.target.now ≡ said.target_in head.now }
    ensures member { option_copied result.member ≡ said.member_in head.now }
{
    let text = trimmed_start(head);
    RequestLine {
        method: method_in(text),
        target: trimmed(target_in(text)),
        member: member_in(behind(text, b'\n')),
    }
}

fn method_in(text: &[u8]) -> &[u8]
    ensures { result.now ≡ said.method_of text.now }
{
    trimmed(up_to(up_to(text, b'\n'), b' '))
}

// What the first field `x-member` says, in the lines before a blank one.
fn member_in(fields: &[u8]) -> Option<&[u8]>
    ensures { option_copied result ≡ said.member_among fields.now }
{
    match line_of(fields, b"x-member") {
        Some(line) => member_of(line),
        None => None,
    }
}

fn member_of(line: &[u8]) -> Option<&[u8]>
    ensures { option_copied result ≡ said.member_of line.now }
{
    if is_blank(line) {
        None
    } else {
        Some(trimmed(behind(line, b':')))
    }
}
