//! What the head of a message says, before the message is taken.
ghost use Rattle.std.specs.Prelude.{◌≡◌, ◌<◌, ◌==◌, IfSome, length, position};
ghost use Rattle.std.specs.Option.{option_copied};
ghost use Rattle.tb_event_loop.specs.Head as head;

use crate::journal::front;

/// How far the lines of a head have come.
#[derive(Clone, Copy)]
pub(crate) enum Line {
    /// This line has a sign.
    Full,
    /// This line is blank so far.
    Blank,
    /// A blank line came: the head is whole.
    Ended,
}

fn next_line(line: Line, byte: u8) -> Line
    ensures { result ≡ head.next_line line byte }
{
    match line {
        Line::Ended => Line::Ended,
        Line::Blank if byte == b'\n' => Line::Ended,
        Line::Full if byte == b'\n' => Line::Blank,
        Line::Blank if byte.is_ascii_whitespace() => Line::Blank,
        _ => Line::Full,
    }
}

/// Whether the head at the front of these bytes is whole.
pub(crate) fn has_whole_head(text: &[u8]) -> bool
    ensures { result ≡ head.has_whole_head text.now }
{
    let last = text
        .iter()
        .fold(Line::Full, |line, byte| next_line(line, *byte));
    matches!(last, Line::Ended)
}

/// What is looked at of a message: as much as a head may have, without blanks before it.
pub(crate) fn begun(held: &[u8]) -> &[u8]
    ensures { result.now ≡ head.begun held.now }
{
    trimmed_start(front(held))
}

/// A text without the blanks before it.
pub(crate) fn trimmed_start(text: &[u8]) -> &[u8]
    ensures { result.now ≡ head.trimmed_start text.now }
{
    text.trim_ascii_start()
}

/// A text without the blanks around it.
pub(crate) fn trimmed(text: &[u8]) -> &[u8]
    ensures { result.now ≡ head.trimmed text.now }
{
    text.trim_ascii()
}

pub(crate) fn is_blank(line: &[u8]) -> bool
    ensures { result ≡ head.is_blank line.now }
{
    line.iter().all(|byte| byte.is_ascii_whitespace())
}

fn place_of(text: &[u8], sign: u8) -> Option<usize>
    ensures place { result ≡ position (λ byte. byte == sign) text.now }
    ensures within { IfSome result (λ place. place < length text.now) }
{
    text.iter().position(|byte| *byte == sign)
}

/// What stands before the first such sign, or all.
pub(crate) fn up_to(text: &[u8], sign: u8) -> &[u8]
    ensures { result.now ≡ head.up_to sign text.now }
{
    match place_of(text, sign) {
        Some(place) => &text[..place],
        None => text,
    }
}

/// What stands after the first such sign, or nothing.
pub(crate) fn behind(text: &[u8], sign: u8) -> &[u8]
    ensures { result.now ≡ head.behind sign text.now }
{
    match place_of(text, sign) {
        Some(place) => &text[place + 1..],
        None => &[],
    }
}

/// Whether a head is that of a call: its method is POST.
pub(crate) fn is_call_in(text: &[u8]) -> bool
    ensures { result ≡ head.is_call_in text.now }
{
    up_to(up_to(text, b'\n'), b' ') == b"POST".as_slice()
}

/// Whether a head is that of a call that makes a board: no other target leads there.
pub(crate) fn makes_board(text: &[u8]) -> bool
    ensures { result ≡ head.makes_board text.now }
{
    is_call_in(text) && target_in(text) == b"/boards".as_slice()
}

/// The board that the target of a head names behind `/boards/`, or nothing.
pub(crate) fn board_in(text: &[u8]) -> &str
    ensures { result.now ≡ head.board_in text.now }
{
    let path = behind(target_in(text), b'/');
    if up_to(path, b'/') == b"boards".as_slice() {
        text_in(up_to(behind(path, b'/'), b'/'))
    } else {
        ""
    }
}

/// The target of a head, up to the next blank.
pub(crate) fn target_in(text: &[u8]) -> &[u8]
    ensures { result.now ≡ head.target_in text.now }
{
    up_to(behind(up_to(text, b'\n'), b' '), b' ')
}

fn ends_search(line: &[u8], name: &[u8]) -> bool
    ensures { result ≡ head.ends_search name.now line.now }
{
    is_blank(line) || up_to(line, b':').eq_ignore_ascii_case(name)
}

/// The first line that is a field of this name, or blank.
pub(crate) fn line_of<'a>(text: &'a [u8], name: &[u8]) -> Option<&'a [u8]>
    ensures { option_copied result ≡ head.line_of name.now text.now }
{
    text.split(|byte| *byte == b'\n')
        .find(|line| ends_search(line, name))
}

/// What the first field of this name says, if it is text, and else nothing.
pub(crate) fn text_of<'a>(text: &'a [u8], name: &[u8]) -> &'a str
    ensures { result.now ≡ head.text_of name.now text.now }
{
    match line_of(text, name) {
        Some(line) => text_in(trimmed(behind(line, b':'))),
        None => "",
    }
}

fn text_in(value: &[u8]) -> &str
    ensures { result.now ≡ head.text_in value.now }
{
    match str::from_utf8(value) {
        Ok(text) => text,
        Err(_) => "",
    }
}
