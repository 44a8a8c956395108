//! After which messages a connection is closed (RFC 9112, section 9.3).
ghost use Rattle.std.specs.Prelude.{◌≡◌, ℕ, ◌==◌, List};
ghost use Rattle.std.specs.List.{list_any, slice_split};
ghost use Rattle.tb_http.specs.Closing as closing;

use crate::message::{Field, Head, is_named};

/// The most messages of a connection.
pub const MESSAGE_LIMIT: usize = 1000;

// A space or a tab.
fn is_blank(byte: u8) -> bool
    ensures { result ≡ closing.is_blank byte }
{
    byte == b' ' || byte == b'\t'
}

// The text without the blanks at its start.
fn without_start(text: &[u8]) -> &[u8]
    ensures { result.now ≡ closing.without_start text.now }
{
    let mut rest = text;
    while let Some((first, more)) = rest.split_first() {
        if !is_blank(*first) {
            break;
        }
        rest = more;
    }
    rest
}

// The text without the blanks at its end.
fn without_end(text: &[u8]) -> &[u8]
    ensures { result.now ≡ closing.without_end text.now }
{
    let mut rest = text;
    while let Some((last, more)) = rest.split_last() {
        if !is_blank(*last) {
            break;
        }
        rest = more;
    }
    rest
}

// The text without the blanks at both its ends.
fn without_ends(text: &[u8]) -> &[u8]
    ensures { result.now ≡ closing.without_ends text.now }
{
    without_end(without_start(text))
}

// The word `close`, in any case of letters.
#[tactic(auto, unfolding(crate::specs::Closing::is_close))]
fn is_close(option: &[u8]) -> bool
    ensures { result ≡ closing.is_close option.now }
{
    without_ends(option).eq_ignore_ascii_case(b"close")
}

// Whether the word is among options that are separated by commas.
fn any_is_close(options: &[u8]) -> bool
    ensures { result ≡ list_any closing.is_close (slice_split (λ byte. byte == 44) options.now) }
{
    options
        .split(|byte| *byte == b',')
        .any(|option| is_close(option))
}

#[tactic(auto, unfolding(crate::specs::Closing::names_close))]
fn names_close(line: &Field) -> bool
    ensures { result ≡ closing.names_close line.now }
{
    is_named(line, "connection") && any_is_close(line.value.as_slice())
}

fn any_names_close(fields: &[Field]) -> bool
    ensures { result ≡ list_any closing.names_close fields.now }
{
    fields.iter().any(|line| names_close(line))
}

/// Whether the sender closes the connection after the message of this head: in version 1.0, and where a
/// Connection line says so.
#[tactic(auto, unfolding(crate::specs::Closing::asks_to_close))]
pub fn asks_to_close(head: &Head) -> bool
    ensures { result ≡ closing.asks_to_close head.now }
{
    head.minor == 0 || any_names_close(head.fields.as_slice())
}
