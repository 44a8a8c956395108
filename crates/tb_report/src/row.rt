ghost use Rattle.std.specs.Prelude.{◌&&◌, ◌*◌, ◌^◌, ◌<◌, length, map, nat_le, if◌then◌else◌, ◌≡◌, ◌++◌, ◌∷◌, [], List, IfOk, OnOk, string_bytes};
ghost use Rattle.std.specs.Cow.{cow_str_bytes};
ghost use Rattle.std.specs.List.{list_any};
ghost use Rattle.std.specs.Str.{chars, encode_utf8_all};
ghost use Rattle.tb_report.specs.Row.{urgency_text, row_text, shown_text, may_be_control, is_negative, unit, shown_char as visible_char};

use std::alloc::{AllocError, Global};
use std::borrow::CowStr;
use std::fmt::Write;

/// How many parts make one unit of urgency. All terms are whole numbers of parts.
pub const URGENCY_UNIT: u64 = 110_376_000;

/// What a line of the listing shows. The urgency is in parts.
#[derive(Drop)]
pub struct Row<'a> {
    pub place: usize,
    pub urgency: i64,
    pub flags: &'a str,
    pub due: &'a str,
    pub project: &'a str,
    pub description: &'a str,
}

/// Adds the line of a row.
pub fn push_row(alloc: Global, listing: &mut String, row: &Row<'_>) -> Result<(), AllocError>
    ensures { OnOk result (string_bytes listing.new ≡ string_bytes listing.old
        ++ row_text row.now.place row.now.urgency row.now.flags.now row.now.due.now
        row.now.project.now row.now.description.now) }
{
    let place = row.place;
    let urgency = decimals(alloc, row.urgency)?;
    let flags = row.flags;
    let due = sized(row.due);
    let project = sized(row.project);
    let description = row.description;
    writeln!(
        listing,
        "{place:>5} {urgency:>8} {flags} {due:<16} {project:<12} {description}"
    )
}

/// An urgency with three decimals.
pub fn decimals(alloc: Global, urgency: i64) -> Result<String, AllocError>
    ensures { IfOk result (λ text. string_bytes text ≡ urgency_text urgency) }
{
    let size = urgency.unsigned_abs();
    let sign = sign_of(urgency, size);
    let whole = size / URGENCY_UNIT;
    let part = size % URGENCY_UNIT * 1000 / URGENCY_UNIT;
    format!(in alloc; "{sign}{whole}.{part:03}")
}

/// Whether a minus sign stands before the digits: not before zeros alone.
fn shows_sign(urgency: i64, size: u64) -> bool
    ensures { result ≡ (is_negative urgency && nat_le unit (size * 1000)) }
{
    urgency < 0 && size >= URGENCY_UNIT / 1000
}

fn sign_of(urgency: i64, size: u64) -> &'static str
    ensures { result.now
        ≡ (if is_negative urgency && nat_le unit (size * 1000) then 45 ∷ [] else []) }
{
    if shows_sign(urgency, size) { "-" } else { "" }
}

// The text, of which a proof then knows that its length is a `usize`.
fn sized(text: &str) -> &str
    ensures same { result.now ≡ text.now }
    ensures small { length result.now < 2 ^ 64 }
{
    let _length = text.len();
    text
}

/// A text in which each control character is a space. It is copied only where it may have one.
pub(crate) fn shown_cell(alloc: Global, text: &str) -> Result<CowStr<'_>, AllocError>
    ensures { IfOk result (λ shown. cow_str_bytes shown ≡ shown_text text.now) }
{
    if may_have_control(text.as_bytes()) {
        return Ok(CowStr::Owned(without_controls(alloc, text)?));
    }
    Ok(CowStr::Borrowed(text))
}

fn may_have_control(bytes: &[u8]) -> bool
    ensures { result ≡ list_any may_be_control bytes.now }
{
    bytes.iter().any(|byte| may_be_control(*byte))
}

/// Whether a byte is a control character of ASCII, or the one with which U+0080 to U+00BF begin.
fn may_be_control(byte: u8) -> bool
    ensures { result ≡ may_be_control byte }
{
    byte.is_ascii_control() || byte == 0xc2
}

/// A text in which each control character is a space.
#[tactic(auto, unfolding(crate::specs::Row::shown_text))]
pub fn without_controls(alloc: Global, text: &str) -> Result<String, AllocError>
    ensures { IfOk result (λ shown. string_bytes shown ≡ shown_text text.now) }
{
    let mut shown = String::new(alloc);
    for character in text.chars() {
        shown.push(shown_char(character))?;
    }
    Ok(shown)
}

fn shown_char(character: char) -> char
    ensures { result ≡ visible_char character }
{
    if character.is_control() {
        ' '
    } else {
        character
    }
}
