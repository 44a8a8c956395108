//! Lines that tell of messages.
ghost use Rattle.std.specs.Prelude.{◌≡◌, ◌<◌, ◌++◌, codes, decimal, IfOk, OnOk, take};
ghost use Rattle.std.specs.Option.{option_copied};
ghost use Rattle.tb_event_loop.specs.Logging.{escaped, escaped_byte, failure_text, hex_digit, is_plain, known_moment, known_text, log_text, member_text, missed_text, written_out};

use itoa::Buffer;
use std::alloc::{AllocError, Global};
use tb_task::Moment;

/// How many bytes of a word are told, so that a line is short however long a message makes its name or its target.
const LONGEST_WORD: usize = 200;

/// What is told of a message that was answered. A member's key has no place in it.
#[derive(Clone, Copy)]
pub struct LogEntry<'a> {
    /// How many lines before it couldn't be written.
    pub missed: u64,
    pub moment: Moment,
    /// The name that the message gives, which may be of no member.
    pub member: Option<&'a [u8]>,
    pub method: &'a [u8],
    pub target: &'a [u8],
    pub status: &'a [u8],
    /// Of the answer.
    pub bytes: usize,
    pub millis: u64,
}

/// The line that tells of a message.
pub fn log_line(alloc: Global, entry: &LogEntry<'_>) -> Result<Vec<u8>, AllocError>
    ensures { IfOk result (λ line. line.items ≡ log_text entry.now) }
{
    let mut line = Vec::new(alloc);
    push_missed(&mut line, entry.missed)?;
    line.extend_from_slice(&entry.moment.write())?;
    push_member(&mut line, entry.member)?;
    push_word(&mut line, entry.method)?;
    push_word(&mut line, entry.target)?;
    push_word(&mut line, entry.status)?;
    push_number(&mut line, entry.bytes as u64)?;
    push_number(&mut line, entry.millis)?;
    line.extend_from_slice(b"\n")?;
    Ok(line)
}

/// What is told of a message on which the store failed. A word of no bytes isn't known. A member's key has no place in it.
#[derive(Clone, Copy)]
pub struct FailedMessage<'a> {
    pub moment: Option<Moment>,
    /// The name that the message gives, which may be of no member.
    pub member: &'a [u8],
    pub method: &'a [u8],
    pub target: &'a [u8],
}

/// The line that tells on which message the store failed.
pub fn failure_line(alloc: Global, failed: &FailedMessage<'_>) -> Result<Vec<u8>, AllocError>
    ensures { IfOk result (λ line. line.items ≡ failure_text failed.now) }
{
    let mut line = Vec::from_slice(alloc, b"taskboard: the file failed while")?;
    push_known(&mut line, failed.method)?;
    push_known(&mut line, failed.target)?;
    line.extend_from_slice(b" of")?;
    push_known(&mut line, failed.member)?;
    line.extend_from_slice(b" was handled at")?;
    push_moment(&mut line, failed.moment)?;
    line.extend_from_slice(b"; its outcome is known when the file is opened again\n")?;
    Ok(line)
}

fn push_known(line: &mut Vec<u8>, text: &[u8]) -> Result<(), AllocError>
    ensures { OnOk result (line.new.items ≡ line.old.items ++ known_text text.now) }
{
    if text.is_empty() {
        return line.extend_from_slice(b" -");
    }
    push_word(line, text)
}

fn push_moment(line: &mut Vec<u8>, moment: Option<Moment>) -> Result<(), AllocError>
    ensures { OnOk result (line.new.items ≡ line.old.items ++ known_moment moment) }
{
    match moment {
        Some(moment) => {
            line.extend_from_slice(b" ")?;
            line.extend_from_slice(&moment.write())
        }
        None => line.extend_from_slice(b" -"),
    }
}

fn push_member(line: &mut Vec<u8>, member: Option<&[u8]>) -> Result<(), AllocError>
    ensures { OnOk result
        (line.new.items ≡ line.old.items ++ member_text (option_copied member.entry)) }
{
    match member {
        Some(name) => push_word(line, name),
        None => line.extend_from_slice(b" -"),
    }
}

fn push_number(line: &mut Vec<u8>, number: u64) -> Result<(), AllocError>
    ensures { OnOk result (line.new.items ≡ line.old.items ++ codes " " ++ decimal number) }
{
    let mut buffer = Buffer::new();
    line.extend_from_slice(b" ")?;
    line.extend_from_slice(buffer.format(number).as_bytes())
}

// A blank, and the front of the text with each byte that is no plain sign written out.
fn push_word(line: &mut Vec<u8>, text: &[u8]) -> Result<(), AllocError>
    ensures { OnOk result (line.new.items ≡ line.old.items ++ codes " " ++ escaped text.now) }
{
    line.extend_from_slice(b" ")?;
    push_bytes(line, front(text))
}

fn front(text: &[u8]) -> &[u8]
    ensures { result.now ≡ take LONGEST_WORD text.now }
{
    match text.get(..LONGEST_WORD) {
        Some(front) => front,
        None => text,
    }
}

fn push_bytes(line: &mut Vec<u8>, text: &[u8]) -> Result<(), AllocError>
    ensures { OnOk result (line.new.items ≡ line.old.items ++ written_out text.now) }
{
    for byte in text {
        push_byte(line, *byte)?;
    }
    Ok(())
}

// A line that tells how many before it are missing, if any are. It begins a line of its own, since a front of the last may be there.
fn push_missed(line: &mut Vec<u8>, missed: u64) -> Result<(), AllocError>
    ensures { OnOk result (line.new.items ≡ line.old.items ++ missed_text missed) }
{
    if missed == 0 {
        return Ok(());
    }
    push_count(line, missed)
}

fn push_count(line: &mut Vec<u8>, missed: u64) -> Result<(), AllocError>
    ensures { OnOk result (line.new.items ≡ line.old.items
        ++ codes "\ntaskboard: lines of the log that couldn't be written:" ++ codes " "
        ++ decimal missed ++ codes "\n") }
{
    line.extend_from_slice(b"\ntaskboard: lines of the log that couldn't be written:")?;
    push_number(line, missed)?;
    line.extend_from_slice(b"\n")
}

fn push_byte(line: &mut Vec<u8>, byte: u8) -> Result<(), AllocError>
    ensures { OnOk result (line.new.items ≡ line.old.items ++ escaped_byte byte) }
{
    if is_plain(byte) {
        return line.extend_from_slice(&[byte]);
    }
    line.extend_from_slice(&[b'\\', b'x', digit(byte / 16), digit(byte % 16)])
}

fn is_plain(byte: u8) -> bool
    ensures { result ≡ is_plain byte }
{
    b'!' <= byte && byte <= b'~' && byte != b'\\'
}

fn digit(number: u8) -> u8
    requires { number < 16 }
    ensures { result ≡ hex_digit number }
{
    if number < 10 {
        b'0' + number
    } else {
        b'a' + (number - 10)
    }
}
