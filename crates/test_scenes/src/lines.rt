//! The lines of a file: bytes and numbers as they stand there, what is told of a case, and how it is compared with what is written.

use bstr::ByteVec;
use std::alloc::{AllocError, Global};
use std::io;
use tb_calls::Keep;
use tb_desk::Desk;
use tb_script::{LinesFault, Watched, run_lines_on};

/// A line that can't be read.
pub fn unreadable() -> io::Error {
    io::Error::from(io::ErrorKind::InvalidData)
}

/// A number in decimals.
pub fn read_count(text: &str) -> io::Result<usize> {
    text.parse::<usize>().or(Err(unreadable()))
}

/// Adds the bytes of a line. Its mark says how often they stand there, and whether the end of a line stands behind each.
pub fn push_line(alloc: Global, out: &mut Vec<u8>, mark: &str, text: &str) -> io::Result<()> {
    let (mark, count) = match mark.split_once('*') {
        Some((mark, count)) => (mark, read_count(count)?),
        None => (mark, 1),
    };
    let mut bytes = Vec::unescape_bytes(alloc, text)?;
    if mark.is_empty() {
        bytes.extend_from_slice(b"\r\n")?;
    }
    for _ in 0..count {
        out.extend_from_slice(bytes.as_slice())?;
    }
    Ok(())
}

/// Finds the first line that is told otherwise than it is wanted.
pub fn compare(alloc: Global, wanted: &[u8], told: &[u8]) -> io::Result<()> {
    if wanted == told {
        return Ok(());
    }
    let mut number = 0u32;
    let mut others = told.split(|byte| *byte == b'\n');
    for line in wanted.split(|byte| *byte == b'\n') {
        number = number.saturating_add(1);
        let other = others.next().unwrap_or(b"nothing");
        if line != other {
            let other = str::from_utf8(other).unwrap_or("no text");
            let text = format!(in alloc; "line {number}: {other}")?;
            return Err(io::Error::other(text.as_str()));
        }
    }
    Err(io::Error::other("there is more"))
}

/// The end of some lines, as an error where not all are answered.
pub fn ended(end: Result<(), LinesFault>) -> io::Result<()> {
    match end {
        Ok(()) => Ok(()),
        Err(LinesFault::Store) => Err(io::Error::other("the store has failed")),
        Err(_) => Err(io::Error::other("a line has no answer")),
    }
}

/// What a desk answers to a line, or the name of the fault.
pub fn answer_line<K: Keep>(
    alloc: Global,
    desk: &mut Desk<K>,
    line: &str,
) -> Result<String, AllocError> {
    let mut text = Vec::new(alloc);
    let mut script = Watched::new(line.as_bytes());
    match run_lines_on(alloc, &mut script, &mut text, desk) {
        Ok(()) => String::from_str(alloc, str::from_utf8(text.as_slice()).unwrap_or("NotText")),
        Err(fault) => format!(in alloc; "{fault:?}"),
    }
}

/// Steps, and behind each its answers.
#[derive(Drop)]
pub struct Transcript {
    alloc: Global,
    pub text: String,
}

impl Transcript {
    pub fn new(alloc: Global) -> Transcript {
        let text = String::new(alloc);
        Transcript { alloc, text }
    }

    pub fn line(&mut self, front: &str, line: &str) -> Result<(), AllocError> {
        self.text.push_str(front)?;
        self.text.push_str(line)?;
        self.text.push('\n')
    }

    /// Tells an answer of some lines.
    pub fn answer(&mut self, text: &str) -> Result<(), AllocError> {
        for line in text.lines() {
            self.line("< ", line)?;
        }
        Ok(())
    }
}
