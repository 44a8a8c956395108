//! What stands behind the word of a question: its parts, numbers, texts, bytes and moments.
use crate::finding::missing;
use bstr::ByteVec;
use std::alloc::{AllocError, Global};
use std::io;
use tb_task::{Moment, Step, TaskId};

/// 20260101T000000Z, at which a question is asked that tells no moment.
pub fn now() -> io::Result<Moment> {
    Moment::from_seconds(1_767_225_600).ok_or(missing())
}

pub fn moment_at(text: &str) -> io::Result<Moment> {
    Moment::read(text.as_bytes()).ok_or(missing())
}

pub fn step_of(text: &str) -> io::Result<Step> {
    Step::read(text).ok_or(missing())
}

pub fn id_of(text: &str) -> io::Result<TaskId> {
    TaskId::read(text).ok_or(missing())
}

/// What stands before the first space, and what stands behind it.
pub fn halves(text: &str) -> (&str, &str) {
    text.split_once(' ').unwrap_or((text, ""))
}

/// A number in decimals, and 0 for what is none.
pub fn read_count(text: &str) -> usize {
    text.parse().unwrap_or(0)
}

/// A place or a size in decimals, and for what is none the largest that there is.
pub fn read_place(text: &str) -> usize {
    text.parse().unwrap_or(usize::MAX)
}

/// The text with TEXT a number of times for each `\{NUMBER TEXT\}`.
fn with_repeats(alloc: Global, given: &str) -> Result<String, AllocError> {
    let mut all = String::new(alloc);
    for piece in given.split("\\}") {
        let (front, repeated) = piece.split_once("\\{").unwrap_or((piece, ""));
        let (count, text) = repeated.split_once(' ').unwrap_or(("", ""));
        all.push_str(front)?;
        all.push_str(text.repeat(alloc, read_count(count))?.as_str())?;
    }
    Ok(all)
}

/// The bytes that a text with escapes and repeats stands for.
pub fn bytes_of(alloc: Global, given: &str) -> Result<Vec<u8>, AllocError> {
    let all = with_repeats(alloc, given)?;
    Vec::unescape_bytes(alloc, all.as_str())
}

/// The text that a text with escapes and repeats stands for.
pub fn text_of(alloc: Global, given: &str) -> Result<String, AllocError> {
    bytes_of(alloc, given)?.into_string_lossy()
}
