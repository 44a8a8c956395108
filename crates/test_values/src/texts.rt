//! Texts, numbers, shared values, and writing to a known point.

use crate::finding::{Finding, missing};
use crate::given::{halves, read_count};
use std::alloc::Global;
use std::io;
use tb_values::{Duplicate, Keyed, NonEmptyText, Same, Shared, Text, write_whole};
use test_scenes::ends::Narrow;

fn joined(alloc: Global, given: &str) -> io::Result<Text> {
    let mut text = Text::new(alloc);
    for part in given.split_whitespace() {
        text.push_str(part)?;
    }
    Ok(text)
}

/// A text that is pushed together of words, its length, its order against an equal one, and whether its copy is the same.
pub(crate) fn text(alloc: Global, given: &str) -> Finding {
    let text = match NonEmptyText::from_text(joined(alloc, given)?) {
        Some(text) => text,
        None => NonEmptyText::from_str(alloc, given)?.ok_or(missing())?,
    };
    let twin = text.duplicate()?;
    let order = twin.compare(&text);
    let same = twin.same(&text) && twin.as_bytes() == text.as_bytes();
    let length = twin.into_text().len();
    Ok(format!(in alloc; "{} {length} {order:?} {same}", text.as_str())?)
}

/// What two owners of a value take, one after the other.
pub(crate) fn shared(alloc: Global, given: &str) -> Finding {
    let first = Shared::new(alloc, Text::from_str(alloc, given)?)?;
    let second = first.share()?;
    let same = first.same(&second);
    let (Ok(copy), Ok(value)) = (first.into_value(), second.into_value()) else {
        return Err(missing());
    };
    Ok(format!(in alloc; "{same} {} {}", copy.as_str(), value.as_str())?)
}

/// How far the fault says that the writing of a text came, a byte at a time, and how many bytes were taken.
pub(crate) fn written(alloc: Global, given: &str) -> Finding {
    let (room, text) = halves(given);
    let mut narrow = Narrow::of(alloc, read_count(room));
    narrow.size = 1;
    narrow.fails = true;
    let told = match write_whole(&mut narrow, text.as_bytes()) {
        Ok(()) => None,
        Err(fault) => Some(fault.written),
    };
    let taken = narrow.taken.len();
    Ok(format!(in alloc; "{told:?} taken {taken}")?)
}
