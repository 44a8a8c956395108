//! Moments, identifiers, statuses and masks: what a text is, and what it is written as.

use crate::finding::{Finding, missing, say, show};
use crate::given::{halves, id_of, text_of};
use std::alloc::Global;
use tb_task::{Mark, Mask, Moment, Priority, Status, TaskId, char_of};
use tb_values::{Duplicate, Same};

/// The text of seconds.
pub(crate) fn instant(alloc: Global, given: &str) -> Finding {
    let seconds = given.parse::<u64>().unwrap_or(u64::MAX);
    let moment = Moment::from_seconds(seconds).ok_or(missing())?;
    let text = moment.text(alloc)?;
    if text.as_bytes() != moment.write().as_slice() {
        return say(alloc, "two texts");
    }
    Ok(text.into_string())
}

pub(crate) fn tell_id(alloc: Global, id: Option<TaskId>) -> Finding {
    let id = id.ok_or(missing())?;
    let text = id.text(alloc)?;
    if text.as_bytes() != id.write().as_slice() {
        return say(alloc, "two texts");
    }
    Ok(text.into_string())
}

/// The identifier `SPACE NAME`.
pub(crate) fn named(alloc: Global, given: &str) -> Finding {
    let (space, name) = halves(given);
    let (space, name) = (id_of(space)?, text_of(alloc, name)?);
    tell_id(alloc, Some(TaskId::named(space, name.as_bytes())))
}

/// The bytes of an identifier, which have to be read as that identifier.
pub(crate) fn bytes(alloc: Global, given: &str) -> Finding {
    let id = id_of(given)?;
    if TaskId::of_bytes(id.bytes()) != id {
        return say(alloc, "another");
    }
    show(alloc, &id.bytes())
}

/// A status, its word, and its character in a mask.
pub(crate) fn status(alloc: Global, given: &str) -> Finding {
    let status = Status::read(given).ok_or(missing())?;
    let mark = char_of(status).map(char::from);
    let word = status.word();
    Ok(format!(in alloc; "{status:?} {word} {mark:?}")?)
}

/// A priority, and its letter.
pub(crate) fn priority(alloc: Global, given: &str) -> Finding {
    let priority = Priority::read(given).ok_or(missing())?;
    let letter = priority.letter();
    Ok(format!(in alloc; "{priority:?} {letter}")?)
}

/// The character of the mark that a text begins with.
pub(crate) fn mark(alloc: Global, given: &str) -> Finding {
    let first = *given.as_bytes().first().ok_or(missing())?;
    show(
        alloc,
        &char::from(Mark::read(first).ok_or(missing())?.byte()),
    )
}

/// A mask with the mark of a status behind it, and its length.
pub(crate) fn mask(alloc: Global, given: &str) -> Finding {
    let (text, word) = halves(given);
    let mut mask = Mask::read(alloc, text)?.ok_or(missing())?;
    if let Some(mark) = Status::read(word).and_then(Mark::of) {
        mask.push(mark)?;
    }
    let (text, length) = (mask.as_str(), mask.len());
    let is_empty = mask.is_empty() && mask.same(&Mask::new(alloc));
    let same = mask.same(&mask.duplicate()?);
    Ok(format!(in alloc; "'{text}' {length} empty {is_empty} same {same}")?)
}
