//! Lines of todo.txt: what is read of them, and the tasks that they make.
ghost use Rattle.std.specs.Prelude.{◌≡◌};
ghost use Rattle.tb_todotxt.specs.Line.{is_free_of};

use crate::finding::{Finding, say, show};
use crate::given::{now, text_of};
use std::alloc::{AllocError, Global};
use tb_json::write_stored;
use tb_todotxt::{Day, LineParts, read_file, read_line, write_line};

/// Whether a text has no line feed.
fn is_one_line(bytes: &[u8]) -> bool
    ensures { result ≡ is_free_of 10 bytes.now }
{
    match bytes {
        [first, rest @ ..] => *first != b'\n' && is_one_line(rest),
        [] => true,
    }
}

/// What a line says, or its fault.
pub(crate) fn line(alloc: Global, given: &str) -> Finding {
    let text = text_of(alloc, given)?;
    if !is_one_line(text.as_bytes()) {
        return say(alloc, "more than one line");
    }
    let line = match read_line(alloc, text.as_str()) {
        Ok(line) => line,
        Err(fault) => return show(alloc, &fault),
    };
    if write_line(alloc, &line)?.as_str() != text.as_str() {
        return say(alloc, "written otherwise");
    }
    Ok(parts_told(alloc, line.parts())?)
}

fn parts_told(alloc: Global, parts: &LineParts) -> Result<String, AllocError> {
    let mut told = String::new(alloc);
    if parts.done {
        told.push_str("x ")?;
    }
    if let Some(letter) = parts.priority {
        told.push(letter.code() as char)?;
        told.push(' ')?;
    }
    push_day(&mut told, "ended", parts.completion)?;
    push_day(&mut told, "created", parts.creation)?;
    write!(told, "{:?}", parts.body.as_str())?;
    Ok(told)
}

fn push_day(told: &mut String, what: &str, day: Option<Day>) -> Result<(), AllocError> {
    if let Some(day) = day {
        let day = day.write();
        write!(told, "{what} {} ", str::from_utf8(&day).unwrap_or(""))?;
    }
    Ok(())
}

/// The tasks of a text's lines on board 1, as they are stored.
pub(crate) fn tasks(alloc: Global, given: &str) -> Finding {
    let text = text_of(alloc, given)?;
    let tasks = match read_file(alloc, text.as_str(), now()?, 1) {
        Ok(tasks) => tasks,
        Err(fault) => return show(alloc, &fault),
    };
    let mut told = String::new(alloc);
    for task in tasks.as_slice() {
        writeln!(told, "{}", write_stored(alloc, task)?.as_str())?;
    }
    Ok(told)
}
