//! A case: each line that isn't an answer is a question, and is told again with its answer. What is told has to be the text of the case.

use crate::{orders, outcomes, rows};
use std::alloc::Global;
use std::io;
use test_scenes::lines::{Transcript, compare};
use test_values::finding::{Finding, say};
use test_values::given::halves;

/// Asks the questions of a file. What is told, with the lines for readers, has to be the file.
pub(crate) fn run(alloc: Global, text: &str) -> io::Result<()> {
    let mut told = Transcript::new(alloc);
    for line in text.lines() {
        if !line.starts_with('<') {
            told.line("", line)?;
            tell_answer(alloc, &mut told, line)?;
        }
    }
    compare(alloc, text.as_bytes(), told.text.as_bytes())
}

/// Tells the answer to a question. Empty lines and lines that begin with `#` are for readers.
fn tell_answer(alloc: Global, told: &mut Transcript, line: &str) -> io::Result<()> {
    if !line.is_empty() && !line.starts_with('#') {
        let (word, given) = halves(line);
        told.answer(&answer_or_none(alloc, word, given)?)?;
    }
    Ok(())
}

fn answer_or_none(alloc: Global, word: &str, given: &str) -> Finding {
    match answer(alloc, word, given) {
        Err(error) if error.kind() == io::ErrorKind::NotFound => say(alloc, "none"),
        told => told,
    }
}

/// What the function that the word names answers.
fn answer(alloc: Global, word: &str, given: &str) -> Finding {
    match word {
        "words" => orders::words(alloc, given),
        "words_with" => orders::words_with(alloc, given),
        "order" => orders::order(alloc, given),
        "desk" => orders::desk(alloc, given),
        "audit" => outcomes::audit(alloc, given),
        "faults" => outcomes::faults(alloc),
        "statuses" => outcomes::statuses(alloc),
        "told_as" => outcomes::told_as(alloc),
        "people" => rows::people(alloc, given),
        "roles" => rows::roles(alloc, given),
        "board" => rows::board(alloc, given),
        _ => test_values::answer(alloc, word, given),
    }
}
