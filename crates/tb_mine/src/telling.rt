//! What is told of answers, refusals and faults.
ghost use Rattle.std.specs.Prelude.{◌≡◌, ◌++◌, ◌∷◌, [], IfErr, IfOk, OnOk, false, true};
ghost use Rattle.std.specs.Io.KnownBytes.{Appends};
ghost use Rattle.tb_mine.specs.Asked.{is_refusal};
ghost use Rattle.tb_mine.specs.Faults.{is_of_asking};
ghost use Rattle.tb_mine.specs.Printed.{first_word, or_shown, shown_by, unended, view_text};

use crate::asks::Answer;
use crate::context::Context;
use std::alloc::{AllocError, Global};
use std::io::Write;
use std::str;
use tb_finding::{log_text, show_text};
use tb_my::{MyFault, Seen, Sent, before_key, fault_text, refusal_text, shown_answer};
use tb_program::{Fault, print_line, print_text};
use tb_values::{Items, Text};

/// Prints what was done by an accepted call, or the answer of a view.
pub(crate) fn tell<W: Write>(
    alloc: Global,
    context: &Context,
    tasks: &[Seen],
    sent: &Sent,
    answer: &Answer,
    writer: &mut W,
) -> Result<(), Fault>
    ensures told { OnOk result (Appends (W.contents writer.old) (W.contents writer.new)
        (shown_by context.now.clock tasks.now sent.now answer.now.body)) }
    ensures fault { IfErr result (λ fault. is_of_asking fault ≡ true) }
{
    if sent.is_json {
        return print_line(writer, unended(text_in(&answer.body)?));
    }
    if !sent.told.is_empty() {
        return print_line(writer, sent.told.as_str());
    }
    let body = text_in(&answer.body)?;
    let name = first_word(sent.words.as_slice());
    let text = view_text(alloc, context, tasks, name, body)?;
    print_text(writer, text.as_str())
}

/// A text without the end of its last line.
fn unended(text: &str) -> &str
    ensures { result.now ≡ unended text.now }
{
    match before_key(text, "\n") {
        Some(front) => front,
        None => text,
    }
}

/// The answer of the view of a name, for people: an export and lines of todo.txt as they came.
fn view_text(
    alloc: Global,
    context: &Context,
    tasks: &[Seen],
    name: &str,
    body: &str,
) -> Result<Text, AllocError>
    ensures { IfOk result (λ text. text
        ≡ view_text context.now.clock tasks.now name.now body.now) }
{
    let clock = &context.clock;
    if name == "export" || name == "todo" {
        return Text::from_str(alloc, body);
    }
    if name == "task" {
        return or_shown(alloc, show_text(alloc, clock, tasks, body)?, body);
    }
    if name == "history" || name == "history-of" {
        return or_shown(alloc, log_text(alloc, clock, tasks, body)?, body);
    }
    shown_answer(alloc, body)
}

/// The text that was found, or the answer for people.
fn or_shown(alloc: Global, found: Option<Text>, body: &str) -> Result<Text, AllocError>
    ensures { IfOk result (λ text. text ≡ or_shown body.now found) }
{
    match found {
        Some(text) => Ok(text),
        None => shown_answer(alloc, body),
    }
}

fn first_word(words: &[Text]) -> &str
    ensures { result.now ≡ first_word words.now }
{
    match words {
        [word, ..] => word.as_str(),
        [] => "",
    }
}

/// The text of an answer. What isn't UTF-8 is no answer.
pub(crate) fn text_in(body: &Items<u8>) -> Result<&str, Fault>
    ensures text { IfOk result (λ text. text.now ≡ body.now) }
    ensures fault { IfErr result (λ fault. is_of_asking fault ≡ true) }
{
    match str::from_utf8(body.as_slice()) {
        Ok(text) => Ok(text),
        Err(_) => Err(Fault::NoAnswer),
    }
}

/// Tells a refusal. That it can't be written changes nothing.
pub fn refused<E: Write>(alloc: Global, answer: &Answer, errors: &mut E) -> Result<(), Fault>
    ensures fault { IfErr result (λ fault. is_of_asking fault ≡ true) }
{
    let body = text_in(&answer.body)?;
    let text = refusal_text(alloc, body.trim_end())?;
    let _ = print_line(errors, text.as_str());
    Ok(())
}

/// Tells what is wrong of words or settings, which is a fault, or that there is no one task or board of that name or nothing to do, which is a
/// refusal.
pub fn wrong<E: Write>(
    alloc: Global,
    board: &str,
    count: usize,
    fault: &MyFault,
    errors: &mut E,
) -> Result<(), Fault>
    ensures refused { OnOk result (is_refusal fault.now ≡ true) }
    ensures fault { IfErr result (λ fault. is_of_asking fault ≡ true) }
{
    let text = fault_text(alloc, board, count, fault)?;
    let _ = print_line(errors, text.as_str());
    match fault {
        MyFault::NoTask(_)
        | MyFault::NoPlace(_)
        | MyFault::Linked(_)
        | MyFault::Unchanged
        | MyFault::NoBoard(_)
        | MyFault::TwoBoards(_) => Ok(()),
        MyFault::Memory => Err(Fault::Memory),
        _ => Err(Fault::Bad),
    }
}
