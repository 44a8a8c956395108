//! What is told of a text that can't be imported.
ghost use Rattle.std.specs.Prelude.{◌≡◌, ◌++◌, ◌∷◌, [], IfOk, OnOk, map};
ghost use Rattle.std.specs.String.{string_bytes};
ghost use Rattle.tb_causes.specs.BadText.{IsBodyText, IsPartText, body_item_text, is_shown, member_text, named_text, number_of, part_item_text, shown_byte};
ghost use Rattle.tb_causes.specs.Told.{IsEither, told_text};

use crate::told::Told;
use std::alloc::{AllocError, Global};
use tb_orders::BadItem;
use tb_values::Text;

const MEND: &str = "Nothing was taken: correct it, and import the text again.";

const MEND_PART: &str =
    "The parts before it were taken: correct it, and import the whole text again under the same ID.";

const BAD_TEXT: &str =
    "The text is longer than 1,048,576 bytes or has more than 1,000 tasks, which --all takes in parts, or it isn't of its kind: json is what `task export` prints, todo are lines of todo.txt. Nothing was taken.";

const BAD_PART: &str =
    "A line or a task is longer than 1,048,576 bytes, or a part of the text isn't of its kind: json is a list of tasks, or has one on each line, todo are lines of todo.txt. What was answered was taken: correct the rest, and import the whole text again under the same ID.";

/// What is told of a text that goes by one call.
pub(crate) fn told_of_body(alloc: Global, item: &Option<BadItem>) -> Told
    ensures { IsBodyText item.now (told_text result) }
{
    match item {
        Some(item) => told_of_body_item(alloc, item),
        None => Told::Fixed(BAD_TEXT),
    }
}

fn told_of_body_item(alloc: Global, item: &BadItem) -> Told
    ensures { IsEither (body_item_text item.now) BAD_TEXT.now (told_text result) }
{
    match body_item_text(alloc, item) {
        Ok(text) => Told::Made(text),
        Err(_) => Told::Fixed(BAD_TEXT),
    }
}

/// What is told of a text that goes in parts. Those that were answered before are taken.
pub(crate) fn told_of_part(alloc: Global, item: &Option<BadItem>) -> Told
    ensures { IsPartText item.now (told_text result) }
{
    match item {
        Some(item) => told_of_part_item(alloc, item),
        None => Told::Fixed(BAD_PART),
    }
}

fn told_of_part_item(alloc: Global, item: &BadItem) -> Told
    ensures { IsEither (part_item_text item.now) BAD_PART.now (told_text result) }
{
    match part_item_text(alloc, item) {
        Ok(text) => Told::Made(text),
        Err(_) => Told::Fixed(BAD_PART),
    }
}

/// Which task is in a wrong form, and by which member.
fn body_item_text(alloc: Global, item: &BadItem) -> Result<Text, AllocError>
    ensures { IfOk result (λ text. text ≡ body_item_text item.now) }
{
    let task = number_of(item);
    let wrong = member_text(alloc, item.member.as_str())?;
    let wrong = wrong.as_str();
    let mut text = String::new(alloc);
    write!(text, "Task {task} of the text {wrong} {MEND}")?;
    Ok(Text::from_string(text))
}

/// The same of a part.
fn part_item_text(alloc: Global, item: &BadItem) -> Result<Text, AllocError>
    ensures { IfOk result (λ text. text ≡ part_item_text item.now) }
{
    let part = item.part;
    let task = number_of(item);
    let wrong = member_text(alloc, item.member.as_str())?;
    let wrong = wrong.as_str();
    let mut text = String::new(alloc);
    write!(
        text,
        "Task {task} of part {part} of the text {wrong} {MEND_PART}"
    )?;
    Ok(Text::from_string(text))
}

/// The number of a task, counted from 1.
fn number_of(item: &BadItem) -> usize
    ensures { result ≡ number_of item.now }
{
    item.at.saturating_add(1)
}

/// What is wrong of a task: it is no object where no member is named.
fn member_text(alloc: Global, member: &str) -> Result<Text, AllocError>
    ensures { IfOk result (λ text. text ≡ member_text member.now) }
{
    if member.is_empty() {
        Text::from_str(alloc, "is no JSON object.")
    } else {
        named_text(alloc, member)
    }
}

fn named_text(alloc: Global, member: &str) -> Result<Text, AllocError>
    ensures { IfOk result (λ text. text ≡ named_text member.now) }
{
    let mut text = String::from_str(alloc, "has no \"")?;
    push_shown(&mut text, member)?;
    text.push_str("\" of the right form.")?;
    Ok(Text::from_string(text))
}

/// Puts a name at the end that a file may have chosen. A terminal obeys some signs, so only visible ones of ASCII go out.
fn push_shown(text: &mut String, name: &str) -> Result<(), AllocError>
    ensures { OnOk result (string_bytes text.new
        ≡ string_bytes text.old ++ map shown_byte name.now) }
{
    for byte in name.as_bytes() {
        push_shown_byte(text, *byte)?;
    }
    Ok(())
}

fn push_shown_byte(text: &mut String, byte: u8) -> Result<(), AllocError>
    ensures { OnOk result (string_bytes text.new ≡ string_bytes text.old ++ shown_byte byte ∷ []) }
{
    if is_shown(byte) {
        text.push(char::from(byte))
    } else {
        text.push('?')
    }
}

fn is_shown(byte: u8) -> bool
    ensures { result ≡ is_shown byte }
{
    b' ' <= byte && byte <= b'~' && byte != b'"'
}
