//! What imports are sent as, and what is told of them.
ghost use Rattle.std.specs.Prelude.{◌≡◌, ◌++◌, IfOk, OnOk, Some, string_bytes};
ghost use Rattle.serde_json.specs.Read.{read};
ghost use Rattle.serde_json.specs.View.{view};
ghost use Rattle.tb_my.specs.Importing.{begins_json, count_text, counts_of, import_told, import_words, is_json, new_and_known, other_counts, told_of, without_end, without_mark};

use crate::days::{after_key, before_key};
use crate::sent::three_words;
use crate::shown::number_at;
use serde_json::Value;
use std::alloc::{AllocError, Global};
use std::fmt::Write;
use tb_json::parse;
use tb_values::{Items, Text};

const BYTE_ORDER_MARK: &str = "\u{feff}";

/// Whether a text begins as JSON, with a bracket: another one is lines of todo.txt.
pub fn is_json(text: &str) -> bool
    ensures { result ≡ is_json text.now }
{
    begins_json(without_mark(text).trim_start().as_bytes())
}

/// A text without the byte order mark that some editors put in front.
pub fn without_mark(text: &str) -> &str
    ensures { result.now ≡ without_mark text.now }
{
    match after_key(text, BYTE_ORDER_MARK) {
        Some(rest) => rest,
        None => text,
    }
}

fn begins_json(text: &[u8]) -> bool
    ensures { result ≡ begins_json text.now }
{
    match text {
        [first, ..] => *first == b'[' || *first == b'{',
        [] => false,
    }
}

/// The words that import a text, as JSON or as lines of todo.txt.
pub fn import_words(
    alloc: Global,
    is_json: bool,
    board: &Text,
    text: &str,
) -> Result<Items<Text>, AllocError>
    ensures { IfOk result (λ words. words ≡ import_words is_json board.now text.now) }
{
    if is_json {
        return three_words(alloc, "import", board.as_str(), text);
    }
    three_words(alloc, "import-todo", board.as_str(), without_end(text))
}

/// A text without the line feed at its end.
fn without_end(text: &str) -> &str
    ensures { result.now ≡ without_end text.now }
{
    match before_key(text, "\n") {
        Some(front) => front,
        None => text,
    }
}

/// What an import brought, in words, or else the answer as it is.
pub fn import_told(alloc: Global, body: &str) -> Result<Text, AllocError>
    ensures { IfOk result (λ text. text ≡ import_told body.now) }
{
    let Some(value) = parse(alloc, body)? else {
        return Text::from_str(alloc, body);
    };
    match told_of(alloc, &value)? {
        Some(text) => Ok(text),
        None => Text::from_str(alloc, body),
    }
}

fn told_of(alloc: Global, value: &Value) -> Result<Option<Text>, AllocError>
    ensures { IfOk result (λ text. text ≡ told_of (view value.now)) }
{
    let Some(new) = number_at(value, "new") else {
        return Ok(None);
    };
    match number_at(value, "known") {
        Some(known) => Ok(Some(counts_of(alloc, value, new, known)?)),
        None => Ok(None),
    }
}

fn counts_of(alloc: Global, value: &Value, new: u64, known: u64) -> Result<Text, AllocError>
    ensures { IfOk result (λ text. Some text
        ≡ counts_of (view value.now) (Some new) (Some known)) }
{
    let mut text = new_and_known(alloc, new, known)?;
    push_other_counts(&mut text, value)?;
    Ok(Text::from_string(text))
}

fn new_and_known(alloc: Global, new: u64, known: u64) -> Result<String, AllocError>
    ensures { IfOk result (λ text. string_bytes text ≡ new_and_known new known) }
{
    let mut text = String::from_str(alloc, "Imported: ")?;
    write!(text, "{new} new, {known} known before")?;
    Ok(text)
}

/// Puts the counts of what wasn't taken as it came at the end.
fn push_other_counts(text: &mut String, value: &Value) -> Result<(), AllocError>
    ensures { OnOk result (string_bytes text.new
        ≡ string_bytes text.old ++ other_counts (view value.now)) }
{
    push_count(text, "attributes left out", number_at(value, "dropped"))?;
    push_count(
        text,
        "instances without a place at their template",
        number_at(value, "orphans"),
    )?;
    push_count(
        text,
        "links to tasks that aren't there",
        number_at(value, "unlinked"),
    )
}

/// Puts a count that isn't 0 at the end.
fn push_count(text: &mut String, what: &str, count: Option<u64>) -> Result<(), AllocError>
    ensures { OnOk result (string_bytes text.new
        ≡ string_bytes text.old ++ count_text what.now count) }
{
    let Some(count) = count else {
        return Ok(());
    };
    if count == 0 {
        return Ok(());
    }
    write!(text, ", {what}: {count}")
}
