//! Texts of others on a line, as a terminal shows them.

ghost use Rattle.std.specs.Prelude.{◌≡◌, ◌++◌, IfOk, OnOk, codes, string_bytes};
ghost use Rattle.serde_json.specs.View.{view};
ghost use Rattle.tb_cleaning.specs.Telling.{line_of, name_of, one_line, shown_char, text_under};

use serde_json::Value;
use std::alloc::{AllocError, Global};
use tb_values::Text;

/// How many characters of a text are shown.
const SHORT: usize = 80;

/// Puts the first characters of a text at the end, with a space for each control character, which a terminal might obey.
#[tactic(auto, unfolding(crate::specs::Telling::one_line))]
pub(crate) fn push_line(told: &mut String, text: &str) -> Result<(), AllocError>
    ensures { OnOk result (string_bytes told.new ≡ string_bytes told.old ++ one_line text.now) }
{
    for character in text.chars().take(SHORT) {
        told.push(shown_char(character))?;
    }
    Ok(())
}

fn shown_char(character: char) -> char
    ensures { result ≡ shown_char character }
{
    if character < ' ' || ('\u{7f}' <= character && character <= '\u{9f}') {
        ' '
    } else {
        character
    }
}

fn text_under<'v>(name: &str, value: &'v Value) -> &'v str
    ensures { result.now ≡ text_under name.now (view value.now) }
{
    match value.get(name).and_then(Value::as_str) {
        Some(text) => text,
        None => "?",
    }
}

/// Puts the uuid and the description of a task at the end.
fn push_name(told: &mut String, value: &Value) -> Result<(), AllocError>
    ensures { OnOk result
        (string_bytes told.new ≡ string_bytes told.old ++ name_of (view value.now)) }
{
    push_line(told, text_under("uuid", value))?;
    told.push_str(" \"")?;
    push_line(told, text_under("description", value))?;
    told.push_str("\"")
}

/// A line that says something of a task.
pub(crate) fn line_of(
    alloc: Global,
    label: &str,
    value: &Value,
    what: &str,
) -> Result<Text, AllocError>
    ensures { IfOk result (λ line. line ≡ line_of label.now (view value.now) what.now) }
{
    let mut line = String::from_str(alloc, label)?;
    push_name(&mut line, value)?;
    line.push_str(": ")?;
    line.push_str(what)?;
    Ok(Text::from_string(line))
}
