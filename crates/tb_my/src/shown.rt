//! Answers of views in lines for people.
ghost use Rattle.std.specs.Prelude.{◌≡◌, ◌++◌, [], IfOk, OnOk, option_map, string_bytes};
ghost use Rattle.serde_json.specs.Read.{read};
ghost use Rattle.serde_json.specs.View.{items_view, view};
ghost use Rattle.tb_my.specs.Shown.{board_line, lines_of, number_at, person_line, placed, shown_answer, text_at, titled, with_lines};

use crate::telling::push_shown;
use serde_json::Value;
use std::alloc::{AllocError, Global};
use tb_json::parse;
use tb_values::Text;

/// An answer for people: a line for each board, or for each person on the board; any other answer as it is.
pub fn shown_answer(alloc: Global, body: &str) -> Result<Text, AllocError>
    ensures { IfOk result (λ text. text ≡ shown_answer body.now) }
{
    let Some(value) = parse(alloc, body)? else {
        return Text::from_str(alloc, body);
    };
    match lines_of(alloc, &value)? {
        Some(text) => Ok(text),
        None => Text::from_str(alloc, body),
    }
}

fn lines_of(alloc: Global, value: &Value) -> Result<Option<Text>, AllocError>
    ensures { IfOk result (λ text. text ≡ lines_of (view value.now)) }
{
    if let Some(boards) = value.get("boards").and_then(Value::as_array) {
        return board_lines(alloc, boards);
    }
    match value.get("people").and_then(Value::as_array) {
        Some(people) => people_lines(alloc, people),
        None => Ok(None),
    }
}

fn board_lines(alloc: Global, list: &Vec<Value>) -> Result<Option<Text>, AllocError>
    ensures { IfOk result (λ text. text ≡ with_lines board_line [] (items_view list.now.items)) }
{
    let mut text = String::new(alloc);
    for item in list {
        let Some(line) = board_line(alloc, item)? else {
            return Ok(None);
        };
        text.push_str(line.as_str())?;
    }
    Ok(Some(Text::from_string(text)))
}

fn people_lines(alloc: Global, list: &Vec<Value>) -> Result<Option<Text>, AllocError>
    ensures { IfOk result (λ text. text ≡ with_lines person_line [] (items_view list.now.items)) }
{
    let mut text = String::new(alloc);
    for item in list {
        let Some(line) = person_line(alloc, item)? else {
            return Ok(None);
        };
        text.push_str(line.as_str())?;
    }
    Ok(Some(Text::from_string(text)))
}

fn board_line(alloc: Global, board: &Value) -> Result<Option<Text>, AllocError>
    ensures { IfOk result (λ line. line ≡ board_line (view board.now)) }
{
    let Some(number) = number_at(board, "board") else {
        return Ok(None);
    };
    let Some(role) = text_at(board, "role") else {
        return Ok(None);
    };
    match text_at(board, "title") {
        Some(title) => Ok(Some(titled(alloc, number, role, title)?)),
        None => Ok(None),
    }
}

fn person_line(alloc: Global, person: &Value) -> Result<Option<Text>, AllocError>
    ensures { IfOk result (λ line. line ≡ person_line (view person.now)) }
{
    let Some(name) = text_at(person, "name") else {
        return Ok(None);
    };
    match text_at(person, "role") {
        Some(role) => Ok(Some(placed(alloc, name, role)?)),
        None => Ok(None),
    }
}

pub(crate) fn number_at(value: &Value, name: &str) -> Option<u64>
    ensures { result ≡ number_at name.now (view value.now) }
{
    value.get(name)?.as_u64()
}

/// The text of a member.
pub fn text_at<'v>(value: &'v Value, name: &str) -> Option<&'v str>
    ensures { option_map (λ text. text.now) result ≡ text_at name.now (view value.now) }
{
    value.get(name).and_then(Value::as_str)
}

fn titled(alloc: Global, number: u64, role: &str, title: &str) -> Result<Text, AllocError>
    ensures { IfOk result (λ line. line ≡ titled number role.now title.now) }
{
    let mut line = String::new(alloc);
    write!(line, "{number}  ")?;
    push_shown(&mut line, role)?;
    line.push_str("  ")?;
    push_shown(&mut line, title)?;
    line.push('\n')?;
    Ok(Text::from_string(line))
}

fn placed(alloc: Global, name: &str, role: &str) -> Result<Text, AllocError>
    ensures { IfOk result (λ line. line ≡ placed name.now role.now) }
{
    let mut line = String::new(alloc);
    push_shown(&mut line, name)?;
    line.push_str("  ")?;
    push_shown(&mut line, role)?;
    line.push('\n')?;
    Ok(Text::from_string(line))
}
