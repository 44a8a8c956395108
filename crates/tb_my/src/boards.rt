//! Boards by their numbers or titles, and the line of the settings that names one.
ghost use Rattle.std.specs.Prelude.{◌≡◌, ◌++◌, [], IfOk, OnOk, map, option_map, string_bytes};
ghost use Rattle.serde_json.specs.Read.{read};
ghost use Rattle.serde_json.specs.View.{items_view, view};
ghost use Rattle.tb_my.specs.Boards.{asked_lines, board_line, boards_named, if_named, is_asked_line, is_board_line, is_named, is_number as is_digits, is_text, is_unasked, kept_line, kept_lines, left_line, left_lines, named_in, named_of, settings_text, with_all_named, with_board, with_named};

use crate::settings::{is_note, lines_of, value_of};
use crate::shown::{number_at, text_at};
use serde_json::Value;
use std::alloc::{AllocError, Global};
use tb_json::parse;
use tb_values::{Items, Text, read_number};

/// The numbers of the boards of an answer of `me` that have this number or title.
pub fn boards_named(alloc: Global, name: &str, body: &str) -> Result<Items<u64>, AllocError>
    ensures { IfOk result (λ numbers. numbers ≡ boards_named name.now body.now) }
{
    match parse(alloc, body)? {
        Some(value) => named_of(alloc, name, value.get("boards").and_then(Value::as_array)),
        None => Ok(Items::new(alloc)),
    }
}

fn named_of(
    alloc: Global,
    name: &str,
    boards: Option<&Vec<Value>>,
) -> Result<Items<u64>, AllocError>
    ensures { IfOk result (λ numbers. numbers ≡ named_of name.now
        (option_map (λ list. items_view list.now.items) boards.entry)) }
{
    match boards {
        Some(boards) => all_named(alloc, name, boards),
        None => Ok(Items::new(alloc)),
    }
}

fn all_named(alloc: Global, name: &str, boards: &Vec<Value>) -> Result<Items<u64>, AllocError>
    ensures { IfOk result (λ numbers. numbers
        ≡ with_all_named name.now [] (items_view boards.now.items)) }
{
    let mut numbers = Items::new(alloc);
    for board in boards {
        push_named(&mut numbers, named_in(alloc, name, board)?)?;
    }
    Ok(numbers)
}

fn push_named(numbers: &mut Items<u64>, named: Option<u64>) -> Result<(), AllocError>
    ensures { OnOk result (numbers.new ≡ with_named numbers.old named) }
{
    match named {
        Some(number) => numbers.push(number),
        None => Ok(()),
    }
}

fn named_in(alloc: Global, name: &str, board: &Value) -> Result<Option<u64>, AllocError>
    ensures { IfOk result (λ number. number ≡ named_in name.now (view board.now)) }
{
    let Some(number) = number_at(board, "board") else {
        return Ok(None);
    };
    if is_named(alloc, name, number, text_at(board, "title"))? {
        Ok(Some(number))
    } else {
        Ok(None)
    }
}

fn is_named(alloc: Global, name: &str, number: u64, title: Option<&str>) -> Result<bool, AllocError>
    ensures { IfOk result (λ is. is
        ≡ is_named name.now number (option_map (λ text. text.now) title.entry)) }
{
    if !is_number(name) {
        return Ok(is_text(name, title));
    }
    let digits = format!(in alloc; "{number}")?;
    Ok(digits.as_str() == name)
}

/// Whether a text that names a board is its number. Other digits, as `0`, are a title.
pub fn is_number(name: &str) -> bool
    ensures { result ≡ is_digits name.now }
{
    read_number(name, u32::MAX).is_some()
}

fn is_text(name: &str, title: Option<&str>) -> bool
    ensures { result ≡ is_text name.now (option_map (λ text. text.now) title.entry) }
{
    match title {
        Some(title) => title == name,
        None => false,
    }
}

/// The settings with another board: the other lines as they were, but empty ones, and the board last.
pub fn with_board(alloc: Global, settings: &str, board: &str) -> Result<Text, AllocError>
    ensures { IfOk result (λ text. text ≡ with_board settings.now board.now) }
{
    let lines = lines_of(alloc, settings)?;
    let mut text = kept_lines(alloc, lines.as_slice())?;
    text.push_str("board = ")?;
    text.push_str(board)?;
    text.push_str("\n")?;
    Ok(Text::from_string(text))
}

fn kept_lines(alloc: Global, lines: &[&str]) -> Result<String, AllocError>
    ensures { IfOk result (λ text. string_bytes text
        ≡ kept_lines (map (λ line. line.now) lines.entry.now)) }
{
    let mut text = String::new(alloc);
    for line in lines {
        push_kept(&mut text, line)?;
    }
    Ok(text)
}

/// Puts a line at the end, unless it is empty or one of the board.
fn push_kept(text: &mut String, line: &str) -> Result<(), AllocError>
    ensures { OnOk result (string_bytes text.new ≡ string_bytes text.old ++ kept_line line.now) }
{
    if line.is_empty() || is_board_line(line) {
        return Ok(());
    }
    text.push_str(line)?;
    text.push('\n')
}

fn is_board_line(line: &str) -> bool
    ensures { result ≡ is_board_line line.now }
{
    value_of(line.trim(), "board").is_some()
}

/// The settings that say whom to ask, after those before that nobody is asked for: notes, and where the key is.
pub fn settings_text(
    alloc: Global,
    before: &str,
    server: &str,
    name: &str,
    board: &str,
) -> Result<Text, AllocError>
    ensures { IfOk result (λ text. text
        ≡ settings_text before.now server.now name.now board.now) }
{
    let lines = lines_of(alloc, before)?;
    let mut text = left_lines(alloc, lines.as_slice())?;
    push_asked(&mut text, server, name, board)?;
    Ok(Text::from_string(text))
}

fn left_lines(alloc: Global, lines: &[&str]) -> Result<String, AllocError>
    ensures { IfOk result (λ text. string_bytes text
        ≡ left_lines (map (λ line. line.now) lines.entry.now)) }
{
    let mut text = String::new(alloc);
    for line in lines {
        push_left(&mut text, line)?;
    }
    Ok(text)
}

/// Puts a line at the end, unless it is empty or one that is asked for.
fn push_left(text: &mut String, line: &str) -> Result<(), AllocError>
    ensures { OnOk result (string_bytes text.new ≡ string_bytes text.old ++ left_line line.now) }
{
    if line.is_empty() || is_asked_line(line) {
        return Ok(());
    }
    text.push_str(line)?;
    text.push('\n')
}

fn is_asked_line(line: &str) -> bool
    ensures { result ≡ is_asked_line line.now }
{
    !is_unasked(line.trim())
}

fn is_unasked(line: &str) -> bool
    ensures { result ≡ is_unasked line.now }
{
    is_note(line) || value_of(line, "key-file").is_some()
}

fn push_asked(text: &mut String, server: &str, name: &str, board: &str) -> Result<(), AllocError>
    ensures { OnOk result (string_bytes text.new
        ≡ string_bytes text.old ++ asked_lines server.now name.now board.now) }
{
    text.push_str("server = ")?;
    text.push_str(server)?;
    text.push_str("\nname = ")?;
    text.push_str(name)?;
    text.push('\n')?;
    push_board(text, board)
}

fn push_board(text: &mut String, board: &str) -> Result<(), AllocError>
    ensures { OnOk result (string_bytes text.new ≡ string_bytes text.old ++ board_line board.now) }
{
    if board.is_empty() {
        return Ok(());
    }
    text.push_str("board = ")?;
    text.push_str(board)?;
    text.push('\n')
}
