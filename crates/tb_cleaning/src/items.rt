//! The items of a text: those of a JSON list, one object, or an item on each line, as `tb_json` reads an import.

ghost use Rattle.std.specs.Prelude.{◌≡◌, [], IfOk, None, Some, if◌then◌else◌, map, option_map, reverse};
ghost use Rattle.serde_json.specs.View.{view};
ghost use Rattle.tb_cleaning.specs.Mark.{without_mark};
ghost use Rattle.tb_json.specs.Import.{items_of, items_of_lines, with_text};
ghost use Rattle.tb_json.specs.Lines.{is_blank, line_text, lines_of, skip_blanks, skip_comma};
ghost use Rattle.tb_json.specs.Parse.{json_of_bytes};

use serde_json::Value;
use std::alloc::{AllocError, Global};
use std::str;
use tb_json::parse;

/// A text without the byte order mark that some editors put in front.
fn without_mark(text: &[u8]) -> &[u8]
    ensures { result.now ≡ without_mark text.now }
{
    match text.strip_prefix(b"\xef\xbb\xbf") {
        Some(rest) => rest,
        None => text,
    }
}

/// The items of a text, without the mark in front of it.
pub(crate) fn items_in(alloc: Global, text: &[u8]) -> Result<Option<Vec<Value>>, AllocError>
    ensures { IfOk result (λ items.
        option_map (λ v. map view v.items) items ≡ items_of (without_mark text.now)) }
{
    items_of(alloc, without_mark(text))
}

fn items_of(alloc: Global, text: &[u8]) -> Result<Option<Vec<Value>>, AllocError>
    ensures { IfOk result
        (λ items. option_map (λ v. map view v.items) items ≡ items_of text.now) }
{
    let Some(value) = parse_bytes(alloc, text)? else {
        return items_of_lines(alloc, text);
    };
    match value {
        Value::Array(items) => Ok(Some(items)),
        Value::Object(members) => {
            let mut items = Vec::new(alloc);
            items.push(Value::Object(members))?;
            Ok(Some(items))
        }
        _ => items_of_lines(alloc, text),
    }
}

fn items_of_lines(alloc: Global, text: &[u8]) -> Result<Option<Vec<Value>>, AllocError>
    ensures { IfOk result
        (λ items. option_map (λ v. map view v.items) items ≡ items_of_lines [] (lines_of text.now)) }
{
    let lines = lines_of(alloc, text)?;
    let mut items = Vec::new(alloc);
    for line in &lines {
        if !add_line(alloc, &mut items, line)? {
            return Ok(None);
        }
    }
    Ok(Some(items))
}

/// Adds the item of a line, and says whether it was JSON.
fn add_line(alloc: Global, items: &mut Vec<Value>, line: &[u8]) -> Result<bool, AllocError>
    ensures { IfOk result
        (λ is_json. with_text (map view items.old.items) (line_text line.now)
        ≡ (if is_json then Some (map view items.new.items) else None)) }
{
    let text = line_text(line);
    if text.is_empty() {
        return Ok(true);
    }
    let Some(value) = parse_bytes(alloc, text)? else {
        return Ok(false);
    };
    items.push(value)?;
    Ok(true)
}

/// The value that bytes are, if they are JSON.
fn parse_bytes(alloc: Global, bytes: &[u8]) -> Result<Option<Value>, AllocError>
    ensures { IfOk result (λ value. option_map view value ≡ json_of_bytes bytes.now) }
{
    match str::from_utf8(bytes) {
        Ok(text) => parse(alloc, text),
        Err(_) => Ok(None),
    }
}

fn is_blank(byte: u8) -> bool
    ensures { result ≡ is_blank byte }
{
    byte == b' ' || byte == b'\t' || byte == b'\r'
}

fn without_leading_blanks(line: &[u8]) -> &[u8]
    ensures { result.now ≡ skip_blanks line.now }
{
    let mut rest = line;
    while let Some((first, others)) = rest.split_first() {
        if !is_blank(*first) {
            return rest;
        }
        rest = others;
    }
    rest
}

fn without_trailing_blanks(line: &[u8]) -> &[u8]
    ensures { reverse result.now ≡ skip_blanks (reverse line.now) }
{
    let mut rest = line;
    while let Some((last, others)) = rest.split_last() {
        if !is_blank(*last) {
            return rest;
        }
        rest = others;
    }
    rest
}

fn without_comma(line: &[u8]) -> &[u8]
    ensures { reverse result.now ≡ skip_comma (reverse line.now) }
{
    match line.split_last() {
        Some((last, others)) if *last == b',' => others,
        _ => line,
    }
}

/// The line without blanks at its ends and one comma at its end.
fn line_text(line: &[u8]) -> &[u8]
    ensures { result.now ≡ line_text line.now }
{
    without_comma(without_trailing_blanks(without_leading_blanks(line)))
}

fn lines_of(alloc: Global, text: &[u8]) -> Result<Vec<&[u8]>, AllocError>
    ensures { IfOk result (λ lines. map (λ line. line.now) lines.items ≡ lines_of text.now) }
{
    text.split(|byte| *byte == b'\n').collect(alloc)
}
