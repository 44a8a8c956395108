//! A text that is one JSON list, in parts of its items.
ghost use Rattle.std.specs.Prelude.{◌≡◌, ◌<◌, ◌≤◌, ◌++◌, ℕ, IfOk, IfSome, None, Some, if◌then◌else◌, length, map, nat_le, option_map, reverse};
ghost use Rattle.json.specs.Lex.{tokens};
ghost use Rattle.json.specs.Print.{print};
ghost use Rattle.serde_json.specs.Data.{depth, items_depth};
ghost use Rattle.serde_json.specs.Read.{max_depth, read};
ghost use Rattle.serde_json.specs.View.{items_view, view};
ghost use Rattle.serde_json.specs.declared.value.Value.TheVariants.{Array};
ghost use Rattle.tb_json.specs.Import.{items_of};
ghost use Rattle.tb_json.specs.Lines.{skip_comma};
ghost use Rattle.tb_json.specs.Parse.{json_of_bytes};
ghost use Rattle.tb_orders.specs.Cutting.{lines_of};
ghost use Rattle.tb_orders.specs.Lists.{AreOf, HasLong, IsCut, are_items, array_in, is_item, item_text, list_in, list_of, skip_return};
ghost use Rattle.tb_task.specs.Limits.{longest_body, most_items};

use crate::cutting::{is_one, line_in, lines_of, one_part, parts_by_lines};
use serde_json::Value;
use std::alloc::{AllocError, Global};
use std::str;
use tb_command_line::ImportKind;
use tb_json::parse;
use tb_task::{LONGEST_BODY, MOST_ITEMS};
use tb_values::Items;

/// The parts of a text, each of which one import takes, or none where a line or an item is longer than a part.
pub fn parts_of(
    alloc: Global,
    kind: ImportKind,
    text: Items<u8>,
) -> Result<Option<Vec<Items<u8>>>, AllocError>
    ensures { IfOk result (λ parts. IsCut kind text (option_map (λ list. list.items) parts)) }
{
    match list_of(alloc, kind, text.as_slice())? {
        Some(items) => parts_of_list(alloc, items),
        None => parts_by_lines(alloc, kind, text),
    }
}

/// The items by which a text is cut: those of a JSON list that no call takes as it is, and whose lines are not its items.
fn list_of(alloc: Global, kind: ImportKind, text: &[u8]) -> Result<Option<Vec<Value>>, AllocError>
    ensures value { IfOk result
        (λ found. option_map (λ list. map view list.items) found ≡ list_of kind text.now) }
    ensures nests { IfOk result
        (λ found. IfSome found (λ list. items_depth (items_view list.items) < max_depth)) }
{
    match kind {
        ImportKind::Json => list_in(alloc, text),
        ImportKind::Todo => Ok(None),
    }
}

fn list_in(alloc: Global, text: &[u8]) -> Result<Option<Vec<Value>>, AllocError>
    ensures value { IfOk result (λ found. option_map (λ list. map view list.items) found
        ≡ list_in text.now (array_in (json_of_bytes text.now))) }
    ensures nests { IfOk result
        (λ found. IfSome found (λ list. items_depth (items_view list.items) < max_depth)) }
{
    let is_one = is_one(alloc, text)?;
    if !is_one && are_items_of(alloc, text)? {
        return Ok(None);
    }
    let Some(items) = array_in(alloc, text)? else {
        return Ok(None);
    };
    if is_one && items.len() <= MOST_ITEMS {
        return Ok(None);
    }
    Ok(Some(items))
}

fn are_items_of(alloc: Global, text: &[u8]) -> Result<bool, AllocError>
    ensures { IfOk result (λ are. are ≡ are_items (lines_of text.now)) }
{
    let lines = lines_of(alloc, text)?;
    are_items(alloc, lines.as_slice())
}

fn are_items(alloc: Global, lines: &[&[u8]]) -> Result<bool, AllocError>
    ensures { IfOk result (λ are. are ≡ are_items (map (λ line. line.now) lines.entry.now)) }
{
    for line in lines {
        let text = item_text(line_in(ImportKind::Json, line));
        if !is_item(alloc, text)? {
            return Ok(false);
        }
    }
    Ok(true)
}

fn is_item(alloc: Global, text: &[u8]) -> Result<bool, AllocError>
    ensures { IfOk result (λ is. is ≡ is_item text.now) }
{
    Ok(text.is_empty() || value_of(alloc, text)?.is_some())
}

/// The value that bytes are, if they are JSON.
fn value_of(alloc: Global, bytes: &[u8]) -> Result<Option<Value>, AllocError>
    ensures { IfOk result (λ found. option_map view found ≡ json_of_bytes bytes.now) }
{
    match str::from_utf8(bytes) {
        Ok(text) => parse(alloc, text),
        Err(_) => Ok(None),
    }
}

/// A line without a carriage return, and a comma before that, at its end.
fn item_text(line: &[u8]) -> &[u8]
    ensures { result.now ≡ item_text line.now }
{
    without_comma(without_return(line))
}

fn without_return(line: &[u8]) -> &[u8]
    ensures { reverse result.now ≡ skip_return (reverse line.now) }
{
    match line.split_last() {
        Some((last, front)) if *last == b'\r' => front,
        _ => line,
    }
}

fn without_comma(line: &[u8]) -> &[u8]
    ensures { reverse result.now ≡ skip_comma (reverse line.now) }
{
    match line.split_last() {
        Some((last, front)) if *last == b',' => front,
        _ => line,
    }
}

/// The items of a text that is one list.
fn array_in(alloc: Global, text: &[u8]) -> Result<Option<Vec<Value>>, AllocError>
    ensures value { IfOk result (λ found. option_map (λ list. map view list.items) found
        ≡ array_in (json_of_bytes text.now)) }
    ensures nests { IfOk result
        (λ found. IfSome found (λ list. items_depth (items_view list.items) < max_depth)) }
{
    let Some(value) = value_of(alloc, text)? else {
        return Ok(None);
    };
    match value {
        Value::Array(items) => Ok(Some(items)),
        _ => Ok(None),
    }
}

/// The parts of a list by its items, or none where an item is longer than a part.
#[tactic(auto, using(crate::proofs::Halves::of_none, crate::proofs::Halves::of_one, crate::proofs::Halves::of_halves, crate::proofs::Halves::long_half, crate::proofs::Halves::long_rest, crate::proofs::Halves::depth_take, crate::proofs::Halves::depth_drop))]
fn parts_of_list(alloc: Global, items: Vec<Value>) -> Result<Option<Vec<Items<u8>>>, AllocError>
    requires { items_depth (items_view items.items) < max_depth }
    ensures { IfOk result (λ parts.
        AreOf (map view items.items) (option_map (λ list. list.items) parts)) }
{
    if items.is_empty() {
        return Ok(Some(Vec::new(alloc)));
    }
    let Trial { items, text } = try_list(alloc, items)?;
    if let Some(text) = text {
        return Ok(Some(one_part(alloc, text)?));
    }
    if items.len() == 1 {
        return Ok(None);
    }
    let mut items = items;
    let place = split_place(items.len());
    let rest = items.split_off(place)?;
    let Some(parts) = parts_of_list(alloc, items)? else {
        return Ok(None);
    };
    let Some(more) = parts_of_list(alloc, rest)? else {
        return Ok(None);
    };
    Ok(Some(joined(parts, more)?))
}

fn joined(parts: Vec<Items<u8>>, more: Vec<Items<u8>>) -> Result<Vec<Items<u8>>, AllocError>
    ensures { IfOk result (λ all. all.items ≡ parts.items ++ more.items) }
{
    let mut parts = parts;
    let mut more = more;
    parts.append(&mut more)?;
    Ok(parts)
}

/// Where a list is split that is no part: before a multiple of what a part takes, where it has more.
fn split_place(count: usize) -> usize
    requires { 1 < count }
    ensures some { 0 < result }
    ensures less { result < count }
{
    let half = count / 2;
    if count <= MOST_ITEMS {
        return half;
    }
    if half < MOST_ITEMS {
        return MOST_ITEMS;
    }
    half - half % MOST_ITEMS
}

/// Items, and the text of a list of them, if one call takes it.
#[derive(Drop)]
struct Trial {
    items: Vec<Value>,
    text: Option<Items<u8>>,
}

#[tactic(auto, using(crate::proofs::Halves::tried_text, crate::proofs::Halves::tried_none))]
fn try_list(alloc: Global, items: Vec<Value>) -> Result<Trial, AllocError>
    requires { items_depth (items_view items.items) < max_depth }
    ensures items { IfOk result (λ trial. trial.items.items ≡ items.items) }
    ensures text { IfOk result (λ trial. IfSome trial.text (λ text.
        (items_of text ≡ Some (map view items.items))
        × (length text ≤ longest_body) × (length items.items ≤ most_items))) }
    ensures none { IfOk result (λ trial. trial.text ≡ None → length items.items ≡ 1
        → HasLong (map view items.items)) }
{
    if items.len() > MOST_ITEMS {
        return Ok(Trial { items, text: None });
    }
    let list = Value::Array(items);
    let text = list_text(alloc, &list)?;
    let Some(items) = items_in(list) else {
        return Err(AllocError); // It is a list.
    };
    Ok(Trial {
        items,
        text: short_text(text),
    })
}

fn items_in(list: Value) -> Option<Vec<Value>>
    ensures { IfSome result (λ items. list ≡ Array items) }
{
    match list {
        Value::Array(items) => Some(items),
        _ => None,
    }
}

fn short_text(text: Items<u8>) -> Option<Items<u8>>
    ensures { result ≡ (if nat_le (length text) longest_body then Some text else None) }
{
    if text.len() <= LONGEST_BODY {
        Some(text)
    } else {
        None
    }
}

/// The text of a list, without white space.
fn list_text(alloc: Global, list: &Value) -> Result<Items<u8>, AllocError>
    requires { depth (view list.now) ≤ max_depth }
    ensures read { IfOk result (λ text. read text ≡ Some (view list.now)) }
    ensures value { IfOk result (λ text. json_of_bytes text ≡ Some (view list.now)) }
    ensures compact { IfOk result (λ text. text ≡ print (tokens text)) }
{
    let text = list.to_string(alloc)?;
    let bytes = Vec::from_slice(alloc, text.as_bytes())?;
    Ok(Items::from_vec(bytes))
}
