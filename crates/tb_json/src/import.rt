//! The tasks of an import: a JSON array, one object, or an item on each line.

ghost use Rattle.std.specs.Prelude.{◌≡◌, [], map, IfOk, Some, None, option_map, if◌then◌else◌};
ghost use Rattle.serde_json.specs.View.{view};
ghost use Rattle.tb_json.specs.Import.{with_text, items_of_lines as all_items, items_of as import_items, named_task, tasks_of as all_tasks, import_of};
ghost use Rattle.tb_json.specs.ImportOutcome.{ReadsImport};
ghost use Rattle.tb_json.specs.Lines.{line_text as text_of, lines_of as all_lines};
ghost use Rattle.tb_json.specs.Reading.{task_of};

use crate::fault::JsonFault;
use crate::import_fault::ImportFault;
use crate::lines::{line_text, lines_of};
use crate::parsing::parse_bytes;
use crate::reading::read_task;
use serde_json::Value;
use std::alloc::{AllocError, Global};
use tb_task::{Incoming, MOST_ITEMS, Moment};
use tb_values::{Items, Text};

/// Adds the item of a line, and says whether it was JSON.
fn add_line(alloc: Global, items: &mut Vec<Value>, line: &[u8]) -> Result<bool, AllocError>
    ensures { IfOk result
        (λ is_json. with_text (map view items.old.items) (text_of line.now)
        ≡ (if is_json then Some (map view items.new.items) else None)) }
{
    let text = line_text(line);
    if text.is_empty() {
        return Ok(true);
    }
    let Some(value) = parse_bytes(alloc, text)? else {
        return Ok(false);
    };
    items.push(value)?;
    Ok(true)
}

fn items_of_lines(alloc: Global, text: &[u8]) -> Result<Option<Vec<Value>>, AllocError>
    ensures { IfOk result
        (λ items. option_map (λ v. map view v.items) items ≡ all_items [] (all_lines text.now)) }
{
    let lines = lines_of(alloc, text)?;
    let mut items = Vec::new(alloc);
    for line in &lines {
        if !add_line(alloc, &mut items, line)? {
            return Ok(None);
        }
    }
    Ok(Some(items))
}

fn items_of(alloc: Global, text: &[u8]) -> Result<Option<Vec<Value>>, AllocError>
    ensures { IfOk result
        (λ items. option_map (λ v. map view v.items) items ≡ import_items text.now) }
{
    let Some(value) = parse_bytes(alloc, text)? else {
        return items_of_lines(alloc, text);
    };
    match value {
        Value::Array(items) => Ok(Some(items)),
        Value::Object(members) => {
            let mut items = Vec::new(alloc);
            items.push(Value::Object(members))?;
            Ok(Some(items))
        }
        _ => items_of_lines(alloc, text),
    }
}

/// The task of an item, which has its identifier.
fn named_task_of(
    alloc: Global,
    at: usize,
    item: &Value,
    moment: Moment,
) -> Result<Incoming, ImportFault>
    ensures { ReadsImport result (named_task at (task_of moment (view item.now))) }
{
    let incoming = match read_task(alloc, item, moment) {
        Ok(incoming) => incoming,
        Err(JsonFault::NotObject) => {
            return Err(ImportFault::BadTask(at, Text::from_string(String::new(alloc))));
        }
        Err(JsonFault::BadField(name)) => return Err(ImportFault::BadTask(at, name)),
        Err(JsonFault::Memory) => return Err(ImportFault::Memory),
    };
    if !incoming.named {
        return Err(ImportFault::BadTask(at, Text::from_str(alloc, "uuid")?));
    }
    Ok(incoming)
}

fn tasks_of(alloc: Global, items: &[Value], moment: Moment) -> Result<Items<Incoming>, ImportFault>
    ensures { ReadsImport result (all_tasks moment [] (map view items.now)) }
{
    let mut tasks = Items::new(alloc);
    for item in items {
        let at = tasks.len();
        tasks.push(named_task_of(alloc, at, item, moment)?)?;
    }
    Ok(tasks)
}

/// The tasks of an import's text at a moment. The faults come in the order of `ImportFault`.
pub fn read_import(
    alloc: Global,
    text: &[u8],
    moment: Moment,
) -> Result<Items<Incoming>, ImportFault>
    ensures { ReadsImport result (import_of moment text.now) }
{
    let items = items_of(alloc, text)?.ok_or(ImportFault::NotJson)?;
    if items.len() > MOST_ITEMS {
        return Err(ImportFault::TooMany);
    }
    tasks_of(alloc, &items, moment)
}
