//! A page of a board's history as JSON.
ghost use Rattle.std.specs.Prelude.{◌≡◌, IfOk, OnOk, codes, map, option_map};
ghost use Rattle.serde_json.specs.Data.{put, string};
ghost use Rattle.serde_json.specs.View.{members_view, view};
ghost use Rattle.tb_task.specs.TaskId.{id_text};
ghost use Rattle.tb_history.specs.Texts.{entry_data, entry_put, history_data, history_text, put_if_some};

use crate::page::{HistoryPage, ShownEntry};
use serde_json::{Map, Value, put};
use std::alloc::{AllocError, Global};
use tb_task::TaskId;
use tb_values::Text;

/// A page of a board's history as JSON without a space, with its members in byte order of their names.
pub fn write_history(alloc: Global, board: u32, page: &HistoryPage) -> Result<Text, AllocError>
    ensures { IfOk result (λ text. text ≡ history_text board page.now) }
{
    let value = history_value(alloc, board, page)?;
    Ok(Text::from_string(value.to_string(alloc)?))
}

fn history_value(alloc: Global, board: u32, page: &HistoryPage) -> Result<Value, AllocError>
    ensures { IfOk result (λ value. view value ≡ history_data board page.now) }
{
    let entries = entry_values(alloc, page.entries.as_slice())?;
    let mut object = Map::new(alloc);
    put(&mut object, alloc, "board", Value::from(board))?;
    put(&mut object, alloc, "entries", Value::Array(entries))?;
    put(&mut object, alloc, "last", Value::from(page.last))?;
    Ok(Value::Object(object))
}

fn entry_values(alloc: Global, entries: &[ShownEntry]) -> Result<Vec<Value>, AllocError>
    ensures { IfOk result (λ list. map view list.items ≡ map entry_data entries.now) }
{
    let mut list = Vec::new(alloc);
    for entry in entries {
        list.push(entry_value(alloc, entry)?)?;
    }
    Ok(list)
}

fn entry_value(alloc: Global, entry: &ShownEntry) -> Result<Value, AllocError>
    ensures { IfOk result (λ value. view value ≡ entry_data entry.now) }
{
    let object = entry_object(alloc, entry)?;
    Ok(Value::Object(object))
}

fn entry_object(alloc: Global, entry: &ShownEntry) -> Result<Map<String, Value>, AllocError>
    ensures { IfOk result (λ object. members_view object.entries ≡ entry_put entry.now) }
{
    let moment = entry.moment.text(alloc)?;
    let mut object = Map::new(alloc);
    put_id(&mut object, alloc, "call", Some(entry.call))?;
    put_content(&mut object, alloc, &entry.content)?;
    put_text(&mut object, alloc, "member", entry.member.as_str())?;
    put_text(&mut object, alloc, "moment", moment.as_str())?;
    put(&mut object, alloc, "number", Value::from(entry.number))?;
    put_id(&mut object, alloc, "task", entry.task)?;
    put_text(&mut object, alloc, "what", entry.what.word())?;
    Ok(object)
}

/// An identifier under a name, where there is one.
fn put_id(
    object: &mut Map<String, Value>,
    alloc: Global,
    name: &str,
    id: Option<TaskId>,
) -> Result<(), AllocError>
    ensures { OnOk result
        (members_view object.new.entries
        ≡ put_if_some name.now (option_map id_text id) (members_view object.old.entries)) }
{
    match id {
        Some(id) => put_text(object, alloc, name, id.text(alloc)?.as_str()),
        None => Ok(()),
    }
}

fn put_content(
    object: &mut Map<String, Value>,
    alloc: Global,
    content: &Option<Text>,
) -> Result<(), AllocError>
    ensures { OnOk result
        (members_view object.new.entries
        ≡ put_if_some (codes "content") content.now (members_view object.old.entries)) }
{
    match content {
        Some(content) => put_text(object, alloc, "content", content.as_str()),
        None => Ok(()),
    }
}

fn put_text(
    object: &mut Map<String, Value>,
    alloc: Global,
    name: &str,
    text: &str,
) -> Result<(), AllocError>
    ensures { OnOk result
        (members_view object.new.entries
        ≡ put name.now (string text.now) (members_view object.old.entries)) }
{
    put(object, alloc, name, Value::try_from_str(alloc, text)?)
}
