//! The text of the tasks that are brought: one JSON list.

ghost use Rattle.std.specs.Prelude.{◌≡◌, ◌≤◌, IfOk, Some, map};
ghost use Rattle.serde_json.specs.Data.{depth};
ghost use Rattle.serde_json.specs.Read.{max_depth, read};
ghost use Rattle.serde_json.specs.View.{view};
ghost use Rattle.tb_cleaning.specs.Entries.{seen};
ghost use Rattle.tb_cleaning.specs.Cleaning.{Reads, items_in};

use crate::entry::Entry;
use serde_json::Value;
use std::alloc::{AllocError, Global};
use tb_values::Items;

fn values_of(alloc: Global, entries: &[&Entry]) -> Result<Vec<Value>, AllocError>
    ensures { IfOk result
        (λ values. map view values.items ≡ items_in (map (λ e. seen e.now) entries.entry.now)) }
{
    let mut values = Vec::with_capacity(alloc, entries.len())?;
    for entry in entries {
        values.push(entry.value.clone()?)?;
    }
    Ok(values)
}

fn written(alloc: Global, list: &Value) -> Result<Items<u8>, AllocError>
    ensures { IfOk result
        (λ text. depth (view list.now) ≤ max_depth → read text ≡ Some (view list.now)) }
{
    let text = list.to_string(alloc)?;
    let bytes = Vec::from_slice(alloc, text.as_bytes())?;
    Ok(Items::from_vec(bytes))
}

fn list_of(alloc: Global, values: Vec<Value>) -> Result<Items<u8>, AllocError>
    ensures { IfOk result (λ text. Reads text (map view values.items)) }
{
    let list = Value::Array(values);
    written(alloc, &list)
}

/// One JSON list of the tasks as they are written now.
pub(crate) fn text_of(alloc: Global, entries: &[&Entry]) -> Result<Items<u8>, AllocError>
    ensures { IfOk result
        (λ text. Reads text (items_in (map (λ e. seen e.now) entries.entry.now))) }
{
    let values = values_of(alloc, entries)?;
    list_of(alloc, values)
}
