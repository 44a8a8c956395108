//! A task of a text, as an import would take it.

ghost use Rattle.std.specs.Prelude.{◌≡◌, ◌++◌, IfOk, map, option_map};
ghost use Rattle.serde_json.specs.View.{view};
ghost use Rattle.tb_cleaning.specs.Entries.{entry_of, id_of, seen, taken_in};

use crate::ids::Ids;
use crate::judging::judged;
use crate::respelling::{changes_of, item_of};
use crate::verdict::Verdict;
use serde_json::Value;
use std::alloc::{AllocError, Global};
use tb_task::{Incoming, TaskId};
use tb_values::{Items, Text};

/// The task as it is written now, what was changed, and whether it is taken.
#[derive(Drop)]
pub(crate) struct Entry {
    pub value: Value,
    pub changes: Items<Text>,
    pub verdict: Verdict,
}

impl Entry {
    /// Of an item of a text.
    pub(crate) fn of(alloc: Global, item: &Value) -> Result<Entry, AllocError>
        ensures { IfOk result (λ entry. seen entry ≡ entry_of (view item.now)) }
    {
        let value = item_of(alloc, item)?;
        let changes = changes_of(alloc, item)?;
        let verdict = judged(alloc, &value)?;
        Ok(Entry {
            value,
            changes,
            verdict,
        })
    }

    /// The task, if it is taken.
    pub(crate) fn taken(&self) -> Option<&Incoming>
        ensures { option_map (λ i. i.now) result ≡ taken_in self.now.verdict }
    {
        match &self.verdict {
            Verdict::Taken(incoming) => Some(incoming),
            Verdict::Double | Verdict::Refused(_) => None,
        }
    }

    /// The identifier of a task that is taken.
    pub(crate) fn id(&self) -> Option<TaskId>
        ensures { result ≡ id_of (seen self.now) }
    {
        match self.taken() {
            Some(incoming) => Some(incoming.task.id),
            None => None,
        }
    }
}

/// The items of a text as entries.
pub(crate) fn entries_of(alloc: Global, items: &[Value]) -> Result<Vec<Entry>, AllocError>
    ensures { IfOk result (λ entries. map seen entries.items ≡ map entry_of (map view items.now)) }
{
    let mut entries = Vec::with_capacity(alloc, items.len())?;
    for item in items {
        entries.push(Entry::of(alloc, item)?)?;
    }
    Ok(entries)
}

/// The identifiers of those that are taken.
pub(crate) fn ids_of(alloc: Global, entries: &[Entry]) -> Result<Ids, AllocError>
    ensures { IfOk result (λ ids. ids ≡ map id_of (map seen entries.now)) }
{
    let mut ids = Vec::with_capacity(alloc, entries.len())?;
    for entry in entries {
        ids.push(entry.id())?;
    }
    Ids::of(alloc, ids)
}
