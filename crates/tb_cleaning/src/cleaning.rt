//! What another tool exported, as an import takes it, and what is told of it.

ghost use Rattle.std.specs.Prelude.{IfOk, map};
ghost use Rattle.serde_json.specs.View.{view};
ghost use Rattle.tb_cleaning.specs.Cleaning.{Cleans, IsCleaned};

use crate::fault::CleaningFault;
use crate::items::items_in;
use crate::notes::Notes;
use crate::ordering::brought;
use crate::sorting::sorted;
use crate::text::text_of;
use serde_json::Value;
use std::alloc::{AllocError, Global};
use tb_task::MOST_TASKS;
use tb_values::{Items, Text};

/// A text as an import takes it, what is told of it, and whether all its tasks are in it, but second ones with a uuid.
#[derive(Drop)]
pub struct Cleaned {
    pub text: Items<u8>,
    pub notes: Text,
    pub is_whole: bool,
}

/// The tasks of a text as an import takes them, in an order in which it can, and notes on all that was changed, left out or will be
/// dropped. Where `skips` is set, the notes say that refused tasks are left out.
pub fn clean(alloc: Global, text: &[u8], skips: bool) -> Result<Cleaned, CleaningFault>
    ensures { Cleans skips text.now result }
{
    let Some(items) = items_in(alloc, text)? else {
        return Err(CleaningFault::NotJson);
    };
    if items.len() > MOST_TASKS {
        return Err(CleaningFault::TooMany);
    }
    Ok(cleaned_of(alloc, items.as_slice(), skips)?)
}

fn cleaned_of(alloc: Global, items: &[Value], skips: bool) -> Result<Cleaned, AllocError>
    ensures { IfOk result (IsCleaned skips (map view items.now)) }
{
    let entries = sorted(alloc, items)?;
    let list = brought(alloc, entries.as_slice())?;
    let notes = Notes::of(alloc, entries.as_slice(), list.as_slice())?;
    let text = text_of(alloc, list.as_slice())?;
    Ok(Cleaned {
        text,
        notes: notes.text(alloc, skips)?,
        is_whole: notes.refused.len() == 0,
    })
}
