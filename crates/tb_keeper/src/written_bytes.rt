//! How many bytes a call writes: by them, who writes much is made to wait.

ghost use Rattle.std.specs.Prelude.{◌≡◌};
ghost use Rattle.tb_keeper.specs.WrittenBytes as bytes;

use crate::writing::CallRows;
use tb_calls::Written;
use tb_deeds::{Deed, DeedKind};
use tb_sql::changes::RowChange;
use tb_sql_tables::rows::KeptRow;

pub(crate) const NO_BYTES: Written = Written { own: 0, swept: 0 };

/// What each call costs beside its texts: its rows' numbers, keys and pages.
const OVERHEAD: u64 = 256;

/// The bytes of what was written for a call.
pub(crate) fn bytes_of_call(rows: &CallRows, deed: Option<Deed>) -> Written
    ensures { result ≡ bytes.bytes_of_call rows.now deed }
{
    rows.changes
        .as_slice()
        .iter()
        .fold(bytes_of_reply(&rows.kept), |sum, change| {
            with_more(sum, bytes_of_change(change, deed))
        })
}

/// The bytes of a call's content and of its reply.
fn bytes_of_reply(kept: &KeptRow) -> Written
    ensures { result ≡ bytes.bytes_of_reply kept.now }
{
    let content = kept.content.len() as u64;
    let texts = content.saturating_add(kept.body.as_str().len() as u64);
    Written {
        own: texts.saturating_add(OVERHEAD),
        swept: 0,
    }
}

pub(crate) fn with_more(sum: Written, more: Written) -> Written
    ensures { result ≡ bytes.with_more sum more }
{
    Written {
        own: sum.own.saturating_add(more.own),
        swept: sum.swept.saturating_add(more.swept),
    }
}

/// The bytes of a task that the call names, or of an instance that came by the sweep.
fn bytes_of_change(change: &RowChange, deed: Option<Deed>) -> Written
    ensures { result ≡ bytes.bytes_of_change deed change.now }
{
    match change {
        RowChange::AddTask(task) if names_task(deed, task.place) => own_bytes(task.body.as_str()),
        RowChange::AddTask(task) => swept_bytes(task.body.as_str()),
        RowChange::SetText { place, body, .. } if names_task(deed, *place) => own_bytes(
            body.as_str(),
        ),
        _ => NO_BYTES,
    }
}

/// Whether a call names the task at a place, counted from 1. An import names all tasks that it writes.
fn names_task(deed: Option<Deed>, place: u32) -> bool
    ensures { result ≡ bytes.names_task deed place }
{
    let Some(deed) = deed else {
        return false;
    };
    if matches!(deed.what, DeedKind::Import | DeedKind::ImportTodo) {
        return true;
    }
    match deed.place {
        Some(before) => before.saturating_add(1) == place as usize,
        None => false,
    }
}

fn own_bytes(text: &str) -> Written
    ensures { result ≡ bytes.own_bytes text.now }
{
    Written {
        own: text.len() as u64,
        swept: 0,
    }
}

fn swept_bytes(text: &str) -> Written
    ensures { result ≡ bytes.swept_bytes text.now }
{
    Written {
        own: 0,
        swept: text.len() as u64,
    }
}
