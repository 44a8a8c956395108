//! Pages of a board's history.

use crate::finding::{Finding, missing, say};
use crate::given::{bytes_of, halves, id_of, moment_at};
use std::alloc::Global;
use std::io;
use tb_board::Name;
use tb_deeds::{Deed, DeedKind};
use tb_history::{Entry, HistoryPage, ShownEntry, shown_content, write_history};
use tb_task::TaskId;
use tb_values::Items;

/// The page of a board's entries: `BOARD LAST`, and the entries, each with ` | ` in front.
pub(crate) fn page(alloc: Global, given: &str) -> Finding {
    let mut parts = given.split(" | ");
    let (board, last) = halves(parts.next().unwrap_or(""));
    let mut entries = Items::new(alloc);
    for part in parts {
        entries.push(shown(alloc, part)?)?;
    }
    let page = HistoryPage {
        last: number(last),
        entries,
    };
    let text = write_history(alloc, number(board), &page)?;
    say(alloc, text.as_str())
}

/// The entry that `NUMBER MOMENT NAME CALL KIND TASK CONTENT` tells, as it is shown.
fn shown(alloc: Global, text: &str) -> io::Result<ShownEntry> {
    let (first, rest) = halves(text);
    let (moment, rest) = halves(rest);
    let (name, rest) = halves(rest);
    let (call, rest) = halves(rest);
    let (kind, rest) = halves(rest);
    let (task, content) = halves(rest);
    let what = DeedKind::of_number(number(kind)).ok_or(missing())?;
    let name = Name::read(alloc, name)?.ok_or(missing())?;
    let deed = Deed {
        board: 1,
        what,
        place: None,
    };
    let entry = Entry::of_deed(&name, id_of(call)?, moment_at(moment)?, deed)?;
    let content = bytes_of(alloc, content)?;
    let content = shown_content(content.as_slice(), what);
    let shown = ShownEntry::of_entry(alloc, number(first), &entry, TaskId::read(task), content)?;
    Ok(shown)
}

/// A number in decimals, and 0 for what is none.
fn number(text: &str) -> u32 {
    text.parse().unwrap_or(0)
}
