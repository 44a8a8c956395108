//! Pages of a board's history from kept replies and entries.
ghost use Rattle.std.specs.Prelude.{◌≡◌, IfOk, map, option_and_then, slice_get};
ghost use Rattle.std.specs.Option.{option_map};
ghost use Rattle.tb_board.specs.Tasks.{ids};
ghost use Rattle.tb_history.specs.Contents.{content_shown};
ghost use Rattle.tb_history.specs.History.{numbered};
ghost use Rattle.tb_history.specs.Pages.{chosen, page_of, shown_entry};
ghost use Rattle.tb_desk.specs.EntryList.{content_among, entries_in, number_and_entry};
ghost use Rattle.tb_desk.specs.ListKeep.{call_name, named};

use crate::entry_list::{BoardEntry, about, from_number, last_of, numbered_on};
use crate::list_keep::{KeptUnder, kept_under};
use std::alloc::{AllocError, Global};
use std::collections::BTreeMap;
use tb_board::Board;
use tb_calls::KeptReply;
use tb_deeds::DeedKind;
use tb_history::{Entry, HistoryPage, ShownEntry, Which, shown_content};
use tb_task::TaskId;
use tb_values::Items;

/// A page of a board's history.
pub(crate) fn page_of(
    alloc: Global,
    kept: &BTreeMap<KeptUnder, KeptReply>,
    entries: &[BoardEntry],
    board: &Board,
    which: Which,
) -> Result<HistoryPage, AllocError>
    ensures { IfOk result (λ page. page
        ≡ page_of (content_among (map named kept.now.entries)) (ids board.now.tasks)
        (entries_in board.now.number entries.now) which) }
{
    let all = numbered_on(alloc, entries, board.number)?;
    let Ok(last) = u32::try_from(all.len()) else {
        return Err(AllocError);
    };
    let entries = show_chosen(alloc, kept, board, all.as_slice(), which)?;
    Ok(HistoryPage { last, entries })
}

/// Those of a board's entries that are looked at, as they are shown.
fn show_chosen(
    alloc: Global,
    kept: &BTreeMap<KeptUnder, KeptReply>,
    board: &Board,
    entries: &[(u32, &Entry)],
    which: Which,
) -> Result<Items<ShownEntry>, AllocError>
    ensures { IfOk result (λ shown. shown
        ≡ map (shown_entry (content_among (map named kept.now.entries)) (ids board.now.tasks))
        (chosen which (map number_and_entry entries.now))) }
{
    match which {
        Which::Last => show_all(alloc, kept, board, last_of(entries)),
        Which::From(number) => show_all(alloc, kept, board, from_number(entries, number)),
        Which::OfPlace(place) => {
            let found = about(alloc, entries, place)?;
            show_all(alloc, kept, board, last_of(found.as_slice()))
        }
    }
}

/// Entries with their numbers, as they are shown.
fn show_all(
    alloc: Global,
    kept: &BTreeMap<KeptUnder, KeptReply>,
    board: &Board,
    entries: &[(u32, &Entry)],
) -> Result<Items<ShownEntry>, AllocError>
    ensures { IfOk result (λ shown. shown
        ≡ map (shown_entry (content_among (map named kept.now.entries)) (ids board.now.tasks))
        (map number_and_entry entries.now)) }
{
    let mut shown = Items::new(alloc);
    for (number, entry) in entries {
        shown.push(show_entry(alloc, kept, board, *number, entry)?)?;
    }
    Ok(shown)
}

/// An entry with its number, as it is shown.
fn show_entry(
    alloc: Global,
    kept: &BTreeMap<KeptUnder, KeptReply>,
    board: &Board,
    number: u32,
    entry: &Entry,
) -> Result<ShownEntry, AllocError>
    ensures { IfOk result (λ shown. shown
        ≡ shown_entry (content_among (map named kept.now.entries)) (ids board.now.tasks)
        (number, entry.now)) }
{
    let name = kept_under(alloc, &entry.member, entry.id)?;
    let content = content_under(kept, &name, entry.what);
    ShownEntry::of_entry(alloc, number, entry, task_at(board, entry.place), content)
}

/// What is shown of the content that is kept under a name.
fn content_under<'k>(
    kept: &'k BTreeMap<KeptUnder, KeptReply>,
    name: &KeptUnder,
    what: DeedKind,
) -> Option<&'k str>
    ensures { option_map (λ text. text.now) result
        ≡ option_and_then (content_shown what)
        (content_among (map named kept.now.entries) (call_name name.now).0 (call_name name.now).1) }
{
    match kept.get(name) {
        Some(found) => shown_content(found.content.as_slice(), what),
        None => None,
    }
}

/// The identifier of the task at a place.
fn task_at(board: &Board, place: Option<usize>) -> Option<TaskId>
    ensures { result ≡ option_and_then (slice_get (ids board.now.tasks)) place }
{
    let task = board.tasks.as_slice().get(place?)?;
    Some(task.get().id)
}
