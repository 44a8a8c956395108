//! The entries of all boards, in the order in which they came.
ghost use Rattle.std.specs.Prelude.{◌≡◌, ◌≤◌, ◌+◌, ◌-◌, ◌++◌, ◌∷◌, [], IfOk, OnOk, drop, filter, length, map, option_to_list, take, vec_capacity, vec_len};
ghost use Rattle.std.specs.Option.{option_map};
ghost use Rattle.tb_history.specs.History.{numbered};
ghost use Rattle.tb_history.specs.Pages.{is_about, is_place, last_of, most_shown};
ghost use Rattle.tb_desk.specs.EntryList.{entries_in, entry_by, number_and_entry};

use std::alloc::{AllocError, Global};
use tb_calls::Call;
use tb_deeds::Deed;
use tb_history::Entry;

/// How many entries a page shows at most.
const MOST_SHOWN: usize = 100;

/// An entry with the number of its board.
#[derive(Drop)]
pub(crate) struct BoardEntry {
    pub board: u32,
    pub entry: Entry,
}

/// The entry of a call's deed, where it has one.
pub(crate) fn entry_by(call: &Call, deed: Option<Deed>) -> Result<Option<BoardEntry>, AllocError>
    ensures { IfOk result (λ new. new ≡ option_map (entry_by call.now) deed) }
{
    let Some(deed) = deed else {
        return Ok(None);
    };
    let entry = Entry::of_deed(&call.member, call.id, call.moment, deed)?;
    Ok(Some(BoardEntry {
        board: deed.board,
        entry,
    }))
}

/// Puts an entry last, where there is one. The list has room for it.
pub(crate) fn put_last(entries: &mut Vec<BoardEntry>, new: Option<BoardEntry>)
    requires { vec_len entries.old + 1 ≤ vec_capacity entries.old }
    ensures { entries.new.items ≡ entries.old.items ++ option_to_list new }
{
    if let Some(entry) = new {
        entries.push(entry).unwrap();
    }
}

/// The entries of a board with their numbers, which end at 4294967295: past them it is as if memory ran out.
pub(crate) fn numbered_on<'e>(
    alloc: Global,
    entries: &'e [BoardEntry],
    board: u32,
) -> Result<Vec<(u32, &'e Entry)>, AllocError>
    ensures { IfOk result
        (λ list. map number_and_entry list.items ≡ numbered 1 (entries_in board entries.now)) }
{
    let mut list = Vec::new(alloc);
    for entry in entries {
        if entry.board == board {
            push_next(&mut list, &entry.entry)?;
        }
    }
    Ok(list)
}

/// Puts an entry last, with the next number.
fn push_next<'e>(list: &mut Vec<(u32, &'e Entry)>, entry: &'e Entry) -> Result<(), AllocError>
    ensures { OnOk result (map number_and_entry list.new.items
        ≡ map number_and_entry list.old.items
        ++ (length list.old.items + 1, entry.now) ∷ []) }
{
    let Ok(number) = u32::try_from(list.len() + 1) else {
        return Err(AllocError);
    };
    list.push((number, entry))?;
    Ok(())
}

/// The entries about the task at a place.
pub(crate) fn about<'e>(
    alloc: Global,
    entries: &[(u32, &'e Entry)],
    place: usize,
) -> Result<Vec<(u32, &'e Entry)>, AllocError>
    ensures { IfOk result
        (λ list. map number_and_entry list.items
        ≡ filter (is_about place) (map number_and_entry entries.now)) }
{
    let mut list = Vec::new(alloc);
    for (number, entry) in entries {
        if is_at(entry, place) {
            list.push((*number, *entry))?;
        }
    }
    Ok(list)
}

/// Whether an entry is about the task at a place.
fn is_at(entry: &Entry, place: usize) -> bool
    ensures { result ≡ is_place entry.now.place place }
{
    match entry.place {
        Some(at) => at == place,
        None => false,
    }
}

/// The last entries, as many as a page shows.
pub(crate) fn last_of<'s, 'e>(entries: &'s [(u32, &'e Entry)]) -> &'s [(u32, &'e Entry)]
    ensures { result.now ≡ last_of most_shown entries.now }
{
    entries.split_at(entries.len().saturating_sub(MOST_SHOWN)).1
}

/// The entries from a number on, as many as a page shows. The first has number 1.
pub(crate) fn from_number<'s, 'e>(
    entries: &'s [(u32, &'e Entry)],
    number: u32,
) -> &'s [(u32, &'e Entry)]
    ensures { result.now ≡ take most_shown (drop (number - 1) entries.now) }
{
    let skipped = (number.saturating_sub(1) as usize).min(entries.len());
    let rest = entries.split_at(skipped).1;
    rest.split_at(MOST_SHOWN.min(rest.len())).0
}
