//! Instances of which an import makes plain tasks: their place is none of their template, or another's.

ghost use Rattle.std.specs.Prelude.{◌≡◌, [], IfOk, OnOk, Some, length, map, option_map};
ghost use Rattle.tb_cleaning.specs.Entries.{seen, taken_in};
ghost use Rattle.tb_cleaning.specs.Orphans.{all_orphans, claim_in, has_claim, is_at, is_claimed, mask_length, orphan_of, orphans_on, reason_by, reason_in, room_at, room_in, room_of, rooms_of, with_claim};

use crate::entry::Entry;
use crate::ids::Ids;
use crate::losses::ids_of;
use crate::ordering::is_template;
use crate::places::place_of_some;
use crate::respelling::push_text;
use crate::telling::line_of;
use std::alloc::{AllocError, Global};
use tb_task::{Incoming, Mask, TaskId};
use tb_values::{Items, Text};

const ORPHAN: &str = "orphan: ";

const NO_TEMPLATE: &str = "it has no template here, so it becomes a plain task";

const NO_NUMBER: &str =
    "it has no place (imask) among its template's instances, so it becomes a plain task";

const BEYOND: &str = "its template's mask has no place for it, so it becomes a plain task";

const TAKEN: &str = "another instance has its place, so it becomes a plain task";

fn mask_length(mask: &Option<Mask>) -> usize
    ensures { result ≡ mask_length mask.now }
{
    match mask {
        Some(mask) => mask.len(),
        None => 0,
    }
}

/// How many places for instances a template brings.
fn room_in(incoming: &Incoming) -> Option<usize>
    ensures { result ≡ room_in (Some incoming.now) }
{
    if is_template(incoming) {
        Some(mask_length(&incoming.raw_mask))
    } else {
        None
    }
}

fn room_of(entry: &Entry) -> Option<usize>
    ensures { result ≡ room_of (seen entry.now) }
{
    room_in(entry.taken()?)
}

fn rooms_of(alloc: Global, entries: &[&Entry]) -> Result<Vec<Option<usize>>, AllocError>
    ensures { IfOk result
        (λ rooms. rooms.items ≡ rooms_of (map (λ e. seen e.now) entries.entry.now)) }
{
    let mut rooms = Vec::with_capacity(alloc, entries.len())?;
    for entry in entries {
        rooms.push(room_of(entry))?;
    }
    Ok(rooms)
}

fn room_at(rooms: &[Option<usize>], place: Option<usize>) -> Option<usize>
    ensures { result ≡ room_at rooms.now place }
{
    match rooms.get(place?) {
        Some(room) => *room,
        None => None,
    }
}

/// The template and the place of an instance.
fn claim_in(incoming: &Incoming) -> Option<(TaskId, u32)>
    ensures { result ≡ claim_in (Some incoming.now) }
{
    let parent = incoming.raw_parent?;
    let place = incoming.raw_imask?;
    Some((parent, place))
}

fn push_claim(
    claims: &mut Items<(TaskId, u32)>,
    claim: Option<(TaskId, u32)>,
) -> Result<(), AllocError>
    ensures { OnOk result (claims.new ≡ with_claim claims.old claim) }
{
    match claim {
        Some(claim) => claims.push(claim),
        None => Ok(()),
    }
}

fn push_claim_of(claims: &mut Items<(TaskId, u32)>, entry: &Entry) -> Result<(), AllocError>
    ensures { OnOk result
        (claims.new ≡ with_claim claims.old (claim_in (taken_in entry.now.verdict))) }
{
    match entry.taken() {
        Some(incoming) => push_claim(claims, claim_in(incoming)),
        None => Ok(()),
    }
}

fn is_at(template: TaskId, place: u32, claim: (TaskId, u32)) -> bool
    ensures { result ≡ is_at template place claim }
{
    claim.0 == template && claim.1 == place
}

fn has_claim(claims: &[(TaskId, u32)], template: TaskId, place: u32) -> bool
    ensures { result ≡ has_claim claims.now template place }
{
    claims.iter().any(|claim| is_at(template, place, *claim))
}

fn is_claimed(claims: &[(TaskId, u32)], claim: Option<(TaskId, u32)>) -> bool
    ensures { result ≡ is_claimed claims.now claim }
{
    match claim {
        Some(claim) => has_claim(claims, claim.0, claim.1),
        None => false,
    }
}

/// Why a task that comes as an instance can't be one.
fn reason_by(room: Option<usize>, imask: Option<u32>, is_claimed: bool) -> Option<&'static str>
    ensures { option_map (λ reason. reason.now) result ≡ reason_by room imask is_claimed }
{
    let Some(room) = room else {
        return Some(NO_TEMPLATE);
    };
    let Some(place) = imask else {
        return Some(NO_NUMBER);
    };
    if room <= place as usize {
        return Some(BEYOND);
    }
    if is_claimed { Some(TAKEN) } else { None }
}

fn reason_in(
    ids: &Ids,
    rooms: &[Option<usize>],
    claims: &[(TaskId, u32)],
    incoming: &Incoming,
) -> Option<&'static str>
    ensures { option_map (λ reason. reason.now) result
        ≡ reason_in ids.now rooms.now claims.now (Some incoming.now) }
{
    if incoming.raw_parent.is_none() && incoming.raw_imask.is_none() {
        return None;
    }
    let room = room_at(rooms, place_of_some(ids, incoming.raw_parent));
    reason_by(
        room,
        incoming.raw_imask,
        is_claimed(claims, claim_in(incoming)),
    )
}

fn orphan_of(
    alloc: Global,
    ids: &Ids,
    rooms: &[Option<usize>],
    claims: &[(TaskId, u32)],
    entry: &Entry,
) -> Result<Option<Text>, AllocError>
    ensures { IfOk result
        (λ line. line ≡ orphan_of ids.now rooms.now claims.now (seen entry.now)) }
{
    let Some(incoming) = entry.taken() else {
        return Ok(None);
    };
    match reason_in(ids, rooms, claims, incoming) {
        Some(reason) => Ok(Some(line_of(alloc, ORPHAN, &entry.value, reason)?)),
        None => Ok(None),
    }
}

fn orphans_on(
    alloc: Global,
    ids: &Ids,
    rooms: &[Option<usize>],
    entries: &[&Entry],
) -> Result<Items<Text>, AllocError>
    ensures { IfOk result
        (λ lines. lines ≡ orphans_on ids.now rooms.now [] [] (map (λ e. seen e.now) entries.entry.now)) }
{
    let mut found = Items::new(alloc);
    let mut claims = Items::new(alloc);
    for entry in entries {
        push_text(
            &mut found,
            orphan_of(alloc, ids, rooms, claims.as_slice(), entry)?,
        )?;
        push_claim_of(&mut claims, entry)?;
    }
    Ok(found)
}

/// A line for each instance without a template, or a place of its own.
pub(crate) fn all_orphans(alloc: Global, entries: &[&Entry]) -> Result<Items<Text>, AllocError>
    ensures { IfOk result
        (λ lines. lines ≡ all_orphans (map (λ e. seen e.now) entries.entry.now)) }
{
    let ids = ids_of(alloc, entries)?;
    let rooms = rooms_of(alloc, entries)?;
    orphans_on(alloc, &ids, rooms.as_slice(), entries)
}
