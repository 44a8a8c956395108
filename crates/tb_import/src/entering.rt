ghost use Rattle.std.specs.Prelude.{◌≡◌, ◌+◌, ℕ, List, IfOk, None, filter, if◌then◌else◌};
ghost use Rattle.tb_board.specs.Changing.{Follows};
ghost use Rattle.tb_board.specs.declared.board.Board.{Board};
ghost use Rattle.tb_board.specs.declared.gone.Gone.{Gone};
ghost use Rattle.tb_import.specs.Entering.{entered, is_orphan, kept_depends, one_if, orphans, takes, with_all, without_taken};
ghost use Rattle.tb_import.specs.Known.{AreGone, IsEntered, IsKnown};
ghost use Rattle.tb_import.specs.Sets.{has};
ghost use Rattle.tb_task.specs.declared.incoming.Incoming.{Incoming};

use crate::faults::is_linked;
use crate::ids::Ids;
use crate::places::Places;
use std::alloc::{AllocError, Global};
use tb_board::Draft;
use tb_task::{Incoming, Task, TaskId};
use tb_values::{Duplicate, Items, NonEmptyText, Ordered};

/// The identifiers of the board's tasks and the new ones, and those of them that are templates.
#[derive(Drop)]
pub struct Known {
    pub ids: Ids,
    pub parents: Ids,
}

/// A board to which new tasks go, the set of its gone places, and how many of the tasks were orphans.
#[derive(Drop)]
pub struct Entering {
    pub draft: Draft,
    pub places: Places,
    pub orphans: usize,
}

/// The new tasks go last, one after the other.
pub fn enter_all(
    alloc: Global,
    entering: Entering,
    known: &Known,
    new: &[Incoming],
) -> Result<Entering, AllocError>
    ensures board { IfOk result
        (λ e. (first : Board) (all : List Incoming) → IsKnown first all known.now
        → AreGone entering.draft.board.gone entering.places
        → e.draft.board ≡ with_all first all entering.draft.board new.now) }
    ensures orphans { IfOk result
        (λ e. (first : Board) (all : List Incoming) → IsKnown first all known.now
        → AreGone entering.draft.board.gone entering.places
        → e.orphans ≡ entering.orphans + orphans first all entering.draft.board new.now) }
    ensures follows { IfOk result (λ e. Follows entering.draft e.draft) }
{
    let mut entering = entering;
    for incoming in new {
        entering = enter(alloc, entering, known, incoming)?;
    }
    Ok(entering)
}

/// One new task goes last.
fn enter(
    alloc: Global,
    entering: Entering,
    known: &Known,
    incoming: &Incoming,
) -> Result<Entering, AllocError>
    ensures entered { IfOk result
        (λ e. (first : Board) (all : List Incoming) → IsKnown first all known.now
        → AreGone entering.draft.board.gone entering.places
        → IsEntered first all incoming.now entering e) }
    ensures follows { IfOk result (λ e. Follows entering.draft e.draft) }
{
    let Entering {
        draft,
        mut places,
        orphans,
    } = entering;
    let taking = takes_place(known, &places, incoming);
    let draft = draft_without(alloc, draft, incoming, taking)?;
    remove_place(&mut places, incoming, taking);
    let orphans = more_orphans(orphans, incoming, taking)?;
    let task = entered_task(alloc, known, incoming, taking)?;
    let draft = draft.push(alloc, task)?;
    Ok(Entering {
        draft,
        places,
        orphans,
    })
}

/// Whether the task takes a gone place of a template.
fn takes_place(known: &Known, places: &Places, incoming: &Incoming) -> bool
    ensures { (first : Board) (all : List Incoming) (gs : List Gone) → IsKnown first all known.now
        → AreGone gs places.now → result ≡ takes first all gs incoming.now }
{
    match (incoming.raw_parent, incoming.raw_imask) {
        (Some(parent), Some(place)) => known.parents.has(parent) && places.has(parent, place),
        _ => false,
    }
}

/// The board, of which the place that the task takes isn't gone any more.
fn draft_without(
    alloc: Global,
    draft: Draft,
    incoming: &Incoming,
    taking: bool,
) -> Result<Draft, AllocError>
    ensures board { IfOk result
        (λ later. later.board
        ≡ record draft.board {
          gone = if taking
              then without_taken draft.board.gone incoming.now.raw_parent incoming.now.raw_imask
              else draft.board.gone;
        }) }
    ensures follows { IfOk result (Follows draft) }
{
    if !taking {
        return Ok(draft);
    }
    match (incoming.raw_parent, incoming.raw_imask) {
        (Some(parent), Some(place)) => draft.take_gone(alloc, parent, place),
        _ => Ok(draft),
    }
}

fn remove_place(places: &mut Places, incoming: &Incoming, taking: bool)
    ensures { (gs : List Gone) → AreGone gs places.old
        → AreGone (if taking then without_taken gs incoming.now.raw_parent incoming.now.raw_imask
        else gs) places.new }
{
    if taking {
        if let (Some(parent), Some(place)) = (incoming.raw_parent, incoming.raw_imask) {
            places.remove(parent, place);
        }
    }
}

/// A count that no memory could hold the tasks of is want of memory.
fn more_orphans(orphans: usize, incoming: &Incoming, taking: bool) -> Result<usize, AllocError>
    ensures { IfOk result (λ later. later ≡ orphans + one_if (is_orphan taking incoming.now)) }
{
    if !is_orphan(incoming, taking) {
        return Ok(orphans);
    }
    match orphans.checked_add(1) {
        Some(later) => Ok(later),
        None => Err(AllocError),
    }
}

/// Whether the task came as an instance, and is none.
fn is_orphan(incoming: &Incoming, taking: bool) -> bool
    ensures { result ≡ is_orphan taking incoming.now }
{
    is_linked(incoming) && !taking
}

/// The task as it goes to the board.
fn entered_task(
    alloc: Global,
    known: &Known,
    incoming: &Incoming,
    taking: bool,
) -> Result<Task, AllocError>
    ensures { IfOk result
        (λ task. (first : Board) (all : List Incoming) → IsKnown first all known.now
        → task ≡ entered first all taking incoming.now) }
{
    let depends = linked_depends(alloc, &known.ids, &incoming.task.depends)?;
    let recur = recur_of(incoming, taking)?;
    let mut task = incoming.task.duplicate()?;
    task.depends = depends;
    task.recur = recur;
    task.parent = if_taking(taking, incoming.raw_parent);
    task.imask = if_taking(taking, incoming.raw_imask);
    Ok(task)
}

fn recur_of(incoming: &Incoming, taking: bool) -> Result<Option<NonEmptyText>, AllocError>
    ensures { IfOk result
        (λ recur. recur ≡ (if is_orphan taking incoming.now then None
        else incoming.now.task.recur)) }
{
    if is_orphan(incoming, taking) {
        return Ok(None);
    }
    incoming.task.recur.duplicate()
}

fn if_taking<T: Copy>(taking: bool, value: Option<T>) -> Option<T>
    ensures { result ≡ (if taking then value else None) }
{
    if taking { value } else { None }
}

/// Those of the identifiers that are known.
fn linked_depends(
    alloc: Global,
    ids: &Ids,
    depends: &Ordered<TaskId>,
) -> Result<Ordered<TaskId>, AllocError>
    ensures { IfOk result (λ kept. kept ≡ filter (has ids.now) depends.now) }
{
    let mut kept = Items::new(alloc);
    for id in depends.as_slice() {
        if ids.has(*id) {
            kept.push(*id)?;
        }
    }
    Ok(Ordered::from_increasing(kept))
}
