//! The places of a board's templates.

ghost use Rattle.std.specs.Prelude.{◌≡◌, ◌↔◌, IsTrue, IfOk, ℕ, length, unwrap_or, map};
ghost use Rattle.std.specs.BTreeMap.{get};
ghost use Rattle.std.specs.List.{AllByRecursion, filter_map, list_all};
ghost use Rattle.std.specs.Ordering.{nat_cmp};
ghost use Rattle.tb_board.specs.Instances.{HasRuns};
ghost use Rattle.tb_good.specs.Taken.{AreCounts, count_in, gone_place, instance_place, is_below, IsBelowCount, taken};

use crate::distinct::are_distinct;
use std::alloc::{AllocError, Global};
use std::collections::BTreeMap;
use tb_board::{Board, Gone};
use tb_task::{Task, TaskId};
use tb_values::Shared;

/// Whether the places of each template are 0 up to their number, each once.
pub(crate) fn have_runs(alloc: Global, board: &Board) -> Result<bool, AllocError>
    ensures { IfOk result (λ answer. IsTrue answer ↔ HasRuns board.now) }
{
    let places = taken_places(alloc, board)?;
    if !are_distinct(alloc, places.as_slice())? {
        return Ok(false);
    }
    are_below_counts(alloc, places.as_slice())
}

/// The places that are gone and those of instances, each with its template.
fn taken_places(alloc: Global, board: &Board) -> Result<Vec<(TaskId, u32)>, AllocError>
    ensures { IfOk result (λ places. places.items ≡ taken board.now) }
{
    let gone = board.gone.as_slice().iter().map(|gone| gone_place(gone));
    let instances = board
        .tasks
        .as_slice()
        .iter()
        .filter_map(|task| instance_place(task.get()));
    gone.chain(instances).collect(alloc)
}

fn gone_place(gone: &Gone) -> (TaskId, u32)
    ensures { result ≡ gone_place gone.now }
{
    (gone.template, gone.place)
}

fn instance_place(task: &Task) -> Option<(TaskId, u32)>
    ensures { result ≡ instance_place task.now }
{
    let parent = task.parent?;
    let place = task.imask?;
    Some((parent, place))
}

/// Whether each place is below the number of its template's places.
fn are_below_counts(alloc: Global, places: &[(TaskId, u32)]) -> Result<bool, AllocError>
    ensures { IfOk result
        (λ answer. IsTrue answer ↔ AllByRecursion (IsBelowCount places.now) places.now) }
{
    let counts = counts_of(alloc, places)?;
    Ok(are_below(&counts, places))
}

fn are_below(counts: &BTreeMap<TaskId, usize>, places: &[(TaskId, u32)]) -> bool
    ensures { result ≡ list_all (is_below counts.now) places.now }
{
    places
        .iter()
        .all(|place| (place.1 as usize) < count_of(counts, place.0))
}

/// How many of the places each template has.
fn counts_of(alloc: Global, places: &[(TaskId, u32)]) -> Result<BTreeMap<TaskId, usize>, AllocError>
    ensures { IfOk result (AreCounts places.now) }
{
    let mut counts = BTreeMap::new(alloc);
    for place in places {
        let count = count_of(&counts, place.0);
        counts.insert(place.0, count + 1)?;
    }
    Ok(counts)
}

fn count_of(counts: &BTreeMap<TaskId, usize>, template: TaskId) -> usize
    ensures { result ≡ count_in counts.now template }
{
    match counts.get(&template) {
        Some(count) => *count,
        None => 0,
    }
}
