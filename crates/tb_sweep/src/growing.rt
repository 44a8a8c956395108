ghost use Rattle.std.specs.Prelude.{◌≡◌, ◌<◌, ◌≤◌, ◌-◌, min, length, slice_index_or, IfOk};
ghost use Rattle.tb_board.specs.Board.{with_task};
ghost use Rattle.tb_board.specs.Changing.{Follows};
ghost use Rattle.tb_board.specs.Numbers.{free_id};
ghost use Rattle.tb_board.specs.Templates.{count};
ghost use Rattle.tb_recur.specs.Dues.{IsStep};
ghost use Rattle.tb_recur.specs.Instances.{instance};
ghost use Rattle.tb_recur.specs.Wanting.{need};
ghost use Rattle.tb_sweep.specs.Growing.{IsGrowing};
ghost use Rattle.tb_sweep.specs.Sweeping.{batch, grown, with_instances, with_wanted};
ghost use Rattle.tb_task.specs.TaskId.{made};
ghost use Rattle.tb_task.specs.declared.task.Task.{Task};
ghost use Rattle.tb_task.specs.Limits.{most_at_once, most_tasks};

use crate::counts::Counts;
use std::alloc::{AllocError, Global};
use tb_board::{Ahead, Board, Draft, next_number};
use tb_recur::{Plan, instance, plan_of};
use tb_task::{MOST_AT_ONCE, MOST_TASKS, Moment, Task, TaskId, is_recurring_status};

/// A board that gets instances, the counts of its templates, and a number before which all are taken.
#[derive(Drop)]
pub struct Growing {
    pub draft: Draft,
    pub counts: Counts,
    pub next: usize,
}

/// The templates on the board get their instances, in order of place.
pub fn grown_all(
    alloc: Global,
    growing: Growing,
    marks: &[bool],
    at: Moment,
) -> Result<Growing, AllocError>
    requires { IsGrowing marks.now growing }
    ensures growing { IfOk result (IsGrowing marks.now) }
    ensures grown { IfOk result (λ g. g.draft.board ≡ with_wanted at growing.draft.board) }
    ensures follows { IfOk result (λ g. Follows growing.draft g.draft) }
{
    let mut growing = growing;
    for place in 0..growing.draft.board.tasks.len() {
        growing = grown(alloc, growing, marks, place, at)?;
    }
    Ok(growing)
}

/// The task at a place, if it is a template that recurs, gets its instances.
fn grown(
    alloc: Global,
    growing: Growing,
    marks: &[bool],
    place: usize,
    at: Moment,
) -> Result<Growing, AllocError>
    requires growing { IsGrowing marks.now growing }
    requires place { place < length growing.draft.board.tasks }
    ensures growing { IfOk result (IsGrowing marks.now) }
    ensures grown { IfOk result
        (λ g. (t : Task) → t ≡ slice_index_or growing.draft.board.tasks place t
        → g.draft.board ≡ grown at growing.draft.board t) }
    ensures follows { IfOk result (λ g. Follows growing.draft g.draft) }
{
    let template = growing.draft.board.task_at(place);
    if !is_recurring_status(template.status) {
        return Ok(growing);
    }
    let Some(first) = growing.counts.next_place(template.id) else {
        return Ok(growing);
    };
    let number = batch(&growing.draft.board, template, first, at);
    with_instances(alloc, growing, marks, place, first, number, at)
}

/// How many instances a template gets from its next place on.
fn batch(board: &Board, template: &Task, first: u32, at: Moment) -> usize
    requires first { first ≡ count board.now template.now.id }
    requires early { first < 2932898 }
    ensures { result ≡ batch at board.now template.now }
{
    let room = MOST_TASKS.saturating_sub(board.tasks.len());
    match plan_of(template) {
        Some(plan) => wanted_from(&plan, board.ahead, first, room.min(MOST_AT_ONCE), at),
        None => 0,
    }
}

/// How many from the first place on are wanted, but so many at most.
fn wanted_from(plan: &Plan, ahead: Ahead, first: u32, most: usize, at: Moment) -> usize
    requires step { IsStep plan.now.step }
    requires first { first < 2932898 }
    requires most { most ≤ most_at_once }
    ensures { result ≡ min most (need plan.now ahead at - first) }
{
    let mut number = 0usize;
    while number < most && plan.wants(ahead.number(), first + number as u32, at) {
        number += 1;
    }
    number
}

/// So many instances more of the task at a place.
fn with_instances(
    alloc: Global,
    growing: Growing,
    marks: &[bool],
    place: usize,
    first: u32,
    number: usize,
    at: Moment,
) -> Result<Growing, AllocError>
    requires growing { IsGrowing marks.now growing }
    requires place { place < length growing.draft.board.tasks }
    requires first { first < 2932898 }
    requires number { number ≤ most_at_once }
    requires room { number ≤ most_tasks - length growing.draft.board.tasks }
    ensures growing { IfOk result (IsGrowing marks.now) }
    ensures instances { IfOk result
        (λ g. (t : Task) → t ≡ slice_index_or growing.draft.board.tasks place t
        → g.draft.board ≡ with_instances at t first number growing.draft.board) }
    ensures follows { IfOk result (λ g. Follows growing.draft g.draft) }
{
    let mut growing = growing;
    for offset in 0..number {
        growing = with_instance(alloc, growing, marks, place, first + offset as u32, at)?;
    }
    Ok(growing)
}

/// Instance k of the task at a place goes last.
fn with_instance(
    alloc: Global,
    growing: Growing,
    marks: &[bool],
    place: usize,
    k: u32,
    at: Moment,
) -> Result<Growing, AllocError>
    requires growing { IsGrowing marks.now growing }
    requires place { place < length growing.draft.board.tasks }
    requires room { length growing.draft.board.tasks < most_tasks }
    ensures growing { IfOk result (IsGrowing marks.now) }
    ensures added { IfOk result
        (λ g. (t : Task) → t ≡ slice_index_or growing.draft.board.tasks place t
        → g.draft.board ≡ with_task growing.draft.board
        (instance t k (free_id growing.draft.board) at)) }
    ensures follows { IfOk result (λ g. Follows growing.draft g.draft) }
{
    let Growing {
        draft,
        mut counts,
        next,
    } = growing;
    let number = next_number(&draft.board, marks, next);
    let task = instance_under(&draft.board, place, k, number as u64, at)?;
    counts.add(draft.board.task_at(place).id)?;
    let draft = draft.push(alloc, task)?;
    Ok(Growing {
        draft,
        counts,
        next: number + 1,
    })
}

/// Instance k of the task at a place, under the identifier of a number.
fn instance_under(
    board: &Board,
    place: usize,
    k: u32,
    number: u64,
    at: Moment,
) -> Result<Task, AllocError>
    requires place { place < length board.now.tasks }
    requires from { 1 ≤ number }
    requires small { number ≤ most_tasks }
    ensures { IfOk result (λ u. (t : Task) → t ≡ slice_index_or board.now.tasks place t
        → u ≡ instance t k (made board.now.number number) at) }
{
    match TaskId::made(board.number, number) {
        Some(id) => instance(board.task_at(place), k, id, at),
        None => unreachable!(),
    }
}
