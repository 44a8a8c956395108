//! Whole boards.

ghost use Rattle.std.specs.Prelude.{◌≡◌, ◌↔◌, IsTrue, IfOk};
ghost use Rattle.tb_board.specs.Tasks.{ids, ArePlaces};
ghost use Rattle.tb_board.specs.Good.{IsGood};
ghost use Rattle.tb_good.specs.Parts.{HasGoodInstances, HasGoodLinks};

use crate::gone::{are_in_order, are_on_templates};
use crate::links::are_linked;
use crate::parents::{have_parents, templates_of};
use crate::runs::have_runs;
use crate::tasks::has_good_tasks;
use std::alloc::{AllocError, Global};
use std::collections::BTreeMap;
use tb_board::{Board, is_acyclic_board, places_of};
use tb_task::TaskId;

/// Whether the board by itself keeps all that every command keeps of one: its tasks, their links, its instances and its gone places.
/// Roles on it, and its number, are no part of that.
pub fn is_good_board(alloc: Global, board: &Board) -> Result<bool, AllocError>
    ensures { IfOk result (λ answer. IsTrue answer ↔ IsGood board.now) }
{
    if !has_good_tasks(alloc, board)? {
        return Ok(false);
    }
    let places = places_of(alloc, board.tasks.as_slice())?;
    if !has_good_links(alloc, board, &places)? {
        return Ok(false);
    }
    has_good_instances(alloc, board, &places)
}

fn has_good_links(
    alloc: Global,
    board: &Board,
    places: &BTreeMap<TaskId, usize>,
) -> Result<bool, AllocError>
    requires places { ArePlaces (ids board.now.tasks) places.now }
    ensures { IfOk result (λ answer. IsTrue answer ↔ HasGoodLinks board.now) }
{
    if !are_linked(board, places) {
        return Ok(false);
    }
    is_acyclic_board(alloc, board)
}

fn has_good_instances(
    alloc: Global,
    board: &Board,
    places: &BTreeMap<TaskId, usize>,
) -> Result<bool, AllocError>
    requires places { ArePlaces (ids board.now.tasks) places.now }
    ensures { IfOk result (λ answer. IsTrue answer ↔ HasGoodInstances board.now) }
{
    let templates = templates_of(alloc, board.tasks.as_slice())?;
    if !have_parents(board, &templates) {
        return Ok(false);
    }
    if !are_on_templates(board, &templates) {
        return Ok(false);
    }
    if !are_in_order(board, places) {
        return Ok(false);
    }
    have_runs(alloc, board)
}
