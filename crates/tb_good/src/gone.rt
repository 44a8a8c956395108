//! The gone places of a board.

ghost use Rattle.std.specs.Prelude.{◌≡◌, ◌↔◌, IsTrue};
ghost use Rattle.std.specs.List.{list_all, list_any};
ghost use Rattle.std.specs.List.Sorted.{IsStrictlySortedBy};
ghost use Rattle.tb_board.specs.Tasks.{ids, ArePlaces};
ghost use Rattle.tb_board.specs.Instances.{by_template, is_template_with};
ghost use Rattle.tb_good.specs.Parts.{comes_before, place_or_end};
ghost use Rattle.tb_good.specs.Templates.{AreTemplates};

use std::collections::{BTreeMap, BTreeSet};
use tb_board::{Board, Gone};
use tb_task::TaskId;

/// Whether each gone place is of a template of the board.
pub(crate) fn are_on_templates(board: &Board, templates: &BTreeSet<TaskId>) -> bool
    requires templates { AreTemplates board.now.tasks templates.now }
    ensures { result
        ≡ list_all (λ g. list_any (is_template_with g.template) board.now.tasks) board.now.gone }
{
    board
        .gone
        .as_slice()
        .iter()
        .all(|gone| templates.contains(&gone.template))
}

/// Whether the gone places stand by the places of their templates, and then by their own.
pub(crate) fn are_in_order(board: &Board, places: &BTreeMap<TaskId, usize>) -> bool
    requires places { ArePlaces (ids board.now.tasks) places.now }
    ensures { IsTrue result
        ↔ IsStrictlySortedBy (by_template (ids board.now.tasks)) board.now.gone }
{
    let end = board.tasks.len();
    board
        .gone
        .as_slice()
        .is_sorted_by(|earlier, later| comes_before(places, end, earlier, later))
}

fn comes_before(places: &BTreeMap<TaskId, usize>, end: usize, earlier: &Gone, later: &Gone) -> bool
    ensures { result ≡ comes_before places.now end earlier.now later.now }
{
    let first = place_or_end(places, end, earlier.template);
    let second = place_or_end(places, end, later.template);
    first < second || (first == second && earlier.place < later.place)
}

/// The place of the identifier, and the end where it has none.
fn place_or_end(places: &BTreeMap<TaskId, usize>, end: usize, id: TaskId) -> usize
    ensures { result ≡ place_or_end places.now end id }
{
    match places.get(&id) {
        Some(place) => *place,
        None => end,
    }
}
