//! The links of a board.

ghost use Rattle.std.specs.Prelude.{◌≡◌, not};
ghost use Rattle.std.specs.List.{list_all};
ghost use Rattle.tb_good.specs.Parts.{lacks_place};

use std::collections::BTreeMap;
use tb_board::Board;
use tb_task::TaskId;

/// Whether the tasks on which others depend are on the board.
pub(crate) fn are_linked(board: &Board, places: &BTreeMap<TaskId, usize>) -> bool
    ensures { result ≡ list_all (λ t. not (lacks_place places.now t.depends)) board.now.tasks }
{
    board
        .tasks
        .as_slice()
        .iter()
        .all(|task| !lacks_any(places, task.get().depends.as_slice()))
}

/// Whether one of the identifiers has no place.
fn lacks_any(places: &BTreeMap<TaskId, usize>, depends: &[TaskId]) -> bool
    ensures { result ≡ lacks_place places.now depends.now }
{
    depends.iter().any(|id| !places.contains_key(id))
}
