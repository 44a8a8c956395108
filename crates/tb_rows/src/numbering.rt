//! The least free number of a board with one more task.

ghost use Rattle.std.specs.Prelude.{◌≡◌, ◌≤◌, IfSome};
ghost use Rattle.tb_board.specs.Board.{is_on, with_task};
ghost use Rattle.tb_board.specs.Numbers.{free};
ghost use Rattle.tb_task.specs.TaskId.{made};

use tb_board::Board;
use tb_task::{Task, TaskId};

/// The least free number of the board with this task, if the board has an index to seek it by.
pub(crate) fn next_number(board: &Board, task: &Task) -> Option<u32>
    ensures { IfSome result (λ n. n ≡ free (with_task board.now task.now)) }
{
    let Some(first) = board.tasks.least_free(board.number) else {
        return None;
    };
    let mut number = first;
    while is_taken(board, task, number) {
        if number == u32::MAX {
            return None;
        }
        number += 1;
    }
    Some(number)
}

fn is_taken(board: &Board, task: &Task, number: u32) -> bool
    requires { 1 ≤ number }
    ensures { result ≡ is_on (with_task board.now task.now) (made board.now.number number) }
{
    match TaskId::made(board.number, u64::from(number)) {
        Some(id) => is_on(board, task, id),
        None => unreachable!(),
    }
}

fn is_on(board: &Board, task: &Task, id: TaskId) -> bool
    ensures { result ≡ is_on (with_task board.now task.now) id }
{
    board.has(id) || task.id == id
}
