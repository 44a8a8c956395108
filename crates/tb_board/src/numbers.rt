ghost use Rattle.std.specs.Prelude.{◌≡◌, ◌<◌, ◌≤◌, ℕ, length, IfOk, false, List, [], ◌∷◌, replicate};
ghost use Rattle.tb_board.specs.declared.board.Board.{Board};
ghost use Rattle.tb_board.specs.Numbers.{free};
ghost use Rattle.tb_board.specs.Marks.{Knows, IsNextFree, IsMarkedFor};
ghost use Rattle.tb_task.specs.Limits.{most_tasks};

use crate::board::Board;
use std::alloc::{AllocError, Global};
use tb_task::Task;
use tb_values::Shared;

/// A board with room for a task has a free number below this one.
const NUMBERS: usize = 10001;

/// The first number from the next on without a mark.
fn next_unmarked(marks: &[bool], next: usize) -> usize
    requires { next ≤ length marks.now }
    ensures { IsNextFree marks.now next result }
{
    let mut number = next;
    while number < marks.len() && marks[number] {
        number += 1;
    }
    number
}

/// The least free number of a board, by its marks.
pub fn next_number(board: &Board, marks: &[bool], next: usize) -> usize
    requires knows { Knows board.now marks.now next }
    requires room { length board.now.tasks < most_tasks }
    ensures free { result ≡ free board.now }
    ensures next { IsNextFree marks.now next result }
    ensures from { 1 ≤ result }
    ensures small { result ≤ most_tasks }
{
    next_unmarked(marks, next)
}

fn mark_task(marks: &mut [bool], task: &Task, board: u32)
    ensures { IsMarkedFor (task.now ∷ []) board marks.old marks.new }
{
    if let Some(number) = task.id.number_on(board) {
        if number < marks.len() as u64 {
            marks[number as usize] = true;
        }
    }
}

fn mark_tasks(marks: &mut [bool], tasks: &[Shared<Task>], board: u32)
    ensures { IsMarkedFor tasks.now board marks.old marks.new }
{
    for task in tasks {
        mark_task(marks, task.get(), board);
    }
}

/// Marks of so many numbers, those of the tasks marked.
fn marks_of(
    alloc: Global,
    tasks: &[Shared<Task>],
    board: u32,
    size: usize,
) -> Result<Vec<bool>, AllocError>
    ensures { IfOk result
        (λ marks. IsMarkedFor tasks.now board (replicate size false) marks.items) }
{
    let mut marks = vec![in alloc; false; size]?;
    mark_tasks(&mut marks, tasks, board);
    Ok(marks)
}

/// Marks of the numbers whose identifiers are on a board.
pub fn taken_numbers(alloc: Global, board: &Board) -> Result<Vec<bool>, AllocError>
    ensures { IfOk result (λ marks. Knows board.now marks.items 1) }
{
    marks_of(alloc, board.tasks.as_slice(), board.number, NUMBERS)
}

/// The least number from 1 whose identifier isn't on a board, full or not.
pub fn least_number(alloc: Global, board: &Board) -> Result<u32, AllocError>
    requires { length board.now.tasks ≤ most_tasks }
    ensures free { IfOk result (λ number. number ≡ free board.now) }
    ensures from { IfOk result (λ number. 1 ≤ number) }
{
    if let Some(number) = board.tasks.least_free(board.number) {
        return Ok(number);
    }
    let marks = taken_numbers(alloc, board)?;
    let number = next_unmarked(&marks, 1);
    Ok(number as u32)
}
