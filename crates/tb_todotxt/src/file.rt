//! The tasks of a file of lines.
ghost use Rattle.std.specs.Prelude.{◌≡◌, ◌<◌, ◌≤◌, map, length, true, false, IfOk, All};
ghost use Rattle.std.specs.List.{AllByRecursion};
ghost use Rattle.tb_todotxt.specs.File.{kept_lines as kept, count_of, tasks_of as all_tasks, file_of, ReadsFile};
ghost use Rattle.tb_todotxt.specs.Line.{is_blank as blank, is_free_of};
ghost use Rattle.tb_todotxt.specs.Reading.{line_of};
ghost use Rattle.tb_todotxt.specs.Making.{task_of};
ghost use Rattle.tb_task.specs.Limits.{most_items};

use crate::fault::FileFault;
use crate::making::to_task;
use crate::marks::is_blank;
use crate::reading::parse_line;
use std::alloc::{AllocError, Global};
use tb_task::{MOST_ITEMS, Moment, Task};
use tb_values::Items;

/// The lines of a text that aren't skipped.
fn kept_lines(alloc: Global, text: &str) -> Result<Vec<&str>, AllocError>
    ensures { IfOk result (λ v. map (λ line. line.now) v.items ≡ kept text.now) }
{
    text.lines().filter(|line| !is_blank(line)).collect(alloc)
}

/// How many of the lines are equal to one.
fn occurrences(line: &str, lines: &[&str]) -> u32
    requires { length lines.now ≤ most_items }
    ensures { result ≡ count_of line.now (map (λ other. other.now) lines.now) }
{
    let mut count = 0;
    for other in lines {
        if *other == line {
            count += 1;
        }
    }
    count
}

/// The task of a line that isn't skipped.
fn task_at(
    alloc: Global,
    line: &str,
    before: &[&str],
    moment: Moment,
    board: u32,
) -> Result<Task, AllocError>
    requires full { blank line.now ≡ false }
    requires one_line { is_free_of 10 line.now ≡ true }
    requires few { length before.now ≤ most_items }
    ensures { IfOk result
        (λ task. task ≡ task_of (line_of line.now) moment board
        (count_of line.now (map (λ other. other.now) before.now))) }
{
    let line_read = parse_line(alloc, line)?;
    to_task(alloc, &line_read, moment, board, occurrences(line, before))
}

fn tasks_of(
    alloc: Global,
    lines: &[&str],
    moment: Moment,
    board: u32,
) -> Result<Items<Task>, AllocError>
    requires full { AllByRecursion (λ line. blank line ≡ false) (map (λ line. line.now) lines.now) }
    requires one_line { AllByRecursion (λ line. is_free_of 10 line ≡ true)
        (map (λ line. line.now) lines.now) }
    requires few { length lines.now ≤ most_items }
    ensures { IfOk result
        (λ tasks. tasks ≡ all_tasks moment board (map (λ line. line.now) lines.now)) }
{
    let mut tasks = Items::new(alloc);
    for (place, line) in lines.iter().enumerate() {
        tasks.push(task_at(alloc, line, &lines[..place], moment, board)?)?;
    }
    Ok(tasks)
}

/// The tasks of a text on a board at a moment, a task for each line that has something other than spaces and tabs.
pub fn read_file(
    alloc: Global,
    text: &str,
    moment: Moment,
    board: u32,
) -> Result<Items<Task>, FileFault>
    ensures { ReadsFile result (file_of moment board text.now) }
{
    let lines = kept_lines(alloc, text)?;
    if lines.len() > MOST_ITEMS {
        return Err(FileFault::TooMany);
    }
    Ok(tasks_of(alloc, &lines, moment, board)?)
}
