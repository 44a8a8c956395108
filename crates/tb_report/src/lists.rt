ghost use Rattle.std.specs.Prelude.{◌≡◌, ◌<◌, ◌+◌, ◌^◌, ◌++◌, IfOk, OnOk, Some, length, slice_get, string_bytes};
ghost use Rattle.tb_report.specs.Lists.{is_listed as is_listed_status, header, lines, line, last_line, rank, rank_if_listed, ranks_from, tasks_listed};
ghost use Rattle.tb_graph.specs.Marks.{is_marked};
ghost use Rattle.tb_report.specs.Marked.{waits_in};

use crate::cells::{due_of, flags_of, project_of};
use crate::rank::{Rank, in_order};
use crate::row::{Row, push_row, shown_cell};
use crate::urgencies::urgency_of_task;
use std::alloc::{AllocError, Global};
use std::cmp::Reverse;
use std::fmt::Write;
use tb_board::Waits;
use tb_task::{Moment, Status, Task};
use tb_values::{Shared, Text};

const HEADER: &str = "place  urgency flg due              project      description\n";

/// A header, a line for each pending or waiting task, the most urgent first, and a count.
pub fn list_tasks(
    alloc: Global,
    tasks: &[Shared<Task>],
    waits: &Waits,
    at: Moment,
) -> Result<Text, AllocError>
    ensures { IfOk result
        (λ text. text ≡ tasks_listed
        (waits_in waits.now.blocked.items waits.now.blocking.items) tasks.now at) }
{
    let ranks = in_order(ranks_of(alloc, tasks, waits, at)?)?;
    let mut text = with_header(alloc)?;
    push_lines(alloc, &mut text, tasks, waits, ranks.as_slice())?;
    push_last_line(&mut text, ranks.len(), tasks.len())?;
    Ok(Text::from_string(text))
}

fn with_header(alloc: Global) -> Result<String, AllocError>
    ensures { IfOk result (λ text. string_bytes text ≡ header) }
{
    String::from_str(alloc, HEADER)
}

fn ranks_of(
    alloc: Global,
    tasks: &[Shared<Task>],
    waits: &Waits,
    at: Moment,
) -> Result<Vec<Rank>, AllocError>
    ensures { IfOk result
        (λ ranks. ranks.items
        ≡ ranks_from (waits_in waits.now.blocked.items waits.now.blocking.items) at 0 tasks.now) }
{
    let mut ranks = Vec::new(alloc);
    for (place, task) in tasks.iter().enumerate() {
        add_rank(&mut ranks, task.get(), waits, place, at)?;
    }
    Ok(ranks)
}

fn add_rank(
    ranks: &mut Vec<Rank>,
    task: &Task,
    waits: &Waits,
    place: usize,
    at: Moment,
) -> Result<(), AllocError>
    ensures { OnOk result
        (ranks.new.items
        ≡ ranks.old.items
        ++ rank_if_listed
        (waits_in waits.now.blocked.items waits.now.blocking.items) at place task.now) }
{
    if is_listed(task.status) {
        ranks.push(rank_of(task, waits, place, at))?;
    }
    Ok(())
}

fn is_listed(status: Status) -> bool
    ensures { result ≡ is_listed_status status }
{
    matches!(status, Status::Pending | Status::Waiting)
}

fn rank_of(task: &Task, waits: &Waits, place: usize, at: Moment) -> Rank
    ensures { result
        ≡ rank (waits_in waits.now.blocked.items waits.now.blocking.items) at place task.now }
{
    let is_blocked = mark_at(waits.blocked.as_slice(), place);
    let is_blocking = mark_at(waits.blocking.as_slice(), place);
    (
        Reverse(urgency_of_task(task, is_blocked, is_blocking, at)),
        place,
    )
}

fn push_lines(
    alloc: Global,
    text: &mut String,
    tasks: &[Shared<Task>],
    waits: &Waits,
    ranks: &[Rank],
) -> Result<(), AllocError>
    ensures { OnOk result
        (string_bytes text.new
        ≡ string_bytes text.old
        ++ lines (waits_in waits.now.blocked.items waits.now.blocking.items) tasks.now
        ranks.now) }
{
    for rank in ranks {
        push_line(alloc, text, tasks, waits, *rank)?;
    }
    Ok(())
}

fn push_line(
    alloc: Global,
    text: &mut String,
    tasks: &[Shared<Task>],
    waits: &Waits,
    rank: Rank,
) -> Result<(), AllocError>
    ensures { OnOk result
        (string_bytes text.new
        ≡ string_bytes text.old
        ++ line (waits_in waits.now.blocked.items waits.now.blocking.items) rank
        (slice_get tasks.now rank.1)) }
{
    let Some(task) = tasks.get(rank.1) else {
        return Ok(());
    };
    push_task(alloc, text, task.get(), waits, rank)
}

fn push_task(
    alloc: Global,
    text: &mut String,
    task: &Task,
    waits: &Waits,
    rank: Rank,
) -> Result<(), AllocError>
    requires { rank.1 + 1 < 2 ^ 64 }
    ensures { OnOk result
        (string_bytes text.new
        ≡ string_bytes text.old
        ++ line (waits_in waits.now.blocked.items waits.now.blocking.items) rank
        (Some task.now)) }
{
    let is_blocked = mark_at(waits.blocked.as_slice(), rank.1);
    let is_blocking = mark_at(waits.blocking.as_slice(), rank.1);
    let due = due_of(alloc, task.due)?;
    let project = project_of(alloc, &task.project)?;
    let description = shown_cell(alloc, task.description.as_str())?;
    let row = Row {
        place: rank.1 + 1,
        urgency: rank.0.0,
        flags: flags_of(task, is_blocked, is_blocking),
        due: due.as_str(),
        project: project.as_str(),
        description: description.as_str(),
    };
    push_row(alloc, text, &row)
}

fn mark_at(marks: &[bool], place: usize) -> bool
    ensures { result ≡ is_marked marks.now place }
{
    match marks.get(place) {
        Some(mark) => *mark,
        None => false,
    }
}

fn push_last_line(text: &mut String, listed: usize, all: usize) -> Result<(), AllocError>
    ensures { OnOk result (string_bytes text.new ≡ string_bytes text.old ++ last_line listed all) }
{
    writeln!(text, "{listed} of {all} tasks")
}
