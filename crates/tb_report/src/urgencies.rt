ghost use Rattle.std.specs.Prelude.{◌≡◌, ◌≤◌, ◌*◌, ◌+◌, ◌-◌, ◌-ℤ◌, ◌<◌, ◌^◌, ◌&&◌, Some, length, not, pos};
ghost use Rattle.std.specs.List.{list_any};
ghost use Rattle.tb_board.specs.Tasks.{wakes, woken};
ghost use Rattle.tb_report.specs.Row.{unit};
ghost use Rattle.tb_report.specs.Urgencies.{age_parts, count_parts, due_parts, is_next, next_parts, own_parts, parts_if, priority_parts, scheduled_parts, urgency_at, urgency_of, is_waiting_now};

use crate::row::URGENCY_UNIT;
use tb_board::{Board, has_waited, is_blocked_task, is_blocking_task};
use tb_task::{Moment, Priority, Status, Task};
use tb_values::Text;

/// A due date counts from two weeks before it on.
const SECONDS_BEFORE_DUE: u64 = 1_209_600;

/// It counts most from a week after it on.
const MOST_SECONDS: u64 = 1_814_400;

/// What a due date counts two weeks before it, in parts: 2.4 units.
const LEAST_DUE_PARTS: u64 = 264_902_400;

/// What each second after that adds.
const DUE_PARTS_A_SECOND: u64 = 584;

/// 3.9 units.
const MEDIUM_PRIORITY_PARTS: u64 = 430_466_400;

/// 1.8 units.
const LOW_PRIORITY_PARTS: u64 = 198_676_800;

/// What one note, or one tag, counts: 0.8 units.
const ONE_COUNTS: u64 = 88_300_800;

/// What two count: 0.9 units.
const TWO_COUNT: u64 = 99_338_400;

/// The urgency of the task at a place of the board at a moment, in parts. Places of a board count from 1. It takes no memory.
pub fn urgency(board: &Board, place: usize, at: Moment) -> i64
    requires from_one { 1 ≤ place }
    requires on_board { place ≤ length board.now.tasks }
    ensures { urgency_at board.now at place ≡ Some result }
{
    let index = place - 1;
    let is_blocked = is_blocked_task(board, index);
    let is_blocking = is_blocking_task(board, index);
    urgency_of_woken(board.task_at(index), is_blocked, is_blocking, at)
}

/// The urgency of a task at a moment, in parts: the sum of all terms. It is the task of the board that is awake.
#[tactic(auto, unfolding(crate::specs::Urgencies::urgency_of))]
pub fn urgency_of_task(task: &Task, is_blocked: bool, is_blocking: bool, at: Moment) -> i64
    ensures { result ≡ urgency_of is_blocked is_blocking at task.now }
{
    let is_waiting = is_waiting(task.status);
    sum_of(own_parts_of(task, at), is_waiting, is_blocked, is_blocking)
}

/// The urgency of a task at a moment, in parts: it waits no more where its wait is over.
pub(crate) fn urgency_of_woken(task: &Task, is_blocked: bool, is_blocking: bool, at: Moment) -> i64
    ensures { result ≡ urgency_of is_blocked is_blocking at (woken at task.now) }
{
    let is_waiting = is_still_waiting(task, at);
    sum_of(own_parts_of(task, at), is_waiting, is_blocked, is_blocking)
}

fn is_still_waiting(task: &Task, at: Moment) -> bool
    ensures { result ≡ (is_waiting_now task.now.status && not (wakes at task.now)) }
{
    is_waiting(task.status) && !has_waited(task, at)
}

/// What a task gains by its own attributes, and what it gains and loses by where it stands.
fn sum_of(own: u64, is_waiting: bool, is_blocked: bool, is_blocking: bool) -> i64
    requires { own ≤ 200 * unit }
    ensures { result
        ≡ pos (own + parts_if is_blocking (8 * unit)) -ℤ pos
        (parts_if is_waiting (3 * unit) + parts_if is_blocked (5 * unit)) }
{
    let gained = own + parts_where(is_blocking, 8);
    let lost = parts_where(is_waiting, 3) + parts_where(is_blocked, 5);
    gained as i64 - lost as i64
}

/// So many units in parts, where something is so.
fn parts_where(is_so: bool, units: u64) -> u64
    requires { units ≤ 15 }
    ensures parts { result ≡ parts_if is_so (units * unit) }
    ensures most { result ≤ 15 * unit }
{
    if is_so { units * URGENCY_UNIT } else { 0 }
}

#[tactic(auto, unfolding(crate::specs::Urgencies::own_parts))]
fn own_parts_of(task: &Task, at: Moment) -> u64
    ensures parts { result ≡ own_parts at task.now }
    ensures most { result ≤ 200 * unit }
{
    next_parts_of(task.tags.as_slice())
        + due_parts_of(task.due, at)
        + priority_parts_of(task.priority)
        + scheduled_parts_of(task.scheduled, at)
        + parts_where(task.start.is_some(), 4)
        + age_parts_of(task.entry, at)
        + count_parts_of(task.annotations.len())
        + count_parts_of(task.tags.len())
        + parts_where(task.project.is_some(), 1)
}

fn next_parts_of(tags: &[Text]) -> u64
    ensures parts { result ≡ next_parts tags.now }
    ensures most { result ≤ 15 * unit }
{
    parts_where(has_next_tag(tags), 15)
}

fn has_next_tag(tags: &[Text]) -> bool
    ensures { result ≡ list_any is_next tags.now }
{
    tags.iter().any(is_next_tag)
}

fn is_next_tag(tag: &Text) -> bool
    ensures { result ≡ is_next tag.now }
{
    tag.as_str() == "next"
}

fn due_parts_of(due: Option<Moment>, at: Moment) -> u64
    ensures parts { result ≡ due_parts at due }
    ensures most { result ≤ 15 * unit }
{
    let Some(due) = due else {
        return 0;
    };
    let seconds = (at.seconds() + SECONDS_BEFORE_DUE).saturating_sub(due.seconds());
    seconds.min(MOST_SECONDS) * DUE_PARTS_A_SECOND + LEAST_DUE_PARTS
}

fn priority_parts_of(priority: Option<Priority>) -> u64
    ensures parts { result ≡ priority_parts priority }
    ensures most { result ≤ 15 * unit }
{
    match priority {
        None => 0,
        Some(Priority::High) => 6 * URGENCY_UNIT,
        Some(Priority::Medium) => MEDIUM_PRIORITY_PARTS,
        Some(Priority::Low) => LOW_PRIORITY_PARTS,
    }
}

fn scheduled_parts_of(scheduled: Option<Moment>, at: Moment) -> u64
    ensures parts { result ≡ scheduled_parts at scheduled }
    ensures most { result ≤ 15 * unit }
{
    match scheduled {
        Some(scheduled) => parts_where(scheduled < at, 5),
        None => 0,
    }
}

fn age_parts_of(entry: Moment, at: Moment) -> u64
    ensures parts { result ≡ age_parts at entry }
    ensures most { result ≤ 15 * unit }
{
    let age = at.seconds().saturating_sub(entry.seconds());
    (2 * URGENCY_UNIT).min(7 * age)
}

fn count_parts_of(count: usize) -> u64
    ensures parts { result ≡ count_parts count }
    ensures most { result ≤ 15 * unit }
{
    match count {
        0 => 0,
        1 => ONE_COUNTS,
        2 => TWO_COUNT,
        _ => URGENCY_UNIT,
    }
}

fn is_waiting(status: Status) -> bool
    ensures { result ≡ is_waiting_now status }
{
    matches!(status, Status::Waiting)
}
