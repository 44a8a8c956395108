//! From when on a task wakes.

ghost use Rattle.std.specs.Prelude.{◌≡◌, ◌||◌, ℕ, None, is_some};
ghost use Rattle.std.specs.List.{list_any};
ghost use Rattle.tb_board.specs.Tasks.{has_come, wakes};
ghost use Rattle.tb_board.specs.FirstWait.{may_wake, open_wait};

use crate::waking::{is_over, is_waiting_status};
use tb_task::{Moment, Status, Task};
use tb_values::Shared;

/// The first wait of the tasks that wait.
#[derive(Clone, Copy)]
pub(crate) struct FirstWait {
    pub(crate) until: Option<Moment>,
}

impl FirstWait {
    /// No task is noted yet.
    pub(crate) fn new() -> FirstWait
        ensures { result ≡ record { until = None } }
    {
        FirstWait { until: None }
    }

    /// Notes the tasks of a list.
    pub(crate) fn of(tasks: &[Shared<Task>]) -> FirstWait
        ensures { (m : ℕ) → may_wake m result ≡ list_any (wakes m) tasks.now }
    {
        let mut first = FirstWait::new();
        for task in tasks {
            first = first.with(task.get());
        }
        first
    }

    /// Notes one more.
    pub(crate) fn with(self, task: &Task) -> FirstWait
        ensures { (m : ℕ) → may_wake m result ≡ (may_wake m self || wakes m task.now) }
    {
        let wait = wait_of(task.status, task.wait);
        FirstWait {
            until: earlier(self.until, wait),
        }
    }

    /// Whether one of them waits.
    pub(crate) fn is_noted(&self) -> bool
        ensures { result ≡ is_some self.now.until }
    {
        self.until.is_some()
    }

    /// Whether one of them wakes at the moment.
    pub(crate) fn may_wake(&self, at: Moment) -> bool
        ensures { result ≡ may_wake at self.now }
    {
        is_over(self.until, at)
    }
}

/// The wait of a task that waits.
fn wait_of(status: Status, wait: Option<Moment>) -> Option<Moment>
    ensures { result ≡ open_wait status wait }
{
    if is_waiting_status(status) {
        wait
    } else {
        None
    }
}

/// The earlier of two waits.
fn earlier(one: Option<Moment>, other: Option<Moment>) -> Option<Moment>
    ensures { (m : ℕ) → has_come result m ≡ (has_come one m || has_come other m) }
{
    let Some(first) = one else {
        return other;
    };
    match other {
        Some(second) if second < first => Some(second),
        _ => Some(first),
    }
}
