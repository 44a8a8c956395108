ghost use Rattle.std.specs.Prelude.{◌≡◌, Some};
ghost use Rattle.tb_task.specs.Status.{mark_of, status_word, status_of, AreStatusesRead};

use std::alloc::AllocError;
use tb_values::{Duplicate, Same};

/// Where a task stands.
#[derive(Clone, Copy, Debug, PartialEq, Eq)]
pub enum Status {
    Pending,
    Waiting,
    Recurring,
    Completed,
    Deleted,
}

/// The character of an instance of that status in a mask. A recurring task is no instance.
pub fn char_of(status: Status) -> Option<u8>
    ensures { result ≡ mark_of status }
{
    match status {
        Status::Pending => Some(b'-'),
        Status::Waiting => Some(b'W'),
        Status::Completed => Some(b'+'),
        Status::Deleted => Some(b'X'),
        Status::Recurring => None,
    }
}

impl Status {
    /// The word of the status in a task's text.
    pub fn word(self) -> &'static str
        ensures { result.now ≡ status_word self }
    {
        match self {
            Status::Pending => "pending",
            Status::Waiting => "waiting",
            Status::Recurring => "recurring",
            Status::Completed => "completed",
            Status::Deleted => "deleted",
        }
    }

    /// The status of that word.
    #[tactic(auto, unfolding(crate::specs::Status::status_of))]
    pub fn read(text: &str) -> Option<Status>
        ensures { result ≡ status_of text.now }
    {
        match text {
            "pending" => Some(Status::Pending),
            "waiting" => Some(Status::Waiting),
            "recurring" => Some(Status::Recurring),
            "completed" => Some(Status::Completed),
            "deleted" => Some(Status::Deleted),
            _ => None,
        }
    }
}

/// The word of a status is read as that status.
pub fn statuses_are_read()
    ensures { AreStatusesRead }
{}

impl Duplicate for Status {
    fn duplicate(&self) -> Result<Status, AllocError> {
        Ok(*self)
    }
}

impl Same for Status {
    fn same(&self, other: &Status) -> bool {
        *self == *other
    }
}
