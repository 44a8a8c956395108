ghost use Rattle.std.specs.Prelude.{◌≡◌, Some};
ghost use Rattle.tb_task.specs.Priority.{priority_letter, priority_of, ArePrioritiesRead};

use std::alloc::AllocError;
use tb_values::{Duplicate, Same};

/// How much a task matters.
#[derive(Clone, Copy, Debug, PartialEq, Eq)]
pub enum Priority {
    High,
    Medium,
    Low,
}

impl Priority {
    /// The letter of the priority in a task's text.
    pub fn letter(self) -> &'static str
        ensures { result.now ≡ priority_letter self }
    {
        match self {
            Priority::High => "H",
            Priority::Medium => "M",
            Priority::Low => "L",
        }
    }

    /// The priority of that letter.
    #[tactic(auto, unfolding(crate::specs::Priority::priority_of))]
    pub fn read(text: &str) -> Option<Priority>
        ensures { result ≡ priority_of text.now }
    {
        match text {
            "H" => Some(Priority::High),
            "M" => Some(Priority::Medium),
            "L" => Some(Priority::Low),
            _ => None,
        }
    }
}

/// The letter of a priority is read as that priority.
pub fn priorities_are_read()
    ensures { ArePrioritiesRead }
{}

impl Duplicate for Priority {
    fn duplicate(&self) -> Result<Priority, AllocError> {
        Ok(*self)
    }
}

impl Same for Priority {
    fn same(&self, other: &Priority) -> bool {
        *self == *other
    }
}
