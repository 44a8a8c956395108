use crate::mask::Mask;
use crate::task::Task;
use crate::task_id::TaskId;
use tb_values::Shared;

/// A task as it was read, before it comes to a board.
#[derive(Drop)]
pub struct Incoming {
    /// Its `parent` and `imask` are empty. Without a name its identifier is all zeros.
    pub task: Task,
    /// Whether its identifier was given.
    pub named: bool,
    /// The parent, the place in the parent's mask and the mask of its own instances, as they were read.
    pub raw_parent: Option<TaskId>,
    pub raw_imask: Option<u32>,
    pub raw_mask: Option<Mask>,
    /// How many members were dropped.
    pub dropped: u32,
}

/// A task as it is shown, with the mask of its instances if it is a template.
#[derive(Drop)]
pub struct Shown {
    pub task: Shared<Task>,
    pub mask: Option<Mask>,
}
