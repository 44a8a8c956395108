ghost use Rattle.std.specs.Prelude.{◌≡◌};
ghost use Rattle.tb_task.specs.Attributes.{is_attribute as is_known};

/// Whether the task format knows the name.
pub fn is_attribute(name: &str) -> bool
    ensures { result ≡ is_known name.now }
{
    matches!(
        name,
        "annotations"
            | "depends"
            | "description"
            | "due"
            | "end"
            | "entry"
            | "id"
            | "imask"
            | "mask"
            | "modified"
            | "parent"
            | "priority"
            | "project"
            | "recur"
            | "scheduled"
            | "start"
            | "status"
            | "tags"
            | "until"
            | "urgency"
            | "uuid"
            | "wait"
    )
}
