use tb_task::Incoming;
use tb_values::Text;

/// Whether an import takes a task.
#[derive(Drop)]
pub(crate) enum Verdict {
    Taken(Incoming),
    /// One before it has its uuid.
    Double,
    /// The reason.
    Refused(Text),
}
