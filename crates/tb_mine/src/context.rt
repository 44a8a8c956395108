//! When, by whom and of which board words ask.

use tb_finding::Style;
use tb_my::Clock;
use tb_task::TaskId;
use tb_values::Text;

/// What words mean by "today", "me" and "the board", and how a list is shown.
#[derive(Drop)]
pub struct Context {
    pub clock: Clock,
    pub style: Style,
    pub me: Text,
    pub board: Text,
    /// The identifier of a call that has to know it before it is sent.
    pub call: Option<TaskId>,
}
