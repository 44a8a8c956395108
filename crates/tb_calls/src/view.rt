use tb_task::TaskId;

/// What is looked at. Views change nothing.
#[derive(Clone, Copy, Debug, PartialEq, Eq)]
pub enum View {
    /// The open tasks of a board by urgency.
    Listing(u32),
    /// All tasks of a board as JSON.
    Export(u32),
    /// A line of todo.txt for each task of a board that has one.
    Todo(u32),
    /// One task of a board as JSON.
    One(u32, TaskId),
    /// Those who have a role on a board.
    People(u32),
    /// The last entries of a board's history.
    History(u32),
    /// The entries of a board's history from a number on.
    HistoryFrom(u32, u32),
    /// The last entries about one task of a board.
    HistoryOf(u32, TaskId),
    /// The boards on which the person who looks has a role.
    Me,
}
