//! What paths ask for, but for the numbers and identifiers in them.

/// What is looked at of a board.
#[derive(Clone, Copy, Debug, PartialEq, Eq)]
pub enum BoardView {
    List,
    Export,
    Todo,
    People,
    /// The last entries of its history.
    History,
}

/// What a call does to a board.
#[derive(Clone, Copy, Debug, PartialEq, Eq)]
pub enum BoardCall {
    Add,
    Sweep,
    Ahead,
    Title,
    Import,
    ImportTodo,
}

/// What a call does to one task.
#[derive(Clone, Copy, Debug, PartialEq, Eq)]
pub enum TaskCall {
    Done,
    Delete,
    Reopen,
    Start,
    Stop,
    Modify,
    Annotate,
    Denotate,
    Depend,
    Undepend,
}

/// What the paths of a route ask for.
#[derive(Clone, Copy, Debug, PartialEq, Eq)]
pub enum Kind {
    Me,
    BoardView(BoardView),
    /// One task.
    Task,
    /// The entries of a board's history from a number on.
    HistoryFrom,
    /// The last entries about one task.
    TaskHistory,
    /// A new person.
    People,
    /// The sender's own key.
    OwnKey,
    /// The key of a person.
    PersonKey,
    /// A new board.
    Boards,
    /// A role on a board.
    Roles,
    /// An owner's role for the sender.
    Take,
    BoardCall(BoardCall),
    TaskCall(TaskCall),
}
