ghost use Rattle.std.specs.Prelude.{◌≡◌, option_map};
ghost use Rattle.tb_core.specs.Apply.{board_of, other_of};

use crate::action::Action;
use tb_board::{Ahead, Key, Name, Role, Title};
use tb_import::ImportCounts;
use tb_task::{Edit, Incoming, Task, TaskId};
use tb_values::Items;

/// What a person asks for.
#[derive(Drop)]
pub enum Command {
    /// Lets a person in.
    NewPerson {
        name: Name,
        key: Key,
    },
    /// Begins a board, which the caller owns.
    NewBoard {
        title: Title,
    },
    /// Changes the caller's own key.
    OwnKey {
        old: Key,
        new: Key,
    },
    /// Gives another person a key, or takes it, so that nobody is known as that person.
    SetKey {
        name: Name,
        key: Option<Key>,
    },
    /// Gives a person a role on a board, or takes it.
    SetRole {
        board: u32,
        name: Name,
        role: Option<Role>,
    },
    /// Makes the first person an owner of a board.
    Take {
        board: u32,
    },
    /// Changes a board and its tasks.
    OnBoard {
        board: u32,
        command: BoardCommand,
    },
}

/// What a person asks for on one board.
#[derive(Drop)]
pub enum BoardCommand {
    /// Adds a task.
    Add {
        incoming: Incoming,
    },
    /// Does something to one task.
    OnTask {
        id: TaskId,
        action: Action,
    },
    /// Sets and removes attributes of one task.
    Modify {
        id: TaskId,
        /// One after the other. A value of another kind than its attribute's, which no edit has that was read, counts as none.
        edits: Items<Edit>,
    },
    /// Makes a task depend on another one.
    Depend {
        id: TaskId,
        on: TaskId,
    },
    /// Ends that a task depends on another one.
    Undepend {
        id: TaskId,
        on: TaskId,
    },
    /// Lets the board look so many instances ahead.
    SetAhead {
        ahead: Ahead,
    },
    /// Gives the board another title.
    Retitle {
        title: Title,
    },
    /// Lets the board come up to the moment.
    Sweep,
    /// Adds many tasks, but those that are known.
    Import(Import),
}

/// The tasks of an import.
#[derive(Drop)]
pub enum Import {
    /// Of a Taskwarrior export.
    Json { tasks: Items<Incoming> },
    /// Made of lines of todo.txt.
    Todo { tasks: Items<Task> },
}

impl Command {
    /// The number of the board that the command names.
    pub fn board(&self) -> Option<u32>
        ensures { result ≡ board_of self.now }
    {
        match self {
            Command::SetRole { board, .. }
            | Command::Take { board }
            | Command::OnBoard { board, .. } => Some(*board),
            Command::NewPerson { .. }
            | Command::NewBoard { .. }
            | Command::OwnKey { .. }
            | Command::SetKey { .. } => None,
        }
    }

    /// The name of the other person whom the command names.
    pub fn other(&self) -> Option<&Name>
        ensures { option_map (λ name. name.now) result ≡ other_of self.now }
    {
        match self {
            Command::NewPerson { name, .. }
            | Command::SetKey { name, .. }
            | Command::SetRole { name, .. } => Some(name),
            Command::NewBoard { .. }
            | Command::OwnKey { .. }
            | Command::Take { .. }
            | Command::OnBoard { .. } => None,
        }
    }
}

/// What the reply to an accepted command says.
#[derive(Debug, Drop)]
pub enum Answer {
    OnBoard(BoardAnswer),
    /// The name of the person who is new or whose key was set.
    OfPerson { name: Name },
    /// The number of the new board.
    NewBoard { board: u32 },
}

/// What the reply to an accepted command on a board says: how many instances came by themselves, and whether some are still wanted.
#[derive(Clone, Copy, Debug, PartialEq, Eq)]
pub struct BoardAnswer {
    pub board: u32,
    pub added: usize,
    pub more: bool,
    pub detail: AnswerDetail,
}

/// What an accepted command on a board tells besides.
#[derive(Clone, Copy, Debug, PartialEq, Eq)]
pub enum AnswerDetail {
    /// The identifier of the task that was added, and how many of its members were dropped.
    Added { id: TaskId, dropped: u32 },
    /// The identifier of the one task that the command is about.
    Changed { id: TaskId },
    /// How many tasks of an import were known, how many are new, and what the new ones lost.
    Imported(ImportCounts),
    /// How many tasks of lines were there before, and how many are new.
    TodoImported { known: usize, new: usize },
    /// Nothing.
    Swept,
}
