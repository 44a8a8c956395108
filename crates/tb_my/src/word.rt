//! The words of `my`.
ghost use Rattle.std.specs.Prelude.{◌≡◌};
ghost use Rattle.tb_my.specs.Word.{is_of_task, my_word_named};

/// What a command asks for.
#[derive(Clone, Copy, Debug, PartialEq, Eq)]
pub enum MyWord {
    List,
    Next,
    Projects,
    Tags,
    Boards,
    People,
    Export,
    Todo,
    Use,
    Undo,
    Setup,
    Import,
    Show,
    Log,
    Add,
    Change,
    Append,
    Prepend,
    Copy,
    Done,
    Delete,
    Reopen,
    Start,
    Stop,
    Note,
    Unnote,
    Needs,
    Free,
}

impl MyWord {
    /// The word of this name.
    #[tactic(auto, unfolding(crate::specs::Word::my_word_named))]
    pub fn read(name: &str) -> Option<MyWord>
        ensures { result ≡ my_word_named name.now }
    {
        let word = match name {
            "list" | "ls" => MyWord::List,
            "next" => MyWord::Next,
            "projects" => MyWord::Projects,
            "tags" => MyWord::Tags,
            "boards" => MyWord::Boards,
            "people" => MyWord::People,
            "export" => MyWord::Export,
            "todo" => MyWord::Todo,
            "use" => MyWord::Use,
            "undo" => MyWord::Undo,
            "setup" => MyWord::Setup,
            "import" => MyWord::Import,
            "show" => MyWord::Show,
            "log" => MyWord::Log,
            "add" => MyWord::Add,
            "change" | "modify" => MyWord::Change,
            "append" => MyWord::Append,
            "prepend" => MyWord::Prepend,
            "copy" => MyWord::Copy,
            "done" => MyWord::Done,
            "delete" => MyWord::Delete,
            "reopen" => MyWord::Reopen,
            "start" => MyWord::Start,
            "stop" => MyWord::Stop,
            "note" => MyWord::Note,
            "unnote" => MyWord::Unnote,
            "needs" => MyWord::Needs,
            "free" => MyWord::Free,
            _ => return None,
        };
        Some(word)
    }

    /// Whether tasks follow the word.
    pub(crate) fn is_of_task(self) -> bool
        ensures { result ≡ is_of_task self }
    {
        match self {
            MyWord::List
            | MyWord::Next
            | MyWord::Projects
            | MyWord::Tags
            | MyWord::Boards
            | MyWord::People
            | MyWord::Export
            | MyWord::Todo
            | MyWord::Use
            | MyWord::Undo
            | MyWord::Setup
            | MyWord::Import
            | MyWord::Add => false,
            MyWord::Show
            | MyWord::Log
            | MyWord::Change
            | MyWord::Append
            | MyWord::Prepend
            | MyWord::Copy
            | MyWord::Done
            | MyWord::Delete
            | MyWord::Reopen
            | MyWord::Start
            | MyWord::Stop
            | MyWord::Note
            | MyWord::Unnote
            | MyWord::Needs
            | MyWord::Free => true,
        }
    }
}
