//! The words of scripts and of the command line.
ghost use Rattle.std.specs.Prelude.{◌≡◌};
ghost use Rattle.tb_calls.specs.Word.{word_named};

/// A word of scripts. Each asks for a call or for a view.
#[derive(Clone, Copy, Debug, PartialEq, Eq)]
pub enum Word {
    List,
    Export,
    Todo,
    Task,
    Add,
    Import,
    ImportTodo,
    Done,
    Delete,
    Reopen,
    Start,
    Stop,
    Annotate,
    Denotate,
    Modify,
    Depend,
    Undepend,
    Sweep,
    Ahead,
    Person,
    Board,
    Role,
    OwnKey,
    Key,
    Take,
    Title,
    People,
    History,
    HistoryOf,
    Me,
}

impl Word {
    /// The word of this name.
    #[tactic(auto, unfolding(crate::specs::Word::word_named))]
    pub fn read(name: &str) -> Option<Word>
        ensures { result ≡ word_named name.now }
    {
        let word = match name {
            "list" => Word::List,
            "export" => Word::Export,
            "todo" => Word::Todo,
            "task" => Word::Task,
            "add" => Word::Add,
            "import" => Word::Import,
            "import-todo" => Word::ImportTodo,
            "done" => Word::Done,
            "delete" => Word::Delete,
            "reopen" => Word::Reopen,
            "start" => Word::Start,
            "stop" => Word::Stop,
            "annotate" => Word::Annotate,
            "denotate" => Word::Denotate,
            "modify" => Word::Modify,
            "depend" => Word::Depend,
            "undepend" => Word::Undepend,
            "sweep" => Word::Sweep,
            "ahead" => Word::Ahead,
            "person" => Word::Person,
            "board" => Word::Board,
            "role" => Word::Role,
            "own-key" => Word::OwnKey,
            "key" => Word::Key,
            "take" => Word::Take,
            "title" => Word::Title,
            "people" => Word::People,
            "history" => Word::History,
            "history-of" => Word::HistoryOf,
            "me" => Word::Me,
            _ => return None,
        };
        Some(word)
    }
}
