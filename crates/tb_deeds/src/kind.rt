ghost use Rattle.std.specs.Prelude.{◌≡◌};
ghost use Rattle.tb_deeds.specs.Kinds.{kind_of_action, kind_of_import, kind_of_number, number_of, word_of};

use tb_core::{Action, Import};

/// What kind of command a deed was.
#[derive(Clone, Copy, Debug, PartialEq, Eq)]
pub enum DeedKind {
    Add,
    Done,
    Delete,
    Reopen,
    Start,
    Stop,
    Modify,
    Annotate,
    Denotate,
    Depend,
    Undepend,
    Import,
    ImportTodo,
    Role,
    Ahead,
    Sweep,
    Take,
    Title,
}

impl DeedKind {
    /// The word that stands for it in a history, which is that of its calls.
    pub fn word(self) -> &'static str
        ensures { result.now ≡ word_of self }
    {
        match self {
            DeedKind::Add => "add",
            DeedKind::Done => "done",
            DeedKind::Delete => "delete",
            DeedKind::Reopen => "reopen",
            DeedKind::Start => "start",
            DeedKind::Stop => "stop",
            DeedKind::Modify => "modify",
            DeedKind::Annotate => "annotate",
            DeedKind::Denotate => "denotate",
            DeedKind::Depend => "depend",
            DeedKind::Undepend => "undepend",
            DeedKind::Import => "import",
            DeedKind::ImportTodo => "import-todo",
            DeedKind::Role => "role",
            DeedKind::Ahead => "ahead",
            DeedKind::Sweep => "sweep",
            DeedKind::Take => "take",
            DeedKind::Title => "title",
        }
    }

    /// The number that stands for it in a file.
    pub fn number(self) -> u32
        ensures { result ≡ number_of self }
    {
        match self {
            DeedKind::Add => 1,
            DeedKind::Done => 2,
            DeedKind::Delete => 3,
            DeedKind::Reopen => 4,
            DeedKind::Start => 5,
            DeedKind::Stop => 6,
            DeedKind::Modify => 7,
            DeedKind::Annotate => 8,
            DeedKind::Denotate => 9,
            DeedKind::Depend => 10,
            DeedKind::Undepend => 11,
            DeedKind::Import => 12,
            DeedKind::ImportTodo => 13,
            DeedKind::Role => 14,
            DeedKind::Ahead => 15,
            DeedKind::Sweep => 16,
            DeedKind::Take => 17,
            DeedKind::Title => 18,
        }
    }

    /// The kind for which a number stands in a file, if it stands for one.
    #[tactic(auto, unfolding(crate::specs::Kinds::kind_of_number))]
    pub fn of_number(number: u32) -> Option<DeedKind>
        ensures { result ≡ kind_of_number number }
    {
        let kind = match number {
            1 => DeedKind::Add,
            2 => DeedKind::Done,
            3 => DeedKind::Delete,
            4 => DeedKind::Reopen,
            5 => DeedKind::Start,
            6 => DeedKind::Stop,
            7 => DeedKind::Modify,
            8 => DeedKind::Annotate,
            9 => DeedKind::Denotate,
            10 => DeedKind::Depend,
            11 => DeedKind::Undepend,
            12 => DeedKind::Import,
            13 => DeedKind::ImportTodo,
            14 => DeedKind::Role,
            15 => DeedKind::Ahead,
            16 => DeedKind::Sweep,
            17 => DeedKind::Take,
            18 => DeedKind::Title,
            _ => return None,
        };
        Some(kind)
    }

    pub(crate) fn of_action(action: &Action) -> DeedKind
        ensures { result ≡ kind_of_action action.now }
    {
        match action {
            Action::Done => DeedKind::Done,
            Action::Delete => DeedKind::Delete,
            Action::Reopen => DeedKind::Reopen,
            Action::Start => DeedKind::Start,
            Action::Stop => DeedKind::Stop,
            Action::Annotate(_) => DeedKind::Annotate,
            Action::Denotate(_) => DeedKind::Denotate,
        }
    }

    pub(crate) fn of_import(import: &Import) -> DeedKind
        ensures { result ≡ kind_of_import import.now }
    {
        match import {
            Import::Json { .. } => DeedKind::Import,
            Import::Todo { .. } => DeedKind::ImportTodo,
        }
    }
}
