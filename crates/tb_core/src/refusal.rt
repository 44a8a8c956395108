ghost use Rattle.std.specs.Prelude.{◌≡◌};
ghost use Rattle.tb_core.specs.Refusal.{number_of, status_of};

use tb_task::Field;

/// Why a command is refused, in order of the numbers.
#[derive(Clone, Copy, Debug, PartialEq, Eq)]
pub enum Refusal {
    /// Nobody has the name, or the key is another.
    UnknownCaller,
    /// The identifier was used for another request.
    IdReused,
    /// There is no such board, or the caller has no role on it.
    NoBoard,
    NotAllowed,
    NoTask,
    WrongStatus,
    UuidTaken,
    BadTask(Field),
    /// The same of a task of a list, at its place counted from 0.
    BadTaskAt { at: usize, field: Field },
    TemplateFixed,
    NoLink,
    Cycle,
    /// The board, or the list of people or of boards, has no room.
    Full,
    NoPerson,
    LastOwner,
    NameTaken,
    /// The key that is to be changed is another.
    KeyDiffers,
}

impl Refusal {
    /// Its place in the order: of several refusals that hold the least is answered.
    pub fn number(self) -> u8
        ensures { result ≡ number_of self }
    {
        match self {
            Refusal::UnknownCaller => 1,
            Refusal::IdReused => 2,
            Refusal::NoBoard => 3,
            Refusal::NotAllowed => 4,
            Refusal::NoTask => 5,
            Refusal::WrongStatus => 6,
            Refusal::UuidTaken => 7,
            Refusal::BadTask(_) | Refusal::BadTaskAt { .. } => 8,
            Refusal::TemplateFixed => 9,
            Refusal::NoLink => 10,
            Refusal::Cycle => 11,
            Refusal::Full => 12,
            Refusal::NoPerson => 13,
            Refusal::LastOwner => 14,
            Refusal::NameTaken => 15,
            Refusal::KeyDiffers => 16,
        }
    }

    /// The status code of HTTP under which it is answered.
    pub fn status(self) -> u16
        ensures { result ≡ status_of self }
    {
        match self {
            Refusal::UnknownCaller => 401,
            Refusal::NotAllowed => 403,
            Refusal::NoBoard | Refusal::NoTask | Refusal::NoPerson => 404,
            Refusal::BadTask(_) | Refusal::BadTaskAt { .. } => 422,
            Refusal::IdReused
            | Refusal::WrongStatus
            | Refusal::UuidTaken
            | Refusal::TemplateFixed
            | Refusal::NoLink
            | Refusal::Cycle
            | Refusal::Full
            | Refusal::LastOwner
            | Refusal::NameTaken
            | Refusal::KeyDiffers => 409,
        }
    }
}
