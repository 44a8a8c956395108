use crate::command::AnswerDetail;
use crate::refusal::Refusal;
use std::alloc::AllocError;
use tb_board::Draft;

/// What an accepted command made of a board that is awake.
#[derive(Drop)]
pub struct Judged {
    pub draft: Draft,
    pub detail: AnswerDetail,
}

/// Why a command failed: it is refused, or memory ran out.
#[derive(Clone, Copy, Debug, PartialEq, Eq)]
pub enum CommandFailure {
    Memory,
    Refused(Refusal),
}

impl From<AllocError> for CommandFailure {
    ghost use Rattle.std.specs.Prelude.{◌≡◌};
    ghost use Rattle.tb_core.specs.declared.judged.CommandFailure.TheVariants.{Memory};

    ghost from_gives = { λ _ failure. failure ≡ Memory };

    fn from(_error: AllocError) -> CommandFailure {
        CommandFailure::Memory
    }
}
