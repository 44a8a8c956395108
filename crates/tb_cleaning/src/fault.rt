//! Why a text can't be cleaned.

ghost use Rattle.std.specs.Prelude.{◌≡◌};
ghost use Rattle.tb_cleaning.specs.declared.fault.CleaningFault.TheVariants.{Memory as no_memory};

use std::alloc::AllocError;

#[derive(Clone, Copy, Debug, PartialEq, Eq)]
pub enum CleaningFault {
    NotJson,
    /// A board takes fewer tasks.
    TooMany,
    Memory,
}

impl From<AllocError> for CleaningFault {
    ghost from_gives = { λ _ e. e ≡ no_memory };

    fn from(_e: AllocError) -> CleaningFault {
        CleaningFault::Memory
    }
}
