use std::alloc::AllocError;
use tb_task::Field;

/// Why an import is refused, in order of the numbers of the refusals.
#[derive(Clone, Copy, Debug, PartialEq, Eq)]
pub enum ImportRefusal {
    /// The task at this index of the list, counted from 0, has a fault.
    BadTask { at: usize, field: Field },
    /// The links of the board and of the new tasks together would close a walk.
    Cycle,
    /// The board has no room for all new tasks.
    Full,
}

/// Why an import stopped before its end.
#[derive(Clone, Copy, Debug, PartialEq, Eq)]
pub enum ImportFailure {
    Memory,
    Refused(ImportRefusal),
}

impl From<AllocError> for ImportFailure {
    ghost use Rattle.std.specs.Prelude.{◌≡◌};
    ghost use Rattle.tb_import.specs.declared.refusal.ImportFailure.TheVariants.{Memory};

    ghost from_gives = { λ _ failure. failure ≡ Memory };

    fn from(_error: AllocError) -> ImportFailure {
        ImportFailure::Memory
    }
}
