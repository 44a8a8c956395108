//! Why rows can't be read back.

use std::alloc::{AllocError, AllocFailed};

/// Why rows stand for nothing here.
#[derive(Clone, Copy, Debug, PartialEq, Eq)]
pub enum ReopenFault {
    /// No world has such rows.
    NotRows,
    Memory,
}

impl From<AllocError> for ReopenFault {
    ghost use Rattle.std.specs.Prelude.{◌≡◌};
    ghost use Rattle.tb_rows.specs.declared.fault.ReopenFault.TheVariants.{Memory};

    ghost from_gives = { λ _ e. e ≡ Memory };

    fn from(_e: AllocError) -> ReopenFault {
        ReopenFault::Memory
    }
}

impl<T: Drop> From<AllocFailed<T>> for ReopenFault {
    ghost use Rattle.std.specs.Prelude.{◌≡◌};
    ghost use Rattle.tb_rows.specs.declared.fault.ReopenFault.TheVariants.{Memory};

    ghost from_gives = { λ _ e. e ≡ Memory };

    fn from(_e: AllocFailed<T>) -> ReopenFault {
        ReopenFault::Memory
    }
}
