ghost use Rattle.std.specs.Prelude.{◌≡◌};
ghost use Rattle.tb_calls.specs.declared.fault.KeepFault.TheVariants.{Memory};

use std::alloc::{AllocError, AllocFailed};

/// Why a keeper gives no answer.
#[derive(Clone, Copy, Debug, PartialEq, Eq)]
pub enum KeepFault {
    /// Nothing has changed, and the keeper is usable.
    Memory,
    /// The store has failed: every later call answers the same, until what is stored is opened again.
    Store,
}

impl From<AllocError> for KeepFault {
    ghost from_gives = { λ _ fault. fault ≡ Memory };

    fn from(_error: AllocError) -> KeepFault {
        KeepFault::Memory
    }
}

impl<T: Drop> From<AllocFailed<T>> for KeepFault {
    ghost from_gives = { λ _ fault. fault ≡ Memory };

    fn from(_error: AllocFailed<T>) -> KeepFault {
        KeepFault::Memory
    }
}
