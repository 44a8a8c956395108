ghost use Rattle.std.specs.Prelude.{◌≡◌};
ghost use Rattle.tb_calls.specs.declared.fault.KeepFault.{KeepFault};
ghost use Rattle.tb_script.specs.Fault.{fault_of};
ghost use Rattle.tb_script.specs.declared.fault.LinesFault.TheVariants.{Memory};

use std::alloc::{AllocError, AllocFailed};
use tb_calls::KeepFault;

/// Why a script ended before its last line was answered.
#[derive(Clone, Copy, Debug, PartialEq, Eq)]
pub enum LinesFault {
    /// A read failed, or the script took too many reads.
    ReadFailed,
    /// A write failed or took nothing.
    WriteFailed,
    Memory,
    /// The store has failed.
    Store,
}

impl From<AllocError> for LinesFault {
    ghost from_gives = { λ _ e. e ≡ Memory };

    fn from(_: AllocError) -> Self {
        LinesFault::Memory
    }
}

impl<T: Drop> From<AllocFailed<T>> for LinesFault {
    ghost from_gives = { λ _ e. e ≡ Memory };

    fn from(_: AllocFailed<T>) -> Self {
        LinesFault::Memory
    }
}

impl From<KeepFault> for LinesFault {
    ghost from_gives = { λ fault e. e ≡ fault_of fault };

    fn from(fault: KeepFault) -> Self {
        match fault {
            KeepFault::Memory => LinesFault::Memory,
            KeepFault::Store => LinesFault::Store,
        }
    }
}
