//! Why a board isn't exported whole.

use std::alloc::AllocError;
use tb_sql::store::StoreFault;

/// Why an export ends before its end.
#[derive(Clone, Copy, Debug, PartialEq, Eq)]
pub enum ExportFault {
    /// The board isn't there.
    NoBoard,
    /// The writer failed.
    WriteFailed,
    /// The store failed.
    Store,
    Memory,
}

impl From<AllocError> for ExportFault {
    ghost use Rattle.std.specs.Prelude.{◌≡◌};
    ghost use Rattle.tb_keeper.specs.declared.export_fault.ExportFault.TheVariants.{Memory};

    ghost from_gives = { λ _ e. e ≡ Memory };

    fn from(_e: AllocError) -> ExportFault {
        ExportFault::Memory
    }
}

impl From<StoreFault> for ExportFault {
    ghost use Rattle.std.specs.Prelude.{◌≡◌};
    ghost use Rattle.tb_keeper.specs.Exporting.{fault_of};

    ghost from_gives = { λ fault e. e ≡ fault_of fault };

    fn from(fault: StoreFault) -> ExportFault {
        match fault {
            StoreFault::Memory => ExportFault::Memory,
            StoreFault::Store => ExportFault::Store,
        }
    }
}
