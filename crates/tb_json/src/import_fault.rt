//! Why a text is no import.

ghost use Rattle.std.specs.Prelude.{◌≡◌};
ghost use Rattle.tb_json.specs.declared.import_fault.ImportFault.TheVariants.{Memory};

use std::alloc::{AllocError, AllocFailed};
use tb_values::Text;

#[derive(Debug, Drop)]
pub enum ImportFault {
    NotJson,
    TooMany,
    /// The index of the first item that is no task, and the name at fault, which is empty where the
    /// item is no object.
    BadTask(usize, Text),
    Memory,
}

impl From<AllocError> for ImportFault {
    ghost from_gives = { λ _ e. e ≡ Memory };

    fn from(_e: AllocError) -> ImportFault {
        ImportFault::Memory
    }
}

impl<T: Drop> From<AllocFailed<T>> for ImportFault {
    ghost from_gives = { λ _ e. e ≡ Memory };

    fn from(_e: AllocFailed<T>) -> ImportFault {
        ImportFault::Memory
    }
}
