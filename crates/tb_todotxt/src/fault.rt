ghost use Rattle.std.specs.Prelude.{◌≡◌};
ghost use Rattle.tb_todotxt.specs.declared.fault.FileFault.TheVariants.{Memory as file_memory};
ghost use Rattle.tb_todotxt.specs.declared.fault.LineFault.TheVariants.{Memory};

use std::alloc::{AllocError, AllocFailed};

/// Why a text is no line.
#[derive(Debug, Drop, PartialEq, Eq)]
pub enum LineFault {
    /// It has spaces and tabs alone.
    EmptyLine,
    Memory,
}

impl From<AllocError> for LineFault {
    ghost from_gives = { λ _ e. e ≡ Memory };

    fn from(_: AllocError) -> LineFault {
        LineFault::Memory
    }
}

/// Why a text is no file of lines for a board.
#[derive(Debug, Drop, PartialEq, Eq)]
pub enum FileFault {
    /// It has more than 1,000 lines that aren't skipped.
    TooMany,
    Memory,
}

impl From<AllocError> for FileFault {
    ghost from_gives = { λ _ e. e ≡ file_memory };

    fn from(_: AllocError) -> FileFault {
        FileFault::Memory
    }
}

impl<T: Drop> From<AllocFailed<T>> for FileFault {
    ghost from_gives = { λ _ e. e ≡ file_memory };

    fn from(_: AllocFailed<T>) -> FileFault {
        FileFault::Memory
    }
}
