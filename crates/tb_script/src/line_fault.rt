//! Why a line asks for nothing.
ghost use Rattle.std.specs.Prelude.{◌≡◌};
ghost use Rattle.tb_script.specs.declared.line_fault.LineFault.TheVariants.{Memory, Refused};
ghost use Rattle.tb_script.specs.declared.line_fault.Unreadable.TheVariants.{BadLine};

use std::alloc::{AllocError, AllocFailed};
use tb_asking::BadBody;

/// Why a line can't be read.
#[derive(Debug, Drop)]
pub enum Unreadable {
    BadLine,
    /// The line has the form, and its body can't be taken.
    BadBody(BadBody),
}

/// Why the reading of a line ended.
#[derive(Debug, Drop)]
pub enum LineFault {
    Refused(Unreadable),
    Memory,
}

impl LineFault {
    pub(crate) fn bad_line() -> LineFault
        ensures { result ≡ Refused BadLine }
    {
        LineFault::Refused(Unreadable::BadLine)
    }
}

impl From<AllocError> for LineFault {
    ghost from_gives = { λ _ e. e ≡ Memory };

    fn from(_e: AllocError) -> LineFault {
        LineFault::Memory
    }
}

impl<T: Drop> From<AllocFailed<T>> for LineFault {
    ghost from_gives = { λ _ e. e ≡ Memory };

    fn from(_e: AllocFailed<T>) -> LineFault {
        LineFault::Memory
    }
}
