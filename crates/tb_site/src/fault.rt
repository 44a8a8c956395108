//! Why a folder makes no page.
ghost use Rattle.std.specs.Prelude.{◌≡◌};
ghost use Rattle.tb_site.specs.declared.fault.PageFault.TheVariants.{Memory};

use std::alloc::{AllocError, AllocFailed};

/// Why a folder makes no page.
#[derive(Clone, Copy, Debug, PartialEq, Eq)]
pub enum PageFault {
    /// It has more than 128 files of a page.
    TooManyFiles,
    /// They have more than 8 MiB in all.
    TooLarge,
    /// It has no `index.html`.
    NoIndex,
    /// The folder, a folder in it or one of their files can't be read.
    Unreadable,
    Memory,
}

impl From<AllocError> for PageFault {
    ghost from_gives = { λ _ e. e ≡ Memory };

    fn from(_: AllocError) -> PageFault {
        PageFault::Memory
    }
}

impl<T: Drop> From<AllocFailed<T>> for PageFault {
    ghost from_gives = { λ _ e. e ≡ Memory };

    fn from(_: AllocFailed<T>) -> PageFault {
        PageFault::Memory
    }
}
