//! Why the serving ended before its connections did.
ghost use Rattle.std.specs.Prelude.{◌≡◌};
ghost use Rattle.tb_event_loop.specs.declared.fault.LoopFault.TheVariants.{Memory, Store};

use crate::service::StoreFailed;
use std::alloc::AllocError;

/// Why there is no loop, or why it ended.
#[derive(Clone, Copy, Debug, PartialEq, Eq)]
pub enum LoopFault {
    /// There was no memory to begin with.
    Memory,
    /// What is served isn't where it was any more.
    Moved,
    /// The port can't be listened on, or the system doesn't say what is ready.
    Sockets,
    /// The store failed.
    Store,
}

impl From<AllocError> for LoopFault {
    ghost from_gives = { λ _ e. e ≡ Memory };

    fn from(_e: AllocError) -> LoopFault {
        LoopFault::Memory
    }
}

impl From<StoreFailed> for LoopFault {
    ghost from_gives = { λ _ e. e ≡ Store };

    fn from(_e: StoreFailed) -> LoopFault {
        LoopFault::Store
    }
}
