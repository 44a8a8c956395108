//! Why a message asks for no call and no view.
ghost use Rattle.std.specs.Prelude.{◌≡◌, IfOk};
ghost use Rattle.tb_asking.specs.declared.rejection.CallFault.TheVariants.{Memory};
ghost use Rattle.tb_asking.specs.Rejection.{allowed_by, body_of, fault_of};

use crate::body_fault::BadBody;
use std::alloc::{AllocError, AllocFailed, Global};
use tb_http::{RouteFault, Verb, WireFault};
use tb_values::Text;

/// Why a message asks for no call and no view.
#[derive(Debug, Drop)]
pub enum Rejection {
    /// Its path or its method.
    Route(RouteFault),
    /// A call has no readable identifier.
    NoId,
    /// The body isn't what the call takes.
    Body(BadBody),
}

/// Why the reading of a call ended.
#[derive(Debug, Drop)]
pub enum CallFault {
    Rejected(Rejection),
    Memory,
}

impl From<AllocError> for CallFault {
    ghost from_gives = { λ _ e. e ≡ Memory };

    fn from(_e: AllocError) -> CallFault {
        CallFault::Memory
    }
}

impl<T: Drop> From<AllocFailed<T>> for CallFault {
    ghost from_gives = { λ _ e. e ≡ Memory };

    fn from(_e: AllocFailed<T>) -> CallFault {
        CallFault::Memory
    }
}

impl Rejection {
    /// The fault of the wire that it is.
    pub fn fault(&self) -> WireFault
        ensures { result ≡ fault_of self.now }
    {
        match self {
            Rejection::Route(fault) => fault.fault(),
            Rejection::NoId => WireFault::NoId,
            Rejection::Body(_) => WireFault::BadBody,
        }
    }

    /// The method that the answer allows.
    pub fn allow(&self) -> Option<Verb>
        ensures { result ≡ allowed_by self.now }
    {
        match self {
            Rejection::Route(fault) => fault.allow(),
            _ => None,
        }
    }

    /// The body of the answer.
    pub fn body(&self, alloc: Global) -> Result<Text, AllocError>
        ensures { IfOk result (λ body. body ≡ body_of self.now) }
    {
        match self {
            Rejection::Body(fault) => fault.to_text(alloc),
            _ => Text::from_str(alloc, self.fault().body()),
        }
    }
}
