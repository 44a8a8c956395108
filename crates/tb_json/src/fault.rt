//! Why JSON isn't what was asked for.

ghost use Rattle.std.specs.Prelude.{◌≡◌, Err};
ghost use Rattle.tb_json.specs.Outcome.{Fails};
ghost use Rattle.tb_json.specs.declared.fault.JsonFault.{JsonFault as Fault};
ghost use Rattle.tb_json.specs.declared.fault.JsonFault.TheVariants.{Memory, BadField as named};

use std::alloc::{AllocError, AllocFailed, Global};
use tb_values::Text;

#[derive(Debug, Drop)]
pub enum JsonFault {
    NotObject,
    /// The first name, in byte order, of a member in a wrong form.
    BadField(Text),
    Memory,
}

impl From<AllocError> for JsonFault {
    ghost from_gives = { λ _ e. e ≡ Memory };

    fn from(_e: AllocError) -> JsonFault {
        JsonFault::Memory
    }
}

impl<T: Drop> From<AllocFailed<T>> for JsonFault {
    ghost from_gives = { λ _ e. e ≡ Memory };

    fn from(_e: AllocFailed<T>) -> JsonFault {
        JsonFault::Memory
    }
}

/// The fault of a member in a wrong form.
pub(crate) fn bad_field(alloc: Global, name: &str) -> JsonFault
    ensures { Fails {X = Fault} result (Err (named name.now)) }
{
    match Text::from_str(alloc, name) {
        Ok(name) => JsonFault::BadField(name),
        Err(_) => JsonFault::Memory,
    }
}
