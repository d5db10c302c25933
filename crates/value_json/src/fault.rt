ghost use Rattle.std.specs.Prelude.{◌≡◌};

use std::alloc::{AllocError, AllocFailed};
use thiserror::Error;
use value_json_spec::JsonWhy;

/// Why a text wasn't read.
#[derive(Debug, Drop, Error)]
pub enum JsonFault {
    /// Memory ran out.
    #[error("out of memory")]
    Memory,
    /// The text is no such value: its first fault.
    #[error(transparent)]
    Refused(JsonWhy),
}

impl From<AllocError> for JsonFault {
    ghost use Rattle.value_json.specs.declared.fault.JsonFault.TheVariants.{Memory};

    ghost from_gives = { λ _ e. e ≡ Memory };

    fn from(_: AllocError) -> Self {
        JsonFault::Memory
    }
}

impl<T: Drop> From<AllocFailed<T>> for JsonFault {
    ghost use Rattle.value_json.specs.declared.fault.JsonFault.TheVariants.{Memory};

    ghost from_gives = { λ _ e. e ≡ Memory };

    fn from(_: AllocFailed<T>) -> Self {
        JsonFault::Memory
    }
}
