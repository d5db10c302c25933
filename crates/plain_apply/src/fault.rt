ghost use Rattle.std.specs.Prelude.{◌≡◌};

use std::alloc::{AllocError, AllocFailed};
use thiserror::Error;
use values::PatchWhy;

/// Why patches weren't applied.
#[derive(Debug, Drop, Error)]
pub enum ApplyFault {
    /// Memory ran out.
    #[error("out of memory")]
    Memory,
    /// A patch can't be applied: its position in the list, from 0, and why.
    #[error("patch {at}: {why}")]
    Refused { at: u64, why: PatchWhy },
}

impl From<AllocError> for ApplyFault {
    ghost use Rattle.plain_apply.specs.declared.fault.ApplyFault.TheVariants.{Memory};

    ghost from_gives = { λ _ e. e ≡ Memory };

    fn from(_: AllocError) -> Self {
        ApplyFault::Memory
    }
}

/// Why one patch wasn't applied.
#[derive(Debug, Drop)]
pub(crate) enum EditFault {
    Memory,
    Refused(PatchWhy),
}

impl From<AllocError> for EditFault {
    ghost use Rattle.plain_apply.specs.declared.fault.EditFault.TheVariants.{Memory};

    ghost from_gives = { λ _ e. e ≡ Memory };

    fn from(_: AllocError) -> Self {
        EditFault::Memory
    }
}

impl<T: Drop> From<AllocFailed<T>> for EditFault {
    ghost use Rattle.plain_apply.specs.declared.fault.EditFault.TheVariants.{Memory};

    ghost from_gives = { λ _ e. e ≡ Memory };

    fn from(_: AllocFailed<T>) -> Self {
        EditFault::Memory
    }
}
