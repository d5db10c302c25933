ghost use Rattle.std.specs.Prelude.{◌≡◌};

use std::alloc::{AllocError, AllocFailed};
use thiserror::Error;

/// Why a call on a run's objects was refused: where several causes hold, the first in this order.
#[derive(Clone, Copy, Debug, Drop, PartialEq, Eq, Error)]
pub enum DraftFault {
    /// A reference is one of another scope.
    #[error("a reference is one of another scope")]
    Revoked,
    /// The operand, or the kind of the key, is none that the call takes.
    #[error("an operand is none that the call takes")]
    TypeMismatch,
    /// What is to be written is frozen.
    #[error("what is to be written is frozen")]
    Frozen,
    /// The key of an object is `__proto__`, `constructor` or `prototype`.
    #[error("a key of an object is reserved")]
    ReservedKey,
    /// The key that is written is a text of more than 1,024 bytes.
    #[error("a key has more than 1,024 bytes")]
    KeyTooLong,
    /// An index of a list that is written is negative or past its end.
    #[error("an index or a length is not within its list")]
    Hole,
    /// The value that is to be stored is undefined.
    #[error("the value that is to be stored is undefined")]
    UndefinedWrite,
    /// The value is no draft.
    #[error("the value is no draft")]
    NotADraft,
    /// A key of a Map or a member of a Set is no primitive.
    #[error("a key of a Map or a member of a Set is no primitive")]
    BadKey,
    /// Memory ran out.
    #[error("out of memory")]
    Memory,
}

impl From<AllocError> for DraftFault {
    ghost use Rattle.run_heap.specs.declared.fault.DraftFault.TheVariants.{Memory};

    ghost from_gives = { λ _ e. e ≡ Memory };

    fn from(_: AllocError) -> Self {
        DraftFault::Memory
    }
}

impl<T: Drop> From<AllocFailed<T>> for DraftFault {
    ghost use Rattle.run_heap.specs.declared.fault.DraftFault.TheVariants.{Memory};

    ghost from_gives = { λ _ e. e ≡ Memory };

    fn from(_: AllocFailed<T>) -> Self {
        DraftFault::Memory
    }
}
