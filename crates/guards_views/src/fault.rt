use std::alloc::{AllocError, AllocFailed};
use thiserror::Error;

/// Why a value gives no rules.
#[derive(Debug, Drop, Error)]
pub enum RulesFault {
    /// It is not of the form of rules.
    #[error("not of the form of rules")]
    NotRules,
    /// Memory ran out.
    #[error("out of memory")]
    Memory,
}

impl From<AllocError> for RulesFault {
    ghost use Rattle.std.specs.Prelude.{◌≡◌};
    ghost use Rattle.guards_views.specs.declared.fault.RulesFault.TheVariants as fault;

    ghost from_gives = { λ _ e. e ≡ fault.Memory };

    fn from(_error: AllocError) -> RulesFault {
        RulesFault::Memory
    }
}

impl<T: Drop> From<AllocFailed<T>> for RulesFault {
    ghost use Rattle.std.specs.Prelude.{◌≡◌};
    ghost use Rattle.guards_views.specs.declared.fault.RulesFault.TheVariants as fault;

    ghost from_gives = { λ _ e. e ≡ fault.Memory };

    fn from(_error: AllocFailed<T>) -> RulesFault {
        RulesFault::Memory
    }
}
