ghost use Rattle.std.specs.Prelude.{◌≡◌};
ghost use Rattle.plain_values.specs.Names.{refusal_name};

use crate::cause::Cause;
use std::fmt::{self, Debug, Formatter, Write};
use thiserror::Error;
use values::{Key, Path, Text};

/// Why a line or a command is refused, with what the reply tells besides. A refused command leaves the state, its number and
/// the sequence number as they were.
#[derive(Drop, Error)]
pub enum Refusal {
    /// Nothing more is told.
    #[error(transparent)]
    Named(Cause),
    /// The run threw this primitive.
    #[error("the reducer threw a value")]
    Thrown(Key),
    /// The state changed since the session began, and the session is to end exactly.
    #[error("the state changed from change {opened} to change {now}")]
    Stale {
        /// The sequence number at the session's beginning.
        opened: u64,
        /// The sequence number now.
        now: u64,
    },
    /// So many sessions are active, and none may be.
    #[error("{0} sessions are active")]
    SessionsOpen(u64),
    /// The new state breaks the guard's shape.
    #[error("the new state breaks the guard")]
    Guard {
        /// The first place that breaks it.
        path: Path,
    },
    /// The session's grant denies what was written.
    #[error("the grant denies what was written")]
    Denied {
        /// The name of the rule that denies it, or `default`.
        rule: Text,
        /// The first place that it denies.
        place: Path,
    },
}

impl Refusal {
    /// The refusal's name, as replies print it.
    pub fn name(&self) -> &'static str
        ensures { result.now ≡ refusal_name self.now }
    {
        match self {
            Refusal::Named(cause) => cause.name(),
            Refusal::Thrown(_) => "Thrown",
            Refusal::Stale { .. } => "Stale",
            Refusal::SessionsOpen(_) => "SessionsOpen",
            Refusal::Guard { .. } => "Guard",
            Refusal::Denied { .. } => "Denied",
        }
    }
}

impl Debug for Refusal {
    fn fmt<W: Write>(&self, f: &mut Formatter<W>) -> Result<(), fmt::Error> {
        f.write_str(self.name())
    }
}
