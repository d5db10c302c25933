//! Why tokens are no program.

use js_syntax::SyntaxFault;
use script_names::Cause;
use std::alloc::{AllocError, AllocFailed};
use thiserror::Error;

/// Why tokens are no program, with the offset in bytes.
#[derive(Debug, Drop, Error)]
pub enum ParseFault {
    /// The first token with which the tokens begin no program; the source's length where they end too early.
    #[error("the token at {0} is not expected")]
    Unexpected(usize),
    /// The first token that opens a 65th level, where it stands before each unexpected one.
    #[error("too many levels are open at {0}")]
    TooNested(usize),
    /// A use of a variable for which no declaration that has ended stands, whether it reads or assigns.
    #[error("no declaration that has ended stands for the name at {0}")]
    UnknownName(usize),
    /// The name of the second declaration in a scope, or of the second reducer.
    #[error("the name at {0} is declared for the second time")]
    Duplicate(usize),
    /// The name that is assigned to and stands for a constant.
    #[error("the constant at {0} is assigned to")]
    ConstWrite(usize),
    /// Memory ran out.
    #[error("out of memory")]
    Memory,
}

impl ParseFault {
    ghost use Rattle.std.specs.Prelude.{◌≡◌};
    ghost use Rattle.js_parse.specs.Causes.{fault_of, syntax_fault};

    /// The same fault of the grammar.
    pub(crate) fn of_syntax(fault: SyntaxFault) -> ParseFault
        ensures { result ≡ syntax_fault fault }
    {
        match fault {
            SyntaxFault::Unexpected(at) => ParseFault::Unexpected(at),
            SyntaxFault::TooNested(at) => ParseFault::TooNested(at),
            SyntaxFault::Memory => ParseFault::Memory,
        }
    }

    /// What is wrong with the name that begins here.
    pub(crate) fn of_name(cause: Cause, at: usize) -> ParseFault
        ensures { result ≡ fault_of cause at }
    {
        match cause {
            Cause::UnknownName => ParseFault::UnknownName(at),
            Cause::Duplicate => ParseFault::Duplicate(at),
            Cause::ConstWrite => ParseFault::ConstWrite(at),
        }
    }
}

impl From<AllocError> for ParseFault {
    ghost use Rattle.std.specs.Prelude.{◌≡◌};
    ghost use Rattle.js_parse.specs.declared.fault.ParseFault.TheVariants as fault;

    ghost from_gives = { λ _ e. e ≡ fault.Memory };

    fn from(_error: AllocError) -> ParseFault {
        ParseFault::Memory
    }
}

impl<T: Drop> From<AllocFailed<T>> for ParseFault {
    ghost use Rattle.std.specs.Prelude.{◌≡◌};
    ghost use Rattle.js_parse.specs.declared.fault.ParseFault.TheVariants as fault;

    ghost from_gives = { λ _ e. e ≡ fault.Memory };

    fn from(_error: AllocFailed<T>) -> ParseFault {
        ParseFault::Memory
    }
}
