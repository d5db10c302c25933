//! Why tokens are no program.

ghost use Rattle.std.specs.Prelude.{◌≡◌};
ghost use Rattle.script_grammar.specs.Sources.{offset_of};
ghost use Rattle.js_syntax.specs.Faults.{fault_of};

use crate::level::Level;
use js_expr::Stop;
use thiserror::Error;

/// Why tokens are no program, with the offset in bytes at which the token begins; that is the source's length where
/// the tokens end too early.
#[derive(Debug, Drop, Error)]
pub enum SyntaxFault {
    /// No program begins with the tokens up to this one.
    #[error("the token at {0} is not expected")]
    Unexpected(usize),
    /// This token opens a level beyond the 64th.
    #[error("the token at {0} is nested too deeply")]
    TooNested(usize),
    #[error("out of memory")]
    Memory,
}

impl Level<'_> {
    /// Where the token of this number begins.
    #[tactic(auto, using(crate::proofs::Reducers::offset_here, crate::proofs::Reducers::offset_end))]
    fn offset(&self, at: usize) -> usize
        ensures { result ≡ offset_of self.now.source.bytes.now self.now.source.tokens.now at }
    {
        if at < self.source.tokens.len() {
            self.source.tokens[at].start
        } else {
            self.source.bytes.len()
        }
    }

    /// The fault of a reading that stopped.
    pub(crate) fn fault(&self, stop: Stop) -> SyntaxFault
        ensures { result ≡ fault_of self.now.source.bytes.now self.now.source.tokens.now stop }
    {
        match stop {
            Stop::Unexpected(at) => SyntaxFault::Unexpected(self.offset(at)),
            Stop::TooNested(at) => SyntaxFault::TooNested(self.offset(at)),
            Stop::Memory => SyntaxFault::Memory,
        }
    }
}
