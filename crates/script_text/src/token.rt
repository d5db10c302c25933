//! Tokens and what may be wrong with the bytes of a script.

use crate::sign::Sign;
use crate::word::Reserved;
use std::alloc::{AllocError, AllocFailed};
use thiserror::Error;

/// What a token is.
#[derive(Clone, Copy, Debug, Drop, PartialEq, Eq)]
pub enum Kind {
    /// A word that may be a name.
    Name,
    /// A word that is no name.
    Reserved(Reserved),
    /// An integer, of at most 2^53 - 1.
    Integer(u64),
    /// A text between quotes, its value of at most 2^20 bytes.
    Text,
    /// A sign.
    Sign(Sign),
}

/// A token: the bytes of the source from `start` on and before `end` spell it.
#[derive(Clone, Copy, Debug, Drop, PartialEq, Eq)]
pub struct Token {
    /// What it is.
    pub kind: Kind,
    /// The offset of its first byte.
    pub start: usize,
    /// The offset behind its last byte.
    pub end: usize,
}

/// What stands at one place of a source, with its number of bytes.
#[derive(Clone, Copy, Debug, Drop, PartialEq, Eq)]
pub enum Piece {
    /// White space or a comment.
    Blank(usize),
    /// A token of this kind.
    Token(Kind, usize),
    /// No piece begins there.
    Wrong(Cause),
}

/// Why no piece begins at a place.
#[derive(Clone, Copy, Debug, Drop, PartialEq, Eq)]
pub enum Cause {
    /// No token begins with this byte.
    Character,
    /// A text is not closed, has a wrong escape or a line's end, or its value has more than 2^20 bytes.
    Text,
    /// A run of word characters that begins with a digit is no integer without a leading zero of at most 2^53 - 1.
    Number,
    /// A comment that begins with `/*` is not closed.
    Comment,
}

/// Where the reader of a text stands.
#[derive(Clone, Copy, Debug, Drop, PartialEq, Eq)]
pub enum Inside {
    /// Between two characters.
    Plain,
    /// Behind a backslash.
    Escape,
    /// Behind `\u`: so many digits are still to come, and those before have this value.
    Hex(u32, u32),
}

/// Why bytes are no tokens, with the offset in bytes.
#[derive(Debug, Drop, Error)]
pub enum LexFault {
    /// The first place where no token begins, or the first byte that begins no whole UTF-8 character, whichever is first.
    #[error("no token begins at {0}")]
    Character(usize),
    /// The opening quote of a text that is not closed, has a wrong escape or a line's end, or whose value is too long.
    #[error("the text at {0} is not well formed")]
    Text(usize),
    /// The first digit of a run that is no integer of at most 2^53 - 1, or has a leading zero.
    #[error("the number at {0} is not an integer within the limit")]
    Number(usize),
    /// The `/*` of a comment that is not closed.
    #[error("the comment at {0} is not closed")]
    Comment(usize),
    /// Memory ran out.
    #[error("out of memory")]
    Memory,
}

impl From<AllocError> for LexFault {
    ghost use Rattle.std.specs.Prelude.{◌≡◌};
    ghost use Rattle.script_text.specs.declared.token.LexFault.TheVariants as fault;

    ghost from_gives = { λ _ e. e ≡ fault.Memory };

    fn from(_error: AllocError) -> LexFault {
        LexFault::Memory
    }
}

impl<T: Drop> From<AllocFailed<T>> for LexFault {
    ghost use Rattle.std.specs.Prelude.{◌≡◌};
    ghost use Rattle.script_text.specs.declared.token.LexFault.TheVariants as fault;

    ghost from_gives = { λ _ e. e ≡ fault.Memory };

    fn from(_error: AllocFailed<T>) -> LexFault {
        LexFault::Memory
    }
}
