//! What a script is made of: signs, words that are no names, and tokens; in `specs/` what bytes spell
//! which tokens.
#![tactic(auto)]

mod method;
mod sign;
mod text;
mod token;
mod word;

pub use method::{Arity, METHODS, Method, method_of};
pub use sign::{SIGNS, Sign, sign_at};
pub use text::{TextStep, text_step};
pub use token::{Cause, Inside, Kind, LexFault, Piece, Token};
pub use word::{RESERVED, Reserved, reserved_of};
