//! The tokens of a script.
#![tactic(auto)]

mod laws;
mod piece;
mod source;
mod text;

pub use laws::{law_spans_ascend, law_tokens_are_pieces};
pub use script_text::{Kind, LexFault, Reserved, Sign, Token};
pub use source::{Tokens, lex};
