//! Expressions of a script, read from its tokens.
#![tactic(auto)]

mod expr;
mod source;
mod text;

pub use expr::{read_expr, read_post};
pub use source::{Source, Stop};
