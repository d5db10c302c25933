//! The declaration that each name of a program belongs to.
#![tactic(auto)]

mod fault;
mod index;
mod program;
mod scopes;
mod statements;
mod uses;

pub use fault::NameFault;
pub use index::Index;
pub use program::{Names, resolve};
