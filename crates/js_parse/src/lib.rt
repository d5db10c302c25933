//! Scripts: the program that the tokens of a source are.
#![tactic(auto)]

mod fault;
mod program;
mod reading;

pub use fault::ParseFault;
pub use program::{Program, ReducerId};
pub use reading::parse;
