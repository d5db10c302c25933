//! The lines of a command stream and of its answers: the command that a line is, and the text of a reply. Definitions, and
//! their laws.
#![tactic(auto)]

mod laws;

pub use laws::{law_one_reading, law_pointers_read_back};
