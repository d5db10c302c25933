//! The form of a command line: a JSON object with a word under `do`, and exactly the members of that word.
//!
//! The definitions stand in `host_protocol_spec`, in `specs/Forms.antt`.
#![tactic(auto)]

mod members;
mod words;

pub use members::{has_form, is_this_text};
pub use words::word_in;
