//! What the JSON text (RFC 8259) of a value, a path and a list of patches is: definitions alone.
//!
//! The definitions stand in `specs/`: `Reading` (the value that a text is, or its first fault), `Printing` (what is
//! printed for a value), `Patches` (both for patches and paths). They go over `serde_json`'s data, whose reading of a text
//! and compact text they rest on.
#![tactic(auto)]

mod laws;
mod why;

pub use laws::law_no_float;
pub use why::JsonWhy;
