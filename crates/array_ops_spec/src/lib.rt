//! What the calls on lists answer and leave, over the objects of a run: definitions, and a law of them.
//!
//! The definitions stand in `specs/`: `Calls` (each call as a function on a list's elements), `Examples` (worked rows).
#![tactic(auto)]

mod laws;

pub use laws::law_revoked_lists;
