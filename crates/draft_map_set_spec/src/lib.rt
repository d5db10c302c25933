//! What the calls on the Maps and Sets of a run answer and leave: definitions with examples that the check computes, and a law of
//! them.
//!
//! They stand in `specs/`: `MapSet` (the calls), `Examples` (worked examples).
#![tactic(auto)]

mod laws;

pub use laws::law_revoked_members;
