//! The host: one state, changed by commands, each of which is answered with patches there and back.
//!
//! What it does is the host machine of `host_machine`.
#![tactic(auto)]

mod apply;
mod change;
mod edits;
mod fields;
mod host;
mod pairs;
mod places;

pub use host::Host;
