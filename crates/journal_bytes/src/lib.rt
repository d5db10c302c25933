//! What a journal's bytes stand for: a durable history, with the records that lead to it. Definitions and their laws.
#![tactic(auto)]

mod change;
mod slots;

pub use change::{Change, Format};
pub use slots::Slots;
