//! Numbers for the variables of a reducer.
#![tactic(auto)]

mod all;
mod first;
mod places;
mod slots;

pub use all::number;
pub use slots::Slots;
