//! What stands at a place of a plain value, and which values are accepted. No call takes memory.
#![tactic(auto)]

mod keys;
mod limits;
mod places;

pub use limits::{check_state, check_value};
pub use places::{at, child, entry_place, field_place, member_place};
