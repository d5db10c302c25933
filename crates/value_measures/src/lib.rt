//! Whether two plain values are the same, and what patches weigh. No call takes memory.
#![tactic(auto)]

mod same;
mod weights;

pub use same::same_value;
pub use weights::patches_weight;
