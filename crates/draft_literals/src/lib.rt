//! The fresh objects of a plain value: its containers get names that follow one another, in post-order.
#![tactic(auto)]

mod making;

pub use making::literals;
