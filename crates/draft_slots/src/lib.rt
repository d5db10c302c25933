//! One object of a run: reading and changing its table, and reading a frozen node as an object.
#![tactic(auto)]

mod change;
mod look;
mod nodes;
mod table;

pub use change::{Change, rewrite};
pub use look::{Look, Peek};
pub use nodes::node_content;
