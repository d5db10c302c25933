//! The objects that a program is handed for its bytes in and out: the traits `Source` and `Sink`,
//! with a count of faults each, objects in memory for tests, and adapters over std.
#![tactic(auto)]

mod edges;
mod files;
mod memory;
mod plan;
mod traits;

pub use edges::{ReadEdge, WriteEdge};
pub use files::{FileSource, NoSource};
pub use memory::{MemSink, MemSource};
pub use traits::{Failed, Sink, Source};
