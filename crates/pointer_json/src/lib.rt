//! Lists of operations of a JSON Patch (RFC 6902), read from JSON and printed. Their paths are JSON Pointers (RFC 6901).
//!
//! The definitions stand in `host_protocol_spec`, in `specs/PointerTexts.antt` and `specs/Pointers.antt`.
#![tactic(auto)]

mod printing;
mod reading;
mod texts;

pub use printing::{PrintedPointers, Spelled};
pub use reading::{is_pointer_list, pointers_of_json};
