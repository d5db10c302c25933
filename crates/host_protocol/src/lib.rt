//! The lines of the host: the command that a line is, and the line of a reply (JSON texts of RFC 8259).
//!
//! The definitions stand in `host_protocol_spec`.
#![tactic(auto)]

mod commands;
mod fault;
mod members;
mod read;
mod refused;
mod write;

pub use fault::LineFault;
pub use read::{FormedLine, read_command, read_form};
pub use write::write_reply;
