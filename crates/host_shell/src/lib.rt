//! The top call: a stream of command lines is answered line by line.
//!
//! What is answered is what `stream_run` defines, and `specs/Ends.antt` says what stands at each status.
#![tactic(auto)]

mod answer;
mod built;
mod line;
mod lines;
mod send;
mod status;
mod top;
mod words;

pub use host_engine::Host;
pub use host_protocol::{FormedLine, LineFault, read_command, read_form, write_reply};
pub use lines::serve_lines;
pub use status::{Status, StatusLine};
pub use top::serve;
pub use words::{Form, wanted};
