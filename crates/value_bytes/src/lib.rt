//! The bytes of plain values, patch lists and pairs, both ways.
//!
//! What the one spelling of each is stands in the crate `value_bytes_spec`.
#![tactic(auto)]

mod bytes;
mod fields;
mod laws;
mod order;
mod packed;
mod pairs;
mod patch_reading;
mod patch_writing;
mod put;
mod reading;
mod stop;
mod take;
mod writing;

pub use bytes::Bytes;
pub use laws::{law_bytes_of_number, law_no_prefix, law_one_front};
pub use packed::Packed;
pub use pairs::Pairs;
pub use put::{put_patches, put_value};
pub use take::{take_patches, take_value};
