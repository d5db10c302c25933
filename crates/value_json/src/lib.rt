//! The JSON text (RFC 8259) of values, paths and patches, read and printed.
//!
//! A Map is `{"$map":[[k,v],..]}`, a Set `{"$set":[k,..]}`, and an object whose only member would read as one of these is
//! printed as `{"$obj":{..}}`. The definitions stand in `value_json_spec`.
#![tactic(auto)]

mod fault;
mod ranked;
mod reading;
mod sending;
mod sending_patches;
mod texts;
mod walk;

pub use fault::JsonFault;
pub use reading::{
    is_patch_list, is_path, json_of_bytes, limit_if, op_in, patches_of_json, path_of_json,
    val_of_json, value_if,
};
pub use sending::{Printed, PrintedKey};
pub use sending_patches::{PrintedPatches, PrintedPath};
pub use texts::{Text8, read_patches, read_path, read_value, write_patches, write_value};
pub use value_json_spec::JsonWhy;
pub use walk::text_in;
