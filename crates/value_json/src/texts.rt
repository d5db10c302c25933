//! Texts: bytes read to a value, a path or patches, and these printed.
ghost use Rattle.std.specs.Prelude.{◌≡◌, IfOk, Ok, None};
ghost use Rattle.value_json.specs.Gives.{Gives};
ghost use Rattle.value_model.specs.Limits.{value_limit};
ghost use Rattle.value_json_spec.specs.Patches.{patches_of, path_of, patches_text};
ghost use Rattle.value_json_spec.specs.Printing.{value_json_spec};
ghost use Rattle.value_json_spec.specs.Reading.{value_of};

use crate::fault::JsonFault;
use crate::reading::{json_of_bytes, patches_of_json, path_of_json, val_of_json};
use crate::sending::Printed;
use crate::sending_patches::PrintedPatches;
use std::alloc::{AllocError, Global};
use std::marker::Model;
use values::{Patches, Path, Val};

/// A text of any length.
///
/// A contract sees it as its bytes of UTF-8.
#[derive(Debug, Drop)]
pub struct Text8 {
    text: String,
}

impl Model for Text8 {
    ghost use Rattle.std.specs.Prelude.{List, ℕ, string_bytes};

    ghost Value = { List ℕ };

    ghost view = { λ t. string_bytes t.text };
}

impl Text8 {
    /// The text's characters.
    pub fn as_str(&self) -> &str
        ensures { result.now ≡ self.now }
    {
        self.text.as_str()
    }
}

/// The value that the bytes are as JSON (RFC 8259): `NotJson` where they are no JSON text of at most 127 levels, or one with a
/// number past a double's range, then the first fault of the walk (`NotSafeInteger`, `TextTooLong`, `BadTag`, `DuplicateKey`), or
/// else the first limit that the value is past, or memory.
pub fn read_value(alloc: Global, bytes: &[u8]) -> Result<Val, JsonFault>
    ensures { Gives result (value_of bytes.now) }
{
    val_of_json(alloc, &json_of_bytes(alloc, bytes)?)
}

/// The path that the bytes are as JSON: `NotJson`, then `NotPath` where that is no array of primitives, then
/// `NotSafeInteger` or `TextTooLong` at its first such step, or memory.
pub fn read_path(alloc: Global, bytes: &[u8]) -> Result<Path, JsonFault>
    ensures { Gives result (path_of bytes.now) }
{
    path_of_json(alloc, &json_of_bytes(alloc, bytes)?)
}

/// The patches that the bytes are as JSON: `NotJson`, then `NotPatches` where that is no list of patches in the form of
/// Immer 10, then the first fault of the walk over all of them, then the first limit that a value is past, or memory.
pub fn read_patches(alloc: Global, bytes: &[u8]) -> Result<Patches, JsonFault>
    ensures { Gives result (patches_of bytes.now) }
{
    patches_of_json(alloc, &json_of_bytes(alloc, bytes)?)
}

/// The compact JSON text of a value, its members, pairs and Set members in ascending order. Where `check_value` accepts
/// the value, the text is read back as the same value.
#[tactic(auto, using(value_json_spec::proofs::NoFloat::val_no_float))]
pub fn write_value(alloc: Global, v: &Val) -> Result<Text8, AllocError>
    ensures text { IfOk result (λ t. t ≡ value_json_spec v.now) }
    ensures reads_back { IfOk result (λ t. value_limit v.now ≡ None → value_of t ≡ Ok v.now) }
{
    match serde_json::to_string(alloc, &Printed { value: v }) {
        Ok(text) => Ok(Text8 { text }),
        Err(_) => Err(AllocError),
    }
}

/// The compact JSON text of patches, each in the form of Immer 10.
#[tactic(auto, using(value_json_spec::proofs::NoFloat::patches_no_float))]
pub fn write_patches(alloc: Global, patches: &Patches) -> Result<Text8, AllocError>
    ensures { IfOk result (λ t. t ≡ patches_text patches.now) }
{
    match serde_json::to_string(alloc, &PrintedPatches { patches }) {
        Ok(text) => Ok(Text8 { text }),
        Err(_) => Err(AllocError),
    }
}
