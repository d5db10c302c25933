ghost use Rattle.std.specs.Prelude.{◌≡◌, ◌≤◌, ◌++◌, ℕ, List, length, take, Some, None, IfOk, IfSome};
ghost use Rattle.value_model.specs.Plain.{Plain};
ghost use Rattle.values.specs.declared.patch.Patch.{Patch as PatchModel};
ghost use Rattle.value_bytes_spec.specs.Spelling.{value_bytes, patches_bytes, IsValue, IsPatches, Spells, SpellsPatches};

use crate::patch_reading::{patches_of, value_of};
use crate::stop::Stop;
use std::alloc::{AllocError, Global};
use values::{Patches, Val};

/// The value that the first bytes spell, and how many bytes spell it; None exactly where no prefix is a spelling.
///
/// Keys that don't ascend strictly, texts that are no UTF-8 or have more than 2^20 bytes, integers outside ±(2^53 - 1) and
/// values that `check_value` refuses have no spelling. What stands behind the spelling isn't looked at. `AllocError` comes
/// only where memory runs out.
pub fn take_value(alloc: Global, bytes: &[u8]) -> Result<Option<(Val, usize)>, AllocError>
    // What is taken is spelled by the prefix of that length.
    ensures found { IfOk result (λ r. IfSome r (λ x. (x.1 ≤ length bytes.now) × Spells x.0 (take x.1 bytes.now))) }
    // Nothing is taken only where no prefix spells a value.
    ensures none { IfOk result (λ r. r ≡ None → (v : Plain) (n : ℕ) → ¬ Spells v (take n bytes.now)) }
    // What a value spells is taken, whatever stands behind it.
    ensures again { (v : Plain) (rest : List ℕ) → IsValue v → bytes.now ≡ value_bytes v ++ rest → IfOk result (λ r. r ≡ Some (v, length (value_bytes v))) }
{
    match value_of(alloc, bytes) {
        Ok((value, rest)) => Ok(Some((value, bytes.len() - rest.len()))),
        Err(Stop::NoSpelling) => Ok(None),
        Err(Stop::Memory) => Err(AllocError),
    }
}

/// The patch list that the first bytes spell, and how many bytes spell it; None exactly where no prefix is a spelling.
///
/// The values of its patches are as `take_value` takes them, the steps of a path any primitives. What stands behind the
/// spelling isn't looked at. `AllocError` comes only where memory runs out.
pub fn take_patches(alloc: Global, bytes: &[u8]) -> Result<Option<(Patches, usize)>, AllocError>
    // What is taken is spelled by the prefix of that length.
    ensures found { IfOk result (λ r. IfSome r (λ x. (x.1 ≤ length bytes.now) × SpellsPatches x.0 (take x.1 bytes.now))) }
    // Nothing is taken only where no prefix spells a patch list.
    ensures none { IfOk result (λ r. r ≡ None → (ps : List PatchModel) (n : ℕ) → ¬ SpellsPatches ps (take n bytes.now)) }
    // What a patch list spells is taken, whatever stands behind it.
    ensures again { (ps : List PatchModel) (rest : List ℕ) → IsPatches ps → bytes.now ≡ patches_bytes ps ++ rest → IfOk result (λ r. r ≡ Some (ps, length (patches_bytes ps))) }
{
    match patches_of(alloc, bytes) {
        Ok((patches, rest)) => Ok(Some((patches, bytes.len() - rest.len()))),
        Err(Stop::NoSpelling) => Ok(None),
        Err(Stop::Memory) => Err(AllocError),
    }
}
