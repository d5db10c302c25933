ghost use Rattle.std.specs.Prelude.{◌≡◌, ◌++◌, None, OnOk, OnErr};
ghost use Rattle.value_model.specs.Limits.{value_limit};
ghost use Rattle.value_bytes_spec.specs.Spelling.{value_bytes, patches_bytes, Spells, SpellsPatches, CanSpell};

use crate::bytes::Bytes;
use crate::patch_writing::{put_accepted, put_patch_list};
use std::alloc::{AllocError, Global};
use values::{Patches, Val};

/// Appends the one spelling of a value: its kind, then big-endian numbers, UTF-8 and what it holds, keys ascending.
///
/// The value is one that `check_value` accepts. `AllocError` comes only where memory runs out; then `out` is as before.
pub fn put_value(alloc: Global, v: &Val, out: &mut Bytes) -> Result<(), AllocError>
    requires { value_limit v.now ≡ None }
    ensures ok { OnOk result (out.new ≡ out.old ++ value_bytes v.now) }
    ensures spelling { OnOk result (Spells v.now (value_bytes v.now)) }
    ensures err { OnErr result (out.new ≡ out.old) }
{
    // Written apart first, so that nothing is left behind where memory runs out on the way.
    let mut spelling = Vec::new(alloc);
    put_accepted(&mut spelling, v)?;
    out.append(&spelling)
}

/// Appends the one spelling of a patch list: the count of its patches, then the operation, the path and the value of each.
///
/// `check_value` accepts each of its values, and the list and each path have fewer than 2^32 elements. `AllocError` comes
/// only where memory runs out; then `out` is as before.
pub fn put_patches(alloc: Global, p: &Patches, out: &mut Bytes) -> Result<(), AllocError>
    requires { CanSpell p.now }
    ensures ok { OnOk result (out.new ≡ out.old ++ patches_bytes p.now) }
    ensures spelling { OnOk result (SpellsPatches p.now (patches_bytes p.now)) }
    ensures err { OnErr result (out.new ≡ out.old) }
{
    let mut spelling = Vec::new(alloc);
    put_patch_list(&mut spelling, p)?;
    out.append(&spelling)
}
