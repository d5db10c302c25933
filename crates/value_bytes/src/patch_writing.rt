ghost use Rattle.std.specs.Prelude.{◌≡◌, ◌<◌, ◌^◌, ◌++◌, ◌∷◌, [], length, IsTrue, IfSome, None, OnOk};
ghost use Rattle.std.specs.List.{flat_map, AllByRecursion};
ghost use Rattle.value_model.specs.Limits.{value_limit};
ghost use Rattle.value_bytes_spec.specs.Spelling.{key_bytes, op_byte, optional_bytes, path_bytes, patch_bytes, patches_bytes, is_word, value_bytes, IsValue, IsPath, IsPatch, IsPatches, CanSpellPatch, CanSpell};

use crate::writing::{put_count, put_key, put_nested};
use std::alloc::AllocError;
use values::{Key, Op, Patch, Patches, Path, Val};

/// Appends a value that is accepted.
pub(crate) fn put_accepted(out: &mut Vec<u8>, v: &Val) -> Result<(), AllocError>
    requires { value_limit v.now ≡ None }
    ensures bytes { OnOk result (out.new.items ≡ out.old.items ++ value_bytes v.now) }
    ensures value { OnOk result (IsValue v.now) }
{
    put_nested(out, v)
}

/// Appends a patch list.
pub(crate) fn put_patch_list(out: &mut Vec<u8>, patches: &Patches) -> Result<(), AllocError>
    requires { CanSpell patches.now }
    ensures bytes { OnOk result (out.new.items ≡ out.old.items ++ patches_bytes patches.now) }
    ensures patches { OnOk result (IsPatches patches.now) }
{
    let list = patches.as_slice();
    put_count(out, list.len())?;
    put_each(out, list)
}

fn put_each(out: &mut Vec<u8>, list: &[Patch]) -> Result<(), AllocError>
    requires { AllByRecursion CanSpellPatch list.now }
    ensures bytes { OnOk result (out.new.items ≡ out.old.items ++ flat_map patch_bytes list.now) }
    ensures each { OnOk result (AllByRecursion IsPatch list.now) }
{
    for p in list {
        put_patch(out, p)?;
    }
    Ok(())
}

fn put_patch(out: &mut Vec<u8>, p: &Patch) -> Result<(), AllocError>
    requires { CanSpellPatch p.now }
    ensures bytes { OnOk result (out.new.items ≡ out.old.items ++ patch_bytes p.now) }
    ensures patch { OnOk result (IsPatch p.now) }
{
    put_op(out, p.op)?;
    put_path(out, &p.path)?;
    put_optional(out, &p.value)
}

fn put_op(out: &mut Vec<u8>, op: Op) -> Result<(), AllocError>
    ensures { OnOk result (out.new.items ≡ out.old.items ++ op_byte op ∷ []) }
{
    let byte = match op {
        Op::Add => 1,
        Op::Replace => 2,
        Op::Remove => 3,
    };
    out.push(byte)?;
    Ok(())
}

fn put_path(out: &mut Vec<u8>, path: &Path) -> Result<(), AllocError>
    requires { length path.now < 2 ^ 32 }
    ensures bytes { OnOk result (out.new.items ≡ out.old.items ++ path_bytes path.now) }
    ensures path { OnOk result (IsPath path.now) }
{
    let keys = path.as_slice();
    put_count(out, keys.len())?;
    put_keys(out, keys)
}

fn put_keys(out: &mut Vec<u8>, keys: &[Key]) -> Result<(), AllocError>
    ensures bytes { OnOk result (out.new.items ≡ out.old.items ++ flat_map key_bytes keys.now) }
    ensures words { OnOk result (AllByRecursion (λ k. IsTrue (is_word k)) keys.now) }
{
    for k in keys {
        put_key(out, k)?;
    }
    Ok(())
}

/// Appends the value of a patch, behind the mark that says whether there is one.
fn put_optional(out: &mut Vec<u8>, value: &Option<Val>) -> Result<(), AllocError>
    requires { IfSome value.now (λ v. value_limit v ≡ None) }
    ensures bytes { OnOk result (out.new.items ≡ out.old.items ++ optional_bytes value.now) }
    ensures value { OnOk result (IfSome value.now IsValue) }
{
    match value {
        None => out.push(0)?,
        Some(v) => {
            out.push(1)?;
            put_accepted(out, v)?;
        }
    }
    Ok(())
}
