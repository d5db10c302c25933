//! The patches from the entries of one object of integers to those of another.
ghost use Rattle.std.specs.Prelude.{◌≡◌, ◌≤◌, ◌^◌, ◌+◌, ◌++◌, ◌∷◌, [], min, map, length, drop, IfOk, IsTrue, Some, None, not, OnOk, ◌⊎◌};
ghost use Rattle.std.specs.FinMap.Entries.{is_sorted};
ghost use Rattle.value_model.specs.Order.{key_cmp};
ghost use Rattle.value_model.specs.declared.key.Key.TheVariants as key;
ghost use Rattle.value_model.specs.declared.op.Op.TheVariants as op;
ghost use Rattle.host_machine.specs.Differences.{same, patch as patch_of, differences as differences_of, path_weight as weight_of_path, value_weight as weight_of_value, patch_weight as weight_of_patch, patches_weight as weight_of_patches};
ghost use Rattle.host_engine.specs.Kept.{of_field, number_of};
ghost use Rattle.host_engine.specs.Pairs.{first_patches};

use crate::fields::Field;
use plain_values::{Key, Op, Patch, Patches, Path, Safe, Val, capped, key_weight, weight};
use std::alloc::{AllocError, Global};
use std::cmp::Ordering;

/// The patches that carry the old entries to the new ones, over the keys of both in their order.
pub fn differences(alloc: Global, old: &[Field], new: &[Field]) -> Result<Patches, AllocError>
    requires old_sorted { IsTrue (is_sorted key_cmp (map of_field old.now)) }
    requires new_sorted { IsTrue (is_sorted key_cmp (map of_field new.now)) }
    ensures { IfOk result (λ ps. ps ≡ differences_of (map of_field old.now) (map of_field new.now)) }
{
    let merged = merge(alloc, old, new)?;
    let mut list = merged.list;
    push_removed(alloc, &mut list, &old[merged.old_at..])?;
    push_added(alloc, &mut list, &new[merged.new_at..])?;
    Ok(Patches::from_vec(list))
}

/// The patches up to the end of one of two lists of entries, and how far they came in each.
#[derive(Drop)]
struct Merged {
    list: Vec<Patch>,
    old_at: usize,
    new_at: usize,
}

fn merge(alloc: Global, old: &[Field], new: &[Field]) -> Result<Merged, AllocError>
    requires old_sorted { IsTrue (is_sorted key_cmp (map of_field old.now)) }
    requires new_sorted { IsTrue (is_sorted key_cmp (map of_field new.now)) }
    ensures patches { IfOk result (λ r. r.list.items ++ differences_of (map of_field (drop r.old_at old.now)) (map of_field (drop r.new_at new.now)) ≡ differences_of (map of_field old.now) (map of_field new.now)) }
    ensures within { IfOk result (λ r. (r.old_at ≤ length old.now) × (r.new_at ≤ length new.now)) }
    ensures at_end { IfOk result (λ r. (length old.now ≤ r.old_at) ⊎ (length new.now ≤ r.new_at)) }
    ensures old_rest { IfOk result (λ r. IsTrue (is_sorted key_cmp (map of_field (drop r.old_at old.now)))) }
    ensures new_rest { IfOk result (λ r. IsTrue (is_sorted key_cmp (map of_field (drop r.new_at new.now)))) }
{
    let mut list = Vec::new(alloc);
    let mut old_at = 0;
    let mut new_at = 0;
    while old_at < old.len() && new_at < new.len() {
        match push_first(alloc, &mut list, &old[old_at], &new[new_at])? {
            Ordering::Less => old_at += 1,
            Ordering::Greater => new_at += 1,
            Ordering::Equal => {
                old_at += 1;
                new_at += 1;
            }
        }
    }
    Ok(Merged {
        list,
        old_at,
        new_at,
    })
}

/// The patches of the lower of two keys, which stands first in the old entries, the new ones, or both; and how they compare.
fn push_first(
    alloc: Global,
    list: &mut Vec<Patch>,
    old: &Field,
    new: &Field,
) -> Result<Ordering, AllocError>
    ensures order { IfOk result (λ o. o ≡ key_cmp old.now.key.now new.now.key.now) }
    ensures patches { IfOk result (λ o. list.new.items ≡ list.old.items ++ first_patches o (of_field old.now) (of_field new.now)) }
{
    let order = old.key.compare(new.key);
    match order {
        Ordering::Less => list.push(removing(alloc, old.key)?)?,
        Ordering::Greater => list.push(setting(alloc, Op::Add, new.key, new.number)?)?,
        Ordering::Equal => {
            if is_other(old.number, new.number) {
                list.push(setting(alloc, Op::Replace, old.key, new.number)?)?;
            }
        }
    }
    Ok(order)
}

fn is_other(a: Safe, b: Safe) -> bool
    ensures { result ≡ not (same (number_of a) (number_of b)) }
{
    compare_numbers(a, b).is_ne()
}

fn compare_numbers(a: Safe, b: Safe) -> Ordering
    ensures { result ≡ key_cmp (key.Int a) (key.Int b) }
{
    a.get().cmp(&b.get())
}

fn push_removed(alloc: Global, list: &mut Vec<Patch>, old: &[Field]) -> Result<(), AllocError>
    requires { IsTrue (is_sorted key_cmp (map of_field old.now)) }
    ensures { OnOk result (list.new.items ≡ list.old.items ++ differences_of (map of_field old.now) []) }
{
    for f in old {
        list.push(removing(alloc, f.key)?)?;
    }
    Ok(())
}

fn push_added(alloc: Global, list: &mut Vec<Patch>, new: &[Field]) -> Result<(), AllocError>
    requires { IsTrue (is_sorted key_cmp (map of_field new.now)) }
    ensures { OnOk result (list.new.items ≡ list.old.items ++ differences_of [] (map of_field new.now)) }
{
    for f in new {
        list.push(setting(alloc, Op::Add, f.key, f.number)?)?;
    }
    Ok(())
}

fn setting(alloc: Global, op: Op, key: &Key, number: Safe) -> Result<Patch, AllocError>
    ensures { IfOk result (λ p. p ≡ patch_of op key.now (Some (number_of number))) }
{
    Ok(Patch {
        op,
        path: path_to(alloc, key)?,
        value: Some(Val::primitive(Key::Int(number))),
    })
}

fn removing(alloc: Global, key: &Key) -> Result<Patch, AllocError>
    ensures { IfOk result (λ p. p ≡ patch_of op.Remove key.now None) }
{
    Ok(Patch {
        op: Op::Remove,
        path: path_to(alloc, key)?,
        value: None,
    })
}

fn path_to(alloc: Global, key: &Key) -> Result<Path, AllocError>
    ensures { IfOk result (λ p. p ≡ key.now ∷ []) }
{
    let mut keys = Vec::new(alloc);
    keys.push(key.copy(alloc)?)?;
    Ok(Path::from_vec(keys))
}

/// What patches weigh, or 2^63 where that is more.
pub fn patches_weight(patches: &Patches) -> u64
    ensures { result ≡ min (weight_of_patches patches.now) (2 ^ 63) }
{
    let mut total: u64 = 0;
    for patch in patches.as_slice() {
        total = capped(total, patch_weight(patch));
    }
    total
}

fn patch_weight(patch: &Patch) -> u64
    ensures { result ≡ min (weight_of_patch patch.now) (2 ^ 63) }
{
    let path = path_weight(&patch.path);
    capped(capped(1, path), value_weight(&patch.value))
}

fn value_weight(value: &Option<Val>) -> u64
    ensures { result ≡ min (weight_of_value value.now) (2 ^ 63) }
{
    match value {
        Some(value) => weight(value),
        None => 0,
    }
}

fn path_weight(path: &Path) -> u64
    ensures { result ≡ min (weight_of_path path.now) (2 ^ 63) }
{
    let mut total: u64 = 0;
    for step in path.as_slice() {
        total = capped(total, key_weight(step));
    }
    total
}
