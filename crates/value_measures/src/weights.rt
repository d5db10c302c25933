ghost use Rattle.std.specs.Prelude.{◌≡◌, ◌^◌, min};
ghost use Rattle.value_measures.specs.Weights as spec;

use values::{Patch, Patches, Path, Val, capped, key_weight, weight};

/// What patches weigh, or 2^63 where that is more: each 1, the keys of its path, and its value.
pub fn patches_weight(patches: &Patches) -> u64
    ensures { result ≡ min (spec.patches_weight patches.now) (2 ^ 63) }
{
    let mut total: u64 = 0;
    for patch in patches.as_slice() {
        total = capped(total, patch_weight(patch));
    }
    total
}

fn patch_weight(patch: &Patch) -> u64
    ensures { result ≡ min (spec.patch_weight patch.now) (2 ^ 63) }
{
    let path = path_weight(&patch.path);
    capped(capped(1, path), value_weight(&patch.value))
}

fn value_weight(value: &Option<Val>) -> u64
    ensures { result ≡ min (spec.value_weight value.now) (2 ^ 63) }
{
    match value {
        Some(value) => weight(value),
        None => 0,
    }
}

fn path_weight(path: &Path) -> u64
    ensures { result ≡ min (spec.path_weight path.now) (2 ^ 63) }
{
    let mut total: u64 = 0;
    for step in path.as_slice() {
        total = capped(total, key_weight(step));
    }
    total
}
