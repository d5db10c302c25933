ghost use Rattle.std.specs.Prelude.{◌≡◌, ◌<◌, ◌≤◌, length, IfSome};
ghost use Rattle.std.proofs.Common.{drop};
ghost use Rattle.patch_meaning.specs.Applying as spec;
ghost use Rattle.plain_apply.specs.Gives.{GivesApplied};
ghost use Rattle.plain_apply.specs.Last.{last_from};

use crate::fault::{ApplyFault, EditFault};
use crate::steps::patched;
use std::alloc::{AllocError, Global};
use values::{Op, Patch, PatchWhy, Patches, Val};

/// The value with the patches made one after another, in the form of Immer 10: a new value, whose weight and depth aren't
/// limited here. The last `replace` with the empty path gives a new root, and only the patches after it are looked at.
/// Refused is the first patch that can't be made, with its position from 0 and why, or memory. Each step of a path costs
/// up to the size of the table that it stands in.
pub fn apply_plain(alloc: Global, v: &Val, patches: &Patches) -> Result<Val, ApplyFault>
    ensures { GivesApplied result (spec.applied patches.now v.now) }
{
    let list = patches.as_slice();
    match last_root(list) {
        None => applied_from(alloc, v.copy(alloc)?, list, 0),
        Some(at) => match &list[at].value {
            None => Err(ApplyFault::Refused {
                at: at as u64,
                why: PatchWhy::UndefinedWrite,
            }),
            Some(root) => applied_from(alloc, root.copy(alloc)?, list, at + 1),
        },
    }
}

/// The place of the last patch that replaces the root.
fn last_root(list: &[Patch]) -> Option<usize>
    ensures last { result ≡ last_from 0 list.now }
    ensures within { IfSome result (λ i. i < length list.now) }
{
    let mut last = None;
    for (i, patch) in list.iter().enumerate() {
        if is_root_replace(patch) {
            last = Some(i);
        }
    }
    last
}

fn is_root_replace(patch: &Patch) -> bool
    ensures { result ≡ spec.is_root_replace patch.now }
{
    match patch.op {
        Op::Replace => patch.path.as_slice().is_empty(),
        Op::Add | Op::Remove => false,
    }
}

fn applied_from(alloc: Global, v: Val, list: &[Patch], from: usize) -> Result<Val, ApplyFault>
    requires { from ≤ length list.now }
    ensures { GivesApplied result (spec.applied_from from (drop from list.now) v) }
{
    let mut here = v;
    let mut at = from;
    while at < list.len() {
        let patch = &list[at];
        match patched(
            alloc,
            here,
            patch.op,
            &patch.value,
            patch.path.as_slice(),
            0,
        ) {
            Ok(next) => here = next,
            Err(EditFault::Memory) => return Err(ApplyFault::Memory),
            Err(EditFault::Refused(why)) => {
                return Err(ApplyFault::Refused { at: at as u64, why });
            }
        }
        at += 1;
    }
    Ok(here)
}
