ghost use Rattle.std.specs.Prelude.{None};
ghost use Rattle.value_bytes_spec.specs.Reading.{value_at, keys_at, path_at, op_at, optional_at, patch_at, patch_list_at, patches_at};
ghost use Rattle.value_bytes.specs.Gives.{Gives};

use crate::fields::{count_of, key_of};
use crate::reading::nested_of;
use crate::stop::Stop;
use std::alloc::Global;
use value_checks::check_value;
use values::{Key, Op, Patch, Patches, Path, Val};

/// The most containers that nest in a value.
const LEVELS: u8 = 32;

/// The value at the front, where it is accepted.
#[tactic(auto, unfolding(value_bytes_spec::specs::Reading::value_at))]
pub(crate) fn value_of(alloc: Global, bytes: &[u8]) -> Result<(Val, &[u8]), Stop>
    ensures { Gives (λ x. (x.0, x.1.now)) result (value_at bytes.now) }
{
    let (value, rest) = nested_of(alloc, LEVELS, bytes)?;
    match check_value(&value) {
        Ok(()) => Ok((value, rest)),
        Err(_) => Err(Stop::NoSpelling),
    }
}

#[tactic(auto, unfolding(value_bytes_spec::specs::Reading::path_at))]
fn path_of(alloc: Global, bytes: &[u8]) -> Result<(Path, &[u8]), Stop>
    ensures { Gives (λ x. (x.0, x.1.now)) result (path_at bytes.now) }
{
    let (count, rest) = count_of(bytes)?;
    let (keys, rest) = keys_of(alloc, count, rest)?;
    Ok((Path::from_vec(keys), rest))
}

fn keys_of(alloc: Global, count: u32, bytes: &[u8]) -> Result<(Vec<Key>, &[u8]), Stop>
    ensures { Gives (λ x. (x.0.items, x.1.now)) result (keys_at count bytes.now) }
{
    let mut keys = Vec::new(alloc);
    let mut rest = bytes;
    for _ in 0..count {
        let (key, after) = key_of(alloc, rest)?;
        keys.push(key)?;
        rest = after;
    }
    Ok((keys, rest))
}

#[tactic(auto, unfolding(value_bytes_spec::specs::Reading::op_at))]
fn op_of(bytes: &[u8]) -> Result<(Op, &[u8]), Stop>
    ensures { Gives (λ x. (x.0, x.1.now)) result (op_at bytes.now) }
{
    match bytes {
        [1, rest @ ..] => Ok((Op::Add, rest)),
        [2, rest @ ..] => Ok((Op::Replace, rest)),
        [3, rest @ ..] => Ok((Op::Remove, rest)),
        _ => Err(Stop::NoSpelling),
    }
}

/// The value of a patch, behind the mark that says whether there is one.
#[tactic(auto, unfolding(value_bytes_spec::specs::Reading::optional_at))]
fn optional_of(alloc: Global, bytes: &[u8]) -> Result<(Option<Val>, &[u8]), Stop>
    ensures { Gives (λ x. (x.0, x.1.now)) result (optional_at bytes.now) }
{
    match bytes {
        [0, rest @ ..] => Ok((None, rest)),
        [1, rest @ ..] => {
            let (value, rest) = value_of(alloc, rest)?;
            Ok((Some(value), rest))
        }
        _ => Err(Stop::NoSpelling),
    }
}

#[tactic(auto, unfolding(value_bytes_spec::specs::Reading::patch_at))]
fn patch_of(alloc: Global, bytes: &[u8]) -> Result<(Patch, &[u8]), Stop>
    ensures { Gives (λ x. (x.0, x.1.now)) result (patch_at bytes.now) }
{
    let (op, rest) = op_of(bytes)?;
    let (path, rest) = path_of(alloc, rest)?;
    let (value, rest) = optional_of(alloc, rest)?;
    Ok((Patch { op, path, value }, rest))
}

fn patch_list_of(alloc: Global, count: u32, bytes: &[u8]) -> Result<(Vec<Patch>, &[u8]), Stop>
    ensures { Gives (λ x. (x.0.items, x.1.now)) result (patch_list_at count bytes.now) }
{
    let mut list = Vec::new(alloc);
    let mut rest = bytes;
    for _ in 0..count {
        let (patch, after) = patch_of(alloc, rest)?;
        list.push(patch)?;
        rest = after;
    }
    Ok((list, rest))
}

/// The patch list at the front.
#[tactic(auto, unfolding(value_bytes_spec::specs::Reading::patches_at))]
pub(crate) fn patches_of(alloc: Global, bytes: &[u8]) -> Result<(Patches, &[u8]), Stop>
    ensures { Gives (λ x. (x.0, x.1.now)) result (patches_at bytes.now) }
{
    let (count, rest) = count_of(bytes)?;
    let (list, rest) = patch_list_of(alloc, count, rest)?;
    Ok((Patches::from_vec(list), rest))
}
