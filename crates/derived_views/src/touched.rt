//! Which entries of a container patches touch.
ghost use Rattle.std.specs.Prelude.{◌≡◌, map, IfOk, IsTrue, OnOk};
ghost use Rattle.std.specs.FinMap.Entries.{is_sorted};
ghost use Rattle.value_model.specs.Order.{key_cmp};
ghost use Rattle.value_model.specs.Search.{IsPlace};
ghost use Rattle.values.specs.Seen.{of_member};
ghost use Rattle.guards_views_spec.specs.Views as spec;
ghost use Rattle.derived_views.specs.Touching.{Leads, Touches};

use std::alloc::{AllocError, Global};
use values::{Key, Patch};

/// Which entries of a view's container patches touch.
#[derive(Drop)]
pub enum Touched {
    /// Some patch speaks of the container as a whole, or of what it stands in.
    Whole,
    /// The patches speak of these entries and of no other: their steps, ascending strictly.
    Keys(Vec<Key>),
}

/// Where a patch leads, seen from a container.
pub(crate) enum Way<'a> {
    /// To the container, or to what it stands in.
    Above,
    /// To the entry at this step, or into it.
    Inside(&'a Key),
    /// Elsewhere.
    Aside,
}

/// What patches touch of the container at a path.
pub(crate) fn touched_at(
    alloc: Global,
    path: &[Key],
    patches: &[Patch],
) -> Result<Touched, AllocError>
    ensures { IfOk result (λ t. Touches t (spec.touched path.now patches.now)) }
{
    let mut keys = Vec::new(alloc);
    for p in patches {
        match way_of(path, p.path.as_slice()) {
            Way::Above => return Ok(Touched::Whole),
            Way::Inside(key) => add_key(&mut keys, key.copy(alloc)?)?,
            Way::Aside => {}
        }
    }
    Ok(Touched::Keys(keys))
}

fn way_of<'a>(path: &[Key], place: &'a [Key]) -> Way<'a>
    ensures { Leads result (spec.reach path.now place.now) }
{
    let mut rest = place;
    for step in path {
        let Some((first, more)) = rest.split_first() else {
            return Way::Above;
        };
        if !step.compare(first).is_eq() {
            return Way::Aside;
        }
        rest = more;
    }
    match rest.split_first() {
        Some((key, _)) => Way::Inside(key),
        None => Way::Above,
    }
}

fn place(keys: &[Key], key: &Key) -> Result<usize, usize>
    requires { IsTrue (is_sorted key_cmp (map of_member keys.now)) }
    ensures { IsPlace of_member key.now keys.now result }
{
    keys.binary_search_by(|k| k.compare(key))
}

fn add_key(keys: &mut Vec<Key>, key: Key) -> Result<(), AllocError>
    requires { IsTrue (is_sorted key_cmp (map of_member keys.old.items)) }
    ensures added { OnOk result (keys.new.items ≡ spec.with_key key keys.old.items) }
    ensures sorted { OnOk result (IsTrue (is_sorted key_cmp (map of_member keys.new.items))) }
{
    match place(keys, &key) {
        Ok(_) => Ok(()),
        Err(at) => Ok(keys.insert(at, key)?),
    }
}
