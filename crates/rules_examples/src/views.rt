//! Views of rules, brought up to date by patches.
ghost use Rattle.std.specs.Prelude.{◌≡◌, ◌+◌, ◌≤◌, ◌^◌, map, min, option_map, IfOk, IsTrue, None};
ghost use Rattle.std.specs.Bool.{OnTrue};
ghost use Rattle.std.specs.FinMap.Entries.{is_sorted};
ghost use Rattle.value_model.specs.Limits.{value_limit};
ghost use Rattle.value_model.specs.Order.{key_cmp};
ghost use Rattle.values.specs.Seen.{of_member};
ghost use Rattle.derived_views.specs.Accepted.{Measures, AcceptedAt, ChangesAccepted};
ghost use Rattle.rules_examples.specs.Added.{added, weight_of};

use crate::path_text;
use anyhow::bail;
use guards_views::{Touched, View, ViewRule, copy_weigh, weighs};
use std::alloc::Global;
use value_checks::{at, check_value, child, member_place};
use values::{Key, Patches, Path, Val, ValNode, weight};

/// An entry of a container and what stands there.
type Change = (Key, Option<Val>);

/// What a view adds up to, the steps that patches from an old state to a new one touch, and what it then adds up to.
pub fn view_words(
    alloc: Global,
    rule: &ViewRule,
    old: &Val,
    patches: &Patches,
    new: &Val,
) -> anyhow::Result<String> {
    let path = copy_path(alloc, &rule.path)?;
    let weigh = copy_weigh(alloc, &rule.weigh)?;
    let by = |v: &Val|
        requires { value_limit v.now ≡ None }
    { weighs(&rule.weigh, v) };
    let view = View::new(alloc, path, weigh, by, container(old, &rule.path)?)?;
    follow(alloc, view, patches, new)
}

/// The same of a view of the old state.
#[tactic(auto, using(crate::proofs::Sums::updated_at_most))]
fn follow<F: Fn(&Val) -> u64 + Drop>(
    alloc: Global,
    view: View<F>,
    patches: &Patches,
    new: &Val,
) -> anyhow::Result<String>
    requires { Measures F.Fn view.measure.by view.measure.weigh }
{
    let before = view.total();
    let here = container(new, view.path())?;
    match view.touched(alloc, patches)? {
        Touched::Whole => {
            let after = view.again(alloc, here)?.total();
            Ok(format!(in alloc; "{before}, touched as a whole, then {after}")?)
        }
        Touched::Keys(keys) => {
            let changed = standing(alloc, here, &keys)?;
            if !fits(before, &changed) {
                bail!("too large a sum");
            }
            let after = view.update(alloc, &changed)?.total();
            let steps = path_text(alloc, Path::from_vec(keys))?;
            Ok(format!(in alloc; "{before}, touched {steps}, then {after}")?)
        }
    }
}

fn copy_path(alloc: Global, path: &Path) -> anyhow::Result<Path> {
    let mut keys = Vec::new(alloc);
    for k in path.as_slice() {
        keys.push(k.copy(alloc)?)?;
    }
    Ok(Path::from_vec(keys))
}

/// What stands at a path, within the limits.
fn container<'a>(v: &'a Val, path: &Path) -> anyhow::Result<Option<&'a Val>>
    ensures { IfOk result (λ o. AcceptedAt (option_map (λ w. w.now) o)) }
{
    match at(v, path) {
        None => Ok(None),
        Some(w) => {
            check_value(w)?;
            Ok(Some(w))
        }
    }
}

/// These entries as they stand in a container.
fn standing(alloc: Global, here: Option<&Val>, keys: &[Key]) -> anyhow::Result<Vec<Change>>
    ensures { IfOk result (λ cs. ChangesAccepted cs.items) }
{
    let mut changed = Vec::new(alloc);
    for key in keys {
        let value = entry(alloc, here, key)?;
        changed.push((key.copy(alloc)?, value))?;
    }
    Ok(changed)
}

/// What stands in a container under a step, in a Set the member.
fn entry(alloc: Global, here: Option<&Val>, key: &Key) -> anyhow::Result<Option<Val>>
    ensures { IfOk result (λ o. AcceptedAt o) }
{
    match here {
        None => Ok(None),
        Some(v) => match &v.node {
            ValNode::Set(members) => member(alloc, members, key),
            _ => match child(v, key) {
                None => Ok(None),
                Some(w) => checked(w.copy(alloc)?),
            },
        },
    }
}

fn member(alloc: Global, members: &[Key], key: &Key) -> anyhow::Result<Option<Val>>
    requires { IsTrue (is_sorted key_cmp (map of_member members.now)) }
    ensures { IfOk result (λ o. AcceptedAt o) }
{
    match member_place(members, key) {
        Err(_) => Ok(None),
        Ok(_) => checked(Val::primitive(key.copy(alloc)?)),
    }
}

/// The value, if it is within the limits.
fn checked(v: Val) -> anyhow::Result<Option<Val>>
    ensures { IfOk result (λ o. AcceptedAt o) }
{
    check_value(&v)?;
    Ok(Some(v))
}

/// Whether a sum with what is set now stays at most 2^20.
fn fits(before: u64, changed: &[Change]) -> bool
    requires { before ≤ 2 ^ 20 }
    ensures { OnTrue result (before + added changed.now ≤ 2 ^ 20) }
{
    let mut sum = before;
    for c in changed {
        sum += set_weight(&c.1);
        if sum > 1 << 20 {
            return false;
        }
    }
    true
}

fn set_weight(value: &Option<Val>) -> u64
    ensures { result ≡ min (weight_of value.now) (2 ^ 63) }
{
    match value {
        None => 0,
        Some(v) => weight(v),
    }
}
