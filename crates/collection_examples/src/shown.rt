//! What a container holds.
ghost use Rattle.node_store.specs.Paged.{states};
ghost use Rattle.std.specs.Prelude.{◌≡◌, ◌<◌, Some};
ghost use Rattle.run_heap.specs.Operations as spec;
ghost use Rattle.run_heap.specs.Sound.{AllOwned, IsContainer, Owned};
ghost use Rattle.draft_core.specs.Seen.{heap, Stands};

use crate::operands::operand;
use draft_core::{Kind, Rv, Scope, Store};
use draft_runs::{Run, WordFault, json_of, text_of};
use std::alloc::Global;

/// `show VALUE`: a container's kind, `*` where its mark is set, and its entries.
pub(crate) fn show(run: &mut Run, alloc: Global, words: &[&str]) -> Result<String, WordFault>
    requires stands { Stands (states run.old.store) run.old.scope }
    requires owned { AllOwned (heap (states run.old.store) run.old.scope) run.old.values.items }
    ensures stands { Stands (states run.new.store) run.new.scope }
    ensures owned { AllOwned (heap (states run.new.store) run.new.scope) run.new.values.items }
{
    let of = operand(run, alloc, words, 0)?;
    content(alloc, &mut run.scope, &run.store, &of)
}

/// What a value holds; a reference of another scope is `foreign`.
#[tactic(auto, using(draft_runs::proofs::Asked::container_is))]
fn content(alloc: Global, scope: &mut Scope, store: &Store, of: &Rv) -> Result<String, WordFault>
    requires stands { Stands (states store.now) scope.old }
    requires owned { Owned (heap (states store.now) scope.old) of.now }
    ensures same { scope.new ≡ scope.old }
{
    if !scope.owns(of) {
        return Ok(String::from_str(alloc, "foreign")?);
    }
    match scope.kind_of(store, of) {
        None => Ok(String::from_str(alloc, "no container")?),
        Some(kind) => {
            let mut out = String::from_str(alloc, word_of(kind))?;
            if scope.written(of) {
                out.push_str(" *")?;
            }
            push_entries(alloc, scope, store, of, kind, &mut out)?;
            Ok(out)
        }
    }
}

fn push_entries(
    alloc: Global,
    scope: &mut Scope,
    store: &Store,
    of: &Rv,
    kind: Kind,
    out: &mut String,
) -> Result<(), WordFault>
    requires stands { Stands (states store.now) scope.old }
    requires container { IsContainer (heap (states store.now) scope.old) of.now }
    requires kind { spec.kind_of (heap (states store.now) scope.old) of.now ≡ Some kind }
    ensures same { scope.new ≡ scope.old }
{
    for i in 0..scope.count(store, of) {
        out.push(' ')?;
        push_key(alloc, scope, store, of, kind, i, out)?;
        let value = scope.entry_at(alloc, store, of, i)?;
        out.push_str(text_of(alloc, &value)?.as_str())?;
    }
    Ok(())
}

/// The key of an entry, where there are keys.
fn push_key(
    alloc: Global,
    scope: &Scope,
    store: &Store,
    of: &Rv,
    kind: Kind,
    i: usize,
    out: &mut String,
) -> Result<(), WordFault>
    requires stands { Stands (states store.now) scope.now }
    requires container { IsContainer (heap (states store.now) scope.now) of.now }
    requires kind { spec.kind_of (heap (states store.now) scope.now) of.now ≡ Some kind }
    requires in_range { i < spec.count (heap (states store.now) scope.now) of.now }
{
    let key = match kind {
        Kind::List => return Ok(()),
        Kind::Obj => scope.key_at(store, of, i),
        Kind::Map => scope.key_at(store, of, i),
        Kind::Set => scope.key_at(store, of, i),
    };
    out.push_str(json_of(alloc, key)?.as_str())?;
    out.push(':')?;
    Ok(())
}

fn word_of(kind: Kind) -> &'static str {
    match kind {
        Kind::Obj => "object",
        Kind::List => "list",
        Kind::Map => "map",
        Kind::Set => "set",
    }
}
