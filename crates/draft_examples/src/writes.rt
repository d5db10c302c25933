//! Calls that write one object.
ghost use Rattle.node_store.specs.Paged.{states};
ghost use Rattle.run_heap.specs.Sound.{AllOwned};
ghost use Rattle.draft_core.specs.Seen.{heap, Stands};

use crate::fresh;
use crate::operands::{entry, keyed, one, splice_of};
use draft_runs::Run;
use std::alloc::Global;

/// The answer to a call.
pub fn answer(alloc: Global, run: &mut Run, word: &str, text: &str) -> anyhow::Result<String>
    requires stands { Stands (states run.old.store) run.old.scope }
    requires owned { AllOwned (heap (states run.old.store) run.old.scope) run.old.values.items }
    ensures stands { Stands (states run.new.store) run.new.scope }
    ensures owned { AllOwned (heap (states run.new.store) run.new.scope) run.new.values.items }
{
    match word {
        "put" => put(alloc, run, text),
        "remove" => remove(alloc, run, text),
        "splice_at" => splice_at(alloc, run, text),
        "set_key" => set_key(alloc, run, text),
        "unset_key" => unset_key(alloc, run, text),
        "empty" => empty(alloc, run, text),
        _ => fresh::answer(alloc, run, word, text),
    }
}

fn put(alloc: Global, run: &mut Run, text: &str) -> anyhow::Result<String>
    requires stands { Stands (states run.old.store) run.old.scope }
    requires owned { AllOwned (heap (states run.old.store) run.old.scope) run.old.values.items }
    ensures stands { Stands (states run.new.store) run.new.scope }
    ensures owned { AllOwned (heap (states run.new.store) run.new.scope) run.new.values.items }
{
    let (of, key, value) = entry(alloc, text)?;
    let said = run.put(alloc, &of, &key, &value)?;
    Ok(String::from_str(alloc, said)?)
}

fn remove(alloc: Global, run: &mut Run, text: &str) -> anyhow::Result<String>
    requires stands { Stands (states run.old.store) run.old.scope }
    requires owned { AllOwned (heap (states run.old.store) run.old.scope) run.old.values.items }
    ensures stands { Stands (states run.new.store) run.new.scope }
    ensures owned { AllOwned (heap (states run.new.store) run.new.scope) run.new.values.items }
{
    let (of, key) = keyed(alloc, text)?;
    let said = run.remove(alloc, &of, &key)?;
    Ok(String::from_str(alloc, said)?)
}

fn splice_at(alloc: Global, run: &mut Run, text: &str) -> anyhow::Result<String>
    requires stands { Stands (states run.old.store) run.old.scope }
    requires owned { AllOwned (heap (states run.old.store) run.old.scope) run.old.values.items }
    ensures stands { Stands (states run.new.store) run.new.scope }
    ensures owned { AllOwned (heap (states run.new.store) run.new.scope) run.new.values.items }
{
    let splice = splice_of(alloc, text)?;
    let said = run.splice_at(alloc, &splice.of, splice.from, splice.to, &splice.items)?;
    Ok(String::from_str(alloc, said)?)
}

fn set_key(alloc: Global, run: &mut Run, text: &str) -> anyhow::Result<String>
    requires stands { Stands (states run.old.store) run.old.scope }
    requires owned { AllOwned (heap (states run.old.store) run.old.scope) run.old.values.items }
    ensures stands { Stands (states run.new.store) run.new.scope }
    ensures owned { AllOwned (heap (states run.new.store) run.new.scope) run.new.values.items }
{
    let (of, key, value) = entry(alloc, text)?;
    let said = run.set_key(alloc, &of, &key, &value)?;
    Ok(String::from_str(alloc, said)?)
}

fn unset_key(alloc: Global, run: &mut Run, text: &str) -> anyhow::Result<String>
    requires stands { Stands (states run.old.store) run.old.scope }
    requires owned { AllOwned (heap (states run.old.store) run.old.scope) run.old.values.items }
    ensures stands { Stands (states run.new.store) run.new.scope }
    ensures owned { AllOwned (heap (states run.new.store) run.new.scope) run.new.values.items }
{
    let (of, key) = keyed(alloc, text)?;
    let said = run.unset_key(alloc, &of, &key)?;
    Ok(String::from_str(alloc, said)?)
}

fn empty(alloc: Global, run: &mut Run, text: &str) -> anyhow::Result<String>
    requires stands { Stands (states run.old.store) run.old.scope }
    requires owned { AllOwned (heap (states run.old.store) run.old.scope) run.old.values.items }
    ensures stands { Stands (states run.new.store) run.new.scope }
    ensures owned { AllOwned (heap (states run.new.store) run.new.scope) run.new.values.items }
{
    let said = run.empty(alloc, &one(alloc, text)?)?;
    Ok(String::from_str(alloc, said)?)
}
