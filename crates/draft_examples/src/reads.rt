//! Calls that read, and those that begin a run.
ghost use Rattle.node_store.specs.Paged.{states};
ghost use Rattle.run_heap.specs.Sound.{AllOwned};
ghost use Rattle.draft_core.specs.Seen.{heap, Stands};

use crate::looks;
use crate::operands::{keyed, one, two};
use draft_runs::Run;
use std::alloc::Global;

/// The answer to a call.
pub fn answer(alloc: Global, run: &mut Run, word: &str, text: &str) -> anyhow::Result<String>
    requires stands { Stands (states run.old.store) run.old.scope }
    requires owned { AllOwned (heap (states run.old.store) run.old.scope) run.old.values.items }
    ensures stands { Stands (states run.new.store) run.new.scope }
    ensures owned { AllOwned (heap (states run.new.store) run.new.scope) run.new.values.items }
{
    match word {
        "state" => begin(alloc, run, text),
        "twice" => twins(alloc, run),
        "foreign" => Ok(run.foreign(alloc)?),
        "get" => get(alloc, run, text),
        "original" => Ok(run.original(alloc, &one(alloc, text)?)?),
        "len" => Ok(run.len(alloc, &one(alloc, text)?)?),
        "same" => same(alloc, run, text),
        "owns" => said(alloc, run.owns(alloc, &one(alloc, text)?)?),
        "is_draft" => said(alloc, run.is_draft(alloc, &one(alloc, text)?)?),
        "any_written" => said(alloc, run.any_written()),
        _ => looks::answer(alloc, run, word, text),
    }
}

/// A run on a state.
fn begin(alloc: Global, run: &mut Run, text: &str) -> anyhow::Result<String>
    requires stands { Stands (states run.old.store) run.old.scope }
    requires owned { AllOwned (heap (states run.old.store) run.old.scope) run.old.values.items }
    ensures stands { Stands (states run.new.store) run.new.scope }
    ensures owned { AllOwned (heap (states run.new.store) run.new.scope) run.new.values.items }
{
    *run = Run::of_state(alloc, text)?;
    Ok(String::from_str(alloc, "@0")?)
}

/// A run on a list that holds one object twice.
fn twins(alloc: Global, run: &mut Run) -> anyhow::Result<String>
    requires stands { Stands (states run.old.store) run.old.scope }
    requires owned { AllOwned (heap (states run.old.store) run.old.scope) run.old.values.items }
    ensures stands { Stands (states run.new.store) run.new.scope }
    ensures owned { AllOwned (heap (states run.new.store) run.new.scope) run.new.values.items }
{
    *run = Run::of_twins(alloc)?;
    Ok(String::from_str(alloc, "@0")?)
}

fn get(alloc: Global, run: &mut Run, text: &str) -> anyhow::Result<String>
    requires stands { Stands (states run.old.store) run.old.scope }
    requires owned { AllOwned (heap (states run.old.store) run.old.scope) run.old.values.items }
    ensures stands { Stands (states run.new.store) run.new.scope }
    ensures owned { AllOwned (heap (states run.new.store) run.new.scope) run.new.values.items }
{
    let (of, key) = keyed(alloc, text)?;
    Ok(run.get(alloc, &of, &key)?)
}

fn same(alloc: Global, run: &Run, text: &str) -> anyhow::Result<String>
    requires { AllOwned (heap (states run.now.store) run.now.scope) run.now.values.items }
{
    let (a, b) = two(alloc, text)?;
    said(alloc, run.same(alloc, &a, &b)?)
}

/// `true` or `false`.
fn said(alloc: Global, answer: bool) -> anyhow::Result<String> {
    Ok(format!(in alloc; "{answer}")?)
}
