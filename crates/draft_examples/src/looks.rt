//! Calls that look at one container.
ghost use Rattle.node_store.specs.Paged.{states};
ghost use Rattle.run_heap.specs.Sound.{AllOwned};
ghost use Rattle.draft_core.specs.Seen.{heap, Stands};

use crate::operands::{indexed, keyed, one};
use crate::writes;
use anyhow::Context;
use draft_runs::Run;
use std::alloc::Global;

/// The answer to a call.
pub fn answer(alloc: Global, run: &mut Run, word: &str, text: &str) -> anyhow::Result<String>
    requires stands { Stands (states run.old.store) run.old.scope }
    requires owned { AllOwned (heap (states run.old.store) run.old.scope) run.old.values.items }
    ensures stands { Stands (states run.new.store) run.new.scope }
    ensures owned { AllOwned (heap (states run.new.store) run.new.scope) run.new.values.items }
{
    match word {
        "kind" => Ok(String::from_str(alloc, run.kind(alloc, &one(alloc, text)?)?)?),
        "count" => Ok(run.count(alloc, &one(alloc, text)?)?),
        "find" => find(alloc, run, text),
        "key_at" => key_at(alloc, run, text),
        "entry_at" => entry_at(alloc, run, text),
        "peek" => peek(alloc, run, text),
        "same_at" => same_at(alloc, run, text),
        "written" => Ok(String::from_str(alloc, run.written(alloc, &one(alloc, text)?)?)?),
        "source" => Ok(run.source(alloc, &one(alloc, text)?)?),
        "place_of" => Ok(run.place_of(alloc, &one(alloc, text)?)?),
        "slot" => Ok(run.slot(alloc, &one(alloc, text)?)?),
        "show" => Ok(run.show(alloc, &one(alloc, text)?)?),
        _ => writes::answer(alloc, run, word, text),
    }
}

fn find(alloc: Global, run: &Run, text: &str) -> anyhow::Result<String>
    requires stands { Stands (states run.now.store) run.now.scope }
    requires owned { AllOwned (heap (states run.now.store) run.now.scope) run.now.values.items }
{
    let (of, key) = keyed(alloc, text)?;
    Ok(run.find(alloc, &of, &key)?)
}

fn key_at(alloc: Global, run: &Run, text: &str) -> anyhow::Result<String>
    requires stands { Stands (states run.now.store) run.now.scope }
    requires owned { AllOwned (heap (states run.now.store) run.now.scope) run.now.values.items }
{
    let (of, i) = indexed(alloc, text)?;
    Ok(run.key_at(alloc, &of, i)?)
}

fn entry_at(alloc: Global, run: &mut Run, text: &str) -> anyhow::Result<String>
    requires stands { Stands (states run.old.store) run.old.scope }
    requires owned { AllOwned (heap (states run.old.store) run.old.scope) run.old.values.items }
    ensures stands { Stands (states run.new.store) run.new.scope }
    ensures owned { AllOwned (heap (states run.new.store) run.new.scope) run.new.values.items }
{
    let (of, i) = indexed(alloc, text)?;
    Ok(run.entry_at(alloc, &of, i)?)
}

fn peek(alloc: Global, run: &Run, text: &str) -> anyhow::Result<String>
    requires stands { Stands (states run.now.store) run.now.scope }
    requires owned { AllOwned (heap (states run.now.store) run.now.scope) run.now.values.items }
{
    let (of, i) = indexed(alloc, text)?;
    Ok(run.peek(alloc, &of, i)?)
}

fn same_at(alloc: Global, run: &Run, text: &str) -> anyhow::Result<String>
    requires stands { Stands (states run.now.store) run.now.scope }
    requires owned { AllOwned (heap (states run.now.store) run.now.scope) run.now.values.items }
{
    let (place, item) = text.rsplit_once(' ').context("a place and a value")?;
    let (of, i) = indexed(alloc, place)?;
    let item = one(alloc, item)?;
    Ok(String::from_str(alloc, run.same_at(alloc, &of, i, &item)?)?)
}
