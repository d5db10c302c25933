//! Calls that make objects.
ghost use Rattle.node_store.specs.Paged.{states};
ghost use Rattle.run_heap.specs.Sound.{AllOwned};
ghost use Rattle.draft_core.specs.Seen.{heap, Stands};

use crate::operands::{all, one, splice_of};
use anyhow::{Context, bail};
use draft_runs::{Run, kind_of, value_of};
use std::alloc::Global;

/// The answer to a call, `no call` for a word of none.
pub fn answer(alloc: Global, run: &mut Run, word: &str, text: &str) -> anyhow::Result<String>
    requires stands { Stands (states run.old.store) run.old.scope }
    requires owned { AllOwned (heap (states run.old.store) run.old.scope) run.old.values.items }
    ensures stands { Stands (states run.new.store) run.new.scope }
    ensures owned { AllOwned (heap (states run.new.store) run.new.scope) run.new.values.items }
{
    match word {
        "object" => Ok(run.new_object(alloc)?),
        "list" => Ok(run.new_list(alloc)?),
        "new" => Ok(run.new_of(alloc, kind_of(text)?)?),
        "keys" => Ok(run.keys(alloc, &one(alloc, text)?)?),
        "plain" => Ok(run.plain(alloc, &value_of(alloc, text)?)?),
        "list_of" => Ok(run.list_of(alloc, &all(alloc, text)?)?),
        "splice_with" => splice_with(alloc, run, text),
        _ => bail!("no call"),
    }
}

fn splice_with(alloc: Global, run: &mut Run, text: &str) -> anyhow::Result<String>
    requires stands { Stands (states run.old.store) run.old.scope }
    requires owned { AllOwned (heap (states run.old.store) run.old.scope) run.old.values.items }
    ensures stands { Stands (states run.new.store) run.new.scope }
    ensures owned { AllOwned (heap (states run.new.store) run.new.scope) run.new.values.items }
{
    let (front, back) = text.split_once(" |").context("two lists of values")?;
    let splice = splice_of(alloc, front)?;
    let others = all(alloc, back.trim_start())?;
    Ok(run.splice_with(
        alloc,
        &splice.of,
        splice.from,
        splice.to,
        &splice.items,
        &others,
    )?)
}
