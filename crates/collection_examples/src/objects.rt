//! The calls on objects, which make what the other calls are tried on.
ghost use Rattle.node_store.specs.Paged.{states};
ghost use Rattle.run_heap.specs.Sound.{AllOwned};
ghost use Rattle.draft_core.specs.Seen.{heap, Stands};

use crate::operands::word;
use crate::shown::show;
use draft_runs::{Run, WordFault, key_of, operand_of, value_of};
use std::alloc::Global;

/// A call on an object by its word.
pub(crate) fn answer(
    run: &mut Run,
    alloc: Global,
    call: &str,
    words: &[&str],
) -> Result<String, WordFault>
    requires stands { Stands (states run.old.store) run.old.scope }
    requires owned { AllOwned (heap (states run.old.store) run.old.scope) run.old.values.items }
    ensures stands { Stands (states run.new.store) run.new.scope }
    ensures owned { AllOwned (heap (states run.new.store) run.new.scope) run.new.values.items }
{
    match call {
        "get" => get(run, alloc, words),
        "put" => put(run, alloc, words),
        "original" => original(run, alloc, words),
        "foreign" => Ok(run.foreign(alloc)?),
        "plain" => plain(run, alloc, words),
        "new_object" => Ok(run.new_object(alloc)?),
        "new_list" => Ok(run.new_list(alloc)?),
        "show" => show(run, alloc, words),
        _ => Err(WordFault::Unexpected),
    }
}

/// `get CONTAINER KEY`
fn get(run: &mut Run, alloc: Global, words: &[&str]) -> Result<String, WordFault>
    requires stands { Stands (states run.old.store) run.old.scope }
    requires owned { AllOwned (heap (states run.old.store) run.old.scope) run.old.values.items }
    ensures stands { Stands (states run.new.store) run.new.scope }
    ensures owned { AllOwned (heap (states run.new.store) run.new.scope) run.new.values.items }
{
    let of = operand_of(alloc, word(words, 0)?)?;
    let key = key_of(alloc, word(words, 1)?)?;
    Ok(run.get(alloc, &of, &key)?)
}

/// `put CONTAINER KEY VALUE`
fn put(run: &mut Run, alloc: Global, words: &[&str]) -> Result<String, WordFault>
    requires stands { Stands (states run.old.store) run.old.scope }
    requires owned { AllOwned (heap (states run.old.store) run.old.scope) run.old.values.items }
    ensures stands { Stands (states run.new.store) run.new.scope }
    ensures owned { AllOwned (heap (states run.new.store) run.new.scope) run.new.values.items }
{
    let of = operand_of(alloc, word(words, 0)?)?;
    let key = key_of(alloc, word(words, 1)?)?;
    let value = operand_of(alloc, word(words, 2)?)?;
    Ok(String::from_str(alloc, run.put(alloc, &of, &key, &value)?)?)
}

/// `original DRAFT`
fn original(run: &mut Run, alloc: Global, words: &[&str]) -> Result<String, WordFault>
    requires stands { Stands (states run.old.store) run.old.scope }
    requires owned { AllOwned (heap (states run.old.store) run.old.scope) run.old.values.items }
    ensures stands { Stands (states run.new.store) run.new.scope }
    ensures owned { AllOwned (heap (states run.new.store) run.new.scope) run.new.values.items }
{
    let of = operand_of(alloc, word(words, 0)?)?;
    Ok(run.original(alloc, &of)?)
}

/// `plain JSON`: fresh objects
fn plain(run: &mut Run, alloc: Global, words: &[&str]) -> Result<String, WordFault>
    requires stands { Stands (states run.old.store) run.old.scope }
    requires owned { AllOwned (heap (states run.old.store) run.old.scope) run.old.values.items }
    ensures stands { Stands (states run.new.store) run.new.scope }
    ensures owned { AllOwned (heap (states run.new.store) run.new.scope) run.new.values.items }
{
    let v = value_of(alloc, word(words, 0)?)?;
    Ok(run.plain(alloc, &v)?)
}
