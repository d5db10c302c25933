//! The calls on Maps and Sets.
#![tactic(auto, using(draft_runs::proofs::Held::all_grow))]

ghost use Rattle.node_store.specs.Paged.{states};
ghost use Rattle.run_heap.specs.Sound.{AllOwned};
ghost use Rattle.draft_core.specs.Seen.{heap, Stands};

use crate::operands::operand;
use crate::{objects, said};
use draft_runs::{Run, WordFault};
use std::alloc::Global;

/// A call on a Map or a Set by its word, or else on an object.
pub(crate) fn answer(
    run: &mut Run,
    alloc: Global,
    word: &str,
    words: &[&str],
) -> Result<String, WordFault>
    requires stands { Stands (states run.old.store) run.old.scope }
    requires owned { AllOwned (heap (states run.old.store) run.old.scope) run.old.values.items }
    ensures stands { Stands (states run.new.store) run.new.scope }
    ensures owned { AllOwned (heap (states run.new.store) run.new.scope) run.new.values.items }
{
    match word {
        "map_get" => map_get(run, alloc, words),
        "map_has" => map_has(run, alloc, words),
        "map_set" => map_set(run, alloc, words),
        "map_delete" => map_delete(run, alloc, words),
        "map_clear" => map_clear(run, alloc, words),
        "set_add" => set_add(run, alloc, words),
        "set_has" => set_has(run, alloc, words),
        "set_delete" => set_delete(run, alloc, words),
        "set_clear" => set_clear(run, alloc, words),
        "size" => size(run, alloc, words),
        "member_keys" => member_keys(run, alloc, words),
        "new_map" => new_map(run, alloc),
        "new_set" => new_set(run, alloc),
        _ => objects::answer(run, alloc, word, words),
    }
}

/// `map_get MAP KEY`
fn map_get(run: &mut Run, alloc: Global, words: &[&str]) -> Result<String, WordFault>
    requires stands { Stands (states run.old.store) run.old.scope }
    requires owned { AllOwned (heap (states run.old.store) run.old.scope) run.old.values.items }
    ensures stands { Stands (states run.new.store) run.new.scope }
    ensures owned { AllOwned (heap (states run.new.store) run.new.scope) run.new.values.items }
{
    let of = operand(run, alloc, words, 0)?;
    let key = operand(run, alloc, words, 1)?;
    let answer = draft_map_set::map_get(alloc, &mut run.scope, &run.store, &of, &key);
    Ok(run.keep(alloc, answer)?)
}

/// `map_has MAP KEY`
fn map_has(run: &mut Run, alloc: Global, words: &[&str]) -> Result<String, WordFault>
    requires stands { Stands (states run.old.store) run.old.scope }
    requires owned { AllOwned (heap (states run.old.store) run.old.scope) run.old.values.items }
    ensures stands { Stands (states run.new.store) run.new.scope }
    ensures owned { AllOwned (heap (states run.new.store) run.new.scope) run.new.values.items }
{
    let of = operand(run, alloc, words, 0)?;
    let key = operand(run, alloc, words, 1)?;
    let answer = draft_map_set::map_has(alloc, &mut run.scope, &run.store, &of, &key);
    Ok(said::truth(alloc, answer)?)
}

/// `map_set MAP KEY VALUE`
fn map_set(run: &mut Run, alloc: Global, words: &[&str]) -> Result<String, WordFault>
    requires stands { Stands (states run.old.store) run.old.scope }
    requires owned { AllOwned (heap (states run.old.store) run.old.scope) run.old.values.items }
    ensures stands { Stands (states run.new.store) run.new.scope }
    ensures owned { AllOwned (heap (states run.new.store) run.new.scope) run.new.values.items }
{
    let of = operand(run, alloc, words, 0)?;
    let key = operand(run, alloc, words, 1)?;
    let value = operand(run, alloc, words, 2)?;
    let answer = draft_map_set::map_set(alloc, &mut run.scope, &run.store, &of, &key, value);
    Ok(said::done(alloc, answer)?)
}

/// `map_delete MAP KEY`
fn map_delete(run: &mut Run, alloc: Global, words: &[&str]) -> Result<String, WordFault>
    requires stands { Stands (states run.old.store) run.old.scope }
    requires owned { AllOwned (heap (states run.old.store) run.old.scope) run.old.values.items }
    ensures stands { Stands (states run.new.store) run.new.scope }
    ensures owned { AllOwned (heap (states run.new.store) run.new.scope) run.new.values.items }
{
    let of = operand(run, alloc, words, 0)?;
    let key = operand(run, alloc, words, 1)?;
    let answer = draft_map_set::map_delete(alloc, &mut run.scope, &run.store, &of, &key);
    Ok(said::truth(alloc, answer)?)
}

/// `map_clear MAP`
fn map_clear(run: &mut Run, alloc: Global, words: &[&str]) -> Result<String, WordFault>
    requires stands { Stands (states run.old.store) run.old.scope }
    requires owned { AllOwned (heap (states run.old.store) run.old.scope) run.old.values.items }
    ensures stands { Stands (states run.new.store) run.new.scope }
    ensures owned { AllOwned (heap (states run.new.store) run.new.scope) run.new.values.items }
{
    let of = operand(run, alloc, words, 0)?;
    let answer = draft_map_set::map_clear(alloc, &mut run.scope, &run.store, &of);
    Ok(said::done(alloc, answer)?)
}

/// `set_add SET MEMBER`
fn set_add(run: &mut Run, alloc: Global, words: &[&str]) -> Result<String, WordFault>
    requires stands { Stands (states run.old.store) run.old.scope }
    requires owned { AllOwned (heap (states run.old.store) run.old.scope) run.old.values.items }
    ensures stands { Stands (states run.new.store) run.new.scope }
    ensures owned { AllOwned (heap (states run.new.store) run.new.scope) run.new.values.items }
{
    let of = operand(run, alloc, words, 0)?;
    let member = operand(run, alloc, words, 1)?;
    let answer = draft_map_set::set_add(alloc, &mut run.scope, &run.store, &of, &member);
    Ok(said::done(alloc, answer)?)
}

/// `set_has SET MEMBER`
fn set_has(run: &mut Run, alloc: Global, words: &[&str]) -> Result<String, WordFault>
    requires stands { Stands (states run.old.store) run.old.scope }
    requires owned { AllOwned (heap (states run.old.store) run.old.scope) run.old.values.items }
    ensures stands { Stands (states run.new.store) run.new.scope }
    ensures owned { AllOwned (heap (states run.new.store) run.new.scope) run.new.values.items }
{
    let of = operand(run, alloc, words, 0)?;
    let member = operand(run, alloc, words, 1)?;
    let answer = draft_map_set::set_has(alloc, &mut run.scope, &run.store, &of, &member);
    Ok(said::truth(alloc, answer)?)
}

/// `set_delete SET MEMBER`
fn set_delete(run: &mut Run, alloc: Global, words: &[&str]) -> Result<String, WordFault>
    requires stands { Stands (states run.old.store) run.old.scope }
    requires owned { AllOwned (heap (states run.old.store) run.old.scope) run.old.values.items }
    ensures stands { Stands (states run.new.store) run.new.scope }
    ensures owned { AllOwned (heap (states run.new.store) run.new.scope) run.new.values.items }
{
    let of = operand(run, alloc, words, 0)?;
    let member = operand(run, alloc, words, 1)?;
    let answer = draft_map_set::set_delete(alloc, &mut run.scope, &run.store, &of, &member);
    Ok(said::truth(alloc, answer)?)
}

/// `set_clear SET`
fn set_clear(run: &mut Run, alloc: Global, words: &[&str]) -> Result<String, WordFault>
    requires stands { Stands (states run.old.store) run.old.scope }
    requires owned { AllOwned (heap (states run.old.store) run.old.scope) run.old.values.items }
    ensures stands { Stands (states run.new.store) run.new.scope }
    ensures owned { AllOwned (heap (states run.new.store) run.new.scope) run.new.values.items }
{
    let of = operand(run, alloc, words, 0)?;
    let answer = draft_map_set::set_clear(alloc, &mut run.scope, &run.store, &of);
    Ok(said::done(alloc, answer)?)
}

/// `size CONTAINER`
fn size(run: &mut Run, alloc: Global, words: &[&str]) -> Result<String, WordFault>
    requires stands { Stands (states run.old.store) run.old.scope }
    requires owned { AllOwned (heap (states run.old.store) run.old.scope) run.old.values.items }
    ensures stands { Stands (states run.new.store) run.new.scope }
    ensures owned { AllOwned (heap (states run.new.store) run.new.scope) run.new.values.items }
{
    let of = operand(run, alloc, words, 0)?;
    let answer = draft_map_set::size(&run.scope, &run.store, &of);
    Ok(said::count(alloc, answer)?)
}

/// `member_keys CONTAINER`
fn member_keys(run: &mut Run, alloc: Global, words: &[&str]) -> Result<String, WordFault>
    requires stands { Stands (states run.old.store) run.old.scope }
    requires owned { AllOwned (heap (states run.old.store) run.old.scope) run.old.values.items }
    ensures stands { Stands (states run.new.store) run.new.scope }
    ensures owned { AllOwned (heap (states run.new.store) run.new.scope) run.new.values.items }
{
    let of = operand(run, alloc, words, 0)?;
    let answer = draft_map_set::member_keys(alloc, &mut run.scope, &run.store, &of);
    Ok(run.keep(alloc, answer)?)
}

/// `new_map`
fn new_map(run: &mut Run, alloc: Global) -> Result<String, WordFault>
    requires stands { Stands (states run.old.store) run.old.scope }
    requires owned { AllOwned (heap (states run.old.store) run.old.scope) run.old.values.items }
    ensures stands { Stands (states run.new.store) run.new.scope }
    ensures owned { AllOwned (heap (states run.new.store) run.new.scope) run.new.values.items }
{
    let answer = draft_map_set::new_map(alloc, &mut run.scope)?;
    Ok(run.keep(alloc, Ok(answer))?)
}

/// `new_set`
fn new_set(run: &mut Run, alloc: Global) -> Result<String, WordFault>
    requires stands { Stands (states run.old.store) run.old.scope }
    requires owned { AllOwned (heap (states run.old.store) run.old.scope) run.old.values.items }
    ensures stands { Stands (states run.new.store) run.new.scope }
    ensures owned { AllOwned (heap (states run.new.store) run.new.scope) run.new.values.items }
{
    let answer = draft_map_set::new_set(alloc, &mut run.scope)?;
    Ok(run.keep(alloc, Ok(answer))?)
}
