//! The calls on lists.
#![tactic(auto, using(draft_runs::proofs::Held::all_grow))]

ghost use Rattle.node_store.specs.Paged.{states};
ghost use Rattle.run_heap.specs.Sound.{AllOwned};
ghost use Rattle.draft_core.specs.Seen.{heap, Stands};

use crate::operands::{bound, number, operand, operands};
use crate::{members, said};
use draft_runs::{Run, WordFault};
use std::alloc::Global;

/// A call on a list by its word, or else on a Map or a Set.
pub(crate) fn answer(
    run: &mut Run,
    alloc: Global,
    word: &str,
    words: &[&str],
) -> Result<String, WordFault>
    requires stands { Stands (states run.old.store) run.old.scope }
    requires owned { AllOwned (heap (states run.old.store) run.old.scope) run.old.values.items }
    ensures stands { Stands (states run.new.store) run.new.scope }
    ensures owned { AllOwned (heap (states run.new.store) run.new.scope) run.new.values.items }
{
    match word {
        "push" => push(run, alloc, words),
        "unshift" => unshift(run, alloc, words),
        "pop" => pop(run, alloc, words),
        "shift" => shift(run, alloc, words),
        "splice" => splice(run, alloc, words),
        "slice" => slice(run, alloc, words),
        "reverse" => reverse(run, alloc, words),
        "index_of" => index_of(run, alloc, words),
        "includes" => includes(run, alloc, words),
        "set_length" => set_length(run, alloc, words),
        _ => members::answer(run, alloc, word, words),
    }
}

/// `push LIST ITEMS..`
fn push(run: &mut Run, alloc: Global, words: &[&str]) -> Result<String, WordFault>
    requires stands { Stands (states run.old.store) run.old.scope }
    requires owned { AllOwned (heap (states run.old.store) run.old.scope) run.old.values.items }
    ensures stands { Stands (states run.new.store) run.new.scope }
    ensures owned { AllOwned (heap (states run.new.store) run.new.scope) run.new.values.items }
{
    let of = operand(run, alloc, words, 0)?;
    let items = operands(run, alloc, words, 1)?;
    let answer = array_ops::push(alloc, &mut run.scope, &run.store, &of, &items);
    Ok(said::count(alloc, answer)?)
}

/// `unshift LIST ITEMS..`
fn unshift(run: &mut Run, alloc: Global, words: &[&str]) -> Result<String, WordFault>
    requires stands { Stands (states run.old.store) run.old.scope }
    requires owned { AllOwned (heap (states run.old.store) run.old.scope) run.old.values.items }
    ensures stands { Stands (states run.new.store) run.new.scope }
    ensures owned { AllOwned (heap (states run.new.store) run.new.scope) run.new.values.items }
{
    let of = operand(run, alloc, words, 0)?;
    let items = operands(run, alloc, words, 1)?;
    let answer = array_ops::unshift(alloc, &mut run.scope, &run.store, &of, &items);
    Ok(said::count(alloc, answer)?)
}

/// `pop LIST`
fn pop(run: &mut Run, alloc: Global, words: &[&str]) -> Result<String, WordFault>
    requires stands { Stands (states run.old.store) run.old.scope }
    requires owned { AllOwned (heap (states run.old.store) run.old.scope) run.old.values.items }
    ensures stands { Stands (states run.new.store) run.new.scope }
    ensures owned { AllOwned (heap (states run.new.store) run.new.scope) run.new.values.items }
{
    let of = operand(run, alloc, words, 0)?;
    let answer = array_ops::pop(alloc, &mut run.scope, &run.store, &of);
    Ok(run.keep(alloc, answer)?)
}

/// `shift LIST`
fn shift(run: &mut Run, alloc: Global, words: &[&str]) -> Result<String, WordFault>
    requires stands { Stands (states run.old.store) run.old.scope }
    requires owned { AllOwned (heap (states run.old.store) run.old.scope) run.old.values.items }
    ensures stands { Stands (states run.new.store) run.new.scope }
    ensures owned { AllOwned (heap (states run.new.store) run.new.scope) run.new.values.items }
{
    let of = operand(run, alloc, words, 0)?;
    let answer = array_ops::shift(alloc, &mut run.scope, &run.store, &of);
    Ok(run.keep(alloc, answer)?)
}

/// `splice LIST START COUNT ITEMS..`, where `-` is no count
fn splice(run: &mut Run, alloc: Global, words: &[&str]) -> Result<String, WordFault>
    requires stands { Stands (states run.old.store) run.old.scope }
    requires owned { AllOwned (heap (states run.old.store) run.old.scope) run.old.values.items }
    ensures stands { Stands (states run.new.store) run.new.scope }
    ensures owned { AllOwned (heap (states run.new.store) run.new.scope) run.new.values.items }
{
    let of = operand(run, alloc, words, 0)?;
    let start = number(words, 1)?;
    let count = bound(words, 2)?;
    let items = operands(run, alloc, words, 3)?;
    let answer = array_ops::splice(alloc, &mut run.scope, &run.store, &of, start, count, &items);
    Ok(run.keep(alloc, answer)?)
}

/// `slice LIST START END`, where `-` is no end
fn slice(run: &mut Run, alloc: Global, words: &[&str]) -> Result<String, WordFault>
    requires stands { Stands (states run.old.store) run.old.scope }
    requires owned { AllOwned (heap (states run.old.store) run.old.scope) run.old.values.items }
    ensures stands { Stands (states run.new.store) run.new.scope }
    ensures owned { AllOwned (heap (states run.new.store) run.new.scope) run.new.values.items }
{
    let of = operand(run, alloc, words, 0)?;
    let start = number(words, 1)?;
    let end = bound(words, 2)?;
    let answer = array_ops::slice(alloc, &mut run.scope, &run.store, &of, start, end);
    Ok(run.keep(alloc, answer)?)
}

/// `reverse LIST`
fn reverse(run: &mut Run, alloc: Global, words: &[&str]) -> Result<String, WordFault>
    requires stands { Stands (states run.old.store) run.old.scope }
    requires owned { AllOwned (heap (states run.old.store) run.old.scope) run.old.values.items }
    ensures stands { Stands (states run.new.store) run.new.scope }
    ensures owned { AllOwned (heap (states run.new.store) run.new.scope) run.new.values.items }
{
    let of = operand(run, alloc, words, 0)?;
    let answer = array_ops::reverse(alloc, &mut run.scope, &run.store, &of);
    Ok(said::done(alloc, answer)?)
}

/// `index_of LIST ITEM`
fn index_of(run: &mut Run, alloc: Global, words: &[&str]) -> Result<String, WordFault>
    requires stands { Stands (states run.old.store) run.old.scope }
    requires owned { AllOwned (heap (states run.old.store) run.old.scope) run.old.values.items }
    ensures stands { Stands (states run.new.store) run.new.scope }
    ensures owned { AllOwned (heap (states run.new.store) run.new.scope) run.new.values.items }
{
    let of = operand(run, alloc, words, 0)?;
    let item = operand(run, alloc, words, 1)?;
    let answer = array_ops::index_of(alloc, &mut run.scope, &run.store, &of, &item);
    Ok(said::index(alloc, answer)?)
}

/// `includes LIST ITEM`
fn includes(run: &mut Run, alloc: Global, words: &[&str]) -> Result<String, WordFault>
    requires stands { Stands (states run.old.store) run.old.scope }
    requires owned { AllOwned (heap (states run.old.store) run.old.scope) run.old.values.items }
    ensures stands { Stands (states run.new.store) run.new.scope }
    ensures owned { AllOwned (heap (states run.new.store) run.new.scope) run.new.values.items }
{
    let of = operand(run, alloc, words, 0)?;
    let item = operand(run, alloc, words, 1)?;
    let answer = array_ops::includes(alloc, &mut run.scope, &run.store, &of, &item);
    Ok(said::truth(alloc, answer)?)
}

/// `set_length LIST LENGTH`
fn set_length(run: &mut Run, alloc: Global, words: &[&str]) -> Result<String, WordFault>
    requires stands { Stands (states run.old.store) run.old.scope }
    requires owned { AllOwned (heap (states run.old.store) run.old.scope) run.old.values.items }
    ensures stands { Stands (states run.new.store) run.new.scope }
    ensures owned { AllOwned (heap (states run.new.store) run.new.scope) run.new.values.items }
{
    let of = operand(run, alloc, words, 0)?;
    let n = number(words, 1)?;
    let answer = array_ops::set_length(alloc, &mut run.scope, &run.store, &of, n);
    Ok(said::done(alloc, answer)?)
}
