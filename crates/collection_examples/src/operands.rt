//! The operands of a call.
ghost use Rattle.node_store.specs.Paged.{states};
ghost use Rattle.std.specs.Prelude.{IfOk};
ghost use Rattle.run_heap.specs.Sound.{AllOwned, Owned};
ghost use Rattle.draft_core.specs.Seen.{heap};

use draft_core::Rv;
use draft_runs::{Run, WordFault, operand_of};
use std::alloc::Global;

/// The value of the i-th word, `Unexpected` where there is none.
pub(crate) fn operand(run: &Run, alloc: Global, words: &[&str], i: usize) -> Result<Rv, WordFault>
    requires { AllOwned (heap (states run.now.store) run.now.scope) run.now.values.items }
    ensures { IfOk result (λ v. Owned (heap (states run.now.store) run.now.scope) v) }
{
    let operand = operand_of(alloc, word(words, i)?)?;
    Ok(run.value(alloc, &operand)?)
}

/// The values of the words from the i-th on.
#[tactic(auto, using(draft_runs::proofs::Held::owned_more))]
pub(crate) fn operands(
    run: &Run,
    alloc: Global,
    words: &[&str],
    from: usize,
) -> Result<Vec<Rv>, WordFault>
    requires { AllOwned (heap (states run.now.store) run.now.scope) run.now.values.items }
    ensures { IfOk result (λ vs. AllOwned (heap (states run.now.store) run.now.scope) vs.items) }
{
    let mut out = Vec::new(alloc);
    for i in from..words.len() {
        out.push(operand(run, alloc, words, i)?)?;
    }
    Ok(out)
}

/// The i-th word, `Unexpected` where there is none.
pub(crate) fn word<'a>(words: &[&'a str], i: usize) -> Result<&'a str, WordFault> {
    if i < words.len() {
        Ok(words[i])
    } else {
        Err(WordFault::Unexpected)
    }
}

/// The number that the i-th word is.
pub(crate) fn number(words: &[&str], i: usize) -> Result<i64, WordFault> {
    match word(words, i)?.parse::<i64>() {
        Ok(n) => Ok(n),
        Err(_) => Err(WordFault::Unexpected),
    }
}

/// The number that the i-th word is, None where it is `-`.
pub(crate) fn bound(words: &[&str], i: usize) -> Result<Option<i64>, WordFault> {
    if word(words, i)? == "-" {
        Ok(None)
    } else {
        Ok(Some(number(words, i)?))
    }
}
