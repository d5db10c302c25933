//! The calls on lists, Maps and Sets, line by line. A line is a call's word and its operands, separated by spaces: `push $1 1 2`.
//! `$1` is the answer number 1 of the run that `state JSON` began, whose root is `$0`. What the call answers is printed, or the
//! refusal's name. A line that begins with `#` is a remark.
#![tactic(auto)]

ghost use Rattle.node_store.specs.Paged.{states};
ghost use Rattle.run_heap.specs.Sound.{AllOwned};
ghost use Rattle.draft_core.specs.Seen.{heap, Stands};

mod lists;
mod members;
mod objects;
mod operands;
mod said;
mod shown;

use draft_runs::{Run, WordFault};
use std::alloc::Global;

/// What a line is answered.
fn answer(run: &mut Run, alloc: Global, line: &str) -> Result<String, WordFault>
    requires stands { Stands (states run.old.store) run.old.scope }
    requires owned { AllOwned (heap (states run.old.store) run.old.scope) run.old.values.items }
    ensures stands { Stands (states run.new.store) run.new.scope }
    ensures owned { AllOwned (heap (states run.new.store) run.new.scope) run.new.values.items }
{
    match line.strip_prefix("state ") {
        Some(text) => {
            *run = Run::of_state(alloc, text)?;
            Ok(String::from_str(alloc, "begun")?)
        }
        None => call(run, alloc, line),
    }
}

/// What a call is answered.
fn call(run: &mut Run, alloc: Global, line: &str) -> Result<String, WordFault>
    requires stands { Stands (states run.old.store) run.old.scope }
    requires owned { AllOwned (heap (states run.old.store) run.old.scope) run.old.values.items }
    ensures stands { Stands (states run.new.store) run.new.scope }
    ensures owned { AllOwned (heap (states run.new.store) run.new.scope) run.new.values.items }
{
    let (word, words) = words_of(alloc, line)?;
    lists::answer(run, alloc, word, &words)
}

/// A line's first word, and the others.
fn words_of<'a>(alloc: Global, line: &'a str) -> Result<(&'a str, Vec<&'a str>), WordFault> {
    let mut words = line.split(' ');
    let Some(first) = words.next() else {
        return Err(WordFault::Unexpected);
    };
    let mut others = Vec::new(alloc);
    for word in words {
        others.push(word)?;
    }
    Ok((first, others))
}

fn main(rt: HostRuntime) -> anyhow::Result<()> {
    let alloc = rt.alloc();
    let mut run = Run::of_state(alloc, "{}")?;
    for line in rt.lines(alloc) {
        let line = line?;
        if !line.starts_with('#') {
            println!(rt; "{}", answer(&mut run, alloc, line.as_str())?)?;
        }
    }
    Ok(())
}
