//! What calls on the objects of one run answer. Each line of the input is a call, a word and operands with a space between, and
//! is answered by one line; a line that begins with `#` is a remark.
//!
//! `state JSON` begins a run on a state, `twice` one on a list that holds one empty object twice. `$3` is the answer with the
//! number 3, where `$0` is the root and each value that a call answers has the next number; other operands are `undefined`, a
//! primitive or a key as JSON, or an index. A space within a text is written `\u0020`.
#![tactic(auto)]

ghost use Rattle.node_store.specs.Paged.{states};
ghost use Rattle.run_heap.specs.Sound.{AllOwned};
ghost use Rattle.draft_core.specs.Seen.{heap, Stands};

use draft_runs::Run;
use std::alloc::Global;
use std::io::{BufRead, BufReader};

mod fresh;
mod looks;
mod operands;
mod reads;
mod writes;

/// Makes the call that a line is, and says what it answers.
fn answer(alloc: Global, run: &mut Run, line: &str) -> anyhow::Result<String>
    requires stands { Stands (states run.old.store) run.old.scope }
    requires owned { AllOwned (heap (states run.old.store) run.old.scope) run.old.values.items }
    ensures stands { Stands (states run.new.store) run.new.scope }
    ensures owned { AllOwned (heap (states run.new.store) run.new.scope) run.new.values.items }
{
    let (word, text) = line.split_once(' ').unwrap_or((line, ""));
    reads::answer(alloc, run, word, text)
}

fn main(rt: HostRuntime) -> anyhow::Result<()> {
    let alloc = rt.alloc();
    let mut run = Run::of_twins(alloc)?;
    for line in BufReader::new(alloc, rt.reader())?.lines(alloc) {
        let line = line?;
        if !line.is_empty() && !line.starts_with('#') {
            println!(rt; "{}", answer(alloc, &mut run, line.as_str())?)?;
        }
    }
    Ok(())
}
