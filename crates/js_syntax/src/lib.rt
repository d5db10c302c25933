//! The program that the tokens of a script spell.
#![tactic(auto)]

ghost use Rattle.std.specs.Prelude.{◌≡◌, ◌≢◌, IfOk, IfErr, MatchResult};
ghost use Rattle.script_grammar.specs.Sources.{Spells};
ghost use Rattle.script_grammar.specs.Trees.{Program};
ghost use Rattle.script_tree.specs.View.{program_of};
ghost use Rattle.js_syntax.specs.Faults.{IsCause};
ghost use Rattle.js_syntax.specs.declared.fault.SyntaxFault.{SyntaxFault};
ghost use Rattle.js_syntax.specs.declared.fault.SyntaxFault.TheVariants as fault;

mod fault;
mod level;
mod program;
mod stmt;

pub use fault::SyntaxFault;
use js_expr::Source;
use js_lex::Tokens;
use level::Level;
use script_tree::Reducer;
use sqlite_items::Items;
use std::alloc::Global;

/// How many levels of nesting a program may have.
const LEVELS: usize = 64;

/// The reducers of the program that these tokens of the source spell, exactly where they spell one. Otherwise
/// `Unexpected` at the first token with which they begin no program, or `TooNested` at the first that opens a level
/// beyond the 64th, whichever token stands first. `Memory` may be answered in place of each of these.
///
/// The source is what the tokens were cut from. A name, an integer or a text is read from the bytes between its
/// token's places, so other bytes there are another program.
#[tactic(auto, using(crate::proofs::Reducers::only_this, crate::proofs::Reducers::only_memory, crate::proofs::Reducers::caused, crate::proofs::Reducers::fault_none, crate::proofs::Reducers::fault_same))]
pub fn read_program(
    alloc: Global,
    source: &[u8],
    tokens: &Tokens,
) -> Result<Items<Reducer>, SyntaxFault>
    ensures spells { IfOk result (λ rs. Spells source.now tokens.now (program_of rs)) }
    ensures only { (p : Program) → Spells source.now tokens.now p → MatchResult result (λ rs. program_of rs ≡ p) (λ f. f ≡ fault.Memory) }
    ensures fault { IfErr result (λ f. IsCause source.now tokens.now f) }
    ensures no_other { (f : SyntaxFault) → f ≢ fault.Memory → IsCause source.now tokens.now f → MatchResult result (λ rs. ⊥) (λ g. g ≢ fault.Memory → g ≡ f) }
{
    let level = Level {
        alloc,
        source: Source {
            bytes: source,
            tokens: tokens.as_slice(),
        },
        depth: LEVELS,
    };
    match level.reducers() {
        Ok(reducers) => Ok(reducers),
        Err(stop) => Err(level.fault(stop)),
    }
}
