//! The host machine on a flat state: what a host does, on plain deep copies. Definitions, and the laws of its patches.
#![tactic(auto)]

ghost use Rattle.std.specs.Prelude.{◌≡◌, List, option_map};
ghost use Rattle.value_model.specs.Places.{at};
ghost use Rattle.value_model.specs.declared.key.Key.{Key};
ghost use Rattle.numbered.specs.Tree.{Tree, plain};
ghost use Rattle.host_machine.specs.Paths.{subtree_at};

/// A path leads in a numbered state where it leads in the plain value: a number is there for each value that is.
#[tactic(auto, using(crate::proofs::PathLaws::at_plain))]
pub fn law_paths()
    ensures { (path : List Key) (t : Tree) → at path (plain t) ≡ option_map plain (subtree_at path t) }
{}
