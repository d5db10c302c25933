//! The home places of a run's end: where the draft of a place stands at that place in the result. Definitions, and laws, each the
//! contract of a public function.
//!
//! The definitions stand in `specs/`: `Homes` (home places whose number differs from the old one, as a test and as a list), `Paths`
//! (lists of paths, their order, places that lead to containers of one kind), `Examples` (worked rows).
#![tactic(auto)]

ghost use Rattle.std.specs.Prelude.{◌≡◌, List, []};
ghost use Rattle.value_model.specs.declared.key.Key.{Key as KeyModel};
ghost use Rattle.numbered.specs.Store.{tree_at};
ghost use Rattle.numbered.specs.Tree.{Tree};
ghost use Rattle.run_heap.specs.declared.value.Rv.{Rv as Value};
ghost use Rattle.run_heap.specs.Heap.{Heap};
ghost use Rattle.result_trees.specs.Final.{Final};
ghost use Rattle.new_numbers.specs.Ending.{Ends};
ghost use Rattle.new_numbers.specs.Numbering.{new_state};
ghost use Rattle.home_places.specs.Homes.{changed_homes, homes};
ghost use Rattle.home_places.specs.Paths.{among, AreAscending, AreHomes};

/// The list of home places holds every home place whose number differs from the old one, and no other place; it ascends; and each
/// leads in the opening state and in the new one to containers of one kind.
pub fn law_home_places()
    ensures listed { (ts : List Tree) (h : Heap) (v : Value) (f : Final) (path : List KeyModel) → Ends ts h v f → among (homes h [] f (new_state ts h f)) path ≡ changed_homes h f (new_state ts h f) path }
    ensures ascending { (ts : List Tree) (h : Heap) (v : Value) (f : Final) → Ends ts h v f → AreAscending (homes h [] f (new_state ts h f)) }
    ensures kinds { (ts : List Tree) (h : Heap) (v : Value) (f : Final) → Ends ts h v f → AreHomes (among (homes h [] f (new_state ts h f))) (tree_at h.states h.root) (new_state ts h f) }
{}
