//! The numbers of a run's end: which containers of its result tree keep the numbers that they had, and which get new ones.
//! Definitions, and laws, each the contract of a public function.
//!
//! The definitions stand in `specs/`: `Numbering` (the numbering as one fold, the new states in the order of their numbers, when
//! there is no room for them), `Shared` (one object, one state), `Ending` (what holds of a run that ends), `Examples` (worked
//! rows).
#![tactic(auto)]

ghost use Rattle.std.specs.Prelude.{◌≡◌, ◌<◌, ◌++◌, ℕ, List, length, Some, false};
ghost use Rattle.std.specs.FinMap.Entries.{find};
ghost use Rattle.std.specs.Ordering.{nat_cmp};
ghost use Rattle.value_model.specs.declared.kind.Kind.{Kind as KindModel};
ghost use Rattle.numbered.specs.Store.{IsStore, IsOf, tree_at};
ghost use Rattle.numbered.specs.Tree.{Tree, plain, number, containers};
ghost use Rattle.run_heap.specs.declared.value.Rv.{Rv as Value};
ghost use Rattle.run_heap.specs.declared.value.Rv.TheVariants.{Obj};
ghost use Rattle.run_heap.specs.Heap.{Heap};
ghost use Rattle.run_heap.specs.Operations.{source_in};
ghost use Rattle.run_heap.specs.Sound.{IsSound};
ghost use Rattle.result_trees.specs.Final.{Final, Finals, object, plain_of, read_value};
ghost use Rattle.result_trees.specs.Written.{is_written, any_marked, CopiesStand};
ghost use Rattle.new_numbers.specs.Ending.{Ends};
ghost use Rattle.new_numbers.specs.Numbering.{Given, new_state, new_states, nothing, numbered};
ghost use Rattle.new_numbers.specs.Shared.{Agrees};

/// One object has one state, and so one number: wherever an object of a result tree stands, the numbered state has there the state
/// of the number that the object keeps, or the one that was noted for its name.
#[tactic(auto, using(crate::proofs::SharedLaws::one_state))]
pub fn law_one_state()
    ensures { (ts : List Tree) (h : Heap) (levels : ℕ) (v : Value) (f : Final) → read_value levels h v ≡ Some f → Agrees h (numbered ts h f nothing).1 f (numbered ts h f nothing).0 }
{}

/// Two objects never share a new number, and a new number is none of the store's.
pub fn law_own_numbers()
    ensures apart { (ts : List Tree) (h : Heap) (f : Final) (m n : ℕ) (t u : Tree) → find nat_cmp m (numbered ts h f nothing).1.done ≡ Some t → find nat_cmp n (numbered ts h f nothing).1.done ≡ Some u → number t ≡ number u → m ≡ n }
    ensures new { (ts : List Tree) (h : Heap) (f : Final) (n : ℕ) (t : Tree) → find nat_cmp n (numbered ts h f nothing).1.done ≡ Some t → length ts < number t }
{}

/// An object with a source that leads to no written object keeps its source's state, with its number and the numbers in it: no
/// number is given for it. So it is where no name of its places is marked.
#[tactic(auto, using(crate::proofs::SharingLaws::unwritten_kept, crate::proofs::SharingLaws::unmarked_kept, crate::proofs::SharingLaws::source_is_number))]
pub fn law_sharing()
    ensures unwritten { (ts : List Tree) (h : Heap) (n id : ℕ) (of : KindModel) (es : Finals) (g : Given) → source_in (h.object n) ≡ Some id → is_written h (object n of es) ≡ false → numbered ts h (object n of es) g ≡ (tree_at h.states id, g) }
    ensures unmarked { (ts : List Tree) (h : Heap) (levels n id : ℕ) (f : Final) (g : Given) → IsSound h → CopiesStand h → source_in (h.object n) ≡ Some id → read_value levels h (Obj (record { scope = h.scope; slot = n })) ≡ Some f → any_marked h n (containers (tree_at h.states id)) ≡ false → numbered ts h f g ≡ (tree_at h.states id, g) }
    ensures number { (h : Heap) (n id : ℕ) → IsSound h → source_in (h.object n) ≡ Some id → number (tree_at h.states id) ≡ id }
{}

/// The new state of a run is a state of the store with the new states added, and its plain value is what the result is read as.
#[tactic(auto, using(crate::proofs::EndLaws::end_value, crate::proofs::EndLaws::end_store, crate::proofs::EndLaws::end_of_store))]
pub fn law_new_state()
    ensures value { (ts : List Tree) (h : Heap) (v : Value) (f : Final) → Ends ts h v f → plain (new_state ts h f) ≡ plain_of f }
    ensures store { (ts : List Tree) (h : Heap) (v : Value) (f : Final) → Ends ts h v f → IsStore (ts ++ new_states ts h f) }
    ensures state { (ts : List Tree) (h : Heap) (v : Value) (f : Final) → Ends ts h v f → IsOf (ts ++ new_states ts h f) (new_state ts h f) }
{}
