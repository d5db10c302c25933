//! The result tree of a run: what its result is read as, each container with the name of the object or as the frozen state that
//! it was read from. Definitions, and laws, each the contract of a public function.
//!
//! The definitions stand in `specs/`: `Final` (result trees, how they are read, their plain values), `Cycles` (objects that are
//! reached from themselves), `Written` (which objects lead to a written one, and which keep their numbers), `Examples` (worked
//! rows).
#![tactic(auto)]

ghost use Rattle.std.specs.Prelude.{◌≡◌, ◌↔◌, ◌≤◌, ◌^◌, ℕ, List, Some, None, false};
ghost use Rattle.value_model.specs.Limits.{value_limit};
ghost use Rattle.value_model.specs.Plain.{depth, weight};
ghost use Rattle.numbered.specs.Store.{tree_at};
ghost use Rattle.numbered.specs.Tree.{Tree, plain, containers};
ghost use Rattle.run_heap.specs.declared.content.Content.{Content as ContentModel};
ghost use Rattle.run_heap.specs.declared.value.Rv.{Rv as Value};
ghost use Rattle.run_heap.specs.declared.value.Rv.TheVariants.{Obj};
ghost use Rattle.run_heap.specs.Heap.{Heap, opened, rewritten, update, with_objects};
ghost use Rattle.run_heap.specs.Operations.{Rows, source_in};
ghost use Rattle.run_heap.specs.Sound.{IsSound, IsStored};
ghost use Rattle.result_trees.specs.Cycles.{HasCycle};
ghost use Rattle.result_trees.specs.Final.{Final, plain_of, read_value, final, returned};
ghost use Rattle.result_trees.specs.Written.{is_written, any_marked, AllWithoutSource, CopiesStand};

/// There is no result tree exactly where an object that the result leads to is reached from itself.
#[tactic(auto, using(crate::proofs::CycleLaws::no_tree))]
pub fn law_cycles()
    ensures { (h : Heap) (v : Value) → IsSound h → IsStored h (returned h v) → (final h v ≡ None) ↔ HasCycle h (returned h v) }
{}

/// An object with a source leads to a written object exactly where one of the names from its own on, as many as that state has
/// containers, is that of a written object: no walk over untouched places is needed to tell.
#[tactic(auto, using(crate::proofs::WrittenLaws::written_by_names))]
pub fn law_written_objects()
    ensures { (h : Heap) (levels n id : ℕ) (f : Final) → IsSound h → CopiesStand h → source_in (h.object n) ≡ Some id → read_value levels h (Obj (record { scope = h.scope; slot = n })) ≡ Some f → is_written h f ≡ any_marked h n (containers (tree_at h.states id)) }
{}

/// An object with a source that leads to no written object shows the state of that number.
#[tactic(auto, using(crate::proofs::ShownLaws::unwritten_shown))]
pub fn law_unwritten_objects()
    ensures { (h : Heap) (levels n id : ℕ) (f : Final) → IsSound h → CopiesStand h → source_in (h.object n) ≡ Some id → read_value levels h (Obj (record { scope = h.scope; slot = n })) ≡ Some f → is_written h f ≡ false → plain_of f ≡ plain (tree_at h.states id) }
{}

/// A result within the limits of depth and weight is within all limits: a sound heap holds no key that a value may not have.
#[tactic(auto, using(crate::proofs::ShownLaws::within_limits))]
pub fn law_limits()
    ensures { (h : Heap) (v : Value) (f : Final) → IsSound h → IsStored h (returned h v) → final h v ≡ Some f → depth (plain_of f) ≤ 32 → weight (plain_of f) ≤ 2 ^ 20 → value_limit (plain_of f) ≡ None }
{}

/// That copies stand holds when a scope is begun, and each write and each literal keeps it.
#[tactic(auto, using(crate::proofs::CopyLaws::opened_copies, crate::proofs::CopyLaws::written_copies, crate::proofs::CopyLaws::literal_copies))]
pub fn law_copies_stand()
    ensures opened { (scope : ℕ) (ts : List Tree) (root : ℕ) → CopiesStand (opened scope ts root) }
    ensures written { (h : Heap) (n : ℕ) (t : Rows) (c : ContentModel) → CopiesStand h → h.object n ≡ Some c → CopiesStand (update n (rewritten t c) h) }
    ensures literals { (h : Heap) (cs : List ContentModel) → IsSound h → CopiesStand h → AllWithoutSource cs → CopiesStand (with_objects cs h) }
{}
