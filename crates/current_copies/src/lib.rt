//! What `current` copies: fresh objects for what is read from a draft, and the numbers that they keep. Definitions, and laws, each
//! the contract of a public function.
//!
//! The definitions stand in `specs/`: `Copies` (the sources of a copy, its objects, its charge), `Examples` (worked rows).
#![tactic(auto)]

ghost use Rattle.std.specs.Prelude.{◌≡◌, ◌≤◌, ℕ, Some, IsSomeAnd};
ghost use Rattle.numbered.specs.Tree.{plain, containers};
ghost use Rattle.run_heap.specs.declared.value.Rv.{Rv as Value};
ghost use Rattle.run_heap.specs.Heap.{Heap};
ghost use Rattle.run_heap.specs.Sound.{IsSound, IsStored, Grows};
ghost use Rattle.result_trees.specs.Final.{Final, plain_of, read_value, final, returned};
ghost use Rattle.result_trees.specs.Written.{CopiesStand};
ghost use Rattle.current_copies.specs.Copies.{sources, with_copy, copy_root};

/// A copy of what is read from a value leaves the heap sound, every object that there was as it was, and the copies standing: each
/// object of the copy that has a source is as that state until it is written.
#[tactic(auto, using(crate::proofs::ShownLaws::sound_after, crate::proofs::ShownLaws::grows_after, crate::proofs::ShownLaws::copies_after))]
pub fn law_copy_leaves()
    ensures sound { (h : Heap) (v : Value) (f : Final) → IsSound h → CopiesStand h → IsStored h (returned h v) → final h v ≡ Some f → IsSound (with_copy (sources h f) h) }
    ensures grows { (h : Heap) (v : Value) (f : Final) → IsSound h → CopiesStand h → IsStored h (returned h v) → final h v ≡ Some f → Grows h (with_copy (sources h f) h) }
    ensures copies { (h : Heap) (v : Value) (f : Final) → IsSound h → CopiesStand h → IsStored h (returned h v) → final h v ≡ Some f → CopiesStand (with_copy (sources h f) h) }
{}

/// What stands for the copy is read as what was copied.
pub fn law_copy_reads()
    ensures { (h : Heap) (v : Value) (f : Final) (levels : ℕ) → IsSound h → CopiesStand h → IsStored h (returned h v) → final h v ≡ Some f → containers (sources h f) ≤ levels → IsSomeAnd (read_value levels (with_copy (sources h f) h) (copy_root (sources h f) h)) (λ g. plain_of g ≡ plain_of f) }
{}
