//! Laws of the calls that read, and of the paths of drafts.
ghost use Rattle.std.specs.Prelude.{◌≡◌, ◌↔◌, ◌<◌, ℕ, true, false, List, Some, Ok, IsSome, IsSomeAnd};
ghost use Rattle.value_model.specs.declared.key.Key.{Key as KeyModel};
ghost use Rattle.numbered.specs.Store.{IsNumber, tree_at};
ghost use Rattle.numbered.specs.Tree.{Tree, number, place};
ghost use Rattle.run_heap.specs.declared.value.Rv.{Rv as Value};
ghost use Rattle.run_heap.specs.declared.value.Rv.TheVariants.{Frozen};
ghost use Rattle.run_heap.specs.Heap.{Heap, shown, is_draft};
ghost use Rattle.run_heap.specs.Operations.{any_written, entry_at, keys, marked, original, slot_of, source, table_of};
ghost use Rattle.run_heap.specs.Places.{place_of};
ghost use Rattle.run_heap.specs.Sound.{IsSound, Grows};
ghost use Rattle.run_heap.specs.Values.{same};
ghost use Rattle.draft_laws.specs.Walks.{opening_state, subtree_at, frozen_value, read_along, IsNoObject, AllPrimitive, IsNode, IsPathOfDraft};

/// What is read below a frozen node, by any number of steps, is what stands there in the state, and no object: it is frozen, a
/// primitive or nothing.
#[tactic(auto, using(crate::proofs::ReadLaws::frozen_state, crate::proofs::ReadLaws::frozen_along, crate::proofs::ReadLaws::frozen_entry))]
pub fn law_frozen_reads()
    ensures state { (ks : List KeyModel) (h : Heap) (id : ℕ) (v : Value) → IsSound h → IsNumber h.states id → read_along ks h (Frozen id) ≡ Ok v → v ≡ frozen_value (subtree_at ks (tree_at h.states id)) }
    ensures read { (ks : List KeyModel) (h : Heap) (id : ℕ) (v : Value) → read_along ks h (Frozen id) ≡ Ok v → IsNoObject v }
    ensures entries { (h : Heap) (id i : ℕ) (v : Value) → entry_at h (Frozen id) i ≡ Some v → IsNoObject v }
{}

/// A frozen node shows in every later heap of the scope what it showed before, and is never marked.
pub fn law_frozen_stays()
    ensures shown { (g h : Heap) (id : ℕ) → Grows g h → shown h (Frozen id) ≡ shown g (Frozen id) }
    ensures mark { (h : Heap) (id : ℕ) → marked h (Frozen id) ≡ false }
{}

/// `keys` answers a list of primitives and leaves every object as it was; it sets no mark.
#[tactic(auto, using(crate::proofs::ReadLaws::keys_list))]
pub fn law_keys()
    ensures objects { (h g : Heap) (of v : Value) (n : ℕ) → keys h of ≡ Ok (g, v) → n < h.next → g.object n ≡ h.object n }
    ensures list { (h g : Heap) (of v : Value) → keys h of ≡ Ok (g, v) → AllPrimitive (table_of g v) }
    ensures mark { (h g : Heap) (of v : Value) → keys h of ≡ Ok (g, v) → marked g v ≡ false }
    ensures drafts { (h g : Heap) (of v : Value) → IsSound h → keys h of ≡ Ok (g, v) → any_written g ≡ any_written h }
{}

/// The path of a draft leads in the opening state to the container that the draft was opened on: the place that the draft is
/// named after, which `original` answers and which stays the draft's source.
#[tactic(auto, using(crate::proofs::PathLaws::path_place, crate::proofs::PathLaws::path_original, crate::proofs::PathLaws::path_source))]
pub fn law_path_leads()
    ensures place { (h : Heap) (v : Value) (path : List KeyModel) → IsSound h → place_of h v ≡ Some path → IsSomeAnd (subtree_at path (opening_state h)) (λ t. place (slot_of v) (opening_state h) ≡ Some t) }
    ensures original { (h : Heap) (v : Value) (path : List KeyModel) → IsSound h → place_of h v ≡ Some path → IsSomeAnd (subtree_at path (opening_state h)) (λ t. original h v ≡ Ok (Frozen (number t))) }
    ensures source { (h : Heap) (v : Value) (path : List KeyModel) → IsSound h → place_of h v ≡ Some path → IsSomeAnd (subtree_at path (opening_state h)) (λ t. source h v ≡ Some (number t)) }
{}

/// Exactly the drafts have paths, and two drafts of one heap with one path are the same draft.
#[tactic(auto, using(crate::proofs::PathLaws::one_path))]
pub fn law_one_path()
    ensures drafts { (h : Heap) (v : Value) → IsSome (place_of h v) ↔ (is_draft h v ≡ true) }
    ensures apart { (h : Heap) (v w : Value) (path : List KeyModel) → IsSound h → place_of h v ≡ Some path → place_of h w ≡ Some path → same v w ≡ true }
{}

/// Each container in the opening state has a draft: where a path leads to a container, it is the path of some draft.
pub fn law_each_container()
    ensures { (h : Heap) (path : List KeyModel) (t : Tree) → IsSound h → subtree_at path (opening_state h) ≡ Some t → IsNode t → IsPathOfDraft h path }
{}
