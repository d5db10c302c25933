//! Laws of the calls on Maps and Sets.
ghost use Rattle.std.specs.Prelude.{[], ◌∷◌};
ghost use Rattle.run_heap.specs.Foreign.{Revokes};
ghost use Rattle.run_heap.specs.Heap.{Heap};
ghost use Rattle.run_heap.specs.declared.value.Rv.{Rv as Value};
ghost use Rattle.draft_map_set_spec.specs.MapSet as spec;

/// A call on a Map or a Set is refused as `Revoked` exactly where the Map or the Set, a key, a member or a value among the
/// arguments is a reference of another scope.
pub fn law_revoked_members()
    ensures map_get { (k : Value) (h : Heap) (of : Value) → Revokes h (of ∷ k ∷ []) (spec.map_get k h of) }
    ensures map_has { (k : Value) (h : Heap) (of : Value) → Revokes h (of ∷ k ∷ []) (spec.map_has k h of) }
    ensures map_set { (k v : Value) (h : Heap) (of : Value) → Revokes h (of ∷ k ∷ v ∷ []) (spec.map_set k v h of) }
    ensures map_delete { (k : Value) (h : Heap) (of : Value) → Revokes h (of ∷ k ∷ []) (spec.map_delete k h of) }
    ensures map_clear { (h : Heap) (of : Value) → Revokes h (of ∷ []) (spec.map_clear h of) }
    ensures set_has { (k : Value) (h : Heap) (of : Value) → Revokes h (of ∷ k ∷ []) (spec.set_has k h of) }
    ensures set_add { (k : Value) (h : Heap) (of : Value) → Revokes h (of ∷ k ∷ []) (spec.set_add k h of) }
    ensures set_delete { (k : Value) (h : Heap) (of : Value) → Revokes h (of ∷ k ∷ []) (spec.set_delete k h of) }
    ensures set_clear { (h : Heap) (of : Value) → Revokes h (of ∷ []) (spec.set_clear h of) }
    ensures size { (h : Heap) (of : Value) → Revokes h (of ∷ []) (spec.size h of) }
    ensures member_keys { (h : Heap) (of : Value) → Revokes h (of ∷ []) (spec.member_keys h of) }
{}
