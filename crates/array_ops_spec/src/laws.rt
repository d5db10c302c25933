//! Laws of the calls on lists.
ghost use Rattle.std.specs.Prelude.{ℤ, List, [], ◌∷◌, Option};
ghost use Rattle.run_heap.specs.Foreign.{Revokes};
ghost use Rattle.run_heap.specs.Heap.{Heap};
ghost use Rattle.run_heap.specs.declared.value.Rv.{Rv as Value};
ghost use Rattle.array_ops_spec.specs.Calls as spec;

/// A call on a list is refused as `Revoked` exactly where the list, or a value among the arguments, is a reference of another
/// scope.
pub fn law_revoked_lists()
    ensures push { (vs : List Value) (h : Heap) (of : Value) → Revokes h (of ∷ vs) (spec.push vs h of) }
    ensures unshift { (vs : List Value) (h : Heap) (of : Value) → Revokes h (of ∷ vs) (spec.unshift vs h of) }
    ensures pop { (h : Heap) (of : Value) → Revokes h (of ∷ []) (spec.pop h of) }
    ensures shift { (h : Heap) (of : Value) → Revokes h (of ∷ []) (spec.shift h of) }
    ensures splice { (start : ℤ) (count : Option ℤ) (vs : List Value) (h : Heap) (of : Value) → Revokes h (of ∷ vs) (spec.splice start count vs h of) }
    ensures reverse { (h : Heap) (of : Value) → Revokes h (of ∷ []) (spec.reverse h of) }
    ensures set_length { (n : ℤ) (h : Heap) (of : Value) → Revokes h (of ∷ []) (spec.set_length n h of) }
    ensures slice { (start : ℤ) (end : Option ℤ) (h : Heap) (of : Value) → Revokes h (of ∷ []) (spec.slice start end h of) }
    ensures index_of { (v : Value) (h : Heap) (of : Value) → Revokes h (of ∷ v ∷ []) (spec.index_of v h of) }
    ensures includes { (v : Value) (h : Heap) (of : Value) → Revokes h (of ∷ v ∷ []) (spec.includes v h of) }
{}
