//! Laws of the calls that write.
ghost use Rattle.std.specs.Prelude.{◌≡◌, ◌≢◌, ◌↔◌, ℕ, true, false, List, Option, Result, Ok, IsErr};
ghost use Rattle.value_model.specs.declared.key.Key.{Key as KeyModel};
ghost use Rattle.run_heap.specs.declared.fault.DraftFault.{DraftFault as Fault};
ghost use Rattle.run_heap.specs.declared.value.Rv.{Rv as Value};
ghost use Rattle.run_heap.specs.declared.value.Rv.TheVariants.{Undefined};
ghost use Rattle.run_heap.specs.Answers.{Does, Leaves};
ghost use Rattle.run_heap.specs.Heap.{Heap};
ghost use Rattle.run_heap.specs.Operations.{Rows, Edit, edited, rewrite, table_of, get, put_at, remove_at, splice_at, set_key, empty};
ghost use Rattle.run_heap.specs.Sound.{IsObject, IsSound};
ghost use Rattle.run_heap.specs.Values.{same, same_tables};
ghost use Rattle.draft_laws.specs.Written.{IsWritten};

/// Values are the same exactly where they are equal, and so are tables.
#[tactic(auto, using(crate::proofs::WriteLaws::same_values, crate::proofs::WriteLaws::same_rows))]
pub fn law_same()
    ensures values { (v w : Value) → (same v w ≡ true) ↔ (v ≡ w) }
    ensures tables { (t u : Rows) → (same_tables t u ≡ true) ↔ (t ≡ u) }
{}

/// A call that may be refused writes one object of the heap where it is accepted: the object is marked exactly where it was
/// marked before or its table differs now, and every other value shows what it did.
pub fn law_accepted_writes()
    ensures object { (e : Edit (Unit {0})) (h g : Heap) (of : Value) (vs : List Value) → IsSound h → edited e h of vs ≡ Ok (g, tt) → IsObject h of }
    ensures written { (e : Edit (Unit {0})) (h g : Heap) (of : Value) (vs : List Value) → edited e h of vs ≡ Ok (g, tt) → IsWritten of h g }
{}

/// A call whose conditions rule every refusal out writes one object in the same way, and leaves it the table that is said.
pub fn law_rewritten()
    ensures written { (f : Rows → Rows) (h : Heap) (of : Value) → IsObject h of → IsWritten of h (rewrite f h of) }
    ensures table { (f : Rows → Rows) (h : Heap) (of : Value) → IsSound h → IsObject h of → table_of (rewrite f h of) of ≡ f (table_of h of) }
{}

/// A call that was refused, or for which memory ran out, left the heap as it was.
pub fn law_refused()
    ensures does { (r : Result (Unit {0}) Fault) (old new : Heap) (said : Result (Heap × Unit {0}) Fault) → IsErr r → Does r old new said → new ≡ old }
    ensures leaves { (r : Result (Unit {0}) Fault) (old new said : Heap) → IsErr r → Leaves r old new said → new ≡ old }
{}

/// Each call that writes does so: `put` and `remove` where they are accepted, the others always.
pub fn law_calls_write()
    ensures put { (k : KeyModel) (v : Value) (h g : Heap) (of : Value) → put_at k v h of ≡ Ok (g, tt) → IsWritten of h g }
    ensures remove { (k : KeyModel) (h g : Heap) (of : Value) → remove_at k h of ≡ Ok (g, tt) → IsWritten of h g }
    ensures splice { (from to : ℕ) (items : List Value) (h : Heap) (of : Value) → IsObject h of → IsWritten of h (splice_at from to items h of) }
    ensures set_key { (k : KeyModel) (v : Option Value) (h : Heap) (of : Value) → IsObject h of → IsWritten of h (set_key k v h of) }
    ensures empty { (h : Heap) (of : Value) → IsObject h of → IsWritten of h (empty h of) }
{}

/// After `put` the key reads as the value, and every other key as it did.
pub fn law_put_reads()
    ensures here { (k : KeyModel) (v : Value) (h g : Heap) (of : Value) → put_at k v h of ≡ Ok (g, tt) → get k g of ≡ Ok v }
    ensures others { (j k : KeyModel) (v : Value) (h g : Heap) (of : Value) → put_at k v h of ≡ Ok (g, tt) → j ≢ k → get j g of ≡ get j h of }
{}

/// After `remove` the key reads as undefined, and every other key as it did.
pub fn law_remove_reads()
    ensures here { (k : KeyModel) (h g : Heap) (of : Value) → remove_at k h of ≡ Ok (g, tt) → get k g of ≡ Ok Undefined }
    ensures others { (j k : KeyModel) (h g : Heap) (of : Value) → remove_at k h of ≡ Ok (g, tt) → j ≢ k → get j g of ≡ get j h of }
{}
