//! Laws of the spellings, each the contract of a function that does nothing.
ghost use Rattle.std.specs.Prelude.{◌≡◌, ◌≤◌, ◌++◌, ℕ, List, [], length, take};
ghost use Rattle.value_model.specs.Plain.{Plain};
ghost use Rattle.values.specs.declared.patch.Patch.{Patch as PatchModel};
ghost use Rattle.byteorder.specs.Endian.{big_number, big_bytes};
ghost use Rattle.value_bytes_spec.specs.Numbers.{IsBytes};
ghost use Rattle.value_bytes_spec.specs.Spelling.{value_bytes, patches_bytes, IsValue, IsPatches};

/// No value's spelling is a proper prefix of another value's, and no patch list's of another patch list's.
pub fn law_no_prefix()
    ensures values { (v w : Plain) (rest : List ℕ) → IsValue v → IsValue w → value_bytes w ≡ value_bytes v ++ rest → (v ≡ w) × (rest ≡ []) }
    ensures patches { (p q : List PatchModel) (rest : List ℕ) → IsPatches p → IsPatches q → patches_bytes q ≡ patches_bytes p ++ rest → (p ≡ q) × (rest ≡ []) }
{}

/// Bytes that begin with two spellings begin with one, and go on alike.
pub fn law_one_front()
    ensures values { (v w : Plain) (more rest : List ℕ) → IsValue v → IsValue w → value_bytes v ++ more ≡ value_bytes w ++ rest → (v ≡ w) × (more ≡ rest) }
    ensures patches { (p q : List PatchModel) (more rest : List ℕ) → IsPatches p → IsPatches q → patches_bytes p ++ more ≡ patches_bytes q ++ rest → (p ≡ q) × (more ≡ rest) }
{}

/// The bytes of a number that was read from bytes are those bytes, at every width.
pub fn law_bytes_of_number()
    ensures { (n : ℕ) (xs : List ℕ) → IsBytes xs → n ≤ length xs → big_bytes n (big_number n xs) ≡ take n xs }
{}
