//! Laws of the definitions, each the contract of a function that does nothing.
ghost use Rattle.std.specs.Prelude.{◌≡◌, ◌≢◌, List, IsTrue, Some, None};
ghost use Rattle.std.proofs.Common.{Equal};
ghost use Rattle.std.specs.FinMap.Entries.{find, put, is_sorted};
ghost use Rattle.value_model.specs.Order.{key_cmp};
ghost use Rattle.value_model.specs.Places.{without_key};
ghost use Rattle.value_model.specs.Plain.{Plain};
ghost use Rattle.value_model.specs.declared.key.Key.{Key as KeyModel};

/// Two keys that compare as equal are the same key.
pub fn law_keys_are_told_apart()
    ensures { (j k : KeyModel) → key_cmp j k ≡ Equal → j ≡ k }
{}

/// Two tables with the same value at every key are the same.
pub fn law_same_entries()
    ensures { (ds es : List (KeyModel × Plain)) → IsTrue (is_sorted key_cmp ds) → IsTrue (is_sorted key_cmp es) → ((k : KeyModel) → find key_cmp k ds ≡ find key_cmp k es) → ds ≡ es }
{}

/// After a key is set, it has the value, and every other key has what it had.
pub fn law_set_key()
    ensures here { (k : KeyModel) (w : Plain) (es : List (KeyModel × Plain)) → find key_cmp k (put key_cmp k w es) ≡ Some w }
    ensures others { (j k : KeyModel) (w : Plain) (es : List (KeyModel × Plain)) → j ≢ k → find key_cmp j (put key_cmp k w es) ≡ find key_cmp j es }
{}

/// After a key is removed, nothing is there, and every other key has what it had.
pub fn law_unset_key()
    ensures here { (k : KeyModel) (es : List (KeyModel × Plain)) → find key_cmp k (without_key k es) ≡ None }
    ensures others { (j k : KeyModel) (es : List (KeyModel × Plain)) → j ≢ k → find key_cmp j (without_key k es) ≡ find key_cmp j es }
{}
