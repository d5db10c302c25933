//! Laws of the definitions, each the contract of a function that does nothing.
ghost use Rattle.std.specs.Prelude.{◌≡◌, List, false};
ghost use Rattle.serde_json.specs.Written.{has_float};
ghost use Rattle.value_model.specs.Plain.{Plain};
ghost use Rattle.value_model.specs.declared.key.Key.{Key};
ghost use Rattle.values.specs.declared.patch.Patch.{Patch};
ghost use Rattle.value_json_spec.specs.Patches.{path_data, patches_data};
ghost use Rattle.value_json_spec.specs.Printing.{val_data};

/// What is printed has no float, so its text is `serde_json`'s compact one.
pub fn law_no_float()
    ensures value { (v : Plain) → has_float (val_data v) ≡ false }
    ensures path { (ks : List Key) → has_float (path_data ks) ≡ false }
    ensures patches { (ps : List Patch) → has_float (patches_data ps) ≡ false }
{}
