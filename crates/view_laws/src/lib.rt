//! The law of views: a view that is brought up to date is the view from scratch of the new state. Definitions, and the law as the
//! contract of functions that do nothing.
#![tactic(auto)]

ghost use Rattle.std.specs.Prelude.{◌≡◌, ◌≤◌, ◌^◌, IsTrue, List, None};
ghost use Rattle.value_model.specs.Limits.{value_limit};
ghost use Rattle.value_model.specs.Places.{at};
ghost use Rattle.value_model.specs.Plain.{Entries, Plain, Table, node};
ghost use Rattle.value_model.specs.declared.key.Key.{Key};
ghost use Rattle.value_model.specs.declared.kind.Kind.TheVariants as kind;
ghost use Rattle.values.specs.declared.patch.Patch.{Patch};
ghost use Rattle.guards_views_spec.specs.Views.{scratch, total, updated, weights_of};
ghost use Rattle.guards_views_spec.specs.declared.Weigh.{Weigh};
ghost use Rattle.host_machine.specs.Differences.{differences};
ghost use Rattle.view_laws.specs.InPlace.{are_in_place};
ghost use Rattle.view_laws.specs.Standing.{standing};
ghost use Rattle.view_laws.specs.Step.{Step};

/// The view of the old state, brought up to date with the entries that the patches touch as they stand in the new one, is the view
/// from scratch of the new state: entry by entry, and so is its sum.
pub fn law_views()
    ensures weights { (path : List Key) (w : Weigh) (patches : List Patch) (old new : Plain) (keys : List Key) → Step path patches old new keys → updated w (standing path new keys) (weights_of w (at path old)) ≡ weights_of w (at path new) }
    ensures sum { (path : List Key) (w : Weigh) (patches : List Patch) (old new : Plain) (keys : List Key) → Step path patches old new keys → total (updated w (standing path new keys) (weights_of w (at path old))) ≡ scratch path w new }
{}

/// The patches that the host makes of a flat state, from one table of its entries to another, are in place at every object.
pub fn law_host_patches()
    ensures { (old new : Table) (es : Entries) → IsTrue (are_in_place (differences old new) (node kind.Obj es)) }
{}

/// What a view adds up to is at most 2^20 in every state within the limits.
pub fn law_small()
    ensures { (path : List Key) (w : Weigh) (v : Plain) → value_limit v ≡ None → scratch path w v ≤ 2 ^ 20 }
{}
