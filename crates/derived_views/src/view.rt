//! Views.
ghost use Rattle.std.specs.Prelude.{◌≡◌, ◌≤◌, ◌^◌, IfOk, option_map};
ghost use Rattle.guards_views_spec.specs.Views as spec;
ghost use Rattle.derived_views.specs.Accepted.{Measures, AcceptedAt, ChangesAccepted};
ghost use Rattle.derived_views.specs.Touching.{Touches};

use crate::measure::Measure;
use crate::touched::{Touched, touched_at};
use crate::weights::{Weights, put_weight, remove_weight};
use guards_views_spec::Weigh;
use std::alloc::{AllocError, Global};
use values::{Key, Patches, Path, Val};

/// What the entries of the container at a path add, kept entry by entry, with their sum.
///
/// The calls that run its function ask that it answers what a value adds (`Measures`); every call hands the path, what an entry
/// adds and the function on as they were.
#[derive(Drop)]
pub struct View<F> {
    path: Path,
    measure: Measure<F>,
    weights: Weights,
}

impl<F: Fn(&Val) -> u64> View<F> {
    /// The view of the container that stands at the path, of no entries where a primitive or nothing does.
    pub fn new(
        alloc: Global,
        path: Path,
        weigh: Weigh,
        by: F,
        from: Option<&Val>,
    ) -> Result<View<F>, AllocError>
        requires measures { Measures F.Fn by weigh }
        requires accepted { AcceptedAt (option_map (λ v. v.now) from) }
        ensures path { IfOk result (λ r. r.path ≡ path) }
        ensures weigh { IfOk result (λ r. r.measure.weigh ≡ weigh) }
        ensures by { IfOk result (λ r. r.measure.by ≡ by) }
        ensures weights { IfOk result (λ r. r.weights ≡ spec.weights_of weigh (option_map (λ v. v.now) from.entry)) }
    {
        let measure = Measure { weigh, by };
        match measure.of_container(alloc, from) {
            Ok(weights) => Ok(View {
                path,
                measure,
                weights,
            }),
            Err(e) => Err(e),
        }
    }

    /// The view of the same path and function, from this container.
    pub fn again(self, alloc: Global, from: Option<&Val>) -> Result<View<F>, AllocError>
        requires measures { Measures F.Fn self.measure.by self.measure.weigh }
        requires accepted { AcceptedAt (option_map (λ v. v.now) from) }
        ensures path { IfOk result (λ r. r.path ≡ self.path) }
        ensures measure { IfOk result (λ r. r.measure ≡ self.measure) }
        ensures weights { IfOk result (λ r. r.weights ≡ spec.weights_of self.measure.weigh (option_map (λ v. v.now) from.entry)) }
    {
        let View {
            path,
            measure,
            weights: _,
        } = self;
        match measure.of_container(alloc, from) {
            Ok(weights) => Ok(View {
                path,
                measure,
                weights,
            }),
            Err(e) => Err(e),
        }
    }

    /// What patches touch of the container: `Whole` exactly where the path of some patch is the view's path or a front of it; else
    /// the next steps of the patches whose paths go on from the view's path, each step once.
    pub fn touched(&self, alloc: Global, patches: &Patches) -> Result<Touched, AllocError>
        ensures { IfOk result (λ t. Touches t (spec.touched self.now.path patches.now)) }
    {
        touched_at(alloc, self.path.as_slice(), patches.as_slice())
    }

    /// The view with these entries set to what their values add, or taken out where they have none.
    pub fn update(
        self,
        alloc: Global,
        changed: &[(Key, Option<Val>)],
    ) -> Result<View<F>, AllocError>
        requires measures { Measures F.Fn self.measure.by self.measure.weigh }
        requires accepted { ChangesAccepted changed.now }
        requires small { spec.total (spec.updated self.measure.weigh changed.now self.weights) ≤ 2 ^ 20 }
        ensures path { IfOk result (λ r. r.path ≡ self.path) }
        ensures measure { IfOk result (λ r. r.measure ≡ self.measure) }
        ensures weights { IfOk result (λ r. r.weights ≡ spec.updated self.measure.weigh changed.now self.weights) }
    {
        let View {
            path,
            measure,
            weights,
        } = self;
        match measure.changed(alloc, weights, changed) {
            Ok(weights) => Ok(View {
                path,
                measure,
                weights,
            }),
            Err(e) => Err(e),
        }
    }

    /// The sum. It takes no memory.
    pub fn total(&self) -> u64
        ensures sum { result ≡ spec.total self.now.weights }
        ensures small { result ≤ 2 ^ 20 }
    {
        self.weights.total()
    }

    /// Where the container stands. It takes no memory.
    pub fn path(&self) -> &Path
        ensures { result.now ≡ self.now.path }
    {
        &self.path
    }
}
