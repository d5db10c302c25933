//! What entries add, by the function of a view.
ghost use Rattle.std.specs.Prelude.{◌≡◌, ◌≤◌, ◌^◌, pos, length, map, option_map, IfOk, OnOk, IsTrue};
ghost use Rattle.value_model.specs.declared.key.Key.TheVariants as key_of;
ghost use Rattle.std.specs.FinMap.Entries.{is_sorted};
ghost use Rattle.value_model.specs.Order.{key_cmp};
ghost use Rattle.value_model.specs.Limits.{value_limit};
ghost use Rattle.value_model.specs.declared.kind.Kind.TheVariants as kind;
ghost use Rattle.values.specs.Seen.{of_fields, of_entries, of_items, of_members};
ghost use Rattle.guards_views_spec.specs.Views as spec;
ghost use Rattle.derived_views.specs.Accepted.{Measures, AllAccepted, AcceptedAt, ChangesAccepted};
ghost use Rattle.derived_views.specs.Seen.{of_weight};

use crate::weights::{Weight, Weights, put_weight, remove_weight};
use guards_views_spec::Weigh;
use std::alloc::{AllocError, Global};
use values::{Entry, Field, Key, Safe, Val, ValNode};

/// What entries add, and a function that answers it.
#[derive(Drop)]
pub struct Measure<F> {
    pub(crate) weigh: Weigh,
    pub(crate) by: F,
}

impl<F: Fn(&Val) -> u64> Measure<F> {
    /// What a value adds.
    pub(crate) fn of_value(&self, v: &Val) -> u64
        requires measures { Measures F.Fn self.now.by self.now.weigh }
        requires accepted { value_limit v.now ≡ None }
        ensures { result ≡ spec.weighs self.now.weigh v.now }
    {
        (self.by)(v)
    }

    /// The weights of a container; none of a primitive, or where nothing stands.
    pub(crate) fn of_container(
        &self,
        alloc: Global,
        from: Option<&Val>,
    ) -> Result<Weights, AllocError>
        requires measures { Measures F.Fn self.now.by self.now.weigh }
        requires accepted { AcceptedAt (option_map (λ v. v.now) from) }
        ensures { IfOk result (λ ws. ws ≡ spec.weights_of self.now.weigh (option_map (λ v. v.now) from.entry)) }
    {
        match from {
            None => Ok(Weights::of(Vec::new(alloc))),
            Some(v) => self.of_val(alloc, v),
        }
    }

    fn of_val(&self, alloc: Global, v: &Val) -> Result<Weights, AllocError>
        requires measures { Measures F.Fn self.now.by self.now.weigh }
        requires accepted { value_limit v.now ≡ None }
        ensures { IfOk result (λ ws. ws ≡ spec.weights_of self.now.weigh (Some v.now)) }
    {
        match &v.node {
            ValNode::Prim(_) => Ok(Weights::of(Vec::new(alloc))),
            ValNode::Obj(fields) => Ok(Weights::of(self.of_fields(alloc, fields)?)),
            ValNode::List(items) => Ok(Weights::of(self.of_items(alloc, items)?)),
            ValNode::Map(entries) => Ok(Weights::of(self.of_entries(alloc, entries)?)),
            ValNode::Set(members) => Ok(Weights::of(self.of_members(alloc, members)?)),
        }
    }

    /// The weights with these entries set or taken out.
    pub(crate) fn changed(
        &self,
        alloc: Global,
        weights: Weights,
        changed: &[(Key, Option<Val>)],
    ) -> Result<Weights, AllocError>
        requires measures { Measures F.Fn self.now.by self.now.weigh }
        requires accepted { ChangesAccepted changed.now }
        requires small { spec.total (spec.updated self.now.weigh changed.now weights) ≤ 2 ^ 20 }
        ensures { IfOk result (λ ws. ws ≡ spec.updated self.now.weigh changed.now weights) }
    {
        let mut entries = weights.into_entries();
        for change in changed {
            self.change(alloc, &mut entries, &change.0, &change.1)?;
        }
        Ok(Weights::of(entries))
    }

    fn change(
        &self,
        alloc: Global,
        entries: &mut Vec<Weight>,
        key: &Key,
        value: &Option<Val>,
    ) -> Result<(), AllocError>
        requires measures { Measures F.Fn self.now.by self.now.weigh }
        requires accepted { AcceptedAt value.now }
        requires sorted { IsTrue (is_sorted key_cmp (map of_weight entries.old.items)) }
        ensures changed { OnOk result (map of_weight entries.new.items ≡ spec.with_entry self.now.weigh (key.now, value.now) (map of_weight entries.old.items)) }
        ensures sorted { OnOk result (IsTrue (is_sorted key_cmp (map of_weight entries.new.items))) }
    {
        match value {
            Some(v) => {
                let weight = self.of_value(v);
                put_weight(entries, key.copy(alloc)?, weight)
            }
            None => {
                remove_weight(entries, key);
                Ok(())
            }
        }
    }

    fn of_items(&self, alloc: Global, items: &[Val]) -> Result<Vec<Weight>, AllocError>
        requires measures { Measures F.Fn self.now.by self.now.weigh }
        requires accepted { AllAccepted (of_items items.now) }
        requires short { length items.now ≤ 2 ^ 20 }
        ensures { IfOk result (λ ws. map of_weight ws.items ≡ spec.weights_in self.now.weigh kind.List 0 (of_items items.now)) }
    {
        let mut out = Vec::new(alloc);
        for (i, v) in items.iter().enumerate() {
            let weight = self.of_value(v);
            out.push(Weight {
                key: index(i),
                weight,
            })?;
        }
        Ok(out)
    }

    fn of_fields(&self, alloc: Global, fields: &[Field]) -> Result<Vec<Weight>, AllocError>
        requires measures { Measures F.Fn self.now.by self.now.weigh }
        requires accepted { AllAccepted (of_fields fields.now) }
        ensures { IfOk result (λ ws. map of_weight ws.items ≡ spec.weights_in self.now.weigh kind.Obj 0 (of_fields fields.now)) }
    {
        let mut out = Vec::new(alloc);
        for f in fields {
            let key = Key::Text(f.key.copy(alloc)?);
            let weight = self.of_value(&f.value);
            out.push(Weight { key, weight })?;
        }
        Ok(out)
    }

    fn of_entries(&self, alloc: Global, entries: &[Entry]) -> Result<Vec<Weight>, AllocError>
        requires measures { Measures F.Fn self.now.by self.now.weigh }
        requires accepted { AllAccepted (of_entries entries.now) }
        ensures { IfOk result (λ ws. map of_weight ws.items ≡ spec.weights_in self.now.weigh kind.Map 0 (of_entries entries.now)) }
    {
        let mut out = Vec::new(alloc);
        for e in entries {
            let key = e.key.copy(alloc)?;
            let weight = self.of_value(&e.value);
            out.push(Weight { key, weight })?;
        }
        Ok(out)
    }

    fn of_members(&self, alloc: Global, members: &[Key]) -> Result<Vec<Weight>, AllocError>
        requires measures { Measures F.Fn self.now.by self.now.weigh }
        requires accepted { AllAccepted (of_members members.now) }
        ensures { IfOk result (λ ws. map of_weight ws.items ≡ spec.weights_in self.now.weigh kind.Set 0 (of_members members.now)) }
    {
        let mut out = Vec::new(alloc);
        for k in members {
            let weight = self.of_value(&Val::primitive(k.copy(alloc)?));
            out.push(Weight {
                key: k.copy(alloc)?,
                weight,
            })?;
        }
        Ok(out)
    }
}

/// An index as a step.
fn index(i: usize) -> Key
    requires { i ≤ 2 ^ 20 }
    ensures { result ≡ key_of.Int (pos i) }
{
    match Safe::of(i as i64) {
        Some(n) => Key::Int(n),
        None => unreachable!(),
    }
}
