//! Rules.
ghost use Rattle.std.specs.Prelude.{◌≡◌, map};
ghost use Rattle.values.specs.Seen.{of_field};
ghost use Rattle.guards_views_spec.specs.Reading as spec;
ghost use Rattle.guards_views.specs.Given.{of_grant};
ghost use Rattle.guards_views.specs.Ruling.{ruled};
ghost use Rattle.guards_views.specs.Reads.{Reads, ReadsAs};

use crate::fault::RulesFault;
use crate::grants::{Grants, NamedGrant};
use crate::parts::fields;
use crate::shape_reading::read_shape;
use crate::view_reading::{read_grant, read_view};
use guards_views_spec::ViewRule;
use shapes::{Form, Shape, Simple};
use std::alloc::Global;
use std::marker::Model;
use values::{Field, Val};

/// The views of rules, ascending by name.
///
/// A contract sees it as a list.
#[derive(Drop)]
pub struct Views {
    list: Vec<ViewRule>,
}

impl Model for Views {
    ghost use Rattle.std.specs.Prelude.{List};
    ghost use Rattle.guards_views_spec.specs.declared.ViewRule.{ViewRule};

    ghost Value = { List ViewRule };

    ghost use Rattle.std.specs.Coded.{coded_list};
    ghost use Rattle.guards_views_spec.specs.contracts.ViewRule as view_rule;

    ghost coded = { coded_list view_rule.the_row.coded };

    ghost view = { λ v. v.list.items };
}

impl Views {
    /// These views. It takes no memory.
    pub fn from_vec(list: Vec<ViewRule>) -> Views
        ensures { result ≡ list.items }
    {
        Views { list }
    }

    /// The views, to be read.
    pub fn as_slice(&self) -> &[ViewRule]
        ensures { result.now ≡ self.now }
    {
        self.list.as_slice()
    }
}

/// The rules of a host: a shape for its states, its views and its grants.
#[derive(Drop)]
pub struct Rules {
    shape: Shape,
    views: Views,
    grants: Grants,
}

impl Rules {
    /// The rules that a value is: an object with the optional members `guard` (a shape), `views` and `grants`. `NotRules` exactly
    /// where the value is not of this form; `Memory` where memory ran out, which may come in place of each.
    pub fn of(alloc: Global, v: &Val) -> Result<Rules, RulesFault>
        ensures { ReadsAs ruled result (spec.rules_of v.now) }
    {
        match fields(v) {
            Some(members) => rules_in(alloc, members),
            None => Err(RulesFault::NotRules),
        }
    }

    /// What states have to meet; `any` where the rules have no guard. It takes no memory.
    pub fn shape(&self) -> &Shape
        ensures { result.now ≡ self.now.shape }
    {
        &self.shape
    }

    /// The views. It takes no memory.
    pub fn views(&self) -> &Views
        ensures { result.now ≡ self.now.views }
    {
        &self.views
    }

    /// The grants. It takes no memory.
    pub fn grants(&self) -> &Grants
        ensures { result.now ≡ self.now.grants }
    {
        &self.grants
    }

    /// No rules.
    fn none(alloc: Global) -> Rules
        ensures { ruled result ≡ spec.no_rules }
    {
        Rules {
            shape: Shape {
                form: Form::One(Simple::Any),
            },
            views: Views::from_vec(Vec::new(alloc)),
            grants: Grants::from_vec(Vec::new(alloc)),
        }
    }

    /// Takes a member in.
    fn add(&mut self, alloc: Global, f: &Field) -> Result<(), RulesFault>
        ensures { ReadsAs (λ u. ruled self.new) result (spec.with_member (ruled self.old) (of_field f.now)) }
    {
        if f.key.as_str() == "guard" {
            self.add_guard(alloc, &f.value)
        } else if f.key.as_str() == "views" {
            self.add_views(alloc, &f.value)
        } else if f.key.as_str() == "grants" {
            self.add_grants(alloc, &f.value)
        } else {
            Err(RulesFault::NotRules)
        }
    }

    fn add_guard(&mut self, alloc: Global, v: &Val) -> Result<(), RulesFault>
        ensures { ReadsAs (λ u. ruled self.new) result (spec.with_guard (ruled self.old) (spec.shape_of v.now)) }
    {
        match read_shape(alloc, v) {
            Ok(shape) => {
                self.shape = shape;
                Ok(())
            }
            Err(fault) => Err(fault),
        }
    }

    fn add_views(&mut self, alloc: Global, v: &Val) -> Result<(), RulesFault>
        ensures { ReadsAs (λ u. ruled self.new) result (spec.with_views (ruled self.old) (spec.views_of v.now)) }
    {
        match read_views(alloc, v) {
            Ok(list) => {
                self.views = Views::from_vec(list);
                Ok(())
            }
            Err(fault) => Err(fault),
        }
    }

    fn add_grants(&mut self, alloc: Global, v: &Val) -> Result<(), RulesFault>
        ensures { ReadsAs (λ u. ruled self.new) result (spec.with_grants (ruled self.old) (spec.grants_of v.now)) }
    {
        match read_grants(alloc, v) {
            Ok(list) => {
                self.grants = Grants::from_vec(list);
                Ok(())
            }
            Err(fault) => Err(fault),
        }
    }
}

fn rules_in(alloc: Global, members: &[Field]) -> Result<Rules, RulesFault>
    ensures { ReadsAs ruled result (spec.with_members spec.no_rules (map of_field members.now)) }
{
    let mut rules = Rules::none(alloc);
    for f in members {
        match rules.add(alloc, f) {
            Ok(()) => {}
            Err(fault) => return Err(fault),
        }
    }
    Ok(rules)
}

fn read_views(alloc: Global, v: &Val) -> Result<Vec<ViewRule>, RulesFault>
    ensures { ReadsAs (λ vs. vs.items) result (spec.views_of v.now) }
{
    match fields(v) {
        Some(members) => views_in(alloc, members),
        None => Err(RulesFault::NotRules),
    }
}

#[tactic(auto, using(crate::proofs::Ahead::ahead_one, crate::proofs::Ahead::ahead_end))]
fn views_in(alloc: Global, members: &[Field]) -> Result<Vec<ViewRule>, RulesFault>
    ensures { ReadsAs (λ vs. vs.items) result (spec.all_read spec.view_rule (map of_field members.now)) }
{
    let mut out = Vec::new(alloc);
    for f in members {
        match read_view(alloc, f) {
            Ok(view) => out.push(view)?,
            Err(fault) => return Err(fault),
        }
    }
    Ok(out)
}

fn read_grants(alloc: Global, v: &Val) -> Result<Vec<NamedGrant>, RulesFault>
    ensures { ReadsAs (λ gs. map of_grant gs.items) result (spec.grants_of v.now) }
{
    match fields(v) {
        Some(members) => grants_in(alloc, members),
        None => Err(RulesFault::NotRules),
    }
}

#[tactic(auto, using(crate::proofs::Ahead::ahead_one, crate::proofs::Ahead::ahead_end))]
fn grants_in(alloc: Global, members: &[Field]) -> Result<Vec<NamedGrant>, RulesFault>
    ensures { ReadsAs (λ gs. map of_grant gs.items) result (spec.all_read spec.named_grant (map of_field members.now)) }
{
    let mut out = Vec::new(alloc);
    for f in members {
        match read_grant(alloc, f) {
            Ok(grant) => out.push(grant)?,
            Err(fault) => return Err(fault),
        }
    }
    Ok(out)
}
