//! How paths, views and grants are read.
ghost use Rattle.std.specs.Prelude.{◌≡◌, map, option_map};
ghost use Rattle.value_model.specs.declared.key.Key.TheVariants as key_of;
ghost use Rattle.values.specs.Seen.{of_field, of_item};
ghost use Rattle.guards_views_spec.specs.declared.Weigh.TheVariants as weigh_of;
ghost use Rattle.guards_views_spec.specs.Reading as spec;
ghost use Rattle.guards_views.specs.Given.{of_grant};
ghost use Rattle.guards_views.specs.Reads.{Reads, ReadsAs};

use crate::fault::RulesFault;
use crate::grants::{Grant, NamedGrant};
use crate::parts::{
    elements, fields, integer, pair, primitive, single, text, three, triple, truth,
};
use guards_views_spec::{GrantRule, ViewRule, Weigh};
use std::alloc::Global;
use values::{Field, Path, Safe, Text, Val};

/// A list of primitives.
pub(crate) fn read_path(alloc: Global, v: &Val) -> Result<Path, RulesFault>
    ensures { Reads result (spec.path_of v.now) }
{
    match elements(v) {
        Some(items) => path_in(alloc, items),
        None => Err(RulesFault::NotRules),
    }
}

#[tactic(auto, using(crate::proofs::Ahead::ahead_one, crate::proofs::Ahead::ahead_end))]
fn path_in(alloc: Global, items: &[Val]) -> Result<Path, RulesFault>
    ensures { Reads result (spec.all_read spec.step_of (map of_item items.now)) }
{
    let mut out = Vec::new(alloc);
    for v in items {
        match primitive(v) {
            Some(step) => out.push(step.copy(alloc)?)?,
            None => return Err(RulesFault::NotRules),
        }
    }
    Ok(Path::from_vec(out))
}

/// A text.
fn read_text(alloc: Global, v: &Val) -> Result<Text, RulesFault>
    ensures { Reads result (spec.text_of v.now) }
{
    match text(v) {
        Some(text) => Ok(text.copy(alloc)?),
        None => Err(RulesFault::NotRules),
    }
}

fn weigh_word(word: &str) -> Result<Weigh, RulesFault>
    ensures { Reads result (spec.weigh_word word.now) }
{
    if word == "count" {
        Ok(Weigh::Count)
    } else if word == "weight" {
        Ok(Weigh::Weight)
    } else {
        Err(RulesFault::NotRules)
    }
}

/// What an entry adds.
fn read_weigh(alloc: Global, v: &Val) -> Result<Weigh, RulesFault>
    ensures { Reads result (spec.weigh_of v.now) }
{
    match text(v) {
        Some(word) => weigh_word(word.as_str()),
        None => weigh_object(alloc, v),
    }
}

fn weigh_object(alloc: Global, v: &Val) -> Result<Weigh, RulesFault>
    ensures { Reads result (spec.word_or_object None v.now) }
{
    match fields(v) {
        Some(members) => weigh_in(alloc, members),
        None => Err(RulesFault::NotRules),
    }
}

fn weigh_in(alloc: Global, members: &[Field]) -> Result<Weigh, RulesFault>
    ensures { Reads result (spec.weigh_in (map of_field members.now)) }
{
    match single(members) {
        Some(f) => weigh_member(alloc, f),
        None => Err(RulesFault::NotRules),
    }
}

fn weigh_member(alloc: Global, f: &Field) -> Result<Weigh, RulesFault>
    ensures { Reads result (spec.weigh_member (of_field f.now)) }
{
    if f.key.as_str() == "true" {
        true_at(alloc, &f.value)
    } else if f.key.as_str() == "int" {
        counted_at(alloc, &f.value)
    } else {
        Err(RulesFault::NotRules)
    }
}

fn true_at(alloc: Global, v: &Val) -> Result<Weigh, RulesFault>
    ensures { Reads result (option_map weigh_of.True (spec.text_of v.now)) }
{
    match read_text(alloc, v) {
        Ok(name) => Ok(Weigh::True(name)),
        Err(fault) => Err(fault),
    }
}

fn counted_at(alloc: Global, v: &Val) -> Result<Weigh, RulesFault>
    ensures { Reads result (spec.and_then (spec.elements v.now) spec.counted_in) }
{
    match elements(v) {
        Some(items) => counted_in(alloc, items),
        None => Err(RulesFault::NotRules),
    }
}

fn counted_in(alloc: Global, items: &[Val]) -> Result<Weigh, RulesFault>
    ensures { Reads result (spec.counted_in (map of_item items.now)) }
{
    match three(items) {
        Some((name, lo, hi)) => counted(alloc, name, lo, hi),
        None => Err(RulesFault::NotRules),
    }
}

fn counted(alloc: Global, name: &Val, lo: &Val, hi: &Val) -> Result<Weigh, RulesFault>
    ensures { Reads result (spec.counted (of_item name.now, of_item lo.now, of_item hi.now)) }
{
    match read_text(alloc, name) {
        Ok(name) => ranged(name, integer(lo), integer(hi)),
        Err(fault) => Err(fault),
    }
}

fn ranged(name: Text, lo: Option<Safe>, hi: Option<Safe>) -> Result<Weigh, RulesFault>
    ensures { Reads result (spec.both_of (weigh_of.Int name) lo hi) }
{
    match lo {
        Some(lo) => match hi {
            Some(hi) => Ok(Weigh::Int(name, lo, hi)),
            None => Err(RulesFault::NotRules),
        },
        None => Err(RulesFault::NotRules),
    }
}

/// A view under its name.
pub(crate) fn read_view(alloc: Global, f: &Field) -> Result<ViewRule, RulesFault>
    ensures { Reads result (spec.view_rule (of_field f.now)) }
{
    match fields(&f.value) {
        Some(members) => view_in(alloc, &f.key, members),
        None => Err(RulesFault::NotRules),
    }
}

fn view_in(alloc: Global, name: &Text, members: &[Field]) -> Result<ViewRule, RulesFault>
    ensures { Reads result (spec.and_then (spec.pair (map of_field members.now)) (spec.view_parts name.now)) }
{
    match pair(members) {
        Some((path, weigh)) => view_parts(alloc, name, path, weigh),
        None => Err(RulesFault::NotRules),
    }
}

fn view_parts(
    alloc: Global,
    name: &Text,
    path: &Field,
    weigh: &Field,
) -> Result<ViewRule, RulesFault>
    ensures { Reads result (spec.view_parts name.now (of_field path.now, of_field weigh.now)) }
{
    if path.key.as_str() == "path" && weigh.key.as_str() == "weigh" {
        view_made(alloc, name, &path.value, &weigh.value)
    } else {
        Err(RulesFault::NotRules)
    }
}

fn view_made(alloc: Global, name: &Text, path: &Val, weigh: &Val) -> Result<ViewRule, RulesFault>
    ensures { Reads result (spec.both_of (spec.view_made name.now) (spec.path_of path.now) (spec.weigh_of weigh.now)) }
{
    match read_path(alloc, path) {
        Ok(path) => match read_weigh(alloc, weigh) {
            Ok(weigh) => Ok(ViewRule {
                name: name.copy(alloc)?,
                path,
                weigh,
            }),
            Err(fault) => Err(fault),
        },
        Err(fault) => Err(fault),
    }
}

/// A rule of a grant.
fn read_rule(alloc: Global, v: &Val) -> Result<GrantRule, RulesFault>
    ensures { Reads result (spec.grant_rule (of_item v.now)) }
{
    match fields(v) {
        Some(members) => rule_in(alloc, members),
        None => Err(RulesFault::NotRules),
    }
}

fn rule_in(alloc: Global, members: &[Field]) -> Result<GrantRule, RulesFault>
    ensures { Reads result (spec.and_then (spec.triple (map of_field members.now)) spec.grant_parts) }
{
    match triple(members) {
        Some((allow, path, rule)) => rule_parts(alloc, allow, path, rule),
        None => Err(RulesFault::NotRules),
    }
}

fn rule_parts(
    alloc: Global,
    allow: &Field,
    path: &Field,
    rule: &Field,
) -> Result<GrantRule, RulesFault>
    ensures { Reads result (spec.grant_parts (of_field allow.now, of_field path.now, of_field rule.now)) }
{
    if allow.key.as_str() == "allow" && path.key.as_str() == "path" && rule.key.as_str() == "rule" {
        rule_made(alloc, &allow.value, &path.value, &rule.value)
    } else {
        Err(RulesFault::NotRules)
    }
}

fn rule_made(alloc: Global, allow: &Val, path: &Val, rule: &Val) -> Result<GrantRule, RulesFault>
    ensures { Reads result (spec.and_then (spec.truth_of allow.now) (λ a. spec.both_of (spec.grant_made a) (spec.path_of path.now) (spec.rule_name rule.now))) }
{
    match truth(allow) {
        Some(allow) => rule_of(alloc, allow, path, rule),
        None => Err(RulesFault::NotRules),
    }
}

fn rule_of(alloc: Global, allow: bool, path: &Val, rule: &Val) -> Result<GrantRule, RulesFault>
    ensures { Reads result (spec.both_of (spec.grant_made allow) (spec.path_of path.now) (spec.rule_name rule.now)) }
{
    match read_path(alloc, path) {
        Ok(path) => match rule_name(alloc, rule) {
            Ok(rule) => Ok(GrantRule { rule, allow, path }),
            Err(fault) => Err(fault),
        },
        Err(fault) => Err(fault),
    }
}

/// Every name but `default`.
fn rule_name(alloc: Global, v: &Val) -> Result<Text, RulesFault>
    ensures { Reads result (spec.rule_name v.now) }
{
    match text(v) {
        Some(name) => {
            if name.as_str() == "default" {
                Err(RulesFault::NotRules)
            } else {
                Ok(name.copy(alloc)?)
            }
        }
        None => Err(RulesFault::NotRules),
    }
}

/// A grant under its name.
pub(crate) fn read_grant(alloc: Global, f: &Field) -> Result<NamedGrant, RulesFault>
    ensures { ReadsAs of_grant result (spec.named_grant (of_field f.now)) }
{
    match elements(&f.value) {
        Some(items) => grant_in(alloc, &f.key, items),
        None => Err(RulesFault::NotRules),
    }
}

fn grant_in(alloc: Global, name: &Text, items: &[Val]) -> Result<NamedGrant, RulesFault>
    ensures { ReadsAs of_grant result (option_map (spec.grant_under name.now) (spec.all_read spec.grant_rule (map of_item items.now))) }
{
    match rules_in(alloc, items) {
        Ok(rules) => Ok(NamedGrant {
            name: name.copy(alloc)?,
            grant: Grant::from_vec(rules),
        }),
        Err(fault) => Err(fault),
    }
}

#[tactic(auto, using(crate::proofs::Ahead::ahead_one, crate::proofs::Ahead::ahead_end))]
fn rules_in(alloc: Global, items: &[Val]) -> Result<Vec<GrantRule>, RulesFault>
    ensures { ReadsAs (λ rs. rs.items) result (spec.all_read spec.grant_rule (map of_item items.now)) }
{
    let mut out = Vec::new(alloc);
    for v in items {
        match read_rule(alloc, v) {
            Ok(rule) => out.push(rule)?,
            Err(fault) => return Err(fault),
        }
    }
    Ok(out)
}
