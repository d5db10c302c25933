//! Worked examples of rules.
//!
//! Each line of the input is a word and texts of JSON between bars: `rules RULES`, `broken SHAPE | VALUE`,
//! `views RULES | VALUE | PATCHES`, `verdict RULES | NAME | PATH`. A line that begins with `#` is a remark.
#![tactic(auto)]

ghost use Rattle.std.specs.Prelude.{◌≡◌};
ghost use Rattle.guards_views_spec.specs.Shapes as spec;

mod views;

use anyhow::Context;
use guards_views::{Guard, Rules, RulesFault, Shape, Verdict, broken, meets};
use plain_apply::apply_plain;
use std::alloc::Global;
use std::io::{BufRead, BufReader};
use value_json::{read_patches, read_path, read_value, write_value};
use values::{Path, Val, ValNode};

/// The value of a text of JSON.
fn value(alloc: Global, text: &str) -> anyhow::Result<Val> {
    Ok(read_value(alloc, text.trim().as_bytes())?)
}

/// The rules of a text; None where it holds none.
fn rules(alloc: Global, text: &str) -> anyhow::Result<Option<Rules>> {
    let read = value(alloc, text)?;
    match Rules::of(alloc, &read) {
        Ok(rules) => Ok(Some(rules)),
        Err(RulesFault::NotRules) => Ok(None),
        Err(fault) => Err(fault.into()),
    }
}

/// The text of a path.
fn path_text(alloc: Global, path: Path) -> anyhow::Result<String> {
    let mut steps = Vec::new(alloc);
    for key in path.into_vec() {
        steps.push(Val::primitive(key))?;
    }
    let list = Val {
        node: ValNode::List(steps),
    };
    let text = write_value(alloc, &list)?;
    Ok(String::from_str(alloc, text.as_str())?)
}

fn rules_line(alloc: Global, text: &str) -> anyhow::Result<String> {
    match rules(alloc, text)? {
        None => Ok(String::from_str(alloc, "no rules")?),
        Some(rules) => Ok(format!(in alloc;
            "rules with {} views",
            rules.views().as_slice().len()
        )?),
    }
}

/// Whether a guard of the shape allows a value.
fn is_allowed(shape: &Shape, v: &Val) -> bool
    ensures { result ≡ spec.meets shape.now v.now }
{
    let guard = Guard::new(shape, |w: &Val| meets(shape, w));
    guard.allows(v)
}

fn broken_line(alloc: Global, shape: &str, text: &str) -> anyhow::Result<String> {
    let guard = format!(in alloc; "{{\"guard\":{shape}}}")?;
    let Some(rules) = rules(alloc, guard.as_str())? else {
        return Ok(String::from_str(alloc, "no shape")?);
    };
    let v = value(alloc, text)?;
    match broken(alloc, rules.shape(), &v)? {
        None => Ok(format!(in alloc; "met {}", is_allowed(rules.shape(), &v))?),
        Some(path) => {
            let place = path_text(alloc, path)?;
            Ok(format!(in alloc; "broken at {place}, met {}", meets(rules.shape(), &v))?)
        }
    }
}

/// Each view of the rules: its name, its sum before and after the patches, and the steps of the entries that they touch.
fn views_line(alloc: Global, text: &str, state: &str, list: &str) -> anyhow::Result<String> {
    let Some(rules) = rules(alloc, text)? else {
        return Ok(String::from_str(alloc, "no rules")?);
    };
    let old = value(alloc, state)?;
    let patches = read_patches(alloc, list.trim().as_bytes())?;
    let new = apply_plain(alloc, &old, &patches)?;
    let mut out = String::new(alloc);
    for rule in rules.views().as_slice() {
        let words = views::view_words(alloc, rule, &old, &patches, &new)?;
        if !out.is_empty() {
            out.push_str("; ")?;
        }
        out.push_str(rule.name.as_str())?;
        out.push_str(": ")?;
        out.push_str(words.as_str())?;
    }
    Ok(out)
}

fn verdict_line(alloc: Global, text: &str, name: &str, place: &str) -> anyhow::Result<String> {
    let Some(rules) = rules(alloc, text)? else {
        return Ok(String::from_str(alloc, "no rules")?);
    };
    let path = read_path(alloc, place.trim().as_bytes())?;
    match rules.grants().find(name.trim()) {
        None => Ok(String::from_str(alloc, "no such grant")?),
        Some(grant) => match grant.verdict(&path) {
            Verdict::Allowed(rule) => Ok(format!(in alloc; "allowed by {rule}")?),
            Verdict::Denied(rule) => Ok(format!(in alloc; "denied by {rule}")?),
        },
    }
}

fn answer(alloc: Global, line: &str) -> anyhow::Result<String> {
    let (word, text) = line.split_once(' ').context("a word and texts")?;
    if word == "rules" {
        return rules_line(alloc, text);
    }
    let (first, rest) = text.split_once(" | ").context("two texts")?;
    if word == "broken" {
        return broken_line(alloc, first, rest);
    }
    let (second, third) = rest.split_once(" | ").context("three texts")?;
    if word == "views" {
        return views_line(alloc, first, second, third);
    }
    verdict_line(alloc, first, second, third)
}

fn main(rt: HostRuntime) -> anyhow::Result<()> {
    let alloc = rt.alloc();
    for line in BufReader::new(alloc, rt.reader())?.lines(alloc) {
        let line = line?;
        if !line.is_empty() && !line.starts_with('#') {
            println!(rt; "{}", answer(alloc, line.as_str())?)?;
        }
    }
    Ok(())
}
