//! Grants.
ghost use Rattle.std.specs.Prelude.{◌≡◌, map, option_map, IfOk};
ghost use Rattle.guards_views_spec.specs.Grants as spec;
ghost use Rattle.guards_views.specs.Given.{Says, of_grant};

pub use guards_views_spec::GrantRule;
use std::alloc::{AllocError, Global};
use std::marker::Model;
use values::{Key, Path, Text};

/// The rules of a grant, of which the first that speaks of a place decides.
///
/// A contract sees it as the list of the rules.
#[derive(Drop)]
pub struct Grant {
    rules: Vec<GrantRule>,
}

impl Model for Grant {
    ghost use Rattle.std.specs.Prelude.{List};
    ghost use Rattle.guards_views_spec.specs.declared.GrantRule.{GrantRule};

    ghost Value = { List GrantRule };

    ghost use Rattle.std.specs.Coded.{coded_list};
    ghost use Rattle.guards_views_spec.specs.contracts.GrantRule as grant_rule;

    ghost coded = { coded_list grant_rule.the_row.coded };

    ghost view = { λ g. g.rules.items };
}

/// What a grant says of a place, with the name of the rule that says so; `default` where none speaks of the place.
#[derive(Drop)]
pub enum Verdict<'a> {
    /// Writing is allowed.
    Allowed(&'a str),
    /// Writing is denied.
    Denied(&'a str),
}

/// A grant and its name.
#[derive(Drop)]
pub struct NamedGrant {
    /// The name.
    pub name: Text,
    /// The grant.
    pub grant: Grant,
}

/// Grants by their names.
///
/// A contract sees it as the list of the names with their rules.
#[derive(Drop)]
pub struct Grants {
    list: Vec<NamedGrant>,
}

impl Model for Grants {
    ghost use Rattle.std.specs.Prelude.{List, ℕ, map};
    ghost use Rattle.guards_views_spec.specs.declared.GrantRule.{GrantRule};

    ghost Value = { List (List ℕ × List GrantRule) };

    ghost use Rattle.std.specs.Coded.{coded_list, coded×, coded_ℕ};
    ghost use Rattle.guards_views_spec.specs.contracts.GrantRule as grant_rule;

    ghost coded = { coded_list (coded× (coded_list coded_ℕ) (coded_list grant_rule.the_row.coded)) };

    ghost use Rattle.guards_views.specs.Given.{of_grant};

    ghost view = { λ g. map of_grant g.list.items };
}

impl Grant {
    /// The grant of these rules. It takes no memory.
    pub fn from_vec(rules: Vec<GrantRule>) -> Grant
        ensures { result ≡ rules.items }
    {
        Grant { rules }
    }

    /// What the first rule says whose place is this one or holds it. It takes no memory.
    pub fn verdict<'a>(&'a self, place: &Path) -> Verdict<'a>
        ensures { Says result (spec.verdict self.now place.now) }
    {
        verdict_in(&self.rules, place.as_slice())
    }

    /// The same grant.
    pub fn copy(&self, alloc: Global) -> Result<Grant, AllocError>
        ensures { IfOk result (λ g. g ≡ self.now) }
    {
        Ok(Grant {
            rules: copy_rules(alloc, &self.rules)?,
        })
    }
}

fn verdict_in<'a>(rules: &'a [GrantRule], place: &[Key]) -> Verdict<'a>
    ensures { Says result (spec.verdict rules.now place.now) }
{
    for r in rules {
        if is_front(r.path.as_slice(), place) {
            return judged(r);
        }
    }
    Verdict::Denied("default")
}

fn judged(r: &GrantRule) -> Verdict<'_>
    ensures { Says result (r.now.allow, r.now.rule) }
{
    if r.allow {
        Verdict::Allowed(r.rule.as_str())
    } else {
        Verdict::Denied(r.rule.as_str())
    }
}

/// Whether a place is another one or lies above it.
fn is_front(path: &[Key], place: &[Key]) -> bool
    ensures { result ≡ spec.is_front path.now place.now }
{
    let mut rest = place;
    for step in path {
        let Some((first, more)) = rest.split_first() else {
            return false;
        };
        if !step.compare(first).is_eq() {
            return false;
        }
        rest = more;
    }
    true
}

fn copy_path(alloc: Global, path: &[Key]) -> Result<Path, AllocError>
    ensures { IfOk result (λ p. p ≡ path.now) }
{
    let mut out = Vec::new(alloc);
    for k in path {
        out.push(k.copy(alloc)?)?;
    }
    Ok(Path::from_vec(out))
}

fn copy_rule(alloc: Global, r: &GrantRule) -> Result<GrantRule, AllocError>
    ensures { IfOk result (λ s. s ≡ r.now) }
{
    let rule = r.rule.copy(alloc)?;
    let path = copy_path(alloc, r.path.as_slice())?;
    Ok(GrantRule {
        rule,
        allow: r.allow,
        path,
    })
}

fn copy_rules(alloc: Global, rules: &[GrantRule]) -> Result<Vec<GrantRule>, AllocError>
    ensures { IfOk result (λ rs. rs.items ≡ rules.now) }
{
    let mut out = Vec::new(alloc);
    for r in rules {
        out.push(copy_rule(alloc, r)?)?;
    }
    Ok(out)
}

impl Grants {
    /// These grants. It takes no memory.
    pub fn from_vec(list: Vec<NamedGrant>) -> Grants
        ensures { result ≡ map of_grant list.items }
    {
        Grants { list }
    }

    /// The grant of a name; None exactly where no grant has the name. It takes no memory.
    pub fn find(&self, name: &str) -> Option<&Grant>
        ensures { option_map (λ g. g.now) result ≡ spec.grant_named name.now self.now }
    {
        find_in(&self.list, name)
    }
}

fn find_in<'a>(list: &'a [NamedGrant], name: &str) -> Option<&'a Grant>
    ensures { option_map (λ g. g.now) result ≡ spec.grant_named name.now (map of_grant list.now) }
{
    for g in list {
        if g.name.as_str() == name {
            return Some(&g.grant);
        }
    }
    None
}
