//! Shapes of primitives.
ghost use Rattle.std.specs.Prelude.{◌≡◌};
ghost use Rattle.guards_views_spec.specs.Shapes as spec;
ghost use Rattle.values.specs.Seen.{of_members};

use guards_views_spec::Simple;
use values::{Key, Safe, Val, ValNode};

/// Whether a value is of a kind.
pub(crate) fn meets_one(simple: Simple, v: &Val) -> bool
    ensures { result ≡ spec.meets_one simple v.now }
{
    match &v.node {
        ValNode::Prim(k) => is_simple(simple, k),
        _ => is_any(simple),
    }
}

fn is_any(simple: Simple) -> bool
    ensures { result ≡ spec.is_any simple }
{
    match simple {
        Simple::Any => true,
        _ => false,
    }
}

fn is_simple(simple: Simple, k: &Key) -> bool
    ensures { result ≡ spec.is_simple simple k.now }
{
    match (simple, k) {
        (Simple::Any, _) => true,
        (Simple::Null, Key::Null) => true,
        (Simple::Bool, Key::Bool(_)) => true,
        (Simple::Int, Key::Int(_)) => true,
        (Simple::Text, Key::Text(_)) => true,
        _ => false,
    }
}

/// Whether a value is an integer between the two.
pub(crate) fn in_range(lo: Safe, hi: Safe, v: &Val) -> bool
    ensures { result ≡ spec.in_range lo hi v.now }
{
    match &v.node {
        ValNode::Prim(k) => key_in_range(lo, hi, k),
        _ => false,
    }
}

fn key_in_range(lo: Safe, hi: Safe, k: &Key) -> bool
    ensures { result ≡ spec.key_in_range lo hi k.now }
{
    match k {
        Key::Int(n) => lo.get() <= n.get() && n.get() <= hi.get(),
        _ => false,
    }
}

/// Whether a value is a Set whose members are all of a kind.
pub(crate) fn is_set_of(simple: Simple, v: &Val) -> bool
    ensures { result ≡ spec.is_set_of simple v.now }
{
    match &v.node {
        ValNode::Set(members) => all_simple(simple, members),
        _ => false,
    }
}

fn all_simple(simple: Simple, members: &[Key]) -> bool
    ensures { result ≡ spec.all_simple simple (of_members members.now) }
{
    for k in members {
        if !is_simple(simple, k) {
            return false;
        }
    }
    true
}
