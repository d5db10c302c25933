//! The names of variables in expressions.

ghost use Rattle.std.specs.Prelude.{◌≡◌, [], ◌∷◌, ◌++◌, map};
ghost use Rattle.script_tree.specs.View.{view, short_of};
ghost use Rattle.script_names.specs.Names.{read as judged_read, reads, writes, uses_prop};
ghost use Rattle.js_names.specs.Scopes.{env_of};
ghost use Rattle.js_names.specs.Judging.{Judges, all_reads, prop_reads, all_props, is_index, all_accesses, all_links};

use crate::fault::NameFault;
use crate::scopes::Scopes;
use script_names::{Binding, Cause};
use script_text::Sign;
use script_tree::{Access, Expr, Label, Name};
use sqlite_items::Items;

/// A use that reads.
fn read(scopes: &Scopes<'_>, found: &mut Vec<(usize, usize)>, name: &Name) -> Result<(), NameFault>
    ensures { Judges found.old.items (judged_read (env_of scopes.now) (name.now.at, name.now.text) ∷ []) result found.new.items }
{
    read_at(scopes, found, name.at, name.text.as_slice())
}

fn read_at(
    scopes: &Scopes<'_>,
    found: &mut Vec<(usize, usize)>,
    at: usize,
    name: &[u8],
) -> Result<(), NameFault>
    ensures { Judges found.old.items (judged_read (env_of scopes.now) (at, name.now) ∷ []) result found.new.items }
{
    match scopes.bound(name) {
        Some(Binding::Variable(declaration)) => found.push((at, declaration))?,
        Some(Binding::Constant(declaration)) => found.push((at, declaration))?,
        Some(Binding::Unset) => return Err(NameFault::Wrong(Cause::UnknownName, at)),
        None => return Err(NameFault::Wrong(Cause::UnknownName, at)),
    }
    Ok(())
}

/// A tree that no program has stands for a name of no bytes.
pub(crate) fn nothing(scopes: &Scopes<'_>, found: &mut Vec<(usize, usize)>) -> Result<(), NameFault>
    ensures { Judges found.old.items (judged_read (env_of scopes.now) (0, []) ∷ []) result found.new.items }
{
    read_at(scopes, found, 0, &[])
}

/// The names of an expression, all of them read.
#[cycle(uses)]
pub(crate) fn expr(
    scopes: &Scopes<'_>,
    found: &mut Vec<(usize, usize)>,
    e: &Expr,
) -> Result<(), NameFault>
    ensures { Judges found.old.items (reads (env_of scopes.now) (view e.now)) result found.new.items }
{
    match e {
        Expr::Number(_) => Ok(()),
        Expr::Text(_) => Ok(()),
        Expr::True => Ok(()),
        Expr::False => Ok(()),
        Expr::Null => Ok(()),
        Expr::Undefined => Ok(()),
        Expr::Name(name) => read(scopes, found, name),
        Expr::Round(inner) => expr(scopes, found, inner.get()),
        Expr::Unary(_, operand) => expr(scopes, found, operand.get()),
        Expr::List(items, _) => exprs(scopes, found, items.as_slice()),
        Expr::Object(items, _) => props(scopes, found, items.as_slice()),
        Expr::Member(base, accesses) => {
            expr(scopes, found, base.get())?;
            members(scopes, found, accesses.as_slice())
        }
        Expr::Chain(_, first, links) => {
            expr(scopes, found, first.get())?;
            if links.is_empty() {
                return nothing(scopes, found);
            }
            operands(scopes, found, links.as_slice())
        }
        Expr::Choice(test, then, other) => {
            expr(scopes, found, test.get())?;
            expr(scopes, found, then.get())?;
            expr(scopes, found, other.get())
        }
    }
}

#[cycle(uses)]
fn exprs(
    scopes: &Scopes<'_>,
    found: &mut Vec<(usize, usize)>,
    items: &[Expr],
) -> Result<(), NameFault>
    ensures { Judges found.old.items (all_reads (env_of scopes.now) items.now) result found.new.items }
{
    for e in items {
        expr(scopes, found, e)?;
    }
    Ok(())
}

#[cycle(uses)]
fn props(
    scopes: &Scopes<'_>,
    found: &mut Vec<(usize, usize)>,
    items: &[(Label, Expr)],
) -> Result<(), NameFault>
    ensures { Judges found.old.items (all_props (env_of scopes.now) items.now) result found.new.items }
{
    for p in items {
        prop(scopes, found, &p.0, &p.1)?;
    }
    Ok(())
}

#[cycle(uses)]
fn prop(
    scopes: &Scopes<'_>,
    found: &mut Vec<(usize, usize)>,
    label: &Label,
    value: &Expr,
) -> Result<(), NameFault>
    ensures { Judges found.old.items (prop_reads (env_of scopes.now) (label.now, value.now)) result found.new.items }
{
    match label {
        Label::Short => short(scopes, found, value),
        Label::Name(_) => expr(scopes, found, value),
        Label::Reserved(_) => expr(scopes, found, value),
        Label::Quoted(_) => expr(scopes, found, value),
    }
}

/// A name that stands alone in an object literal.
fn short(scopes: &Scopes<'_>, found: &mut Vec<(usize, usize)>, e: &Expr) -> Result<(), NameFault>
    ensures { Judges found.old.items (map (judged_read (env_of scopes.now)) (uses_prop (short_of (view e.now)))) result found.new.items }
{
    match e {
        Expr::Name(name) => read(scopes, found, name),
        Expr::Number(_) => nothing(scopes, found),
        Expr::Text(_) => nothing(scopes, found),
        Expr::True => nothing(scopes, found),
        Expr::False => nothing(scopes, found),
        Expr::Null => nothing(scopes, found),
        Expr::Undefined => nothing(scopes, found),
        Expr::Round(_) => nothing(scopes, found),
        Expr::List(_, _) => nothing(scopes, found),
        Expr::Object(_, _) => nothing(scopes, found),
        Expr::Member(_, _) => nothing(scopes, found),
        Expr::Unary(_, _) => nothing(scopes, found),
        Expr::Chain(_, _, _) => nothing(scopes, found),
        Expr::Choice(_, _, _) => nothing(scopes, found),
    }
}

#[cycle(uses)]
fn members(
    scopes: &Scopes<'_>,
    found: &mut Vec<(usize, usize)>,
    accesses: &[(Access, Items<Expr>)],
) -> Result<(), NameFault>
    ensures { Judges found.old.items (all_accesses (env_of scopes.now) accesses.now) result found.new.items }
{
    for a in accesses {
        let index = a.1.as_slice();
        if !is_index(&a.0) || index.len() != 1 {
            continue;
        }
        expr(scopes, found, &index[0])?;
    }
    Ok(())
}

#[cycle(uses)]
fn operands(
    scopes: &Scopes<'_>,
    found: &mut Vec<(usize, usize)>,
    links: &[(Sign, Expr)],
) -> Result<(), NameFault>
    ensures { Judges found.old.items (all_links (env_of scopes.now) links.now) result found.new.items }
{
    for link in links {
        expr(scopes, found, &link.1)?;
    }
    Ok(())
}

fn is_index(access: &Access) -> bool
    ensures { result ≡ is_index access.now }
{
    match access {
        Access::Dot(_) => false,
        Access::Index => true,
    }
}
