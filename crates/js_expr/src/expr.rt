//! Expressions. Each rule takes the function that reads what stands one level down, so that each is proved by itself.

ghost use Rattle.std.specs.Prelude.{◌≡◌, ◌<◌, ◌≤◌, ◌-◌, ◌+◌, ◌^◌, Some, None, false, IfOk, IsTrue};
ghost use Rattle.script_tree.specs.View.{view};
ghost use Rattle.script_grammar.specs.Sources.{toks};
ghost use Rattle.js_expr.specs.Reading.{Reads};
ghost use Rattle.js_expr.specs.Next.{linked, made, text_next};
ghost use Rattle.script_parser.specs.Steps.{first};
ghost use Rattle.script_parser.specs.Tests.{sees, name_of, is_some};
ghost use Rattle.script_text.specs.declared.sign.Sign.TheVariants.{OpenRound, OpenSquare, OpenBrace};
ghost use Rattle.js_expr.specs.Lists.{Forward, links_view, suffixes_view, one_suffix, elems_view, props_view, one_prop, one_link, links_at, link_at, props_at, prop_at, objected_at, valued_at};
ghost use Rattle.js_expr.specs.Nests.{Nests, rule, branches_view, branches_rule};
ghost use Rattle.script_grammar.specs.Trees.{Choice};
ghost use Rattle.script_parser.specs.Parser.{below, expr as expr_rule, chain as chain_rule, unary as unary_rule, post as post_rule, suffixes as suffixes_rule, suffix as suffix_rule, index as index_rule, dot as dot_rule, atom as atom_rule, rounded, listed, elems as elems_rule};
ghost use Rattle.script_parser.proofs.Accept.{under};

use crate::source::{Source, Stop};
use script_text::Sign;
use script_tree::{Access, Expr, Label};
use sqlite_items::{Boxed, Items};
use std::alloc::{AllocError, Global};

/// The rules at one level of a source.
#[derive(Clone, Copy)]
pub(crate) struct Rules<'a, F> {
    pub alloc: Global,
    pub source: Source<'a>,
    /// How many levels are left.
    pub depth: usize,
    /// Reads a whole expression, or an operand with the signs before it, with so many levels left.
    pub read: F,
}

impl<F: Fn(Global, Source<'_>, usize, usize, bool) -> Result<(Expr, usize), Stop>> Rules<'_, F> {
    /// What stands one level down.
    fn inner(&self, at: usize, whole: bool) -> Result<(Expr, usize), Stop>
        requires left { 0 < self.now.depth }
        requires nests { Nests self.now.depth (F.pre self.now.read) (F.post self.now.read) }
        ensures is { Reads view (rule (self.now.depth - 1) whole) self.now.source.bytes.now self.now.source.tokens.now at result }
        ensures forward { Forward at result }
    {
        (self.read)(self.alloc, self.source, at, self.depth - 1, whole)
    }

    /// An expression: a chain, or a choice by one.
    #[tactic(auto, using(crate::proofs::Rules::choice_deep, crate::proofs::Rules::choice_in, crate::proofs::Rules::choice_no))]
    pub(crate) fn expr(&self, at: usize) -> Result<(Expr, usize), Stop>
        requires nests { Nests self.now.depth (F.pre self.now.read) (F.post self.now.read) }
        ensures is { Reads view (expr_rule (below self.now.depth)) self.now.source.bytes.now self.now.source.tokens.now at result }
        ensures forward { Forward at result }
    {
        let (test, at) = self.chain(at, 6)?;
        if !self.source.sees(at, Sign::Question) {
            return Ok((test, at));
        }
        if self.depth == 0 {
            return Err(Stop::TooNested(at));
        }
        let ((then, other), at) = self.branches(at)?;
        Ok((choice(self.alloc, test, then, other)?, at))
    }

    /// The two branches of a choice.
    fn branches(&self, at: usize) -> Result<((Expr, Expr), usize), Stop>
        requires left { 0 < self.now.depth }
        requires nests { Nests self.now.depth (F.pre self.now.read) (F.post self.now.read) }
        ensures is { Reads branches_view (branches_rule (under (self.now.depth - 1))) self.now.source.bytes.now self.now.source.tokens.now at result }
        ensures forward { Forward at result }
    {
        let at = self.source.expect(at, Sign::Question)?;
        let (then, at) = self.inner(at, true)?;
        let at = self.source.expect(at, Sign::Colon)?;
        let (other, at) = self.inner(at, true)?;
        Ok(((then, other), at))
    }

    /// The chains of the operators of the first levels.
    #[cycle(chains)]
    #[tactic(auto, using(crate::proofs::Rules::chain_none, crate::proofs::Rules::chain_some, crate::proofs::Rules::chained_is, crate::proofs::Rules::chained_none, script_tree::proofs::Views::view_chain))]
    fn chain(&self, at: usize, level: usize) -> Result<(Expr, usize), Stop>
        requires level { level ≤ 6 }
        requires nests { Nests self.now.depth (F.pre self.now.read) (F.post self.now.read) }
        ensures is { Reads view (chain_rule (below self.now.depth) level) self.now.source.bytes.now self.now.source.tokens.now at result }
        ensures forward { Forward at result }
    {
        if level == 0 {
            return self.unary(at);
        }
        let (operand, at) = self.chain(at, level - 1)?;
        let (links, at) = self.links(at, level - 1)?;
        if links.is_empty() {
            return Ok((operand, at));
        }
        Ok((
            Expr::Chain(level - 1, Boxed::new(self.alloc, operand)?, links),
            at,
        ))
    }

    /// The operators of one level with their right operands.
    #[cycle(chains)]
    #[tactic(auto, using(crate::proofs::Rules::links_start, crate::proofs::Rules::links_end, crate::proofs::Rules::links_on, crate::proofs::Rules::links_fault))]
    fn links(&self, at: usize, level: usize) -> Result<(Items<(Sign, Expr)>, usize), Stop>
        requires level { level < 6 }
        requires nests { Nests self.now.depth (F.pre self.now.read) (F.post self.now.read) }
        ensures is { Reads links_view (links_at self.now.depth level) self.now.source.bytes.now self.now.source.tokens.now at result }
        ensures forward { Forward at result }
    {
        let mut found = Vec::new(self.alloc);
        let mut next = at;
        while let Some(sign) = self.source.link_sign(next, level) {
            let (link, after) = self.link(next, sign, level)?;
            found.push(link)?;
            next = after;
        }
        Ok((Items::from_vec(found), next))
    }

    /// An operator of a level and its right operand.
    #[cycle(chains)]
    #[tactic(auto, using(crate::proofs::Rules::link_ok, crate::proofs::Rules::link_err))]
    fn link(&self, at: usize, sign: Sign, level: usize) -> Result<((Sign, Expr), usize), Stop>
        requires level { level < 6 }
        requires next { at + 1 < 2 ^ 64 }
        requires sign { Some sign ≡ linked level (toks self.now.source.bytes.now self.now.source.tokens.now at) }
        requires nests { Nests self.now.depth (F.pre self.now.read) (F.post self.now.read) }
        ensures is { Reads one_link (link_at self.now.depth level) self.now.source.bytes.now self.now.source.tokens.now at result }
        ensures forward { IfOk result (λ x. at < x.1) }
    {
        let (operand, at) = self.chain(at + 1, level)?;
        Ok(((sign, operand), at))
    }

    /// A sign and its operand, or what stands alone.
    #[tactic(auto, using(crate::proofs::Rules::unary_deep, crate::proofs::Rules::unary_ok, crate::proofs::Rules::unary_err, crate::proofs::Rules::unary_post, script_tree::proofs::Views::view_unary))]
    pub(crate) fn unary(&self, at: usize) -> Result<(Expr, usize), Stop>
        requires nests { Nests self.now.depth (F.pre self.now.read) (F.post self.now.read) }
        ensures is { Reads view (unary_rule (below self.now.depth)) self.now.source.bytes.now self.now.source.tokens.now at result }
        ensures forward { Forward at result }
    {
        let Some(sign) = self.source.unary_sign(at) else {
            return self.post(at);
        };
        if self.depth == 0 {
            return Err(Stop::TooNested(at));
        }
        let (operand, at) = self.inner(at + 1, false)?;
        Ok((Expr::Unary(sign, Boxed::new(self.alloc, operand)?), at))
    }

    /// An atom with its members.
    #[tactic(auto, using(crate::proofs::Rules::member_is, crate::proofs::Rules::member_none, script_tree::proofs::Views::view_member))]
    pub(crate) fn post(&self, at: usize) -> Result<(Expr, usize), Stop>
        requires nests { Nests self.now.depth (F.pre self.now.read) (F.post self.now.read) }
        ensures is { Reads view (post_rule (below self.now.depth)) self.now.source.bytes.now self.now.source.tokens.now at result }
        ensures forward { Forward at result }
    {
        let (base, at) = self.atom(at)?;
        let (suffixes, at) = self.suffixes(at)?;
        if suffixes.is_empty() {
            return Ok((base, at));
        }
        Ok((Expr::Member(Boxed::new(self.alloc, base)?, suffixes), at))
    }

    /// The members that follow one another.
    #[tactic(auto, using(crate::proofs::Rules::suffixes_start, crate::proofs::Rules::suffixes_end, crate::proofs::Rules::suffixes_on, crate::proofs::Rules::suffixes_fault))]
    fn suffixes(&self, at: usize) -> Result<(Items<(Access, Items<Expr>)>, usize), Stop>
        requires nests { Nests self.now.depth (F.pre self.now.read) (F.post self.now.read) }
        ensures is { Reads suffixes_view (suffixes_rule (below self.now.depth)) self.now.source.bytes.now self.now.source.tokens.now at result }
        ensures forward { Forward at result }
    {
        let mut found = Vec::new(self.alloc);
        let mut next = at;
        'more: while self.source.begins_suffix(next) {
            let (suffix, after) = self.suffix(next)?;
            found.push(suffix)?;
            next = after;
        }
        Ok((Items::from_vec(found), next))
    }

    /// One member: its name behind a dot, or its index between brackets.
    #[tactic(auto, using(crate::proofs::Rules::suffix_deep, crate::proofs::Rules::suffix_index, crate::proofs::Rules::suffix_dot))]
    fn suffix(&self, at: usize) -> Result<((Access, Items<Expr>), usize), Stop>
        requires nests { Nests self.now.depth (F.pre self.now.read) (F.post self.now.read) }
        ensures is { Reads one_suffix (suffix_rule (below self.now.depth)) self.now.source.bytes.now self.now.source.tokens.now at result }
        ensures forward { IfOk result (λ x. at < x.1) }
    {
        if !self.source.sees(at, Sign::OpenSquare) {
            return self.dot(at);
        }
        if self.depth == 0 {
            return Err(Stop::TooNested(at));
        }
        let (suffix, at) = self.index(at)?;
        Ok((suffix, at))
    }

    fn index(&self, at: usize) -> Result<((Access, Items<Expr>), usize), Stop>
        requires left { 0 < self.now.depth }
        requires nests { Nests self.now.depth (F.pre self.now.read) (F.post self.now.read) }
        ensures is { Reads one_suffix (index_rule (under (self.now.depth - 1))) self.now.source.bytes.now self.now.source.tokens.now at result }
        ensures forward { IfOk result (λ x. at < x.1) }
    {
        let at = self.source.expect(at, Sign::OpenSquare)?;
        let (index, at) = self.inner(at, true)?;
        let at = self.source.expect(at, Sign::CloseSquare)?;
        let mut operands = Items::new(self.alloc);
        operands.push(index)?;
        Ok(((Access::Index, operands), at))
    }

    fn dot(&self, at: usize) -> Result<((Access, Items<Expr>), usize), Stop>
        ensures is { Reads one_suffix (dot_rule) self.now.source.bytes.now self.now.source.tokens.now at result }
        ensures forward { IfOk result (λ x. at < x.1) }
    {
        let at = self.source.expect(at, Sign::Dot)?;
        let (label, at) = self.source.label(self.alloc, at)?;
        Ok(((Access::Dot(label), Items::new(self.alloc)), at))
    }

    /// What stands alone: a bracket, a literal or a name.
    #[tactic(auto, using(crate::proofs::Rules::atom_round_deep, crate::proofs::Rules::atom_round, crate::proofs::Rules::atom_list_deep, crate::proofs::Rules::atom_list, crate::proofs::Rules::atom_object_deep, crate::proofs::Rules::atom_object, crate::proofs::Rules::atom_name, crate::proofs::Rules::atom_other, script_tree::proofs::Views::view_name))]
    fn atom(&self, at: usize) -> Result<(Expr, usize), Stop>
        requires nests { Nests self.now.depth (F.pre self.now.read) (F.post self.now.read) }
        ensures is { Reads view (atom_rule (below self.now.depth)) self.now.source.bytes.now self.now.source.tokens.now at result }
        ensures forward { Forward at result }
    {
        if self.source.sees(at, Sign::OpenRound) {
            if self.depth == 0 {
                return Err(Stop::TooNested(at));
            }
            let (inner, at) = self.round(at)?;
            return Ok((inner, at));
        }
        if self.source.sees(at, Sign::OpenSquare) {
            if self.depth == 0 {
                return Err(Stop::TooNested(at));
            }
            let (list, at) = self.list(at)?;
            return Ok((list, at));
        }
        if self.source.sees(at, Sign::OpenBrace) {
            if self.depth == 0 {
                return Err(Stop::TooNested(at));
            }
            let (object, at) = self.object(at)?;
            return Ok((object, at));
        }
        self.word(at)
    }

    /// A name or a literal.
    #[tactic(auto, using(crate::proofs::Rules::atom_name, crate::proofs::Rules::atom_other, script_tree::proofs::Views::view_name))]
    fn word(&self, at: usize) -> Result<(Expr, usize), Stop>
        requires round { sees OpenRound (first (toks self.now.source.bytes.now self.now.source.tokens.now at)) ≡ false }
        requires square { sees OpenSquare (first (toks self.now.source.bytes.now self.now.source.tokens.now at)) ≡ false }
        requires brace { sees OpenBrace (first (toks self.now.source.bytes.now self.now.source.tokens.now at)) ≡ false }
        ensures is { Reads view (atom_rule (below self.now.depth)) self.now.source.bytes.now self.now.source.tokens.now at result }
        ensures forward { Forward at result }
    {
        if self.source.is_name(at) {
            let (name, at) = self.source.name(self.alloc, at)?;
            return Ok((Expr::Name(name), at));
        }
        self.source.literal(self.alloc, at)
    }

    /// An expression between round brackets.
    #[tactic(auto, using(script_tree::proofs::Views::view_round))]
    fn round(&self, at: usize) -> Result<(Expr, usize), Stop>
        requires left { 0 < self.now.depth }
        requires nests { Nests self.now.depth (F.pre self.now.read) (F.post self.now.read) }
        ensures is { Reads view (rounded (under (self.now.depth - 1))) self.now.source.bytes.now self.now.source.tokens.now at result }
        ensures forward { Forward at result }
    {
        let at = self.source.expect(at, Sign::OpenRound)?;
        let (inner, at) = self.inner(at, true)?;
        let at = self.source.expect(at, Sign::CloseRound)?;
        Ok((Expr::Round(Boxed::new(self.alloc, inner)?), at))
    }

    /// A list literal.
    #[tactic(auto, using(script_tree::proofs::Views::view_list))]
    fn list(&self, at: usize) -> Result<(Expr, usize), Stop>
        requires left { 0 < self.now.depth }
        requires nests { Nests self.now.depth (F.pre self.now.read) (F.post self.now.read) }
        ensures is { Reads view (listed (under (self.now.depth - 1))) self.now.source.bytes.now self.now.source.tokens.now at result }
        ensures forward { Forward at result }
    {
        let at = self.source.expect(at, Sign::OpenSquare)?;
        let ((elements, comma), at) = self.elements(at)?;
        let at = self.source.expect(at, Sign::CloseSquare)?;
        Ok((Expr::List(elements, comma), at))
    }

    /// The elements, and whether a comma stands behind the last.
    #[tactic(auto, using(crate::proofs::Rules::elems_start, crate::proofs::Rules::elems_end, crate::proofs::Rules::elems_last, crate::proofs::Rules::elems_on, crate::proofs::Rules::elems_fault))]
    fn elements(&self, at: usize) -> Result<((Items<Expr>, bool), usize), Stop>
        requires left { 0 < self.now.depth }
        requires nests { Nests self.now.depth (F.pre self.now.read) (F.post self.now.read) }
        ensures is { Reads elems_view (elems_rule (under (self.now.depth - 1))) self.now.source.bytes.now self.now.source.tokens.now at result }
        ensures forward { Forward at result }
    {
        let mut found = Vec::new(self.alloc);
        let mut next = at;
        'more: while !self.source.sees(next, Sign::CloseSquare) {
            let (element, after) = self.inner(next, true)?;
            found.push(element)?;
            if !self.source.sees(after, Sign::Comma) {
                return Ok(((Items::from_vec(found), false), after));
            }
            next = after + 1;
        }
        Ok(((Items::from_vec(found), true), next))
    }

    /// An object literal.
    #[tactic(auto, using(script_tree::proofs::Views::view_object))]
    fn object(&self, at: usize) -> Result<(Expr, usize), Stop>
        requires left { 0 < self.now.depth }
        requires nests { Nests self.now.depth (F.pre self.now.read) (F.post self.now.read) }
        ensures is { Reads view (objected_at (self.now.depth - 1)) self.now.source.bytes.now self.now.source.tokens.now at result }
        ensures forward { Forward at result }
    {
        let at = self.source.expect(at, Sign::OpenBrace)?;
        let ((members, comma), at) = self.members(at)?;
        let at = self.source.expect(at, Sign::CloseBrace)?;
        Ok((Expr::Object(members, comma), at))
    }

    /// The members of an object literal, and whether a comma stands behind the last.
    #[tactic(auto, using(crate::proofs::Rules::props_start, crate::proofs::Rules::props_end, crate::proofs::Rules::props_last, crate::proofs::Rules::props_on, crate::proofs::Rules::props_fault))]
    fn members(&self, at: usize) -> Result<((Items<(Label, Expr)>, bool), usize), Stop>
        requires left { 0 < self.now.depth }
        requires nests { Nests self.now.depth (F.pre self.now.read) (F.post self.now.read) }
        ensures is { Reads props_view (props_at (self.now.depth - 1)) self.now.source.bytes.now self.now.source.tokens.now at result }
        ensures forward { Forward at result }
    {
        let mut found = Vec::new(self.alloc);
        let mut next = at;
        'more: while !self.source.sees(next, Sign::CloseBrace) {
            let (member, after) = self.member(next)?;
            found.push(member)?;
            if !self.source.sees(after, Sign::Comma) {
                return Ok(((Items::from_vec(found), false), after));
            }
            next = after + 1;
        }
        Ok(((Items::from_vec(found), true), next))
    }

    /// A member of an object literal.
    #[tactic(auto, using(crate::proofs::Props::prop_text, crate::proofs::Rules::reads_same))]
    fn member(&self, at: usize) -> Result<((Label, Expr), usize), Stop>
        requires left { 0 < self.now.depth }
        requires nests { Nests self.now.depth (F.pre self.now.read) (F.post self.now.read) }
        ensures is { Reads one_prop (prop_at (self.now.depth - 1)) self.now.source.bytes.now self.now.source.tokens.now at result }
        ensures forward { Forward at result }
    {
        if self.source.is_name(at) {
            let (member, at) = self.named_member(at)?;
            return Ok((member, at));
        }
        match self.source.text(self.alloc, at)? {
            Some(text) => {
                let (member, at) = self.valued(at + 1, Label::Quoted(text))?;
                Ok((member, at))
            }
            None => self.worded_member(at),
        }
    }

    /// A member whose key is a name, or a name that stands alone.
    #[tactic(auto, using(crate::proofs::Props::prop_named, crate::proofs::Props::prop_short, crate::proofs::Props::prop_no_name))]
    fn named_member(&self, at: usize) -> Result<((Label, Expr), usize), Stop>
        requires left { 0 < self.now.depth }
        requires name { IsTrue (is_some (made name_of (first (toks self.now.source.bytes.now self.now.source.tokens.now at)))) }
        requires nests { Nests self.now.depth (F.pre self.now.read) (F.post self.now.read) }
        ensures is { Reads one_prop (prop_at (self.now.depth - 1)) self.now.source.bytes.now self.now.source.tokens.now at result }
        ensures forward { Forward at result }
    {
        let (name, next) = self.source.name(self.alloc, at)?;
        if self.source.sees(next, Sign::Colon) {
            let (member, next) = self.valued(next, Label::Name(name))?;
            Ok((member, next))
        } else {
            Ok(((Label::Short, Expr::Name(name)), next))
        }
    }

    /// A member whose key is a word that is no name.
    #[tactic(auto, using(crate::proofs::Props::prop_reserved, crate::proofs::Props::prop_none))]
    fn worded_member(&self, at: usize) -> Result<((Label, Expr), usize), Stop>
        requires left { 0 < self.now.depth }
        requires name { is_some (made name_of (first (toks self.now.source.bytes.now self.now.source.tokens.now at))) ≡ false }
        requires text { None ≡ text_next (toks self.now.source.bytes.now self.now.source.tokens.now at) }
        requires nests { Nests self.now.depth (F.pre self.now.read) (F.post self.now.read) }
        ensures is { Reads one_prop (prop_at (self.now.depth - 1)) self.now.source.bytes.now self.now.source.tokens.now at result }
        ensures forward { Forward at result }
    {
        let Some(word) = self.source.reserved(at) else {
            return Err(Stop::Unexpected(at));
        };
        let (member, at) = self.valued(at + 1, Label::Reserved(word))?;
        Ok((member, at))
    }

    /// The value behind this key and a colon.
    fn valued(&self, at: usize, key: Label) -> Result<((Label, Expr), usize), Stop>
        requires left { 0 < self.now.depth }
        requires nests { Nests self.now.depth (F.pre self.now.read) (F.post self.now.read) }
        ensures is { Reads one_prop (valued_at (self.now.depth - 1) key) self.now.source.bytes.now self.now.source.tokens.now at result }
        ensures forward { Forward at result }
    {
        let at = self.source.expect(at, Sign::Colon)?;
        let (value, at) = self.inner(at, true)?;
        Ok(((key, value), at))
    }
}

#[tactic(auto, using(script_tree::proofs::Views::view_choice))]
fn choice(alloc: Global, test: Expr, then: Expr, other: Expr) -> Result<Expr, AllocError>
    ensures { IfOk result (λ e. view e ≡ Choice (view test) (view then) (view other)) }
{
    let test = Boxed::new(alloc, test)?;
    let then = Boxed::new(alloc, then)?;
    let other = Boxed::new(alloc, other)?;
    Ok(Expr::Choice(test, then, other))
}

/// A whole expression, or an operand with the signs before it, with so many levels left.
fn read(
    alloc: Global,
    source: Source<'_>,
    at: usize,
    depth: usize,
    whole: bool,
) -> Result<(Expr, usize), Stop>
    ensures is { Reads view (rule depth whole) source.entry.bytes.now source.entry.tokens.now at result }
    ensures forward { Forward at result }
{
    let rules = Rules {
        alloc,
        source,
        depth,
        read,
    };
    if whole {
        let (expr, at) = rules.expr(at)?;
        Ok((expr, at))
    } else {
        let (operand, at) = rules.unary(at)?;
        Ok((operand, at))
    }
}

/// The expression at a place, as far as the tokens go on with it, and the place behind it, where `depth` more levels
/// may be opened. Otherwise `Unexpected` at the first token that cannot stand there, or `TooNested` at the first that
/// opens a level too many, whichever stands first. `Memory` may be answered in place of each of these.
pub fn read_expr(
    alloc: Global,
    source: Source<'_>,
    at: usize,
    depth: usize,
) -> Result<(Expr, usize), Stop>
    ensures is { Reads view (expr_rule (below depth)) source.entry.bytes.now source.entry.tokens.now at result }
    ensures forward { Forward at result }
{
    let (expr, at) = read(alloc, source, at, depth, true)?;
    Ok((expr, at))
}

/// A name, a literal or what stands in brackets, with the members and indices behind it, and the place behind them.
/// Levels and faults are those of `read_expr`.
pub fn read_post(
    alloc: Global,
    source: Source<'_>,
    at: usize,
    depth: usize,
) -> Result<(Expr, usize), Stop>
    ensures is { Reads view (post_rule (below depth)) source.entry.bytes.now source.entry.tokens.now at result }
    ensures forward { Forward at result }
{
    let rules = Rules {
        alloc,
        source,
        depth,
        read,
    };
    let (post, at) = rules.post(at)?;
    Ok((post, at))
}
