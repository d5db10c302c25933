//! Statements and declarations that hold no other.

ghost use Rattle.std.specs.Prelude.{◌≡◌, ◌<◌, ◌≤◌, ◌-◌, length, IfOk, IfErr, IsTrue};
ghost use Rattle.script_grammar.specs.Rules.{is_member, is_target};
ghost use Rattle.script_parser.specs.Steps.{first};
ghost use Rattle.script_parser.specs.Parser.{below, expr as expr_rule, post as post_rule};
ghost use Rattle.script_tree.specs.View.{view, item_view};
ghost use Rattle.script_grammar.specs.Sources.{toks};
ghost use Rattle.js_expr.specs.Reading.{Reads, Fails};
ghost use Rattle.js_expr.specs.Lists.{Forward};
ghost use Rattle.js_syntax.specs.Statements.{no_level, test_at, const_at, let_at, return_at, error_at, throw_at, delete_at, assign_at, item_next};

use js_expr::{Source, Stop, read_expr, read_post};
use script_text::{Reserved, Sign};
use script_tree::{Expr, Stmt};
use std::alloc::Global;

/// A source, and how many levels are left.
#[derive(Clone, Copy)]
pub(crate) struct Level<'a> {
    pub alloc: Global,
    pub source: Source<'a>,
    pub depth: usize,
}

impl Level<'_> {
    /// An expression.
    pub(crate) fn expr(&self, at: usize) -> Result<(Expr, usize), Stop>
        ensures is { Reads view (expr_rule (below self.now.depth)) self.now.source.bytes.now self.now.source.tokens.now at result }
        ensures forward { Forward at result }
    {
        let (expr, at) = read_expr(self.alloc, self.source, at, self.depth)?;
        Ok((expr, at))
    }

    /// An expression one level down.
    pub(crate) fn inner_expr(&self, at: usize) -> Result<(Expr, usize), Stop>
        requires { 0 < self.now.depth }
        ensures is { Reads view (expr_rule (below (self.now.depth - 1))) self.now.source.bytes.now self.now.source.tokens.now at result }
        ensures forward { Forward at result }
    {
        let (expr, at) = read_expr(self.alloc, self.source, at, self.depth - 1)?;
        Ok((expr, at))
    }

    /// Stops where no level is left: where this sign comes next, because it would open one, and else because
    /// another token stands in its place.
    #[tactic(auto, using(crate::proofs::Opening::too_deep_sign, crate::proofs::Opening::too_deep_other))]
    pub(crate) fn opening(&self, at: usize, sign: Sign) -> Result<(), Stop>
        ensures ok { IfOk result (λ _. 0 < self.now.depth) }
        ensures full { IfErr result (λ f. self.now.depth ≡ 0) }
        ensures err { IfErr result (λ f. Fails self.now.source.bytes.now self.now.source.tokens.now f (no_level sign (toks self.now.source.bytes.now self.now.source.tokens.now at))) }
    {
        if self.depth > 0 {
            Ok(())
        } else if self.source.sees(at, sign) {
            Err(Stop::TooNested(at))
        } else {
            Err(Stop::Unexpected(at))
        }
    }

    /// Whether a token comes next that closes no block.
    #[tactic(auto, using(crate::proofs::Statements::item_is, crate::proofs::Statements::item_ends))]
    pub(crate) fn begins_item(&self, at: usize) -> bool
        ensures is { result ≡ item_next (first (toks self.now.source.bytes.now self.now.source.tokens.now at)) }
        ensures within { IsTrue result → at < length self.now.source.tokens.now }
    {
        at < self.source.tokens.len() && !self.source.sees(at, Sign::CloseBrace)
    }

    /// The test of a conditional.
    pub(crate) fn test(&self, at: usize) -> Result<(Expr, usize), Stop>
        requires { 0 < self.now.depth }
        ensures is { Reads view (test_at (self.now.depth - 1)) self.now.source.bytes.now self.now.source.tokens.now at result }
        ensures forward { IfOk result (λ x. at < x.1) }
    {
        let at = self.source.expect(at, Sign::OpenRound)?;
        let (test, at) = self.inner_expr(at)?;
        let at = self.source.expect(at, Sign::CloseRound)?;
        Ok((test, at))
    }

    /// `const` with its value.
    #[tactic(auto, using(script_tree::proofs::Statements::view_const))]
    pub(crate) fn constant(&self, at: usize) -> Result<(Stmt, usize), Stop>
        ensures is { Reads item_view (const_at self.now.depth) self.now.source.bytes.now self.now.source.tokens.now at result }
        ensures forward { IfOk result (λ x. at < x.1) }
    {
        let at = self.source.keyword(at, Reserved::Const)?;
        let (name, at) = self.source.name(self.alloc, at)?;
        let at = self.source.expect(at, Sign::Assign)?;
        let (value, at) = self.expr(at)?;
        let at = self.source.expect(at, Sign::Semicolon)?;
        Ok((Stmt::Const(name, value), at))
    }

    /// `let`, with or without a value.
    #[tactic(auto, using(script_tree::proofs::Statements::view_let))]
    pub(crate) fn variable(&self, at: usize) -> Result<(Stmt, usize), Stop>
        ensures is { Reads item_view (let_at self.now.depth) self.now.source.bytes.now self.now.source.tokens.now at result }
        ensures forward { IfOk result (λ x. at < x.1) }
    {
        let at = self.source.keyword(at, Reserved::Let)?;
        let (name, at) = self.source.name(self.alloc, at)?;
        if !self.source.sees(at, Sign::Assign) {
            let at = self.source.expect(at, Sign::Semicolon)?;
            return Ok((Stmt::Let(name, None), at));
        }
        let at = self.source.expect(at, Sign::Assign)?;
        let (value, at) = self.expr(at)?;
        let at = self.source.expect(at, Sign::Semicolon)?;
        Ok((Stmt::Let(name, Some(value)), at))
    }

    /// `return`, with or without a value.
    #[tactic(auto, using(script_tree::proofs::Statements::view_return))]
    pub(crate) fn returned(&self, at: usize) -> Result<(Stmt, usize), Stop>
        ensures is { Reads item_view (return_at self.now.depth) self.now.source.bytes.now self.now.source.tokens.now at result }
        ensures forward { IfOk result (λ x. at < x.1) }
    {
        let at = self.source.keyword(at, Reserved::Return)?;
        if self.source.sees(at, Sign::Semicolon) {
            let at = self.source.expect(at, Sign::Semicolon)?;
            return Ok((Stmt::Return(None), at));
        }
        let (value, at) = self.expr(at)?;
        let at = self.source.expect(at, Sign::Semicolon)?;
        Ok((Stmt::Return(Some(value)), at))
    }

    /// `throw` with a value or an error.
    #[tactic(auto, using(script_tree::proofs::Statements::view_throw, crate::proofs::Opening::error_deep, crate::proofs::Opening::error_in))]
    pub(crate) fn thrown(&self, at: usize) -> Result<(Stmt, usize), Stop>
        ensures is { Reads item_view (throw_at self.now.depth) self.now.source.bytes.now self.now.source.tokens.now at result }
        ensures forward { IfOk result (λ x. at < x.1) }
    {
        let at = self.source.keyword(at, Reserved::Throw)?;
        if !self.source.sees_word(at, Reserved::New) {
            let (value, at) = self.expr(at)?;
            let at = self.source.expect(at, Sign::Semicolon)?;
            return Ok((Stmt::Throw(value, false), at));
        }
        let at = self.source.keyword(at, Reserved::New)?;
        let at = self.source.keyword(at, Reserved::Error)?;
        self.opening(at, Sign::OpenRound)?;
        let (error, at) = self.error(at)?;
        Ok((error, at))
    }

    /// What an error that is thrown says.
    #[tactic(auto, using(script_tree::proofs::Statements::view_throw))]
    fn error(&self, at: usize) -> Result<(Stmt, usize), Stop>
        requires { 0 < self.now.depth }
        ensures is { Reads item_view (error_at (self.now.depth - 1)) self.now.source.bytes.now self.now.source.tokens.now at result }
        ensures forward { IfOk result (λ x. at < x.1) }
    {
        let at = self.source.expect(at, Sign::OpenRound)?;
        let (text, at) = self.inner_expr(at)?;
        let at = self.source.expect(at, Sign::CloseRound)?;
        let at = self.source.expect(at, Sign::Semicolon)?;
        Ok((Stmt::Throw(text, true), at))
    }

    /// `delete` and a member.
    #[tactic(auto, using(script_tree::proofs::Statements::view_delete))]
    pub(crate) fn deleted(&self, at: usize) -> Result<(Stmt, usize), Stop>
        ensures is { Reads item_view (delete_at self.now.depth) self.now.source.bytes.now self.now.source.tokens.now at result }
        ensures forward { IfOk result (λ x. at < x.1) }
    {
        let at = self.source.keyword(at, Reserved::Delete)?;
        let (target, at) = read_post(self.alloc, self.source, at, self.depth)?;
        if !is_member(&target) {
            return Err(Stop::Unexpected(at));
        }
        let at = self.source.expect(at, Sign::Semicolon)?;
        Ok((Stmt::Delete(target), at))
    }

    /// An assignment, or an expression that stands alone.
    #[tactic(auto, using(script_tree::proofs::Statements::view_set, script_tree::proofs::Statements::view_do))]
    pub(crate) fn assigned(&self, at: usize) -> Result<(Stmt, usize), Stop>
        ensures is { Reads item_view (assign_at self.now.depth) self.now.source.bytes.now self.now.source.tokens.now at result }
        ensures forward { IfOk result (λ x. at < x.1) }
    {
        let (target, at) = self.expr(at)?;
        if !(is_target(&target) && self.source.sees(at, Sign::Assign)) {
            let at = self.source.expect(at, Sign::Semicolon)?;
            return Ok((Stmt::Do(target), at));
        }
        let at = self.source.expect(at, Sign::Assign)?;
        let (value, at) = self.expr(at)?;
        let at = self.source.expect(at, Sign::Semicolon)?;
        Ok((Stmt::Set(target, value), at))
    }
}

/// Whether this is a member, and so may be deleted.
#[tactic(auto, using(crate::proofs::Opening::member_seen))]
fn is_member(expr: &Expr) -> bool
    ensures { result ≡ is_member (view expr.now) }
{
    matches!(expr, Expr::Member(_, _))
}

/// Whether this may be assigned.
#[tactic(auto, using(crate::proofs::Opening::target_seen))]
fn is_target(expr: &Expr) -> bool
    ensures { result ≡ is_target (view expr.now) }
{
    matches!(expr, Expr::Name(_) | Expr::Member(_, _))
}
