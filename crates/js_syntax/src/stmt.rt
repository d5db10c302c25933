//! Blocks, conditionals, and statements of every form. Each rule takes the function that reads what stands one level
//! down, so that each is proved by itself.

ghost use Rattle.std.specs.Prelude.{◌≡◌, ◌<◌, ◌≤◌, ◌-◌, ◌+◌, ◌^◌, false, IfOk, IsTrue};
ghost use Rattle.script_text.specs.declared.sign.Sign.TheVariants.{OpenBrace, Semicolon};
ghost use Rattle.script_parser.specs.Steps.{first};
ghost use Rattle.script_parser.specs.Tests.{sees, sees_word};
ghost use Rattle.script_text.specs.declared.word.Reserved.TheVariants.{If, Else};
ghost use Rattle.script_tree.specs.View.{view, item_view};
ghost use Rattle.script_grammar.specs.Sources.{toks};
ghost use Rattle.js_expr.specs.Reading.{Reads};
ghost use Rattle.js_syntax.specs.Statements.{stmt_at, item_at, items_at, inner_at, block_at, test_at, else_at, arms_at, if_at, items_view};
ghost use Rattle.js_syntax.specs.NestsItems.{NestsItems, item_rule};

use crate::level::Level;
use js_expr::{Source, Stop};
use script_text::{Reserved, Sign};
use script_tree::{Expr, Stmt};
use sqlite_items::{Boxed, Items};
use std::alloc::Global;

/// The rules for statements at one level of a source.
#[derive(Clone, Copy)]
pub(crate) struct Statements<'a, F> {
    pub level: Level<'a>,
    /// Reads a statement or a declaration, or a statement alone, with so many levels left.
    pub read: F,
}

impl<F: Fn(Global, Source<'_>, usize, usize, bool) -> Result<(Stmt, usize), Stop>> Statements<
    '_,
    F,
> {
    /// What stands one level down.
    fn nested(&self, at: usize, declares: bool) -> Result<(Stmt, usize), Stop>
        requires left { 0 < self.now.level.depth }
        requires nests { NestsItems self.now.level.depth (F.pre self.now.read) (F.post self.now.read) }
        ensures is { Reads item_view (item_rule (self.now.level.depth - 1) declares) self.now.level.source.bytes.now self.now.level.source.tokens.now at result }
        ensures forward { IfOk result (λ x. at < x.1) }
    {
        (self.read)(
            self.level.alloc,
            self.level.source,
            at,
            self.level.depth - 1,
            declares,
        )
    }

    /// A declaration or a statement.
    #[tactic(auto, using(crate::proofs::Statements::item_const, crate::proofs::Statements::item_let, crate::proofs::Statements::item_plain))]
    pub(crate) fn item(&self, at: usize) -> Result<(Stmt, usize), Stop>
        requires nests { NestsItems self.now.level.depth (F.pre self.now.read) (F.post self.now.read) }
        ensures is { Reads item_view (item_at self.now.level.depth) self.now.level.source.bytes.now self.now.level.source.tokens.now at result }
        ensures forward { IfOk result (λ x. at < x.1) }
    {
        if self.level.source.sees_word(at, Reserved::Const) {
            let (constant, at) = self.level.constant(at)?;
            return Ok((constant, at));
        }
        if self.level.source.sees_word(at, Reserved::Let) {
            let (variable, at) = self.level.variable(at)?;
            return Ok((variable, at));
        }
        let (statement, at) = self.statement(at)?;
        Ok((statement, at))
    }

    /// A statement.
    #[tactic(auto, using(crate::proofs::Statements::stmt_block_deep, crate::proofs::Statements::stmt_block, crate::proofs::Statements::stmt_empty))]
    pub(crate) fn statement(&self, at: usize) -> Result<(Stmt, usize), Stop>
        requires nests { NestsItems self.now.level.depth (F.pre self.now.read) (F.post self.now.read) }
        ensures is { Reads item_view (stmt_at self.now.level.depth) self.now.level.source.bytes.now self.now.level.source.tokens.now at result }
        ensures forward { IfOk result (λ x. at < x.1) }
    {
        if self.level.source.sees(at, Sign::OpenBrace) {
            if self.level.depth == 0 {
                return Err(Stop::TooNested(at));
            }
            let (block, at) = self.block(at)?;
            return Ok((block, at));
        }
        if self.level.source.sees(at, Sign::Semicolon) {
            return Ok((Stmt::Empty, at + 1));
        }
        self.worded(at)
    }

    /// A statement that begins with its word, or with an expression.
    #[tactic(auto, using(crate::proofs::Statements::stmt_return, crate::proofs::Statements::stmt_throw, crate::proofs::Statements::stmt_delete, crate::proofs::Statements::stmt_other))]
    fn worded(&self, at: usize) -> Result<(Stmt, usize), Stop>
        requires brace { sees OpenBrace (first (toks self.now.level.source.bytes.now self.now.level.source.tokens.now at)) ≡ false }
        requires semicolon { sees Semicolon (first (toks self.now.level.source.bytes.now self.now.level.source.tokens.now at)) ≡ false }
        requires nests { NestsItems self.now.level.depth (F.pre self.now.read) (F.post self.now.read) }
        ensures is { Reads item_view (stmt_at self.now.level.depth) self.now.level.source.bytes.now self.now.level.source.tokens.now at result }
        ensures forward { IfOk result (λ x. at < x.1) }
    {
        if self.level.source.sees_word(at, Reserved::If) {
            return self.conditional(at);
        }
        if self.level.source.sees_word(at, Reserved::Return) {
            let (returned, at) = self.level.returned(at)?;
            return Ok((returned, at));
        }
        if self.level.source.sees_word(at, Reserved::Throw) {
            let (thrown, at) = self.level.thrown(at)?;
            return Ok((thrown, at));
        }
        if self.level.source.sees_word(at, Reserved::Delete) {
            let (deleted, at) = self.level.deleted(at)?;
            return Ok((deleted, at));
        }
        let (assigned, at) = self.level.assigned(at)?;
        Ok((assigned, at))
    }

    /// A conditional.
    #[tactic(auto, using(crate::proofs::Statements::stmt_if_deep, crate::proofs::Statements::stmt_if_in))]
    fn conditional(&self, at: usize) -> Result<(Stmt, usize), Stop>
        requires word { IsTrue (sees_word If (first (toks self.now.level.source.bytes.now self.now.level.source.tokens.now at))) }
        requires next { at + 1 < 2 ^ 64 }
        requires nests { NestsItems self.now.level.depth (F.pre self.now.read) (F.post self.now.read) }
        ensures is { Reads item_view (stmt_at self.now.level.depth) self.now.level.source.bytes.now self.now.level.source.tokens.now at result }
        ensures forward { IfOk result (λ x. at < x.1) }
    {
        let next = at + 1;
        self.level.opening(next, Sign::OpenRound)?;
        let (conditional, next) = self.branches(next)?;
        Ok((conditional, next))
    }

    /// What stands behind the word of a conditional.
    fn branches(&self, at: usize) -> Result<(Stmt, usize), Stop>
        requires left { 0 < self.now.level.depth }
        requires nests { NestsItems self.now.level.depth (F.pre self.now.read) (F.post self.now.read) }
        ensures is { Reads item_view (if_at (self.now.level.depth - 1)) self.now.level.source.bytes.now self.now.level.source.tokens.now at result }
        ensures forward { IfOk result (λ x. at < x.1) }
    {
        let (test, at) = self.level.test(at)?;
        let (conditional, at) = self.arms(at, test)?;
        Ok((conditional, at))
    }

    /// What stands behind this test: a statement, and another behind `else`.
    #[tactic(auto, using(script_tree::proofs::Statements::view_if_then))]
    fn arms(&self, at: usize, test: Expr) -> Result<(Stmt, usize), Stop>
        requires left { 0 < self.now.level.depth }
        requires nests { NestsItems self.now.level.depth (F.pre self.now.read) (F.post self.now.read) }
        ensures is { Reads item_view (arms_at (self.now.level.depth - 1) (view test)) self.now.level.source.bytes.now self.now.level.source.tokens.now at result }
        ensures forward { IfOk result (λ x. at < x.1) }
    {
        let (then, at) = self.boxed_arm(at)?;
        if self.level.source.sees_word(at, Reserved::Else) {
            return self.other(at, test, then);
        }
        Ok((Stmt::If(test, then, None), at))
    }

    /// What stands behind these: `else` and a statement.
    #[tactic(auto, using(crate::proofs::Statements::else_ok, crate::proofs::Statements::else_err))]
    fn other(&self, at: usize, test: Expr, then: Boxed<Stmt>) -> Result<(Stmt, usize), Stop>
        requires left { 0 < self.now.level.depth }
        requires next { at + 1 < 2 ^ 64 }
        requires word { IsTrue (sees_word Else (first (toks self.now.level.source.bytes.now self.now.level.source.tokens.now at))) }
        requires nests { NestsItems self.now.level.depth (F.pre self.now.read) (F.post self.now.read) }
        ensures is { Reads item_view (else_at (self.now.level.depth - 1) (view test) (item_view then)) self.now.level.source.bytes.now self.now.level.source.tokens.now at result }
        ensures forward { IfOk result (λ x. at < x.1) }
    {
        let (other, next) = self.boxed_arm(at + 1)?;
        Ok((Stmt::If(test, then, Some(other)), next))
    }

    /// A statement in a statement, ready to stand in one.
    fn boxed_arm(&self, at: usize) -> Result<(Boxed<Stmt>, usize), Stop>
        requires left { 0 < self.now.level.depth }
        requires nests { NestsItems self.now.level.depth (F.pre self.now.read) (F.post self.now.read) }
        ensures is { Reads item_view (inner_at (self.now.level.depth - 1)) self.now.level.source.bytes.now self.now.level.source.tokens.now at result }
        ensures forward { IfOk result (λ x. at < x.1) }
    {
        let (statement, at) = self.arm(at)?;
        Ok((Boxed::new(self.level.alloc, statement)?, at))
    }

    /// A statement in a statement. It opens a level by its first token; a block opens only that of its brace.
    #[tactic(auto, using(crate::proofs::Statements::inner_block, crate::proofs::Statements::inner_other))]
    fn arm(&self, at: usize) -> Result<(Stmt, usize), Stop>
        requires left { 0 < self.now.level.depth }
        requires nests { NestsItems self.now.level.depth (F.pre self.now.read) (F.post self.now.read) }
        ensures is { Reads item_view (inner_at (self.now.level.depth - 1)) self.now.level.source.bytes.now self.now.level.source.tokens.now at result }
        ensures forward { IfOk result (λ x. at < x.1) }
    {
        if self.level.source.sees(at, Sign::OpenBrace) {
            let (block, at) = self.block(at)?;
            return Ok((block, at));
        }
        let (statement, at) = self.nested(at, false)?;
        Ok((statement, at))
    }

    /// A block.
    #[tactic(auto, using(script_tree::proofs::Statements::view_block, crate::proofs::Statements::items_same))]
    fn block(&self, at: usize) -> Result<(Stmt, usize), Stop>
        requires left { 0 < self.now.level.depth }
        requires nests { NestsItems self.now.level.depth (F.pre self.now.read) (F.post self.now.read) }
        ensures is { Reads item_view (block_at (self.now.level.depth - 1)) self.now.level.source.bytes.now self.now.level.source.tokens.now at result }
        ensures forward { IfOk result (λ x. at < x.1) }
    {
        let at = self.level.source.expect(at, Sign::OpenBrace)?;
        let (items, at) = self.items(at)?;
        let at = self.level.source.expect(at, Sign::CloseBrace)?;
        Ok((Stmt::Block(items), at))
    }

    /// The items of a block.
    #[tactic(auto, using(crate::proofs::Statements::items_start, crate::proofs::Statements::items_end, crate::proofs::Statements::items_on, crate::proofs::Statements::items_fault))]
    pub(crate) fn items(&self, at: usize) -> Result<(Items<Stmt>, usize), Stop>
        requires left { 0 < self.now.level.depth }
        requires nests { NestsItems self.now.level.depth (F.pre self.now.read) (F.post self.now.read) }
        ensures is { Reads items_view (items_at (self.now.level.depth - 1)) self.now.level.source.bytes.now self.now.level.source.tokens.now at result }
        ensures forward { IfOk result (λ x. at ≤ x.1) }
    {
        let mut found = Vec::new(self.level.alloc);
        let mut next = at;
        'more: while self.level.begins_item(next) {
            let (item, after) = self.nested(next, true)?;
            found.push(item)?;
            next = after;
        }
        Ok((Items::from_vec(found), next))
    }
}

/// A statement or a declaration, or a statement alone, with so many levels left.
pub(crate) fn read_item(
    alloc: Global,
    source: Source<'_>,
    at: usize,
    depth: usize,
    declares: bool,
) -> Result<(Stmt, usize), Stop>
    ensures is { Reads item_view (item_rule depth declares) source.entry.bytes.now source.entry.tokens.now at result }
    ensures forward { IfOk result (λ x. at < x.1) }
{
    let rules = Statements {
        level: Level {
            alloc,
            source,
            depth,
        },
        read: read_item,
    };
    if declares {
        let (item, at) = rules.item(at)?;
        Ok((item, at))
    } else {
        let (statement, at) = rules.statement(at)?;
        Ok((statement, at))
    }
}
