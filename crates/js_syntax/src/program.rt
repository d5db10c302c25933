//! Reducers.

ghost use Rattle.std.specs.Prelude.{◌≡◌, ◌<◌, ◌≤◌, ◌-◌, [], IfErr, IfOk, MatchResult, Ok};
ghost use Rattle.script_grammar.specs.Sources.{toks};
ghost use Rattle.script_tree.specs.View.{reducer_of, program_of};
ghost use Rattle.js_expr.specs.Reading.{Reads, Fails};
ghost use Rattle.js_syntax.specs.Statements.{items_at, items_view};
ghost use Rattle.js_syntax.specs.Reducers.{params_at, params_view, body_at, reducer_at, reducers_at};

use crate::level::Level;
use crate::stmt::{Statements, read_item};
use js_expr::Stop;
use script_text::{Reserved, Sign};
use script_tree::{Name, Reducer, Stmt};
use sqlite_items::Items;

impl Level<'_> {
    /// The reducers of the whole source.
    #[tactic(auto, using(crate::proofs::Reducers::reducers_start, crate::proofs::Reducers::reducers_end, crate::proofs::Reducers::reducers_on, crate::proofs::Reducers::reducers_fault))]
    pub(crate) fn reducers(&self) -> Result<Items<Reducer>, Stop>
        requires { 0 < self.now.depth }
        ensures is { MatchResult result (λ rs. reducers_at self.now.depth (toks self.now.source.bytes.now self.now.source.tokens.now 0) ≡ Ok (program_of rs, [])) (λ f. Fails self.now.source.bytes.now self.now.source.tokens.now f (reducers_at self.now.depth (toks self.now.source.bytes.now self.now.source.tokens.now 0))) }
    {
        let mut found = Vec::new(self.alloc);
        let mut next = 0;
        'more: while next < self.source.tokens.len() {
            let (reducer, after) = self.reducer(next)?;
            found.push(reducer)?;
            next = after;
        }
        Ok(Items::from_vec(found))
    }

    /// A reducer.
    #[tactic(auto, using(crate::proofs::Reducers::reducer_in, crate::proofs::Statements::items_same))]
    fn reducer(&self, at: usize) -> Result<(Reducer, usize), Stop>
        requires { 0 < self.now.depth }
        ensures is { Reads reducer_of (reducer_at self.now.depth) self.now.source.bytes.now self.now.source.tokens.now at result }
        ensures forward { IfOk result (λ x. at < x.1) }
    {
        let at = self.source.keyword(at, Reserved::Function)?;
        let (name, at) = self.source.name(self.alloc, at)?;
        let ((state, action), at) = self.params(at)?;
        let (body, at) = self.body(at)?;
        Ok((
            Reducer {
                name,
                state,
                action,
                body,
            },
            at,
        ))
    }

    /// The one or two parameters of a reducer, with their brackets.
    fn params(&self, at: usize) -> Result<((Name, Option<Name>), usize), Stop>
        ensures is { Reads params_view params_at self.now.source.bytes.now self.now.source.tokens.now at result }
        ensures forward { IfOk result (λ x. at < x.1) }
    {
        let at = self.source.expect(at, Sign::OpenRound)?;
        let (state, at) = self.source.name(self.alloc, at)?;
        if !self.source.sees(at, Sign::Comma) {
            let at = self.source.expect(at, Sign::CloseRound)?;
            return Ok(((state, None), at));
        }
        let at = self.source.expect(at, Sign::Comma)?;
        let (action, at) = self.source.name(self.alloc, at)?;
        let at = self.source.expect(at, Sign::CloseRound)?;
        Ok(((state, Some(action)), at))
    }

    /// The body of a reducer, with its braces.
    fn body(&self, at: usize) -> Result<(Items<Stmt>, usize), Stop>
        requires { 0 < self.now.depth }
        ensures is { Reads items_view (body_at (self.now.depth - 1)) self.now.source.bytes.now self.now.source.tokens.now at result }
        ensures forward { IfOk result (λ x. at < x.1) }
    {
        let at = self.source.expect(at, Sign::OpenBrace)?;
        let (items, at) = self.items(at)?;
        let at = self.source.expect(at, Sign::CloseBrace)?;
        Ok((items, at))
    }

    /// What stands between braces.
    fn items(&self, at: usize) -> Result<(Items<Stmt>, usize), Stop>
        requires { 0 < self.now.depth }
        ensures is { Reads items_view (items_at (self.now.depth - 1)) self.now.source.bytes.now self.now.source.tokens.now at result }
        ensures forward { IfOk result (λ x. at ≤ x.1) }
    {
        let rules = Statements {
            level: *self,
            read: read_item,
        };
        let (items, at) = rules.items(at)?;
        Ok((items, at))
    }
}
