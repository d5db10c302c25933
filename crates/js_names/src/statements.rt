//! The names of statements and declarations.

ghost use Rattle.std.specs.Prelude.{◌≡◌, [], ◌∷◌, ◌++◌, OnOk, option_map, map};
ghost use Rattle.script_tree.specs.View.{view, item_view, items_of, inner_of};
ghost use Rattle.script_names.specs.declared.Binding.TheVariants.{Variable, Constant};
ghost use Rattle.script_names.specs.Environments.{empty, bind, enter};
ghost use Rattle.script_names.specs.Names.{reads, writes, write_as, read, declare, declares, after, judged, judged_item};
ghost use Rattle.js_names.specs.Scopes.{env_of, Adds};
ghost use Rattle.js_names.specs.Judging.{Judges, value_reads, declared_name, all_judged};

use crate::fault::NameFault;
use crate::scopes::Scopes;
use crate::uses;
use script_names::{Binding, Cause};
use script_tree::{Expr, Name, Stmt};
use sqlite_items::Items;
use std::alloc::{AllocError, Global};

/// How far a reducer was gone through.
#[derive(Drop)]
pub(crate) struct Pass<'a> {
    pub scopes: Scopes<'a>,
    /// The names so far, each with its declaration.
    pub found: Vec<(usize, usize)>,
}

impl<'a> Pass<'a> {
    pub(crate) fn new(alloc: Global) -> Pass<'a>
        ensures env { env_of result.scopes ≡ empty }
        ensures found { result.found.items ≡ [] }
    {
        Pass {
            scopes: Scopes::new(alloc),
            found: Vec::new(alloc),
        }
    }

    /// The names that were found.
    pub(crate) fn into_found(self) -> Items<(usize, usize)>
        ensures { result ≡ self.entry.found.items }
    {
        let Pass { scopes: _, found } = self;
        Items::from_vec(found)
    }

    /// The names of an expression that is read.
    fn expr(&mut self, e: &Expr) -> Result<(), NameFault>
        ensures judges { Judges self.old.found.items (reads (env_of self.old.scopes) (view e.now)) result self.new.found.items }
        ensures scopes { self.new.scopes ≡ self.old.scopes }
    {
        uses::expr(&self.scopes, &mut self.found, e)
    }

    /// The names of an expression that may be left out.
    fn value(&mut self, e: &Option<Expr>) -> Result<(), NameFault>
        ensures judges { Judges self.old.found.items (value_reads (env_of self.old.scopes) e.now) result self.new.found.items }
        ensures scopes { self.new.scopes ≡ self.old.scopes }
    {
        match e {
            Some(e) => self.expr(e),
            None => Ok(()),
        }
    }

    /// A name that is declared, where its declaration begins.
    fn declare(&mut self, name: &Name) -> Result<(), NameFault>
        ensures judges { Judges self.old.found.items (declare (env_of self.old.scopes) (name.now.at, name.now.text) ∷ []) result self.new.found.items }
        ensures scopes { self.new.scopes ≡ self.old.scopes }
    {
        match self.scopes.bound(name.text.as_slice()) {
            Some(Binding::Variable(_)) => return Err(NameFault::Wrong(Cause::Duplicate, name.at)),
            Some(Binding::Constant(_)) => return Err(NameFault::Wrong(Cause::Duplicate, name.at)),
            Some(Binding::Unset) => self.found.push((name.at, name.at))?,
            None => self.found.push((name.at, name.at))?,
        }
        Ok(())
    }

    /// A name that is assigned to.
    fn write(&mut self, at: usize, name: &[u8]) -> Result<(), NameFault>
        ensures judges { Judges self.old.found.items (write_as at (env_of self.old.scopes name.now) ∷ []) result self.new.found.items }
        ensures scopes { self.new.scopes ≡ self.old.scopes }
    {
        match self.scopes.bound(name) {
            Some(Binding::Variable(declaration)) => self.found.push((at, declaration))?,
            Some(Binding::Constant(_)) => return Err(NameFault::Wrong(Cause::ConstWrite, at)),
            Some(Binding::Unset) => return Err(NameFault::Wrong(Cause::UnknownName, at)),
            None => return Err(NameFault::Wrong(Cause::UnknownName, at)),
        }
        Ok(())
    }

    /// What stands before `=`.
    fn target(&mut self, t: &Expr) -> Result<(), NameFault>
        ensures judges { Judges self.old.found.items (writes (env_of self.old.scopes) (view t.now)) result self.new.found.items }
        ensures scopes { self.new.scopes ≡ self.old.scopes }
    {
        match t {
            Expr::Name(name) => self.write(name.at, name.text.as_slice()),
            Expr::Number(_) => self.expr(t),
            Expr::Text(_) => self.expr(t),
            Expr::True => self.expr(t),
            Expr::False => self.expr(t),
            Expr::Null => self.expr(t),
            Expr::Undefined => self.expr(t),
            Expr::Round(_) => self.expr(t),
            Expr::List(_, _) => self.expr(t),
            Expr::Object(_, _) => self.expr(t),
            Expr::Member(_, _) => self.expr(t),
            Expr::Unary(_, _) => self.expr(t),
            Expr::Chain(_, _, _) => self.expr(t),
            Expr::Choice(_, _, _) => self.expr(t),
        }
    }

    /// The declaration of a constant.
    fn constant(&mut self, name: &'a Name, e: &Expr) -> Result<(), NameFault>
        ensures judges { Judges self.old.found.items (declare (env_of self.old.scopes) (name.now.at, name.now.text) ∷ reads (env_of self.old.scopes) (view e.now)) result self.new.found.items }
        ensures env { OnOk result (env_of self.new.scopes ≡ bind (env_of self.old.scopes) name.now.text (Constant name.now.at)) }
        ensures adds { OnOk result (Adds self.old.scopes self.new.scopes) }
    {
        self.declare(name)?;
        self.expr(e)?;
        self.scopes
            .bind(name.text.as_slice(), Binding::Constant(name.at))?;
        Ok(())
    }

    /// The declaration of a variable.
    pub(crate) fn variable(&mut self, name: &'a Name, e: &Option<Expr>) -> Result<(), NameFault>
        ensures judges { Judges self.old.found.items (declare (env_of self.old.scopes) (name.now.at, name.now.text) ∷ value_reads (env_of self.old.scopes) e.now) result self.new.found.items }
        ensures env { OnOk result (env_of self.new.scopes ≡ bind (env_of self.old.scopes) name.now.text (Variable name.now.at)) }
        ensures adds { OnOk result (Adds self.old.scopes self.new.scopes) }
    {
        self.declare(name)?;
        self.value(e)?;
        self.scopes
            .bind(name.text.as_slice(), Binding::Variable(name.at))?;
        Ok(())
    }

    /// Where a scope begins that declares the names of these items.
    pub(crate) fn enter(&mut self, items: &'a [Stmt]) -> Result<(), AllocError>
        ensures env { OnOk result (env_of self.new.scopes ≡ enter (declares (items_of (map item_view items.now))) (env_of self.old.scopes)) }
        ensures adds { OnOk result (Adds self.old.scopes self.new.scopes) }
        ensures found { OnOk result (self.new.found ≡ self.old.found) }
    {
        for s in items {
            let Some(name) = declared_name(s) else {
                continue;
            };
            self.scopes.bind(name, Binding::Unset)?;
        }
        Ok(())
    }

    /// The items of a block, one after the other.
    #[cycle(items)]
    pub(crate) fn items(&mut self, items: &'a [Stmt]) -> Result<(), NameFault>
        ensures judges { Judges self.old.found.items (all_judged (env_of self.old.scopes) items.now) result self.new.found.items }
        ensures adds { OnOk result (Adds self.old.scopes self.new.scopes) }
    {
        for s in items {
            self.item(s)?;
        }
        Ok(())
    }

    /// A block, whose names stand for something else within.
    #[cycle(items)]
    fn block(&mut self, items: &'a [Stmt]) -> Result<(), NameFault>
        ensures judges { Judges self.old.found.items (all_judged (enter (declares (items_of (map item_view items.now))) (env_of self.old.scopes)) items.now) result self.new.found.items }
        ensures env { OnOk result (env_of self.new.scopes ≡ env_of self.old.scopes) }
        ensures adds { OnOk result (Adds self.old.scopes self.new.scopes) }
    {
        let mark = self.scopes.mark();
        self.enter(items)?;
        self.items(items)?;
        self.scopes.leave(mark)?;
        Ok(())
    }

    /// An item of a block. A declaration binds its name from its end on.
    #[cycle(items)]
    fn item(&mut self, s: &'a Stmt) -> Result<(), NameFault>
        ensures judges { Judges self.old.found.items (judged_item (env_of self.old.scopes) (item_view s.now)) result self.new.found.items }
        ensures env { OnOk result (env_of self.new.scopes ≡ after (env_of self.old.scopes) (item_view s.now)) }
        ensures adds { OnOk result (Adds self.old.scopes self.new.scopes) }
    {
        match s {
            Stmt::Const(name, e) => self.constant(name, e),
            Stmt::Let(name, e) => self.variable(name, e),
            Stmt::Block(items) => self.block(items.as_slice()),
            Stmt::Empty => Ok(()),
            Stmt::If(test, then, other) => {
                self.expr(test)?;
                self.inner(then.get())?;
                match other {
                    Some(other) => self.inner(other.get()),
                    None => Ok(()),
                }
            }
            Stmt::Return(e) => self.value(e),
            Stmt::Throw(e, _) => self.expr(e),
            Stmt::Delete(e) => self.expr(e),
            Stmt::Set(t, e) => self.assignment(t, e),
            Stmt::Do(e) => self.expr(e),
        }
    }

    /// A statement in a statement, which is no declaration.
    #[cycle(items)]
    fn inner(&mut self, s: &'a Stmt) -> Result<(), NameFault>
        ensures judges { Judges self.old.found.items (judged (env_of self.old.scopes) (inner_of (item_view s.now))) result self.new.found.items }
        ensures env { OnOk result (env_of self.new.scopes ≡ env_of self.old.scopes) }
        ensures adds { OnOk result (Adds self.old.scopes self.new.scopes) }
    {
        if declared_name(s).is_some() {
            return self.nothing();
        }
        self.item(s)
    }

    /// What is assigned to, and the value.
    fn assignment(&mut self, t: &Expr, e: &Expr) -> Result<(), NameFault>
        ensures judges { Judges self.old.found.items (writes (env_of self.old.scopes) (view t.now) ++ reads (env_of self.old.scopes) (view e.now)) result self.new.found.items }
        ensures scopes { self.new.scopes ≡ self.old.scopes }
    {
        self.target(t)?;
        self.expr(e)
    }

    /// A tree that no program has stands for a name of no bytes.
    fn nothing(&mut self) -> Result<(), NameFault>
        ensures judges { Judges self.old.found.items (read (env_of self.old.scopes) (0, []) ∷ []) result self.new.found.items }
        ensures scopes { self.new.scopes ≡ self.old.scopes }
    {
        uses::nothing(&self.scopes, &mut self.found)
    }
}

/// The name that an item declares.
fn declared_name(s: &Stmt) -> Option<&[u8]>
    ensures { option_map (λ b. b.now) result ≡ declared_name (item_view s.now) }
{
    match s {
        Stmt::Const(name, _) => Some(name.text.as_slice()),
        Stmt::Let(name, _) => Some(name.text.as_slice()),
        Stmt::Block(_) => None,
        Stmt::Empty => None,
        Stmt::If(_, _, _) => None,
        Stmt::Return(_) => None,
        Stmt::Throw(_, _) => None,
        Stmt::Delete(_) => None,
        Stmt::Set(_, _) => None,
        Stmt::Do(_) => None,
    }
}
