//! The shape of statements.

use crate::shape::Shape;
use script_tree::Stmt;
use std::alloc::AllocError;

impl Shape<'_> {
    #[cycle(statements)]
    pub fn items(&mut self, items: &[Stmt]) -> Result<(), AllocError> {
        for s in items {
            self.text(" ")?;
            self.statement(s)?;
        }
        Ok(())
    }

    #[cycle(statements)]
    fn statement(&mut self, s: &Stmt) -> Result<(), AllocError> {
        match s {
            Stmt::Const(name, e) => {
                self.text("(const ")?;
                self.declared(name)?;
                self.text(" ")?;
                self.expr(e)?;
            }
            Stmt::Let(name, e) => {
                self.text("(let ")?;
                self.declared(name)?;
                if let Some(e) = e {
                    self.text(" ")?;
                    self.expr(e)?;
                }
            }
            Stmt::Block(items) => {
                self.text("(block")?;
                self.items(items.as_slice())?;
            }
            Stmt::If(test, then, other) => {
                self.text("(if ")?;
                self.expr(test)?;
                self.text(" ")?;
                self.statement(then.get())?;
                if let Some(other) = other {
                    self.text(" ")?;
                    self.statement(other.get())?;
                }
            }
            _ => self.plain(s)?,
        }
        self.text(")")
    }

    /// A statement that holds no other.
    fn plain(&mut self, s: &Stmt) -> Result<(), AllocError> {
        match s {
            Stmt::Return(Some(e)) => {
                self.text("(return ")?;
                self.expr(e)
            }
            Stmt::Return(None) => self.text("(return"),
            Stmt::Throw(e, _) => {
                self.text("(throw ")?;
                self.expr(e)
            }
            Stmt::Delete(e) => {
                self.text("(delete ")?;
                self.expr(e)
            }
            Stmt::Set(t, e) => {
                self.text("(set ")?;
                self.expr(t)?;
                self.text(" ")?;
                self.expr(e)
            }
            Stmt::Do(e) => {
                self.text("(do ")?;
                self.expr(e)
            }
            _ => self.text("(empty"),
        }
    }
}
