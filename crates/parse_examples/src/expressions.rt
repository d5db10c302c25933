//! The shape of expressions.

use crate::shape::Shape;
use script_text::Sign;
use script_tree::{Access, Expr, Label};
use sqlite_items::Items;
use std::alloc::AllocError;

impl Shape<'_> {
    #[cycle(expressions)]
    pub fn expr(&mut self, e: &Expr) -> Result<(), AllocError> {
        match e {
            Expr::Name(name) => return self.used(name),
            Expr::Round(inner) => {
                self.text("(round ")?;
                self.expr(inner.get())?;
            }
            Expr::List(items, _) => {
                self.text("(list")?;
                self.exprs(items.as_slice())?;
            }
            Expr::Object(items, _) => {
                self.text("(object")?;
                self.props(items.as_slice())?;
            }
            Expr::Member(base, accesses) => {
                self.text("(get ")?;
                self.expr(base.get())?;
                self.accesses(accesses.as_slice())?;
            }
            Expr::Unary(sign, operand) => {
                self.text("(")?;
                self.text(sign.text())?;
                self.text(" ")?;
                self.expr(operand.get())?;
            }
            Expr::Chain(_, first, links) => {
                self.text("(chain ")?;
                self.expr(first.get())?;
                self.links(links.as_slice())?;
            }
            Expr::Choice(test, then, other) => {
                self.text("(choice ")?;
                self.expr(test.get())?;
                self.text(" ")?;
                self.expr(then.get())?;
                self.text(" ")?;
                self.expr(other.get())?;
            }
            _ => return self.literal(e),
        }
        self.text(")")
    }

    /// An expression that holds no other.
    fn literal(&mut self, e: &Expr) -> Result<(), AllocError> {
        match e {
            Expr::Number(n) => { self.number(n.get()) }
            Expr::Text(text) => {
                self.text("'")?;
                self.bytes(text.as_str().as_bytes())?;
                self.text("'")
            }
            Expr::True => self.text("true"),
            Expr::False => self.text("false"),
            Expr::Null => self.text("null"),
            _ => self.text("undefined"),
        }
    }

    #[cycle(expressions)]
    fn exprs(&mut self, items: &[Expr]) -> Result<(), AllocError> {
        for e in items {
            self.text(" ")?;
            self.expr(e)?;
        }
        Ok(())
    }

    #[cycle(expressions)]
    fn props(&mut self, items: &[(Label, Expr)]) -> Result<(), AllocError> {
        for p in items {
            self.text(" (")?;
            self.key(&p.0, &p.1)?;
            self.text(" ")?;
            self.expr(&p.1)?;
            self.text(")")?;
        }
        Ok(())
    }

    /// A key; a name that stands alone is both key and value.
    fn key(&mut self, label: &Label, value: &Expr) -> Result<(), AllocError> {
        if let Label::Short = label
            && let Expr::Name(name) = value
        {
            return self.bytes(name.text.as_slice());
        }
        self.label(label)
    }

    #[cycle(expressions)]
    fn accesses(&mut self, accesses: &[(Access, Items<Expr>)]) -> Result<(), AllocError> {
        for a in accesses {
            if let Access::Dot(label) = &a.0 {
                self.text(" .")?;
                self.label(label)?;
            }
            for e in a.1.as_slice() {
                self.text(" [")?;
                self.expr(e)?;
                self.text("]")?;
            }
        }
        Ok(())
    }

    #[cycle(expressions)]
    fn links(&mut self, links: &[(Sign, Expr)]) -> Result<(), AllocError> {
        for link in links {
            self.text(" ")?;
            self.text(link.0.text())?;
            self.text(" ")?;
            self.expr(&link.1)?;
        }
        Ok(())
    }
}
