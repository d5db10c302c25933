//! Syntax trees of scripts.
#![tactic(auto)]

use script_text::{Reserved, Sign};
use sqlite_items::{Boxed, Items};
use value_model::{Safe, Text};

/// A name, in its bytes, and the number of its token.
#[derive(Debug, Drop)]
pub struct Name {
    /// The number of its token in the source, from 0.
    pub at: usize,
    /// Its bytes, as the source spells it.
    pub text: Items<u8>,
}

/// A word or a text in the place of a key.
#[derive(Debug, Drop)]
pub enum Label {
    /// A word that may be a name.
    Name(Name),
    /// A word that is no name.
    Reserved(Reserved),
    /// A text between quotes, by its value.
    Quoted(Text),
    /// The name that the value beside it is, which stands alone: `{a}`.
    Short,
}

/// A member: its word behind a dot, or an index between brackets, which stands beside it.
#[derive(Debug, Drop)]
pub enum Access {
    /// The word behind a dot.
    Dot(Label),
    /// Brackets, whose index stands beside.
    Index,
}

/// An expression. Round brackets stay, and a list or an object literal says whether a comma stands behind its last
/// element.
#[derive(Drop)]
pub enum Expr {
    /// An integer, not below 0.
    Number(Safe),
    /// A text, by its value.
    Text(Text),
    /// `true`
    True,
    /// `false`
    False,
    /// `null`
    Null,
    /// `undefined`
    Undefined,
    /// A variable.
    Name(Name),
    /// An expression in round brackets.
    Round(Boxed<Expr>),
    /// The elements of a list literal.
    List(Items<Expr>, bool),
    /// The keys of an object literal, each with its value.
    Object(Items<(Label, Expr)>, bool),
    /// What stands alone and one or more members, each with no expression behind a dot and one between brackets.
    Member(Boxed<Expr>, Items<(Access, Items<Expr>)>),
    /// `!` or `-`, and the operand.
    Unary(Sign, Boxed<Expr>),
    /// The operators of one level, from 0, the tightest, to 5: the first operand, and one or more operators with
    /// their right operands.
    Chain(usize, Boxed<Expr>, Items<(Sign, Expr)>),
    /// A test and its two branches.
    Choice(Boxed<Expr>, Boxed<Expr>, Boxed<Expr>),
}

/// A statement or a declaration.
#[derive(Drop)]
pub enum Stmt {
    /// A constant and its value.
    Const(Name, Expr),
    /// A variable and its first value, where it has one.
    Let(Name, Option<Expr>),
    /// The declarations and statements between braces.
    Block(Items<Stmt>),
    /// `;` alone.
    Empty,
    /// A test, a statement and what stands behind `else`; these two are no declarations.
    If(Expr, Boxed<Stmt>, Option<Boxed<Stmt>>),
    /// `return`, with what is returned where something is.
    Return(Option<Expr>),
    /// What is thrown, and whether it stands in `new Error(..)`.
    Throw(Expr, bool),
    /// What is deleted, a member.
    Delete(Expr),
    /// What is assigned, and the value.
    Set(Expr, Expr),
    /// An expression that stands as a statement.
    Do(Expr),
}

/// A reducer: its name, its one or two parameters and its body. A program is the list of its reducers.
#[derive(Drop)]
pub struct Reducer {
    /// Its name.
    pub name: Name,
    /// Its first parameter, which stands for the state.
    pub state: Name,
    /// Its second parameter, which stands for the action, where it has one.
    pub action: Option<Name>,
    /// The declarations and statements of its body.
    pub body: Items<Stmt>,
}
