//! The names of a program: the declaration that each of them belongs to, or what is wrong with it. Definitions alone.
//!
//! They stand in `specs/`: `Environments` (what names stand for at a place of a program), `Names` (what each name of a
//! program is, in the text's order, and the first fault), `Scripts` (what the tokens of a source are), `Slots` (numbers for
//! the variables of a reducer), `Examples` (worked rows).
#![tactic(auto)]

/// What is wrong with a name.
#[derive(Clone, Copy, Debug, Drop, PartialEq, Eq)]
pub enum Cause {
    /// No declaration that has ended stands for it.
    UnknownName,
    /// The same scope has declared it before, or the program has a reducer of this name before.
    Duplicate,
    /// It is assigned to and stands for a constant.
    ConstWrite,
}

/// What a name stands for. A variable and a constant are named by the token of their declaration.
#[derive(Clone, Copy, Debug, Drop)]
pub enum Binding {
    /// Its scope declares it further on: the declaration has not ended.
    Unset,
    Variable(usize),
    Constant(usize),
}
