//! Statements, of functions and of the main procedure.

use crate::condition::Cond;
use crate::expression::Expr;
use crate::{Name, Num};
use sqlite_items::Items;

/// A statement. An absent `else` and an empty one are one tree.
#[derive(Drop)]
pub enum Stmt {
    /// New variables.
    Var {
        line: u32,
        names: Items<Name>,
        right: Right,
    },
    /// Variables and fields that are assigned.
    Assign {
        line: u32,
        targets: Items<Target>,
        right: Right,
    },
    /// A contribution to a function's result, at one place or two.
    Write {
        line: u32,
        result: Name,
        places: Items<Place>,
        value: Expr,
    },
    /// A loop of a function, between literal bounds.
    ConstFor {
        line: u32,
        name: Name,
        from: Num,
        to: Num,
        body: Items<Stmt>,
    },
    /// A loop of the main procedure.
    For {
        line: u32,
        name: Name,
        from: Expr,
        to: Expr,
        body: Items<Stmt>,
    },
    While {
        line: u32,
        cond: Cond,
        body: Items<Stmt>,
    },
    If {
        line: u32,
        cond: Cond,
        body: Items<Stmt>,
        otherwise: Items<Stmt>,
    },
    Assert {
        line: u32,
        cond: Cond,
    },
}

/// What is assigned: a variable, or a field of a set.
#[derive(Drop)]
pub struct Target {
    pub line: u32,
    pub name: Name,
    pub field: Option<Name>,
}

/// The place of a contribution: an element, or one of some endpoints.
#[derive(Drop)]
pub struct Place {
    pub line: u32,
    pub name: Name,
    pub index: Option<Index>,
}

/// The number of an endpoint.
#[derive(Drop)]
pub enum Index {
    Literal { line: u32, number: Num },
    Named { line: u32, name: Name },
}

/// A right side.
#[derive(Drop)]
pub enum Right {
    /// A function mapped to a set, its contributions added up.
    Map {
        line: u32,
        func: Name,
        args: Items<Expr>,
        set: Name,
    },
    /// A sum of index terms.
    Ix {
        line: u32,
        free: Items<Name>,
        terms: Items<IxTerm>,
    },
    Value(Expr),
}

/// A term of an index sum, with its sign.
#[derive(Drop)]
pub struct IxTerm {
    pub line: u32,
    pub minus: bool,
    pub atoms: Items<IxAtom>,
}

/// A factor of an index term.
#[derive(Drop)]
pub enum IxAtom {
    Number {
        line: u32,
        number: Num,
    },
    Named {
        line: u32,
        name: Name,
        field: Option<Name>,
        indices: Items<Name>,
    },
}
