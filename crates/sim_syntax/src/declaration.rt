//! Declarations: element types, sets, host functions and functions.

use crate::statement::Stmt;
use crate::{Name, Num};
use sqlite_items::Items;

/// A declaration.
#[derive(Drop)]
pub enum Decl {
    /// An element type with its fields.
    Element {
        line: u32,
        name: Name,
        fields: Items<Field>,
    },
    /// A set of elements of a type, and the sets in which its endpoints lie, if it has endpoints.
    Set {
        line: u32,
        name: Name,
        element: Name,
        ends: Items<Name>,
    },
    /// A function of the host: the scales of its arguments and of its result.
    Host {
        line: u32,
        name: Name,
        args: Items<Num>,
        result: Num,
    },
    /// A function of the program.
    Func {
        line: u32,
        name: Name,
        params: Items<Param>,
        results: Items<ResultDecl>,
        body: Items<Stmt>,
    },
}

/// A field of an element type.
#[derive(Drop)]
pub struct Field {
    pub line: u32,
    pub name: Name,
    pub local: Local,
}

/// What a field or a block is made of.
#[derive(Drop)]
pub enum Local {
    /// A number of this scale.
    Int {
        line: u32,
        scale: Num,
    },
    /// A vector of this side and scale.
    Vector {
        line: u32,
        side: Num,
        scale: Num,
    },
    /// A matrix of these rows, columns and scale.
    Matrix {
        line: u32,
        rows: Num,
        columns: Num,
        scale: Num,
    },
}

/// A parameter of a function.
#[derive(Drop)]
pub struct Param {
    pub line: u32,
    pub name: Name,
    pub kind: ParamKind,
}

/// What a parameter stands for.
#[derive(Drop)]
pub enum ParamKind {
    /// A number of this scale.
    Int {
        line: u32,
        scale: Num,
    },
    /// An element of this type.
    Element {
        line: u32,
        element: Name,
    },
    /// So many endpoints of this type.
    Ends {
        line: u32,
        element: Name,
        count: Num,
    },
}

/// A result of a function: a vector over the set `rows`, or a matrix over it and the set `columns`.
#[derive(Drop)]
pub struct ResultDecl {
    pub line: u32,
    pub name: Name,
    pub rows: Name,
    pub columns: Option<Name>,
    pub block: Local,
}
