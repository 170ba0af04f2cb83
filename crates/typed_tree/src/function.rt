//! Typed functions.

use crate::condition::TypedCond;
use crate::expression::TypedExpr;
use sqlite_items::Items;
use type_rules::{BlockShape, IndexRange};
use vocabulary::{L, Text};

/// A statement of a function.
#[cycle(function)]
#[derive(Drop)]
pub enum FunctionStmt {
    /// A new variable.
    Var {
        line: u32,
        local: u32,
        value: TypedExpr,
    },
    Assign {
        line: u32,
        local: u32,
        value: TypedExpr,
    },
    /// A contribution to a result: a vector has one place, a matrix two.
    Write {
        line: u32,
        result: u32,
        places: L<WrittenPlace>,
        value: TypedExpr,
    },
    /// A loop whose variable goes from `from` up to below `to`.
    Loop {
        line: u32,
        local: u32,
        from: u32,
        to: u32,
        body: Items<FunctionStmt>,
    },
    If {
        line: u32,
        cond: TypedCond,
        body: Items<FunctionStmt>,
        otherwise: Items<FunctionStmt>,
    },
    Assert {
        line: u32,
        cond: TypedCond,
    },
}

/// Where a contribution goes.
#[derive(Clone, Copy, Debug, PartialEq, Eq)]
pub enum WrittenPlace {
    /// The element itself.
    Element,
    /// An endpoint of the element.
    Endpoint(PlaceIndex),
}

/// Which endpoint.
#[derive(Clone, Copy, Debug, PartialEq, Eq)]
pub enum PlaceIndex {
    Literal(u64),
    /// The value of a loop's variable, and the values that it takes.
    Turn { local: u32, range: IndexRange },
}

/// The endpoints that a function takes: how many, and their element type.
#[derive(Clone, Copy, Debug, PartialEq, Eq)]
pub struct Endpoints {
    pub element: u32,
    pub count: u32,
}

/// The rows or the columns of a result: the set, and whether some place of the function's text is its element or an
/// endpoint.
#[derive(Clone, Copy, Debug, PartialEq, Eq)]
pub struct ResultSide {
    pub set: u32,
    pub at_element: bool,
    pub at_endpoint: bool,
}

/// A result of a function: a system vector over the rows, or a system matrix.
#[derive(Clone, Copy, Debug, PartialEq, Eq)]
pub struct TypedResult {
    pub rows: ResultSide,
    pub columns: Option<ResultSide>,
    pub block: BlockShape,
    pub scale: u32,
}

/// An assembly function.
#[derive(Drop)]
pub struct TypedFunction {
    pub name: Text,
    /// The scales of its scalar parameters, which are the first locals.
    pub arguments: L<u32>,
    /// The type of its element.
    pub element: u32,
    pub endpoints: Option<Endpoints>,
    pub results: L<TypedResult>,
    pub body: Items<FunctionStmt>,
}

/// What a parameter of a function is.
#[derive(Clone, Copy, Debug, PartialEq, Eq)]
pub enum ParameterType {
    /// A scalar of this scale.
    Scalar(u32),
    /// An element of this type.
    Element(u32),
    Ends(Endpoints),
}

/// The parameters of a function: scalars of these scales, then an element of this type, then maybe endpoints.
#[derive(Drop)]
pub struct Signature {
    pub arguments: L<u32>,
    pub element: u32,
    pub endpoints: Option<Endpoints>,
}
