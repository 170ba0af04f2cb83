//! Typed expressions.

use sqlite_items::{Boxed, Items};
use type_rules::{IndexRange, NodeType};

/// A node of an expression: its number, counted from 0 over the whole program in post-order, the line of its first
/// token and its type.
#[derive(Clone, Copy, Debug, PartialEq, Eq)]
pub struct Node {
    pub number: u32,
    pub line: u32,
    pub value_type: NodeType,
}

/// What a name stands for that has a value. Locals are the scalar parameters and the variables of a function and the
/// variables of loops; they are numbered from 0 among those that are visible together.
#[derive(Clone, Copy, Debug, PartialEq, Eq)]
pub enum Referent {
    /// A variable of the main procedure.
    Variable(u32),
    Local(u32),
    /// The variable of a function's loop, and the values that it takes.
    Turn { local: u32, range: IndexRange },
    /// A field of a set, as a system vector.
    Field { set: u32, field: u32 },
    /// A field of a function's element.
    Own { field: u32 },
    /// A field of an endpoint.
    End { field: u32 },
    /// A host function that is called, by its number in the host table.
    Host(u32),
}

/// An expression with its node.
#[cycle(expression)]
#[derive(Drop)]
pub struct TypedExpr {
    pub node: Node,
    pub form: TypedForm,
}

/// What an expression is made of.
#[cycle(expression)]
#[derive(Drop)]
pub enum TypedForm {
    Number {
        word: u64,
    },
    /// What a name stands for, or an entry of it, or a call. Of an endpoint's field, `args` holds the endpoint's index
    /// and `field_args` the entry's; of an own field, `field_args` the entry's; of a local, `args`. Of a host function,
    /// `args` holds the arguments.
    Ref {
        referent: Referent,
        args: Items<TypedExpr>,
        field_args: Items<TypedExpr>,
    },
    /// A vector of one row, or a matrix of several.
    Block {
        rows: Items<TypedRow>,
    },
    Sum {
        terms: Items<TypedTerm>,
    },
    Product {
        factors: Items<TypedFactor>,
    },
    Transposed {
        value: Boxed<TypedExpr>,
    },
    /// The value in the scale of this node.
    Rescale {
        value: Boxed<TypedExpr>,
    },
    /// The quotient in the scale of this node.
    Quot {
        dividend: Boxed<TypedExpr>,
        divisor: Boxed<TypedExpr>,
    },
    /// The square root in the scale of this node.
    Isqrt {
        value: Boxed<TypedExpr>,
    },
    Dot {
        left: Boxed<TypedExpr>,
        right: Boxed<TypedExpr>,
    },
}

/// A row of a block.
#[cycle(expression)]
#[derive(Drop)]
pub struct TypedRow {
    pub entries: Items<TypedExpr>,
}

/// A term of a sum, and the node of the sum up to it: of a first term that is added, its own; of one that is taken
/// away, the negation; of each other, a sum or difference of two.
#[cycle(expression)]
#[derive(Drop)]
pub struct TypedTerm {
    pub node: Node,
    pub minus: bool,
    pub value: TypedExpr,
}

/// A factor of a product, and the node of the product up to it: of the first, its own.
#[cycle(expression)]
#[derive(Drop)]
pub struct TypedFactor {
    pub node: Node,
    pub entrywise: bool,
    pub value: TypedExpr,
}
