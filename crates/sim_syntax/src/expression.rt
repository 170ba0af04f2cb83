//! Expressions.

use crate::{Name, Num};
use sqlite_items::{Boxed, Items};

/// An expression.
#[cycle(expression)]
#[derive(Drop)]
pub enum Expr {
    Number {
        line: u32,
        number: Num,
    },
    /// A name, or a call, an entry or a field: `name(args).field(field_args)`. An absent list and no list are one.
    /// The rank is the number of indices that the name had in an index expression, and None elsewhere.
    Ref {
        line: u32,
        name: Name,
        args: Items<Expr>,
        field: Option<Name>,
        field_args: Items<Expr>,
        rank: Option<u32>,
    },
    /// A vector of one row, or a matrix of several.
    Block {
        line: u32,
        rows: Items<Row>,
    },
    /// At least two terms, or one with a minus.
    Sum {
        line: u32,
        terms: Items<SumTerm>,
    },
    /// At least two factors.
    Product {
        line: u32,
        factors: Items<ProductFactor>,
    },
    Transposed {
        line: u32,
        value: Boxed<Expr>,
    },
    /// The value in another scale.
    Rescale {
        line: u32,
        value: Boxed<Expr>,
        scale: Num,
    },
    /// The quotient in a scale.
    Quot {
        line: u32,
        dividend: Boxed<Expr>,
        divisor: Boxed<Expr>,
        scale: Num,
    },
    /// The square root in a scale.
    Isqrt {
        line: u32,
        value: Boxed<Expr>,
        scale: Num,
    },
    /// The scalar product.
    Dot {
        line: u32,
        left: Boxed<Expr>,
        right: Boxed<Expr>,
    },
}

/// A row of a block literal.
#[cycle(expression)]
#[derive(Drop)]
pub struct Row {
    pub line: u32,
    pub entries: Items<Expr>,
}

/// A term of a sum, with its sign.
#[cycle(expression)]
#[derive(Drop)]
pub struct SumTerm {
    pub line: u32,
    pub minus: bool,
    pub value: Expr,
}

/// A factor of a product, and whether it is multiplied entry by entry; the first is not.
#[cycle(expression)]
#[derive(Drop)]
pub struct ProductFactor {
    pub line: u32,
    pub entrywise: bool,
    pub value: Expr,
}
