//! The types of values, and why an expression has none.

ghost use Rattle.std.specs.Prelude.{◌≡◌};
ghost use Rattle.type_rules.specs.Types as spec;

use thiserror::Error;

/// What one value of a type holds: a number, a vector of a side or a matrix of two, its rows first.
#[derive(Clone, Copy, Debug, PartialEq, Eq)]
pub enum BlockShape {
    Number,
    Vector(u32),
    Matrix(u32, u32),
}

/// The type of a value. The scale is the number of its decimals.
#[derive(Clone, Copy, Debug, PartialEq, Eq)]
pub enum NodeType {
    /// One block: a value of a function, or a scalar of the main procedure.
    Local {
        block: BlockShape,
        scale: u32,
    },
    /// A block for each element of a set.
    SystemVector {
        set: u32,
        block: BlockShape,
        scale: u32,
    },
    /// A block for each pair of an element of one set and an element of another.
    SystemMatrix {
        rows: u32,
        columns: u32,
        block: BlockShape,
        scale: u32,
    },
}

/// The values that an index takes.
#[derive(Clone, Copy, Debug, PartialEq, Eq)]
pub enum IndexRange {
    /// It is neither a whole number nor a constant loop's variable.
    NotConstant,
    /// None: it is the variable of a loop that has no turns.
    Never,
    /// None above this one, which it takes.
    UpTo(u64),
}

/// Why a program has no types. Where several kinds apply at one node, the first in this order is named.
#[derive(Clone, Copy, Debug, PartialEq, Eq, Error)]
pub enum TypeKind {
    /// A name isn't known, or isn't of the sort asked.
    #[error("unknown name")]
    Unknown,
    /// A name is known already.
    #[error("declared twice")]
    Twice,
    /// What has to be a whole number is none.
    #[error("not a constant")]
    NotConstant,
    /// What is assigned or written can't be.
    #[error("not a place")]
    NotAPlace,
    /// Forms or blocks fit no rule.
    #[error("shape")]
    Shape,
    /// Sets differ.
    #[error("set")]
    Set,
    /// Scales differ where they must agree, or leave their range.
    #[error("scale")]
    Scale,
    /// A limit is passed.
    #[error("too large")]
    TooLarge,
}

/// Whether two blocks have one shape.
pub fn is_same_block(left: BlockShape, right: BlockShape) -> bool
    ensures { result ≡ spec.is_same_block left right }
{
    match (left, right) {
        (BlockShape::Number, BlockShape::Number) => true,
        (BlockShape::Vector(m), BlockShape::Vector(n)) => m == n,
        (BlockShape::Matrix(m, n), BlockShape::Matrix(k, l)) => m == k && n == l,
        _ => false,
    }
}

/// Whether two values are of one view, each of one block, or of one block an element or a pair, and their blocks have
/// one shape.
pub fn is_same_form(left: NodeType, right: NodeType) -> bool
    ensures { result ≡ spec.is_same_form left right }
{
    match (left, right) {
        (NodeType::Local { block: a, .. }, NodeType::Local { block: b, .. })
        | (NodeType::SystemVector { block: a, .. }, NodeType::SystemVector { block: b, .. })
        | (NodeType::SystemMatrix { block: a, .. }, NodeType::SystemMatrix { block: b, .. }) => {
            is_same_block(a, b)
        }
        _ => false,
    }
}

/// Whether two values of one form are over the same sets.
pub fn is_over_the_same(left: NodeType, right: NodeType) -> bool
    ensures { result ≡ spec.is_over_the_same left right }
{
    match (left, right) {
        (NodeType::SystemVector { set: a, .. }, NodeType::SystemVector { set: b, .. }) => a == b,
        (
            NodeType::SystemMatrix {
                rows: a,
                columns: b,
                ..
            },
            NodeType::SystemMatrix {
                rows: c,
                columns: d,
                ..
            },
        ) => a == c && b == d,
        _ => true,
    }
}

/// Whether a value is one number.
pub fn is_scalar(value: NodeType) -> bool
    ensures { result ≡ spec.is_scalar value }
{
    match value {
        NodeType::Local {
            block: BlockShape::Number,
            ..
        } => true,
        _ => false,
    }
}

/// The scale of a type.
pub fn scale_of(value: NodeType) -> u32
    ensures { result ≡ spec.scale_of value }
{
    match value {
        NodeType::Local { scale, .. }
        | NodeType::SystemVector { scale, .. }
        | NodeType::SystemMatrix { scale, .. } => scale,
    }
}

/// The same type at another scale.
pub fn with_scale(value: NodeType, scale: u32) -> NodeType
    ensures { result ≡ spec.with_scale value scale }
{
    match value {
        NodeType::Local { block, .. } => NodeType::Local { block, scale },
        NodeType::SystemVector { set, block, .. } => NodeType::SystemVector { set, block, scale },
        NodeType::SystemMatrix {
            rows,
            columns,
            block,
            ..
        } => NodeType::SystemMatrix {
            rows,
            columns,
            block,
            scale,
        },
    }
}
