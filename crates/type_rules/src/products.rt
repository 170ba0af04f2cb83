//! Products: of numbers, of matrices and vectors, and entry by entry.

ghost use Rattle.std.specs.Prelude.{◌≡◌};
ghost use Rattle.type_rules.specs.Rules as spec;

use crate::types::{
    BlockShape, NodeType, TypeKind, is_over_the_same, is_same_block, is_scalar, scale_of,
    with_scale,
};
use vocabulary::limits::MOST_SCALE;

/// The block of a matrix times a vector, or times a matrix, where it has one.
fn block_product(left: BlockShape, right: BlockShape) -> Option<BlockShape>
    ensures { result ≡ spec.block_product left right }
{
    match (left, right) {
        (BlockShape::Matrix(m, n), BlockShape::Vector(k)) if n == k => Some(BlockShape::Vector(m)),
        (BlockShape::Matrix(m, n), BlockShape::Matrix(k, l)) if n == k => {
            Some(BlockShape::Matrix(m, l))
        }
        _ => None,
    }
}

/// The block of a block of a system matrix times one of a system vector.
fn matrix_vector_block(left: BlockShape, right: BlockShape) -> Option<BlockShape>
    ensures { result ≡ spec.matrix_vector_block left right }
{
    match (left, right) {
        (BlockShape::Number, BlockShape::Number) => Some(BlockShape::Number),
        (_, BlockShape::Vector(_)) => block_product(left, right),
        _ => None,
    }
}

/// The block of a block of a system matrix times one of another.
fn matrix_matrix_block(left: BlockShape, right: BlockShape) -> Option<BlockShape>
    ensures { result ≡ spec.matrix_matrix_block left right }
{
    match (left, right) {
        (BlockShape::Number, BlockShape::Number) => Some(BlockShape::Number),
        (_, BlockShape::Matrix(..)) => block_product(left, right),
        _ => None,
    }
}

/// The type of a product of two values that are no numbers, at a scale.
fn proper_product(scale: u32, left: NodeType, right: NodeType) -> Option<NodeType>
    ensures { result ≡ spec.proper_product scale left right }
{
    match (left, right) {
        (NodeType::Local { block: a, .. }, NodeType::Local { block: b, .. }) => {
            let block = block_product(a, b)?;
            Some(NodeType::Local { block, scale })
        }
        (NodeType::SystemMatrix { rows, block: a, .. }, NodeType::SystemVector { block: b, .. }) =>
            {
                let block = matrix_vector_block(a, b)?;
                Some(NodeType::SystemVector {
                    set: rows,
                    block,
                    scale,
                })
            }
        (
            NodeType::SystemMatrix { rows, block: a, .. },
            NodeType::SystemMatrix {
                columns,
                block: b,
                ..
            },
        ) => {
            let block = matrix_matrix_block(a, b)?;
            Some(NodeType::SystemMatrix {
                rows,
                columns,
                block,
                scale,
            })
        }
        _ => None,
    }
}

/// The type of a product at a scale: a number times anything, or matrices and vectors.
fn product_form(scale: u32, left: NodeType, right: NodeType) -> Option<NodeType>
    ensures { result ≡ spec.product_form scale left right }
{
    if is_scalar(left) {
        Some(with_scale(right, scale))
    } else if is_scalar(right) {
        Some(with_scale(left, scale))
    } else {
        proper_product(scale, left, right)
    }
}

/// Whether the sets over which a product sums are one.
fn is_inner_the_same(left: NodeType, right: NodeType) -> bool
    ensures { result ≡ spec.is_inner_the_same left right }
{
    match (left, right) {
        (NodeType::SystemMatrix { columns, .. }, NodeType::SystemVector { set, .. }) => {
            columns == set
        }
        (NodeType::SystemMatrix { columns, .. }, NodeType::SystemMatrix { rows, .. }) => {
            columns == rows
        }
        _ => true,
    }
}

/// The scale of a product, or the first that is too large.
fn scales_added(left: NodeType, right: NodeType) -> u32
    ensures { result ≡ spec.scales_added left right }
{
    scale_of(left)
        .saturating_add(scale_of(right))
        .min(MOST_SCALE + 1)
}

/// The type of a product: a number times anything, a matrix times a vector or a matrix. The scales are added.
#[tactic(auto, unfolding(crate::specs::Rules::product_rule))]
pub fn product_rule(left: NodeType, right: NodeType) -> Result<NodeType, TypeKind>
    ensures { result ≡ spec.product_rule left right }
{
    let scale = scales_added(left, right);
    let Some(product) = product_form(scale, left, right) else {
        return Err(TypeKind::Shape);
    };
    if !is_inner_the_same(left, right) {
        return Err(TypeKind::Set);
    }
    if scale > MOST_SCALE {
        return Err(TypeKind::Scale);
    }
    Ok(product)
}

/// Whether two values are vectors of one shape: of a function, or over sets.
fn are_vectors(left: NodeType, right: NodeType) -> bool
    ensures { result ≡ spec.are_vectors left right }
{
    match (left, right) {
        (
            NodeType::Local {
                block: BlockShape::Vector(m),
                ..
            },
            NodeType::Local {
                block: BlockShape::Vector(n),
                ..
            },
        ) => m == n,
        (NodeType::SystemVector { block: a, .. }, NodeType::SystemVector { block: b, .. }) => {
            is_same_block(a, b)
        }
        _ => false,
    }
}

/// The scale of a product of two vectors entry by entry.
fn vectors_scale(left: NodeType, right: NodeType) -> Result<u32, TypeKind>
    ensures { result ≡ spec.judged (spec.vector_faults left right) (spec.scales_added left right) }
{
    if !are_vectors(left, right) {
        return Err(TypeKind::Shape);
    }
    if !is_over_the_same(left, right) {
        return Err(TypeKind::Set);
    }
    let scale = scales_added(left, right);
    if scale > MOST_SCALE {
        return Err(TypeKind::Scale);
    }
    Ok(scale)
}

/// The type of a product entry by entry of two vectors of one shape. The scales are added.
#[tactic(auto, unfolding(crate::specs::Rules::entrywise_rule))]
pub fn entrywise_rule(left: NodeType, right: NodeType) -> Result<NodeType, TypeKind>
    ensures { result ≡ spec.entrywise_rule left right }
{
    let scale = vectors_scale(left, right)?;
    Ok(with_scale(left, scale))
}

/// The type of the sum over all entries of the products of two vectors of one shape: a number. The scales are added.
#[tactic(auto, unfolding(crate::specs::Rules::dot_rule))]
pub fn dot_rule(left: NodeType, right: NodeType) -> Result<NodeType, TypeKind>
    ensures { result ≡ spec.dot_rule left right }
{
    let scale = vectors_scale(left, right)?;
    Ok(NodeType::Local {
        block: BlockShape::Number,
        scale,
    })
}
