//! Literal numbers, and what is computed at a scale that is written as a whole number; none where a point stands in it.

ghost use Rattle.std.specs.Prelude.{◌≡◌};
ghost use Rattle.type_rules.specs.Rules as spec;
ghost use Rattle.type_rules.specs.Types.{scale_of};

use crate::types::{BlockShape, NodeType, TypeKind, is_scalar, scale_of, with_scale};
use vocabulary::limits::{MOST_FIELD_SCALE, MOST_SCALE, MOST_SCALE_CHANGE};

/// The type of a literal number, by its number of decimals and its word, where that is below 2^63.
#[tactic(auto, unfolding(crate::specs::Rules::literal_rule))]
pub fn literal_rule(scale: usize, word: Option<u64>) -> Result<NodeType, TypeKind>
    ensures { result ≡ spec.literal_rule scale word }
{
    if scale > MOST_FIELD_SCALE as usize {
        return Err(TypeKind::Scale);
    }
    if word.is_none() {
        return Err(TypeKind::TooLarge);
    }
    Ok(NodeType::Local {
        block: BlockShape::Number,
        scale: scale as u32,
    })
}

/// Whether a value may be brought to a scale.
fn is_scale_for(value: NodeType, scale: u64) -> bool
    ensures { result ≡ spec.is_scale_for value scale }
{
    scale <= u64::from(MOST_SCALE)
        && u64::from(scale_of(value)).abs_diff(scale) <= u64::from(MOST_SCALE_CHANGE)
}

/// The type of a value at another scale.
#[tactic(auto, unfolding(crate::specs::Rules::rescale_rule))]
pub fn rescale_rule(value: NodeType, scale: Option<u64>) -> Result<NodeType, TypeKind>
    ensures { result ≡ spec.rescale_rule value scale }
{
    let Some(scale) = scale else {
        return Err(TypeKind::NotConstant);
    };
    if !is_scale_for(value, scale) {
        return Err(TypeKind::Scale);
    }
    Ok(with_scale(value, scale as u32))
}

/// Whether a result with so many more decimals can be computed.
fn is_exponent(more: u64, fewer: u64) -> bool
    ensures { result ≡ spec.is_exponent more fewer }
{
    more >= fewer && more - fewer <= u64::from(MOST_SCALE_CHANGE)
}

/// The type of the quotient of two numbers at a scale.
#[tactic(auto, unfolding(crate::specs::Rules::quot_rule))]
pub fn quot_rule(left: NodeType, right: NodeType, scale: Option<u64>) -> Result<NodeType, TypeKind>
    ensures { result ≡ spec.quot_rule left right scale }
{
    let Some(scale) = scale else {
        return Err(TypeKind::NotConstant);
    };
    if !(is_scalar(left) && is_scalar(right)) {
        return Err(TypeKind::Shape);
    }
    if scale > u64::from(MOST_SCALE) {
        return Err(TypeKind::Scale);
    }
    if !is_exponent(
        scale + u64::from(scale_of(right)),
        u64::from(scale_of(left)),
    ) {
        return Err(TypeKind::Scale);
    }
    Ok(NodeType::Local {
        block: BlockShape::Number,
        scale: scale as u32,
    })
}

/// The type of the square root of a number at a scale.
#[tactic(auto, unfolding(crate::specs::Rules::isqrt_rule))]
pub fn isqrt_rule(value: NodeType, scale: Option<u64>) -> Result<NodeType, TypeKind>
    ensures { result ≡ spec.isqrt_rule value scale }
{
    let Some(scale) = scale else {
        return Err(TypeKind::NotConstant);
    };
    if !is_scalar(value) {
        return Err(TypeKind::Shape);
    }
    if scale > u64::from(MOST_SCALE) {
        return Err(TypeKind::Scale);
    }
    if !is_exponent(scale + scale, u64::from(scale_of(value))) {
        return Err(TypeKind::Scale);
    }
    Ok(NodeType::Local {
        block: BlockShape::Number,
        scale: scale as u32,
    })
}
