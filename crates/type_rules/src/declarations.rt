//! Blocks that are declared.

ghost use Rattle.std.specs.Prelude.{◌≡◌, ◌<◌, ◌≤◌, ◌^◌, false};
ghost use Rattle.std.specs.Bool.{OnFalse};
ghost use Rattle.std.specs.List.{list_any};
ghost use Rattle.vocabulary.specs.declared.limits.TheConstants.{MOST_SIDE};
ghost use Rattle.type_rules.specs.Rules as spec;

use crate::types::{BlockShape, NodeType, TypeKind};
use vocabulary::limits::MOST_SIDE;

/// Whether a side isn't at least 1, or is over the limit.
fn is_no_side(side: Option<u64>) -> bool
    ensures { result ≡ spec.is_no_side side }
{
    match side {
        Some(side) => side == 0 || side > u64::from(MOST_SIDE),
        None => false,
    }
}

/// Whether a scale is over a limit.
fn is_scale_past(most: u32, scale: Option<u64>) -> bool
    ensures value { result ≡ spec.is_scale_past most scale }
    ensures small { OnFalse result (spec.or_zero scale ≤ most) }
{
    match scale {
        Some(scale) => scale > u64::from(most),
        None => false,
    }
}

/// Whether one of the sides isn't written as a whole number.
fn has_missing(sides: &[Option<u64>]) -> bool
    ensures { result ≡ list_any spec.is_missing sides.now }
{
    sides.iter().any(|side| side.is_none())
}

/// Whether one of the sides isn't at least 1, or is over the limit.
fn has_no_side(sides: &[Option<u64>]) -> bool
    ensures { result ≡ list_any spec.is_no_side sides.now }
{
    sides.iter().any(|side| is_no_side(*side))
}

/// The side, where it is one.
fn side_of(side: Option<u64>) -> u32
    requires { spec.or_zero side ≤ MOST_SIDE }
    ensures { result ≡ spec.or_zero side }
{
    match side {
        Some(side) => side as u32,
        None => 0,
    }
}

/// The block of no side, of one or of two.
fn block_of_sides(sides: &[Option<u64>]) -> BlockShape
    requires { list_any spec.is_no_side sides.now ≡ false }
    ensures { result ≡ spec.block_of_sides sides.now }
{
    match sides {
        [side] => BlockShape::Vector(side_of(*side)),
        [rows, columns] => BlockShape::Matrix(side_of(*rows), side_of(*columns)),
        _ => BlockShape::Number,
    }
}

/// The scale, where it is one.
fn scale_or_zero(scale: Option<u64>) -> u32
    requires { spec.or_zero scale < 2 ^ 32 }
    ensures { result ≡ spec.or_zero scale }
{
    match scale {
        Some(scale) => scale as u32,
        None => 0,
    }
}

/// The type of a block that is declared, of no side, of one or of two, with a scale up to a limit. What isn't written as a
/// whole number is missing.
#[tactic(auto, unfolding(crate::specs::Rules::declared_rule))]
pub fn declared_rule(
    most: u32,
    sides: &[Option<u64>],
    scale: Option<u64>,
) -> Result<NodeType, TypeKind>
    ensures { result ≡ spec.declared_rule most sides.now scale }
{
    if scale.is_none() || has_missing(sides) {
        return Err(TypeKind::NotConstant);
    }
    if is_scale_past(most, scale) {
        return Err(TypeKind::Scale);
    }
    if has_no_side(sides) {
        return Err(TypeKind::TooLarge);
    }
    Ok(NodeType::Local {
        block: block_of_sides(sides),
        scale: scale_or_zero(scale),
    })
}
